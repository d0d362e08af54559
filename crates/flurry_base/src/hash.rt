//! Hashes of keys.
ghost use Rattle.std.specs.Prelude.{◌≡◌, ℕ, refl};
ghost use Rattle.std.specs.declared.cmp.Ordering.TheVariants.{Equal};
ghost use Rattle.std.specs.Coded.{Coded-set};
ghost use Rattle.flurry_base.specs.SeededHasher.{hasher_of_seed};

use std::fmt::{self, Debug, Formatter};
pub use std::hash::DefaultHasher;
use std::hash::{Hash, Hasher};

/// A hasher of keys, which gives equal keys the same hash.
///
/// ```
/// impl KeyHasher<u64> for Shifted {
///     ghost hash_of = { λ s k. (s.0 + k) % 2 ^ 64 };
///
///     ghost alike = { λ s x y e. ap (λ (k : ℕ). (s.0 + k) % 2 ^ 64) (same_number x y e) };
///
///     fn hash_one(&self, key: &u64) -> u64 {
///         self.0.wrapping_add(*key)
///     }
/// }
/// ```
pub trait KeyHasher<K: Ord> {
    // The hash of the key.
    ghost hash_of: { Self → K → ℕ };

    /// Returns the hash of `key`.
    fn hash_one(&self, key: &K) -> u64
        ensures { result ≡ hash_of self.now key.now };

    ghost alike: { (s : Self) (x y : K) → K.cmp x y ≡ Equal → hash_of s x ≡ hash_of s y };
}

/// A hasher that gives every key the least hash, 0.
///
/// ```
/// SeqMap::with_hasher(alloc, ZeroHashBuilder)
/// ```
#[derive(Clone, Copy, Debug, Default)]
pub struct ZeroHashBuilder;

impl<K: Ord> KeyHasher<K> for ZeroHashBuilder {
    ghost hash_of = { λ s k. 0 };

    ghost alike = { λ s x y e. refl };

    fn hash_one(&self, _key: &K) -> u64 {
        u64::MIN
    }
}

/// A hasher that gives every key the greatest hash.
///
/// ```
/// SeqMap::with_hasher(alloc, MaxHashBuilder)
/// ```
#[derive(Clone, Copy, Debug, Default)]
pub struct MaxHashBuilder;

impl<K: Ord> KeyHasher<K> for MaxHashBuilder {
    ghost use Rattle.std.specs.Prelude.{◌-◌, ◌^◌, refl};

    ghost hash_of = { λ s k. 2 ^ 64 - 1 };

    ghost alike = { λ s x y e. refl };

    fn hash_one(&self, _key: &K) -> u64 {
        u64::MAX
    }
}

/// A hasher of `u64` keys that uses each key itself as its hash.
///
/// ```
/// LowHashBuilder.hash_one(&key)
/// ```
#[derive(Clone, Copy, Debug, Default)]
pub struct LowHashBuilder;

impl KeyHasher<u64> for LowHashBuilder {
    ghost use Rattle.flurry_base.specs.Hashing.{same_number};

    ghost hash_of = { λ s k. k };

    ghost alike = { λ s x y e. same_number x y e };

    fn hash_one(&self, key: &u64) -> u64 {
        *key
    }
}

/// A hasher that gives each key the hash that std's [`DefaultHasher`] computes of it after a seed. It keeps the `DefaultHasher` that was
/// fed the seed.
///
/// ```
/// SeqMap::with_hasher(alloc, DefaultHashBuilder::with_seed(seed))
/// ```
#[derive(Clone, Copy)]
pub struct DefaultHashBuilder {
    seed: u64,
    hasher: DefaultHasher,
    ghost seeded: { hasher ≡ hasher_of_seed seed } by { Coded-set hasher-code hasher (hasher_of_seed seed) },
}

impl DefaultHashBuilder {
    ghost use Rattle.flurry_base.specs.Hashing.{seed_of};

    /// Creates a hash builder with the seed `seed`.
    pub fn with_seed(seed: u64) -> Self
        ensures { seed_of result ≡ seed }
    {
        let mut hasher = DefaultHasher::new();
        hasher.write_u64(seed);
        DefaultHashBuilder { seed, hasher }
    }

    /// Returns a hasher that was fed the seed.
    pub fn build_hasher(&self) -> DefaultHasher
        ensures { result ≡ hasher_of_seed (seed_of self.now) }
    {
        self.hasher
    }
}

impl Default for DefaultHashBuilder {
    ghost is_default = { λ b. b.seed ≡ 0 };

    fn default() -> Self {
        DefaultHashBuilder::with_seed(0)
    }
}

impl Debug for DefaultHashBuilder {
    fn fmt<W: fmt::Write>(&self, f: &mut Formatter<W>) -> fmt::Result {
        f.debug_struct("DefaultHashBuilder")
            .field("seed", &self.seed)
            .finish()
    }
}

impl<K: Hash + Ord> KeyHasher<K> for DefaultHashBuilder {
    ghost use Rattle.flurry_base.specs.Hashing.{seed_of, hash_with_seed, hash_with_seed-alike, equal_from_tie};

    ghost hash_of = { λ s k. hash_with_seed (seed_of s) (K.hash_input k) };

    ghost alike = { λ s x y e. hash_with_seed-alike (seed_of s) (K.respects_eq x y (equal_from_tie (K.matches_eq x y) e)) };

    fn hash_one(&self, key: &K) -> u64 {
        let mut hasher = self.build_hasher();
        key.hash(&mut hasher);
        hasher.finish()
    }
}
