//! Callers that choose how keys are hashed.
ghost use Rattle.std.specs.Prelude.{◌≡◌, ℕ, ◌+◌, ◌%◌, ◌^◌, [], is_some};
ghost use Rattle.std.specs.Ordering.{nat_cmp};
ghost use Rattle.std.proofs.Common.{ap};
ghost use Rattle.flurry.specs.FiniteMap.{pair_at};
ghost use Rattle.flurry.specs.Hashing.{same_number, seed_of};

use flurry::SeqMap;
use flurry::hash::{
    DefaultHashBuilder, KeyHasher, LowHashBuilder, MaxHashBuilder, ZeroHashBuilder,
};
use flurry::query::{HashedQuery, Query};
use std::alloc::Global;
use std::cmp::Ordering;

/// A hasher that gives each key the sum of the key and a number.
#[derive(Clone, Copy, Debug, Default)]
pub struct Shifted(pub u64);

impl KeyHasher<u64> for Shifted {
    ghost hash_of = { λ s k. (s.0 + k) % 2 ^ 64 };

    ghost alike = { λ s x y e. ap (λ (k : ℕ). (s.0 + k) % 2 ^ 64) (same_number x y e) };

    fn hash_one(&self, key: &u64) -> u64 {
        self.0.wrapping_add(*key)
    }
}

/// A number that is looked up as the key that it has.
#[derive(Clone, Copy, Debug)]
pub struct Number(pub u64);

impl Query<u64> for Number {
    ghost stands_for = { λ n. n.0 };

    fn compare(self, key: &u64) -> Ordering {
        self.0.cmp(key)
    }
}

impl HashedQuery<u64, DefaultHashBuilder> for Number {
    fn hash_by(self, hasher: &DefaultHashBuilder) -> u64 {
        hasher.hash_one(&self.0)
    }
}

/// Returns `true` if the map contains the number.
pub fn contains_number(map: &SeqMap<u64, u64>, number: Number) -> bool
    ensures { result ≡ is_some (pair_at nat_cmp map.now.pairs number.0) }
{
    map.contains_key(number)
}

/// Creates an empty map over a hasher that the caller defines.
pub fn with_shift(alloc: Global, shift: u64) -> SeqMap<u64, u64, Shifted>
    ensures { result.pairs ≡ [] }
{
    SeqMap::with_hasher(alloc, Shifted(shift))
}

/// Creates a map in which all keys have the least hash.
pub fn with_least_hash(alloc: Global) -> SeqMap<u64, u64, ZeroHashBuilder>
    ensures { result.pairs ≡ [] }
{
    SeqMap::with_hasher(alloc, ZeroHashBuilder)
}

/// Creates a map in which all keys have the greatest hash.
pub fn with_greatest_hash(alloc: Global) -> SeqMap<u64, u64, MaxHashBuilder>
    ensures { result.pairs ≡ [] }
{
    SeqMap::with_hasher(alloc, MaxHashBuilder)
}

/// Returns the hash of a number that is its own hash.
pub fn own_hash(key: u64) -> u64
    ensures { result ≡ key }
{
    LowHashBuilder.hash_one(&key)
}

/// Creates a map whose hashes depend on `seed`.
pub fn with_seed(alloc: Global, seed: u64) -> SeqMap<u64, u64>
    ensures { seed_of result.hasher ≡ seed }
{
    SeqMap::with_hasher(alloc, DefaultHashBuilder::with_seed(seed))
}
