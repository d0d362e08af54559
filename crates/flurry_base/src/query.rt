//! What keys are looked up by.
ghost use Rattle.std.specs.Prelude.{◌≡◌};
ghost use Rattle.flurry_base.specs.Texts.{string_of};
ghost use Rattle.std.specs.Cmp.Lexicographic.{slice_cmp};
ghost use Rattle.std.specs.Ordering.{nat_cmp};

use crate::hash::{DefaultHashBuilder, KeyHasher, MaxHashBuilder, ZeroHashBuilder};
use std::cmp::Ordering;
use std::hash::{Hash, Hasher};

/// What keys of the type `K` are looked up by: a `&K`, or a value that stands for a key, as a `&str` stands for a `String`.
///
/// An impl names the key that a value stands for, and compares a key with it.
///
/// ```
/// impl Query<u64> for Number {
///     ghost stands_for = { λ n. n.0 };
///
///     fn compare(self, key: &u64) -> Ordering {
///         self.0.cmp(key)
///     }
/// }
/// ```
pub trait Query<K: Ord>: Copy {
    // The key that it stands for.
    ghost stands_for: { Self → K };

    /// Returns how the key that `self` stands for compares with `key`.
    fn compare(self, key: &K) -> Ordering
        ensures { result ≡ K.cmp (stands_for self) key.now };
}

/// A [`Query`] that has the hash of the key that it stands for, by the hasher of a map.
///
/// ```
/// impl HashedQuery<u64, DefaultHashBuilder> for Number {
///     fn hash_by(self, hasher: &DefaultHashBuilder) -> u64 {
///         hasher.hash_one(&self.0)
///     }
/// }
/// ```
pub trait HashedQuery<K: Ord, S: KeyHasher<K>>: Query<K> {
    /// Returns the hash that `hasher` gives the key that `self` stands for.
    fn hash_by(self, hasher: &S) -> u64
        ensures { result ≡ S.hash_of hasher.now (Self.stands_for self) };
}

impl<K: Ord> Query<K> for &K {
    ghost stands_for = { λ q. q.now };

    fn compare(self, key: &K) -> Ordering {
        (*self).cmp(key)
    }
}

impl<K: Ord, S: KeyHasher<K>> HashedQuery<K, S> for &K {
    fn hash_by(self, hasher: &S) -> u64 {
        hasher.hash_one(self)
    }
}

impl Query<String> for &str {
    ghost stands_for = { λ q. string_of q.now };

    fn compare(self, key: &String) -> Ordering {
        compare_texts(self, key.as_str())
    }
}

impl HashedQuery<String, DefaultHashBuilder> for &str {
    fn hash_by(self, hasher: &DefaultHashBuilder) -> u64 {
        let mut hasher = hasher.build_hasher();
        self.hash(&mut hasher);
        hasher.finish()
    }
}

impl HashedQuery<String, ZeroHashBuilder> for &str {
    fn hash_by(self, _hasher: &ZeroHashBuilder) -> u64 {
        u64::MIN
    }
}

impl HashedQuery<String, MaxHashBuilder> for &str {
    fn hash_by(self, _hasher: &MaxHashBuilder) -> u64 {
        u64::MAX
    }
}

// Compares two texts of one lifetime.
fn compare_texts<'x>(a: &'x str, b: &'x str) -> Ordering
    ensures { result ≡ slice_cmp nat_cmp a.now b.now }
{
    a.cmp(b)
}
