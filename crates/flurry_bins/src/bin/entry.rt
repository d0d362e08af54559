//! An entry of a bin.
ghost use Rattle.std.specs.Prelude.{◌≡◌};
ghost use Rattle.flurry_bins.specs.Entries.{place_cmp, is_at, is_past_bound, lent_bound};

use flurry_base::query::Query;
use std::alloc::{Allocator, Global};
use std::cmp::Ordering;
use std::sync::Arc;

/// A hash, a key and a value, and the write number of the value. The key and the value may have other owners.
///
/// ```
/// let Entry { value, .. } = Box::into_inner(node).into_entry();
/// Ok(*value)
/// ```
#[derive(Drop)]
pub struct Entry<K, V, A: Allocator = Global> {
    /// The hash of the key.
    pub hash: u64,
    /// The key, as it was first inserted.
    pub key: Arc<K, A>,
    /// The value that was written last.
    pub value: Arc<V, A>,
    /// The write number of the value.
    pub number: u64,
}

impl<K: Ord, V, A: Allocator> Entry<K, V, A> {
    /// Returns how the place of `hash` and `key` compares with the place of the entry: by the hash, and then by the key.
    ///
    /// A comparison of the hashes, and one comparison of keys if the hashes are equal. Takes no memory.
    pub fn compare_place<Q: Query<K>>(&self, hash: u64, key: Q) -> Ordering
        ensures { result ≡ place_cmp K.cmp hash (Q.stands_for key) self.now }
    {
        if hash == self.hash {
            key.compare(self.key.as_ref())
        } else if hash < self.hash {
            Ordering::Less
        } else {
            Ordering::Greater
        }
    }

    /// Returns `true` if the entry is the one of `hash` and `key`. At most one comparison of keys. Takes no memory.
    pub fn is_at<Q: Query<K>>(&self, hash: u64, key: Q) -> bool
        ensures { result ≡ is_at K.cmp hash (Q.stands_for key) self.now }
    {
        self.compare_place(hash, key) == Ordering::Equal
    }

    /// Returns `true` if the entry is past `bound`, or if there is no bound. At most one comparison of keys. Takes no memory.
    pub fn is_past(&self, bound: Option<(u64, &K)>) -> bool
        ensures { result ≡ is_past_bound K.cmp (lent_bound bound.entry) self.now }
    {
        match bound {
            None => true,
            Some((hash, key)) => self.compare_place(hash, key) == Ordering::Less,
        }
    }
}
