//! Removals from an owned map.
ghost use Rattle.std.specs.Prelude.{◌≡◌, [], ◌<◌, ◌+◌, Option, Some, None};
ghost use Rattle.std.specs.Option.{option_map};
ghost use Rattle.std.specs.Arc.{arc_value};
ghost use Rattle.flurry_base.specs.FiniteMap.{IsFiniteMap, pair_at, value_at, without};
ghost use Rattle.flurry_seq.specs.Contents.{with_pairs};

use super::SeqMap;
use flurry_base::hash::KeyHasher;
use flurry_base::query::HashedQuery;
use flurry_bins::bin::Entry;
use std::alloc::Allocator;
use std::sync::Arc;

impl<K: Ord + Drop, V: Drop, S: KeyHasher<K>, A: Allocator> SeqMap<K, V, S, A> {
    /// Removes the pair of a key, and returns the value, or `None` if the key is absent. The size of the table does not change.
    ///
    /// ```
    /// let mut map: SeqMap<u64, u64> = SeqMap::new(rt.alloc());
    /// map.insert(37, 1)?;
    /// assert_eq!(rt; map.remove(&37).map(|value| *value), Some(1));
    /// assert!(rt; map.remove(&37).is_none());
    /// ```
    pub fn remove<Q: HashedQuery<K, S>>(&mut self, key: Q) -> Option<Arc<V, A>>
        ensures value { option_map arc_value result ≡ value_at K.cmp self.old.pairs (Q.stands_for key) }
        ensures after { self.new ≡ with_pairs self.old (without K.cmp self.old.pairs (Q.stands_for key)) }
        ensures ascend { IsFiniteMap K.cmp self.old.pairs }
    {
        let (_, value) = self.remove_entry(key)?;
        Some(value)
    }

    /// Removes the pair of a key, and returns the stored key and the value, or `None` if the key is absent. The size of the table does not
    /// change.
    pub fn remove_entry<Q: HashedQuery<K, S>>(&mut self, key: Q) -> Option<(Arc<K, A>, Arc<V, A>)>
        ensures pair { option_map (λ p. (arc_value p.0, arc_value p.1)) result
            ≡ pair_at K.cmp self.old.pairs (Q.stands_for key) }
        ensures after { self.new ≡ with_pairs self.old (without K.cmp self.old.pairs (Q.stands_for key)) }
        ensures ascend { IsFiniteMap K.cmp self.old.pairs }
    {
        let hash = self.hash_of(key);
        self.take(hash, key)
    }

    /// Removes all pairs. The size of the table does not change.
    ///
    /// Linear in the number of bins and pairs.
    ///
    /// ```
    /// let mut map: SeqMap<u64, u64> = SeqMap::new(rt.alloc());
    /// map.insert(37, 1)?;
    /// map.clear();
    /// assert!(rt; map.is_empty());
    /// ```
    pub fn clear(&mut self)
        ensures after { self.new ≡ with_pairs self.old [] }
        ensures ascend { IsFiniteMap K.cmp self.old.pairs }
    {
        self.table.clear();
        self.len = 0;
    }

    // Removes the pair of a key whose hash is `hash`, and returns the stored key and the value.
    pub(super) fn take<Q: HashedQuery<K, S>>(
        &mut self,
        hash: u64,
        key: Q,
    ) -> Option<(Arc<K, A>, Arc<V, A>)>
        requires { hash ≡ S.hash_of self.old.hasher (Q.stands_for key) }
        ensures pair { option_map (λ p. (arc_value p.0, arc_value p.1)) result
            ≡ pair_at K.cmp self.old.pairs (Q.stands_for key) }
        ensures after { self.new ≡ with_pairs self.old (without K.cmp self.old.pairs (Q.stands_for key)) }
    {
        match self.table.remove(hash, key) {
            Some(entry) => {
                self.len -= 1;
                let Entry { key, value, .. } = entry;
                Some((key, value))
            }
            None => None,
        }
    }
}
