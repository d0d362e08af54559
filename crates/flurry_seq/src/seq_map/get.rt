//! Look-ups in an owned map.
ghost use Rattle.std.specs.Prelude.{◌≡◌, ◌<◌, ◌+◌, Option, Some, None, is_some};
ghost use Rattle.std.specs.Option.{option_map};
ghost use Rattle.std.specs.Arc.{arc_value};
ghost use Rattle.flurry_base.specs.FiniteMap.{IsFiniteMap, pair_at, value_at};

use super::SeqMap;
use flurry_base::hash::KeyHasher;
use flurry_base::query::HashedQuery;
use flurry_bins::bin::Entry;
use std::alloc::Allocator;
use std::sync::Arc;

impl<K: Ord + Drop, V: Drop, S: KeyHasher<K>, A: Allocator> SeqMap<K, V, S, A> {
    /// Returns a reference to the `Arc` of the key's value, or `None` if the key is absent.
    ///
    /// ```
    /// let mut map: SeqMap<u64, u64> = SeqMap::new(rt.alloc());
    /// map.insert(37, 1)?;
    /// assert_eq!(rt; map.get(&37).map(|value| **value), Some(1));
    /// assert!(rt; map.get(&38).is_none());
    /// ```
    ///
    /// A key of the type `String` is found by a `&str` too, without a `String` made for it, as [`Query`](flurry_base::query::Query) tells:
    ///
    /// ```
    /// let mut years: SeqMap<String, u64> = SeqMap::new(rt.alloc());
    /// years.insert(String::from_str(rt.alloc(), "Ada")?, 1815)?;
    /// assert_eq!(rt; years.get("Ada").map(|year| **year), Some(1815));
    /// assert!(rt; years.remove("Alan").is_none());
    /// ```
    pub fn get<Q: HashedQuery<K, S>>(&self, key: Q) -> Option<&Arc<V, A>>
        ensures value { option_map (λ v. arc_value v.now) result ≡ value_at K.cmp self.now.pairs (Q.stands_for key) }
        ensures ascend { IsFiniteMap K.cmp self.now.pairs }
    {
        match self.find(self.hash_of(key), key) {
            Some(entry) => Some(&entry.value),
            None => None,
        }
    }

    /// Returns references to the `Arc`s of the stored key and of its value, or `None` if the key is absent.
    pub fn get_key_value<Q: HashedQuery<K, S>>(&self, key: Q) -> Option<(&Arc<K, A>, &Arc<V, A>)>
        ensures pair { option_map (λ p. (arc_value p.0.now, arc_value p.1.now)) result
            ≡ pair_at K.cmp self.now.pairs (Q.stands_for key) }
        ensures ascend { IsFiniteMap K.cmp self.now.pairs }
    {
        match self.find(self.hash_of(key), key) {
            Some(entry) => Some((&entry.key, &entry.value)),
            None => None,
        }
    }

    /// Returns `true` if the map contains the key.
    ///
    /// ```
    /// let mut map: SeqMap<u64, u64> = SeqMap::new(rt.alloc());
    /// map.insert(37, 1)?;
    /// assert!(rt; map.contains_key(&37));
    /// assert!(rt; !map.contains_key(&38));
    /// ```
    pub fn contains_key<Q: HashedQuery<K, S>>(&self, key: Q) -> bool
        ensures found { result ≡ is_some (pair_at K.cmp self.now.pairs (Q.stands_for key)) }
        ensures ascend { IsFiniteMap K.cmp self.now.pairs }
    {
        self.find(self.hash_of(key), key).is_some()
    }

    // The hash of a key. Each one-key call starts with this call, whose contract says that the keys ascend.
    pub(super) fn hash_of<Q: HashedQuery<K, S>>(&self, key: Q) -> u64
        ensures hash { result ≡ S.hash_of self.now.hasher (Q.stands_for key) }
        ensures ascend { IsFiniteMap K.cmp self.now.pairs }
    {
        key.hash_by(&self.hasher)
    }

    // The entry of a key whose hash is `hash`.
    #[inline(always)]
    pub(super) fn find<Q: HashedQuery<K, S>>(&self, hash: u64, key: Q) -> Option<&Entry<K, V, A>>
        requires { hash ≡ S.hash_of self.now.hasher (Q.stands_for key) }
        ensures { option_map (λ e. (arc_value e.now.key, arc_value e.now.value)) result
            ≡ pair_at K.cmp self.now.pairs (Q.stands_for key) }
    {
        self.table.find(hash, key)
    }
}
