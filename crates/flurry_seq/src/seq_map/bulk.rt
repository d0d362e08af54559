//! Owned maps and lists of pairs.
ghost use Rattle.std.specs.Prelude.{◌≡◌, [], ◌<◌, ◌+◌, ◌++◌, List, ℕ, length, OnOk, OnErr, IfOk, Ok};
ghost use Rattle.flurry_base.specs.FiniteMap.{IsFiniteMap, with_all};
ghost use Rattle.flurry_seq.specs.Growth.{bins_for, IsTableFrom, HasRoom};

use super::SeqMap;
use flurry_base::hash::KeyHasher;
use std::alloc::{AllocError, Allocator};

impl<K: Ord + Drop, V: Drop, S: KeyHasher<K>, A: Allocator + Copy> SeqMap<K, V, S, A> {
    /// Inserts the pairs of `list` in order. If a key occurs more than once, its last value stays. Room is made first: for as many pairs as
    /// the list has if the map is empty, and otherwise for half as many, rounded up.
    ///
    /// One insertion for each pair.
    ///
    /// ```
    /// let mut map: SeqMap<u64, u64> = SeqMap::new(rt.alloc());
    /// let mut list = Vec::new(rt.alloc());
    /// list.push((37, 1))?;
    /// list.push((37, 2))?;
    /// map.extend(list)?;
    /// assert_eq!(rt; map.get(&37).map(|value| **value), Some(2));
    /// ```
    ///
    /// # Errors
    ///
    /// Returns [`AllocError`] if memory for a table cannot be allocated, or if an insertion fails. The pairs inserted before stay, and so
    /// may a larger table; the rest is dropped.
    pub fn extend(&mut self, list: Vec<(K, V), A>) -> Result<(), AllocError>
        ensures ok { OnOk result (self.new.pairs ≡ with_all K.cmp self.old.pairs list.items) }
        ensures hasher { self.new.hasher ≡ self.old.hasher }
        ensures err { OnErr result ((front rest : List (K × V)) × (list.items ≡ front ++ rest)
            × (self.new.pairs ≡ with_all K.cmp self.old.pairs front)) }
        ensures ascend { IsFiniteMap K.cmp self.old.pairs }
    {
        let count = list.len();
        let room = if self.is_empty() {
            count
        } else {
            count.div_ceil(2)
        };
        self.reserve(room)?;
        self.insert_all(list)
    }

    /// Creates a map that uses `hasher` from the pairs of `list`, inserted in order. It starts with room for as many pairs as the list has.
    ///
    /// One insertion for each pair.
    ///
    /// # Errors
    ///
    /// Returns [`AllocError`] if memory cannot be allocated. The list is dropped.
    pub fn from_list(alloc: A, list: Vec<(K, V), A>, hasher: S) -> Result<Self, AllocError>
    where
        S: Drop,
        ensures made { IfOk result (λ m. (m.pairs ≡ with_all K.cmp [] list.items) × (m.hasher ≡ hasher)) }
        ensures ascend { IfOk result (λ m. IsFiniteMap K.cmp m.pairs) }
        ensures bins { IfOk result (λ m. IsTableFrom (bins_for (length list.items)) (length m.pairs) m.bins) }
    {
        let mut map = SeqMap::with_capacity_and_hasher(alloc, list.len(), hasher)?;
        map.insert_all(list)?;
        Ok(map)
    }

    // Inserts the pairs of `list` in order.
    fn insert_all(&mut self, list: Vec<(K, V), A>) -> Result<(), AllocError>
        ensures ok { OnOk result (self.new.pairs ≡ with_all K.cmp self.old.pairs list.items) }
        ensures hasher { self.new.hasher ≡ self.old.hasher }
        ensures err { OnErr result ((front rest : List (K × V)) × (list.items ≡ front ++ rest)
            × (self.new.pairs ≡ with_all K.cmp self.old.pairs front)) }
        ensures room { (n : ℕ) → HasRoom n (length self.old.pairs + length list.items)
            → IsTableFrom n (length self.old.pairs) self.old.bins
            → OnOk result (IsTableFrom n (length self.new.pairs) self.new.bins) }
    {
        for (key, value) in list {
            self.insert(key, value)?;
        }
        Ok(())
    }
}
