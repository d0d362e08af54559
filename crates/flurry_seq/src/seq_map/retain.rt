//! Keeping some of the pairs of an owned map.
ghost use Rattle.flurry_base.specs.FiniteMap.{IsFiniteMap};
ghost use Rattle.flurry_seq.specs.Retain.{Retains};

use super::SeqMap;
use flurry_base::hash::KeyHasher;
use std::alloc::Allocator;

impl<K: Ord + Drop, V: Drop, S: KeyHasher<K>, A: Allocator> SeqMap<K, V, S, A> {
    /// Calls `f` once on the stored key and the value of each pair, and keeps only the pairs for which it returns `true`. The order of the
    /// calls is unspecified. The size of the table does not change.
    ///
    /// One call for each pair, and as many steps again as the table has bins. Takes no memory.
    ///
    /// ```
    /// let mut map: SeqMap<u64, u64> = SeqMap::new(rt.alloc());
    /// map.insert(37, 1)?;
    /// map.insert(38, 2)?;
    /// map.retain(|key: &u64, _value: &u64| -> bool { *key % 2 == 0 });
    /// assert!(rt; !map.contains_key(&37));
    /// assert!(rt; map.contains_key(&38));
    /// ```
    pub fn retain<F: FnMut(&K, &V) -> bool>(&mut self, f: F)
    where
        F: Drop,
        requires { F.IsAlwaysCallable f }
        ensures kept { Retains F.step K.cmp f self.old self.new }
        ensures ascend { IsFiniteMap K.cmp self.old.pairs }
    {
        let mut keep = f;
        self.len = self.table.retain(&mut keep);
    }

    /// Keeps only the pairs for which `f` returns `true`, exactly as [`SeqMap::retain`] does: no other owner can change a value between the
    /// call of `f` and the removal.
    pub fn retain_force<F: FnMut(&K, &V) -> bool>(&mut self, f: F)
    where
        F: Drop,
        requires { F.IsAlwaysCallable f }
        ensures kept { Retains F.step K.cmp f self.old self.new }
        ensures ascend { IsFiniteMap K.cmp self.old.pairs }
    {
        self.retain(f);
    }
}
