//! Calls of a shared map that change a pair by a function of the caller's.
ghost use Rattle.std.specs.Prelude.{true, false, Some};
ghost use Rattle.flurry_base.specs.declared.call.Call.TheVariants.{Alter};
ghost use Rattle.flurry_shared_replies.specs.Answers.{CanAlter};
ghost use Rattle.flurry_shared_view.specs.Alterations.{ComputesBy, MergesBy, UpdatesBy, RemovesIf, ReplacesIf, TellsChange, TellsUpdate, TellsRemoval, TellsReplacement};
ghost use Rattle.flurry_shared_view.specs.SharedAnswers.{IsAnswerWith};

use crate::HashMap;
use flurry_base::Change;
use flurry_base::hash::KeyHasher;
use flurry_base::query::HashedQuery;
use std::alloc::{AllocError, Allocator};
use std::sync::{Arc, Wait};

impl<K: Ord + Drop, V: Drop, S: KeyHasher<K>, A: Allocator + Copy> HashMap<K, V, S, A> {
    /// Calls `f` once: on the stored key and `Some` of the value, if the key is present, or else on `key` and `None`. What `f` returns
    /// becomes the key's value. If `f` returns `None`, the pair is removed, or none is inserted. Returns what was done, with a clone of the
    /// `Arc` of a new value, or with the value that was removed. If the key is present, the stored key stays, and `key` is dropped. Only a
    /// new key may enlarge the table, as in [`HashMap::insert`].
    ///
    /// `f` runs while the key's bin is locked, and must not call this map, as in [`HashMap::compute_if_present`]. Takes the same locks
    /// as [`HashMap::insert`].
    ///
    /// ```
    /// let map: HashMap<u64, u64> = HashMap::new(rt.alloc());
    /// for _ in 0..3 {
    ///     map.compute(&rt, 37, |_key: &u64, old: Option<&u64>| -> Option<u64> {
    ///         match old {
    ///             Some(count) => Some(count.saturating_add(1)),
    ///             None => Some(1),
    ///         }
    ///     })?;
    /// }
    /// assert_eq!(rt; map.get(&rt, &37)?.map(|count| *count), Some(3));
    ///
    /// // `None` removes the pair
    /// let change = map.compute(&rt, 37, |_key: &u64, _old: Option<&u64>| -> Option<u64> { None })?;
    /// assert!(rt; matches!(change, Change::Removed(_)));
    /// assert!(rt; map.is_empty(&rt));
    /// ```
    ///
    /// # Errors
    ///
    /// Returns [`AllocError`] if memory for the pair, for the new value or for a first table cannot be allocated, or if cloning the `Arc`
    /// of the new value fails. The call then changes no pair, and the key and the value that `f` returned are dropped. If there is a table
    /// and `f` returns `None`, there is no error.
    pub fn compute<F: FnOnce(&K, Option<&V>) -> Option<V> + Drop, R: Wait>(
        &self,
        rt: &R,
        key: K,
        f: F,
    ) -> Result<Change<V, A>, AllocError>
        requires { F.IsAlwaysCallable f }
        ensures { (r : _) × TellsChange result r × CanAlter (ComputesBy F.FnOnce f) key true r
            × IsAnswerWith (ComputesBy F.FnOnce) K.cmp S.hash_of self.now (Alter key true f) r }
    {
        self.pin(rt).compute(key, f)
    }

    /// Inserts `value`, if the key is absent. If it is present, calls `f` once on its value and `value`: what `f` returns becomes the new
    /// value, and if `f` returns `None`, the pair is removed. Returns what was done, with a clone of the `Arc` of a new value, or with the
    /// value that was removed. If the key is present, the stored key stays, and `key` is dropped. Only a new key may enlarge the table, as
    /// in [`HashMap::insert`].
    ///
    /// `f` runs while the key's bin is locked, and must not call this map, as in [`HashMap::compute_if_present`]. Takes the same locks
    /// as [`HashMap::insert`].
    ///
    /// ```
    /// let map: HashMap<u64, u64> = HashMap::new(rt.alloc());
    /// for amount in [20, 22] {
    ///     map.merge(&rt, 37, amount, |old: &u64, new: u64| -> Option<u64> { Some(old.saturating_add(new)) })?;
    /// }
    /// assert_eq!(rt; map.get(&rt, &37)?.map(|sum| *sum), Some(42));
    /// ```
    ///
    /// # Errors
    ///
    /// Returns [`AllocError`] if memory for the pair, for the new value or for a first table cannot be allocated, or if cloning the `Arc`
    /// of the new value fails. The call then changes no pair, and the key and the value that was to be stored are dropped.
    pub fn merge<F: FnOnce(&V, V) -> Option<V> + Drop, R: Wait>(
        &self,
        rt: &R,
        key: K,
        value: V,
        f: F,
    ) -> Result<Change<V, A>, AllocError>
        requires { F.IsAlwaysCallable f }
        ensures { (r : _) × TellsChange result r × CanAlter (MergesBy F.FnOnce (value, f)) key true r
            × IsAnswerWith (MergesBy F.FnOnce) K.cmp S.hash_of self.now (Alter key true (value, f)) r }
    {
        self.pin(rt).merge(key, value, f)
    }

    /// Calls `f` once on the stored key and the value of `key`, if it is present. What `f` returns becomes the new value, and a clone of
    /// its `Arc` is returned. If the key is absent, `f` is not called, nothing changes, and `None` is returned. The table keeps its size.
    ///
    /// `f` runs while the key's bin is locked, and must not call this map, as in [`HashMap::compute_if_present`]. Takes the same locks
    /// as [`HashMap::remove`].
    ///
    /// ```
    /// let map: HashMap<u64, u64> = HashMap::new(rt.alloc());
    /// map.insert(&rt, 37, 1)?;
    /// let new = map.update(&rt, &37, |_key: &u64, value: &u64| -> u64 { value.saturating_add(1) })?;
    /// assert_eq!(rt; new.map(|new| *new), Some(2));
    /// let absent = map.update(&rt, &38, |_key: &u64, value: &u64| -> u64 { *value })?;
    /// assert!(rt; absent.is_none());
    /// ```
    ///
    /// # Errors
    ///
    /// Returns [`AllocError`] if memory for the new value cannot be allocated, or if cloning its `Arc` fails. `f` has been called then; the
    /// value that it returned is dropped, and the pair is unchanged.
    pub fn update<Q: HashedQuery<K, S>, F: FnOnce(&K, &V) -> V + Drop, R: Wait>(
        &self,
        rt: &R,
        key: Q,
        f: F,
    ) -> Result<Option<Arc<V, A>>, AllocError>
        requires { F.IsAlwaysCallable f }
        ensures { (r : _) × TellsUpdate result r × CanAlter (UpdatesBy F.FnOnce f) (Q.stands_for key) false r
            × IsAnswerWith (UpdatesBy F.FnOnce) K.cmp S.hash_of self.now (Alter (Q.stands_for key) false f) r }
    {
        self.pin(rt).update(key, f)
    }

    /// Calls `test` once on the stored key and the value of `key`, if it is present. If `test` returns `true`, removes the pair, and
    /// returns its value. Otherwise the map is unchanged, and `None` is returned; if the key is absent, `test` is not called. The table
    /// keeps its size. Takes no memory.
    ///
    /// `test` runs while the key's bin is locked, and must not call this map, as in [`HashMap::compute_if_present`]. Takes the same
    /// locks as [`HashMap::remove`].
    ///
    /// ```
    /// let map: HashMap<u64, u64> = HashMap::new(rt.alloc());
    /// map.insert(&rt, 37, 1)?;
    /// let kept = map.remove_if(&rt, &37, |_key: &u64, value: &u64| -> bool { *value > 1 });
    /// assert!(rt; kept.is_none());
    /// let removed = map.remove_if(&rt, &37, |_key: &u64, value: &u64| -> bool { *value == 1 });
    /// assert_eq!(rt; removed.map(|value| *value), Some(1));
    /// assert!(rt; map.is_empty(&rt));
    /// ```
    pub fn remove_if<Q: HashedQuery<K, S>, F: FnOnce(&K, &V) -> bool + Drop, R: Wait>(
        &self,
        rt: &R,
        key: Q,
        test: F,
    ) -> Option<Arc<V, A>>
        requires { F.IsAlwaysCallable test }
        ensures { (r : _) × TellsRemoval result r × CanAlter (RemovesIf F.FnOnce test) (Q.stands_for key) false r
            × IsAnswerWith (RemovesIf F.FnOnce) K.cmp S.hash_of self.now (Alter (Q.stands_for key) false test) r }
    {
        self.pin(rt).remove_if(key, test)
    }

    /// Calls `test` once on the stored key and the value of `key`, if it is present. If `test` returns `true`, `value` takes the place of
    /// the old value, which is returned. Otherwise nothing changes, `value` is dropped, and `None` is returned; if the key is absent,
    /// `test` is not called. The table keeps its size.
    ///
    /// `test` runs while the key's bin is locked, and must not call this map, as in [`HashMap::compute_if_present`]. Takes the same
    /// locks as [`HashMap::remove`]. `value` is dropped after the bin is unlocked, if it is not stored.
    ///
    /// ```
    /// let map: HashMap<u64, u64> = HashMap::new(rt.alloc());
    /// map.insert(&rt, 37, 1)?;
    /// let old = map.replace_if(&rt, &37, |_key: &u64, value: &u64| -> bool { *value == 1 }, 2)?;
    /// assert_eq!(rt; old.map(|old| *old), Some(1));
    /// let kept = map.replace_if(&rt, &37, |_key: &u64, value: &u64| -> bool { *value == 1 }, 3)?;
    /// assert!(rt; kept.is_none());
    /// assert_eq!(rt; map.get(&rt, &37)?.map(|value| *value), Some(2));
    /// ```
    ///
    /// # Errors
    ///
    /// Returns [`AllocError`] if `test` returned `true` and memory for `value` cannot be allocated, or cloning its `Arc` fails. `value` is
    /// dropped, and the pair is unchanged.
    pub fn replace_if<Q: HashedQuery<K, S>, F: FnOnce(&K, &V) -> bool + Drop, R: Wait>(
        &self,
        rt: &R,
        key: Q,
        test: F,
        value: V,
    ) -> Result<Option<Arc<V, A>>, AllocError>
        requires { F.IsAlwaysCallable test }
        ensures { (r : _) × TellsReplacement result r
            × CanAlter (ReplacesIf F.FnOnce (Some value, test)) (Q.stands_for key) false r
            × IsAnswerWith (ReplacesIf F.FnOnce) K.cmp S.hash_of self.now
            (Alter (Q.stands_for key) false (Some value, test)) r }
    {
        self.pin(rt).replace_if(key, test, value)
    }
}
