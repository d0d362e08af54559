//! Calls of a view that change a pair by a function of the caller's.
ghost use Rattle.std.specs.Prelude.{◌≡◌, true, false, Some};
ghost use Rattle.flurry_base.specs.declared.call.Call.TheVariants.{Alter};
ghost use Rattle.flurry_shared_replies.specs.Answers.{CanAlter};
ghost use Rattle.flurry_shared_view.specs.Alterations.{ComputesBy, MergesBy, UpdatesBy, RemovesIf, ReplacesIf, TellsChange, TellsUpdate, TellsRemoval, TellsReplacement};
ghost use Rattle.flurry_shared_view.specs.SharedAnswers.{IsAnswerWith};

use crate::HashMapRef;
use crate::functions::{Computing, Merging, Removing, Replacing, Updating};
use flurry_base::Change;
use flurry_base::hash::KeyHasher;
use flurry_base::query::HashedQuery;
use flurry_steps::party::{Call, Reply};
use std::alloc::{AllocError, Allocator};
use std::sync::{Arc, Wait};

impl<'m, R: Wait, K: Ord + Drop, V: Drop, S: KeyHasher<K>, A: Allocator + Copy> HashMapRef<
    'm,
    R,
    K,
    V,
    S,
    A,
> {
    /// Calls `f` once: on the stored key and `Some` of the value, if the key is present, or else on `key` and `None`. What `f` returns
    /// becomes the key's value. If `f` returns `None`, the pair is removed, or none is inserted. Returns what was done, with a clone of the
    /// `Arc` of a new value, or with the value that was removed. If the key is present, the stored key stays, and `key` is dropped. Only a
    /// new key may enlarge the table, as in [`HashMapRef::insert`].
    ///
    /// `f` runs while the key's bin is locked, and must not call this map, as in [`HashMapRef::compute_if_present`]. Takes the same locks
    /// as [`HashMapRef::insert`].
    ///
    /// ```
    /// let map: HashMap<u64, u64> = HashMap::new(rt.alloc());
    /// let view = map.pin(&rt);
    /// for _ in 0..3 {
    ///     view.compute(37, |_key: &u64, old: Option<&u64>| -> Option<u64> {
    ///         match old {
    ///             Some(count) => Some(count.saturating_add(1)),
    ///             None => Some(1),
    ///         }
    ///     })?;
    /// }
    /// assert_eq!(rt; view.get(&37)?.map(|count| *count), Some(3));
    ///
    /// // `None` removes the pair
    /// let change = view.compute(37, |_key: &u64, _old: Option<&u64>| -> Option<u64> { None })?;
    /// assert!(rt; matches!(change, Change::Removed(_)));
    /// assert!(rt; view.is_empty());
    /// ```
    ///
    /// # Errors
    ///
    /// Returns [`AllocError`] if memory for the pair, for the new value or for a first table cannot be allocated, or if cloning the `Arc`
    /// of the new value fails. The call then changes no pair, and the key and the value that `f` returned are dropped. If there is a table
    /// and `f` returns `None`, there is no error.
    pub fn compute<'s, F: FnOnce(&K, Option<&V>) -> Option<V> + Drop>(
        &'s self,
        key: K,
        f: F,
    ) -> Result<Change<V, A>, AllocError>
        requires { F.IsAlwaysCallable f }
        ensures { (r : _) × TellsChange result r × CanAlter (ComputesBy F.FnOnce f) key true r
            × IsAnswerWith (ComputesBy F.FnOnce) K.cmp S.hash_of self.now (Alter key true f) r }
    {
        let call: Call<&K, K, V, Computing<F>, A> = Call::Alter(key, Computing { f });
        match self.run(call) {
            Reply::Contains(false) => Ok(Change::Absent),
            Reply::New(value) => Ok(Change::Added(value)),
            Reply::Changed { new, .. } => Ok(Change::Changed(new)),
            Reply::Pair(Some((_, old))) => Ok(Change::Removed(old)),
            Reply::Refused => Err(AllocError),
            _ => unreachable!(),
        }
    }

    /// Inserts `value`, if the key is absent. If it is present, calls `f` once on its value and `value`: what `f` returns becomes the new
    /// value, and if `f` returns `None`, the pair is removed. Returns what was done, with a clone of the `Arc` of a new value, or with the
    /// value that was removed. If the key is present, the stored key stays, and `key` is dropped. Only a new key may enlarge the table, as
    /// in [`HashMapRef::insert`].
    ///
    /// `f` runs while the key's bin is locked, and must not call this map, as in [`HashMapRef::compute_if_present`]. Takes the same locks
    /// as [`HashMapRef::insert`].
    ///
    /// ```
    /// let map: HashMap<u64, u64> = HashMap::new(rt.alloc());
    /// let view = map.pin(&rt);
    /// for amount in [20, 22] {
    ///     view.merge(37, amount, |old: &u64, new: u64| -> Option<u64> { Some(old.saturating_add(new)) })?;
    /// }
    /// assert_eq!(rt; view.get(&37)?.map(|sum| *sum), Some(42));
    /// ```
    ///
    /// # Errors
    ///
    /// Returns [`AllocError`] if memory for the pair, for the new value or for a first table cannot be allocated, or if cloning the `Arc`
    /// of the new value fails. The call then changes no pair, and the key and the value that was to be stored are dropped.
    pub fn merge<'s, F: FnOnce(&V, V) -> Option<V> + Drop>(
        &'s self,
        key: K,
        value: V,
        f: F,
    ) -> Result<Change<V, A>, AllocError>
        requires { F.IsAlwaysCallable f }
        ensures { (r : _) × TellsChange result r × CanAlter (MergesBy F.FnOnce (value, f)) key true r
            × IsAnswerWith (MergesBy F.FnOnce) K.cmp S.hash_of self.now (Alter key true (value, f)) r }
    {
        let call: Call<&K, K, V, Merging<V, F>, A> = Call::Alter(key, Merging { value, f });
        match self.run(call) {
            Reply::New(value) => Ok(Change::Added(value)),
            Reply::Changed { new, .. } => Ok(Change::Changed(new)),
            Reply::Pair(Some((_, old))) => Ok(Change::Removed(old)),
            Reply::Refused => Err(AllocError),
            _ => unreachable!(),
        }
    }

    /// Calls `f` once on the stored key and the value of `key`, if it is present. What `f` returns becomes the new value, and a clone of
    /// its `Arc` is returned. If the key is absent, `f` is not called, nothing changes, and `None` is returned. The table keeps its size.
    ///
    /// `f` runs while the key's bin is locked, and must not call this map, as in [`HashMapRef::compute_if_present`]. Takes the same locks
    /// as [`HashMapRef::remove`].
    ///
    /// ```
    /// let map: HashMap<u64, u64> = HashMap::new(rt.alloc());
    /// let view = map.pin(&rt);
    /// view.insert(37, 1)?;
    /// let new = view.update(&37, |_key: &u64, value: &u64| -> u64 { value.saturating_add(1) })?;
    /// assert_eq!(rt; new.map(|new| *new), Some(2));
    /// let absent = view.update(&38, |_key: &u64, value: &u64| -> u64 { *value })?;
    /// assert!(rt; absent.is_none());
    /// ```
    ///
    /// # Errors
    ///
    /// Returns [`AllocError`] if memory for the new value cannot be allocated, or if cloning its `Arc` fails. `f` has been called then; the
    /// value that it returned is dropped, and the pair is unchanged.
    pub fn update<Q: HashedQuery<K, S>, F: FnOnce(&K, &V) -> V + Drop>(
        &self,
        key: Q,
        f: F,
    ) -> Result<Option<Arc<V, A>>, AllocError>
        requires { F.IsAlwaysCallable f }
        ensures { (r : _) × TellsUpdate result r × CanAlter (UpdatesBy F.FnOnce f) (Q.stands_for key) false r
            × IsAnswerWith (UpdatesBy F.FnOnce) K.cmp S.hash_of self.now (Alter (Q.stands_for key) false f) r }
    {
        match self.run(Call::AlterPresent(key, Updating { f })) {
            Reply::Contains(false) => Ok(None),
            Reply::Changed { new, .. } => Ok(Some(new)),
            Reply::Refused => Err(AllocError),
            _ => unreachable!(),
        }
    }

    /// Calls `test` once on the stored key and the value of `key`, if it is present. If `test` returns `true`, removes the pair, and
    /// returns its value. Otherwise the map is unchanged, and `None` is returned; if the key is absent, `test` is not called. The table
    /// keeps its size. Takes no memory.
    ///
    /// `test` runs while the key's bin is locked, and must not call this map, as in [`HashMapRef::compute_if_present`]. Takes the same
    /// locks as [`HashMapRef::remove`].
    ///
    /// ```
    /// let map: HashMap<u64, u64> = HashMap::new(rt.alloc());
    /// let view = map.pin(&rt);
    /// view.insert(37, 1)?;
    /// let kept = view.remove_if(&37, |_key: &u64, value: &u64| -> bool { *value > 1 });
    /// assert!(rt; kept.is_none());
    /// let removed = view.remove_if(&37, |_key: &u64, value: &u64| -> bool { *value == 1 });
    /// assert_eq!(rt; removed.map(|value| *value), Some(1));
    /// assert!(rt; view.is_empty());
    /// ```
    pub fn remove_if<Q: HashedQuery<K, S>, F: FnOnce(&K, &V) -> bool + Drop>(
        &self,
        key: Q,
        test: F,
    ) -> Option<Arc<V, A>>
        requires { F.IsAlwaysCallable test }
        ensures { (r : _) × TellsRemoval result r × CanAlter (RemovesIf F.FnOnce test) (Q.stands_for key) false r
            × IsAnswerWith (RemovesIf F.FnOnce) K.cmp S.hash_of self.now (Alter (Q.stands_for key) false test) r }
    {
        match self.run(Call::AlterPresent(key, Removing { test })) {
            Reply::Contains(_) => None,
            Reply::Pair(Some((_, old))) => Some(old),
            _ => unreachable!(),
        }
    }

    /// Calls `test` once on the stored key and the value of `key`, if it is present. If `test` returns `true`, `value` takes the place of
    /// the old value, which is returned. Otherwise nothing changes, `value` is dropped, and `None` is returned; if the key is absent,
    /// `test` is not called. The table keeps its size.
    ///
    /// `test` runs while the key's bin is locked, and must not call this map, as in [`HashMapRef::compute_if_present`]. Takes the same
    /// locks as [`HashMapRef::remove`]. `value` is dropped after the bin is unlocked, if it is not stored.
    ///
    /// ```
    /// let map: HashMap<u64, u64> = HashMap::new(rt.alloc());
    /// let view = map.pin(&rt);
    /// view.insert(37, 1)?;
    /// let old = view.replace_if(&37, |_key: &u64, value: &u64| -> bool { *value == 1 }, 2)?;
    /// assert_eq!(rt; old.map(|old| *old), Some(1));
    /// let kept = view.replace_if(&37, |_key: &u64, value: &u64| -> bool { *value == 1 }, 3)?;
    /// assert!(rt; kept.is_none());
    /// assert_eq!(rt; view.get(&37)?.map(|value| *value), Some(2));
    /// ```
    ///
    /// # Errors
    ///
    /// Returns [`AllocError`] if `test` returned `true` and memory for `value` cannot be allocated, or cloning its `Arc` fails. `value` is
    /// dropped, and the pair is unchanged.
    pub fn replace_if<Q: HashedQuery<K, S>, F: FnOnce(&K, &V) -> bool + Drop>(
        &self,
        key: Q,
        test: F,
        value: V,
    ) -> Result<Option<Arc<V, A>>, AllocError>
        requires { F.IsAlwaysCallable test }
        ensures { (r : _) × TellsReplacement result r
            × CanAlter (ReplacesIf F.FnOnce (Some value, test)) (Q.stands_for key) false r
            × IsAnswerWith (ReplacesIf F.FnOnce) K.cmp S.hash_of self.now
            (Alter (Q.stands_for key) false (Some value, test)) r }
    {
        let mut value = Some(value);
        let replacing = Replacing {
            value: &mut value,
            test,
        };
        match self.run(Call::AlterPresent(key, replacing)) {
            Reply::Contains(_) => Ok(None),
            Reply::Changed { old, .. } => Ok(Some(old)),
            Reply::Refused => Err(AllocError),
            _ => unreachable!(),
        }
    }
}
