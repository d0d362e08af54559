//! The shared map.
ghost use Rattle.std.specs.Prelude.{◌≡◌, IfOk, OnOk};
ghost use Rattle.flurry_shared_view.specs.SharedAnswers.{IsAnswerOf, IsAnswerWith, added_answer, contains_answer, ended_answer, or_refused, pair_answer, value_answer};
ghost use Rattle.flurry_shared_view.specs.Visits.{FoldsWalk, KeepsOrRemoves, RemovesKey, RemovesSeen};
ghost use Rattle.flurry_shared_view.specs.Walks.{Begins};
ghost use Rattle.flurry_base.specs.Hashing.{seed_of};
ghost use Rattle.flurry_base.specs.declared.call.Call.TheVariants.{Get, GetKeyValue, ContainsKey, Insert, TryInsert, Compute, Remove, RemoveEntry, RemoveSeen, Reserve, Clear};
ghost use Rattle.flurry_shared_replies.specs.Answers.{CanAdd, CanCompute};
ghost use Rattle.flurry_bins_slots.specs.ComputeFn.{AnswersIfPresent};

use flurry_base::hash::{DefaultHashBuilder, KeyHasher};
use flurry_base::query::HashedQuery;
use flurry_base::try_insert::TryInsertError;
use flurry_shared_locks::Locks;
use flurry_shared_view::HashMapRef;
use flurry_shared_view::iter::{Iter, Keys, Values};
use flurry_steps_control::wanted_table;
use flurry_steps_sweep::Seen;
use std::alloc::{AllocError, Allocator, Global};
use std::hash::Hash;
use std::marker::Model;
use std::sync::{Arc, Wait};

/// A map that threads share. Each call takes `&self`, and may wait for others.
///
/// Every call is done in steps. Each step holds the lock of what it reads or changes: of one bin, of the bins of one move, or of the
/// control, the state that all calls agree upon. No step waits for a lock of the control while it holds one of a bin. A one-key call has
/// one deciding step, under the lock of one bin. It hashes the key once, and visits at most `max(9, 2 * d)` pairs of a bin of `n` pairs,
/// where `d` is the number of binary digits of `n + 1`. Keys and values are dropped while no lock is held.
///
/// A table is doubled when it has three pairs for every four bins, as long as memory can be allocated and it has fewer than 2^30 bins.
/// Threads that meet a growth while they write help it.
///
/// ```
/// HashMap::new(alloc).with_processors(processors)
/// ```
pub struct HashMap<K: Ord, V, S: KeyHasher<K> = DefaultHashBuilder, A: Allocator = Global> {
    pub(crate) locks: Locks<K, V, A>,
    pub(crate) hasher: S,
    pub(crate) processors: usize,
}

// By hand and not derived: so a function that owns a map calls this, and is not proved to drop each part of the map.
impl<K: Ord + Drop, V: Drop, S: KeyHasher<K> + Drop, A: Allocator> Drop for HashMap<K, V, S, A> {
    fn drop(self) {
        let HashMap {
            locks: _locks,
            hasher: _hasher,
            processors: _,
        } = self;
    }
}

impl<K: Ord, V, S: KeyHasher<K>, A: Allocator> Model for HashMap<K, V, S, A> {
    ghost use Rattle.flurry_shared_view.specs.SharedAnswers.{MapSettings};

    ghost Value = { MapSettings K V S };

    ghost view = { λ m. record { hasher = m.hasher; processors = m.processors } };
}

impl<K: Hash + Ord + Drop, V: Drop, A: Allocator> HashMap<K, V, DefaultHashBuilder, A> {
    /// Creates an empty map without a table, with the default hasher whose seed is zero. It takes no memory.
    ///
    /// ```
    /// let map: HashMap<u64, u64> = HashMap::new(rt.alloc());
    /// map.insert(&rt, 37, 1)?;
    /// assert_eq!(rt; map.len(&rt), 1);
    /// ```
    pub fn new(alloc: A) -> Self
        ensures seed { seed_of result.hasher ≡ 0 }
        ensures processors { result.processors ≡ 1 }
    {
        HashMap::with_hasher(alloc, DefaultHashBuilder::default())
    }

    /// Creates an empty map with a table for `capacity` pairs, with the default hasher whose seed is zero. If `capacity` is 0, it has no
    /// table.
    ///
    /// Linear in the number of bins.
    ///
    /// # Errors
    ///
    /// Returns [`AllocError`] if memory for the table cannot be allocated.
    pub fn with_capacity(alloc: A, capacity: usize) -> Result<Self, AllocError>
    where
        A: Copy,
        ensures seed { IfOk result (λ m. seed_of m.hasher ≡ 0) }
        ensures processors { IfOk result (λ m. m.processors ≡ 1) }
    {
        HashMap::with_capacity_and_hasher(alloc, capacity, DefaultHashBuilder::default())
    }
}

impl<K: Ord + Drop, V: Drop, S: KeyHasher<K>, A: Allocator> HashMap<K, V, S, A> {
    /// Creates an empty map without a table, with the given hasher. It takes no memory.
    pub fn with_hasher(alloc: A, hasher: S) -> Self
        ensures { result ≡ record { hasher = hasher; processors = 1 } }
    {
        HashMap::of_locks(Locks::new(alloc), hasher)
    }

    // Creates the map whose parts are under `locks`.
    pub(crate) fn of_locks(locks: Locks<K, V, A>, hasher: S) -> Self
        ensures { result ≡ record { hasher = hasher; processors = 1 } }
    {
        HashMap {
            locks,
            hasher,
            processors: 1,
        }
    }

    // Takes the map apart.
    pub(crate) fn into_parts(self) -> (Locks<K, V, A>, S)
        ensures { result.1 ≡ self.hasher }
    {
        let HashMap {
            locks,
            hasher,
            processors: _,
        } = self;
        (locks, hasher)
    }

    /// Sets the number of threads among which a growth is divided; `0` means 1. The greater it is, the fewer bins a helping thread claims
    /// at once.
    ///
    /// Constant time.
    pub fn with_processors(self, processors: usize) -> Self
        ensures { result ≡ record { hasher = self.hasher; processors = processors } }
    {
        let (locks, hasher) = self.into_parts();
        HashMap {
            locks,
            hasher,
            processors,
        }
    }

    /// Returns a view of the map. It keeps the runtime `rt`, so its calls do not take it as an argument. Constant time; takes no memory.
    ///
    /// ```
    /// let map: HashMap<u64, u64> = HashMap::new(rt.alloc());
    /// let view = map.pin(&rt);
    /// view.insert(37, 1)?;
    /// assert_eq!(rt; view.get(&37)?.map(|value| *value), Some(1));
    /// ```
    #[inline(always)]
    pub fn pin<'m, R>(&'m self, rt: &'m R) -> HashMapRef<'m, R, K, V, S, A>
        ensures { result ≡ self.now }
    {
        HashMapRef::new(rt, &self.locks, &self.hasher, self.processors)
    }

    /// Returns the number of pairs, counted at one moment during the call. A concurrent call that has already taken effect may not be
    /// counted yet. A clear counts what it removed at its end, so beside one the result can be far above the number of pairs present.
    ///
    /// Takes the control's lock, then the lock of each tally in turn. Constant time.
    // No contract specifies the count, since other threads change it.
    pub fn len<R: Wait>(&self, rt: &R) -> usize {
        self.pin(rt).len()
    }

    /// Returns `true` if the map has no pairs. They are counted as by [`HashMap::len`].
    ///
    /// Takes the control's lock, then the lock of each tally in turn. Constant time.
    // No contract specifies the result, since other threads change the count.
    pub fn is_empty<R: Wait>(&self, rt: &R) -> bool {
        self.len(rt) == 0
    }
}

impl<K: Ord + Drop, V: Drop, S: KeyHasher<K>, A: Allocator + Copy> HashMap<K, V, S, A> {
    /// Creates an empty map with a table for `capacity` pairs, with the given hasher. If `capacity` is 0, it has no table.
    ///
    /// Linear in the number of bins.
    ///
    /// # Errors
    ///
    /// Returns [`AllocError`] if memory for the table cannot be allocated.
    pub fn with_capacity_and_hasher(
        alloc: A,
        capacity: usize,
        hasher: S,
    ) -> Result<Self, AllocError>
    where
        S: Drop,
        ensures { IfOk result (λ m. m ≡ record { hasher = hasher; processors = 1 }) }
    {
        let locks = if capacity > 0 {
            Locks::with_table(alloc, wanted_table(capacity))?
        } else {
            Locks::new(alloc)
        };
        Ok(HashMap::of_locks(locks, hasher))
    }

    /// Returns a clone of the value's `Arc`, or `None` if the key is absent.
    ///
    /// Takes the lock of the key's bin for reading, or the control's lock if no table has been published yet. If the bin has moved, the
    /// call continues in the next table; it does not help the growth.
    ///
    /// ```
    /// let map: HashMap<u64, u64> = HashMap::new(rt.alloc());
    /// map.insert(&rt, 37, 1)?;
    /// assert_eq!(rt; map.get(&rt, &37)?.map(|value| *value), Some(1));
    /// assert!(rt; map.get(&rt, &38)?.is_none());
    /// ```
    ///
    /// A key of the type `String` is found by a `&str` too, without a `String` made for it, as [`Query`](flurry_base::query::Query) tells:
    ///
    /// ```
    /// let years: HashMap<String, u64> = HashMap::new(rt.alloc());
    /// years.insert(&rt, String::from_str(rt.alloc(), "Ada")?, 1815)?;
    /// assert_eq!(rt; years.get(&rt, "Ada")?.map(|year| *year), Some(1815));
    /// assert!(rt; years.remove(&rt, "Alan").is_none());
    /// ```
    ///
    /// # Errors
    ///
    /// Returns [`AllocError`] if cloning the `Arc` fails, which it cannot if the key is absent.
    pub fn get<Q: HashedQuery<K, S>, R: Wait>(
        &self,
        rt: &R,
        key: Q,
    ) -> Result<Option<Arc<V, A>>, AllocError>
        ensures { IsAnswerOf K.cmp S.hash_of self.now (Get (Q.stands_for key)) (or_refused value_answer result) }
    {
        self.pin(rt).get(key)
    }

    /// Returns clones of the `Arc`s of the stored key and of its value, or `None` if the key is absent.
    ///
    /// Takes the same locks as [`HashMap::get`].
    ///
    /// # Errors
    ///
    /// Returns [`AllocError`] if cloning an `Arc` fails, which it cannot if the key is absent.
    pub fn get_key_value<Q: HashedQuery<K, S>, R: Wait>(
        &self,
        rt: &R,
        key: Q,
    ) -> Result<Option<(Arc<K, A>, Arc<V, A>)>, AllocError>
        ensures { IsAnswerOf K.cmp S.hash_of self.now (GetKeyValue (Q.stands_for key)) (or_refused pair_answer result) }
    {
        self.pin(rt).get_key_value(key)
    }

    /// Returns `true` if the map has the key. It takes no memory.
    ///
    /// Takes the same locks as [`HashMap::get`].
    ///
    /// ```
    /// let map: HashMap<u64, u64> = HashMap::new(rt.alloc());
    /// map.insert(&rt, 37, 1)?;
    /// assert!(rt; map.contains_key(&rt, &37));
    /// assert!(rt; !map.contains_key(&rt, &38));
    /// ```
    pub fn contains_key<Q: HashedQuery<K, S>, R: Wait>(&self, rt: &R, key: Q) -> bool
        ensures { IsAnswerOf K.cmp S.hash_of self.now (ContainsKey (Q.stands_for key)) (contains_answer result) }
    {
        self.pin(rt).contains_key(key)
    }

    /// Removes the pair of a key, and returns its value, or `None` if the key is absent. The table keeps its size.
    ///
    /// Takes the lock of the key's bin for writing and, if the key was present, then the lock of a tally or of the control, to count. If
    /// the bin has moved, the call helps the growth first.
    ///
    /// ```
    /// let map: HashMap<u64, u64> = HashMap::new(rt.alloc());
    /// map.insert(&rt, 37, 1)?;
    /// assert_eq!(rt; map.remove(&rt, &37).map(|value| *value), Some(1));
    /// assert!(rt; map.remove(&rt, &37).is_none());
    /// ```
    pub fn remove<Q: HashedQuery<K, S>, R: Wait>(&self, rt: &R, key: Q) -> Option<Arc<V, A>>
        ensures { IsAnswerOf K.cmp S.hash_of self.now (Remove (Q.stands_for key)) (value_answer result) }
    {
        self.pin(rt).remove(key)
    }

    /// Removes the pair of a key, and returns the stored key and the value, or `None` if the key is absent. The table keeps its size.
    ///
    /// Takes the same locks as [`HashMap::remove`].
    pub fn remove_entry<Q: HashedQuery<K, S>, R: Wait>(
        &self,
        rt: &R,
        key: Q,
    ) -> Option<(Arc<K, A>, Arc<V, A>)>
        ensures { IsAnswerOf K.cmp S.hash_of self.now (RemoveEntry (Q.stands_for key)) (pair_answer result) }
    {
        self.pin(rt).remove_entry(key)
    }

    /// Removes a pair that an iterator has read, if its value is still the one that was read: nobody has written or removed it since.
    /// Returns that value, or `None` if the pair was not removed. The table keeps its size.
    ///
    /// Takes the same locks as [`HashMap::remove`], and no memory.
    pub fn remove_seen<R: Wait>(&self, rt: &R, seen: Seen<K, V, A>) -> Option<Arc<V, A>>
        ensures { IsAnswerOf K.cmp S.hash_of self.now (RemoveSeen seen) (value_answer result) }
    {
        self.pin(rt).remove_seen(seen)
    }

    /// Sets the value of a key, and returns the old value, or `None` if the key was absent. If the key is present, the stored key stays,
    /// and the argument `key` is dropped. A new key may make the table grow; if memory for the larger table cannot be allocated, the map
    /// stays in the old table.
    ///
    /// Takes the lock of the key's bin for writing and, if the key was absent, then the lock of a tally or of the control, to count. Before
    /// the first table, it takes the control's lock, to make that table. If the bin has moved, or if the pair is counted at the control
    /// while a growth is running, the call helps the growth.
    ///
    /// ```
    /// let map: HashMap<u64, u64> = HashMap::new(rt.alloc());
    /// assert!(rt; map.insert(&rt, 37, 1)?.is_none());
    /// assert_eq!(rt; map.insert(&rt, 37, 2)?.map(|old| *old), Some(1));
    /// ```
    ///
    /// # Errors
    ///
    /// Returns [`AllocError`] if memory for the pair or for a first table cannot be allocated. The call then changes no pair, and the key
    /// and the value are dropped.
    pub fn insert<R: Wait>(&self, rt: &R, key: K, value: V) -> Result<Option<Arc<V, A>>, AllocError>
        ensures { IsAnswerOf K.cmp S.hash_of self.now (Insert key value) (or_refused value_answer result) }
    {
        self.pin(rt).insert(key, value)
    }

    /// Inserts a pair if the key is absent, and returns a clone of the value's `Arc`. If the key is present, nothing changes: the returned
    /// error has the stored value and the argument `value`, and the argument `key` is dropped.
    ///
    /// Takes the same locks as [`HashMap::insert`].
    ///
    /// ```
    /// let map: HashMap<u64, u64> = HashMap::new(rt.alloc());
    /// assert_eq!(rt; map.try_insert(&rt, 37, 1)?.ok().map(|new| *new), Some(1));
    /// let refused = map.try_insert(&rt, 37, 2)?.err();
    /// assert_eq!(rt;
    ///     refused.map(|it| (*it.current, it.not_inserted)),
    ///     Some((1, 2))
    /// );
    /// ```
    ///
    /// # Errors
    ///
    /// Returns [`AllocError`] if memory for the pair or for a first table cannot be allocated, or if cloning the `Arc` of the new or of the
    /// stored value fails. The call then changes no pair, and the key and the value are dropped.
    pub fn try_insert<R: Wait>(
        &self,
        rt: &R,
        key: K,
        value: V,
    ) -> Result<Result<Arc<V, A>, TryInsertError<V, A>>, AllocError>
        ensures answer { IsAnswerOf K.cmp S.hash_of self.now (TryInsert key value) (or_refused added_answer result) }
        ensures added { CanAdd {K = K} value (or_refused added_answer result) }
    {
        self.pin(rt).try_insert(key, value)
    }

    /// Calls `f` once on the stored key and its value if the key is present, and stores what `f` returns as the new value. Returns the new
    /// value. If `f` returns `None`, the pair is removed, and `None` is returned. If the key is absent, `f` is not called, no memory is
    /// taken, and `None` is returned. The table keeps its size.
    ///
    /// `f` runs while the key's bin is locked, as nothing else of the caller's does but the order and the equality of keys. It must not call
    /// this map, since a call with a key of the same bin would wait for itself, nor wait for a thread that does; nor must the `drop` of what
    /// it captures. What is replaced or removed is dropped after the bin is unlocked. Takes the same locks as [`HashMap::remove`].
    ///
    /// ```
    /// let map: HashMap<u64, u64> = HashMap::new(rt.alloc());
    /// map.insert(&rt, 37, 1)?;
    /// let new = map.compute_if_present(&rt, &37, |_key: &u64, value: &u64| -> Option<u64> {
    ///     Some(value.saturating_add(1))
    /// })?;
    /// assert_eq!(rt; new.map(|new| *new), Some(2));
    ///
    /// // `None` removes the pair
    /// map.compute_if_present(&rt, &37, |_key: &u64, _value: &u64| -> Option<u64> { None })?;
    /// assert!(rt; map.is_empty(&rt));
    /// ```
    ///
    /// # Errors
    ///
    /// Returns [`AllocError`] if memory for the new value cannot be allocated, or if cloning its `Arc` fails. `f` has been called then; the
    /// value that it computed is dropped, and the pair is unchanged.
    pub fn compute_if_present<Q: HashedQuery<K, S>, F: FnOnce(&K, &V) -> Option<V> + Drop, R: Wait>(
        &self,
        rt: &R,
        key: Q,
        f: F,
    ) -> Result<Option<Arc<V, A>>, AllocError>
        requires { F.IsAlwaysCallable f }
        ensures answer { IsAnswerWith (AnswersIfPresent F.FnOnce) K.cmp S.hash_of self.now
            (Compute (Q.stands_for key) f) (or_refused value_answer result) }
        ensures computed { CanCompute (AnswersIfPresent F.FnOnce f) (or_refused value_answer result) }
    {
        self.pin(rt).compute_if_present(key, f)
    }

    /// Grows the table so that `additional` more pairs fit than the map then counts. If another growth is running, it returns at once. A
    /// clear that runs meanwhile counts at its end, so beside one the table can become larger than the pairs need.
    ///
    /// Each doubling moves every pair. Takes the control's lock, and the locks of the bins that it moves. A table is doubled until it is large
    /// enough, has 2^30 bins, or memory for the next one cannot be allocated; so a request of `usize::MAX` pairs may take most of the memory.
    ///
    /// # Errors
    ///
    /// Returns [`AllocError`] if memory for a table cannot be allocated. The pairs stay, and so do the doublings that were done.
    pub fn reserve<R: Wait>(&self, rt: &R, additional: usize) -> Result<(), AllocError>
        ensures { IsAnswerOf K.cmp S.hash_of self.now (Reserve additional) (or_refused ended_answer result) }
    {
        self.pin(rt).reserve(additional)
    }

    /// Removes all pairs, one bin after another. Other calls may insert pairs meanwhile; those in bins that are already cleared remain.
    ///
    /// Linear in the number of bins and pairs. Takes the lock of each bin in turn, and then the control's lock; takes no memory. The pairs of a
    /// bin are dropped after it is unlocked, and the removals are counted at the end.
    ///
    /// ```
    /// let map: HashMap<u64, u64> = HashMap::new(rt.alloc());
    /// map.insert(&rt, 37, 1)?;
    /// map.clear(&rt);
    /// assert!(rt; map.is_empty(&rt));
    /// ```
    pub fn clear<R: Wait>(&self, rt: &R)
        ensures { IsAnswerOf K.cmp S.hash_of self.now Clear (ended_answer tt) }
    {
        self.pin(rt).clear();
    }

    /// Calls `f` on the stored key and the value of each pair that [`HashMap::iter`] gives, and removes the pairs for which it returns
    /// `false`. A pair whose value was written or removed since the iterator read it is left as it is.
    ///
    /// `f` runs while no lock is held, so it may call this map. One removal for each pair for which `f` returns `false`, besides the walk.
    /// Takes the locks of the walk, and those of [`HashMap::remove`].
    ///
    /// ```
    /// let map: HashMap<u64, u64> = HashMap::new(rt.alloc());
    /// map.insert(&rt, 37, 1)?;
    /// map.insert(&rt, 38, 2)?;
    /// map.retain(&rt, |key: &u64, _value: &u64| -> bool { *key % 2 == 0 })?;
    /// assert!(rt; !map.contains_key(&rt, &37));
    /// assert!(rt; map.contains_key(&rt, &38));
    /// ```
    ///
    /// # Errors
    ///
    /// Returns [`AllocError`] if cloning an `Arc` fails. The pairs that were already removed stay removed.
    pub fn retain<F: FnMut(&K, &V) -> bool, R: Wait>(&self, rt: &R, f: F) -> Result<(), AllocError>
    where
        F: Drop,
        requires { F.IsAlwaysCallable f }
        ensures { OnOk result ((last : F)
            × FoldsWalk K.cmp (KeepsOrRemoves F.step (RemovesSeen K.cmp S.hash_of self.now)) f last) }
    {
        self.pin(rt).retain(f)
    }

    /// Calls `f` on the stored key and the value of each pair that [`HashMap::iter`] gives, and removes the keys for which it returns
    /// `false`, with any value that they then have. Unlike [`HashMap::retain`], it also removes a value that was written since the iterator
    /// read the pair.
    ///
    /// `f` runs while no lock is held, so it may call this map. One removal for each pair for which `f` returns `false`, besides the walk.
    /// Takes the locks of the walk, and those of [`HashMap::remove`].
    ///
    /// # Errors
    ///
    /// Returns [`AllocError`] if cloning an `Arc` fails. The pairs that were already removed stay removed.
    pub fn retain_force<F: FnMut(&K, &V) -> bool, R: Wait>(
        &self,
        rt: &R,
        f: F,
    ) -> Result<(), AllocError>
    where
        F: Drop,
        requires { F.IsAlwaysCallable f }
        ensures { OnOk result ((last : F)
            × FoldsWalk K.cmp (KeepsOrRemoves F.step (RemovesKey K.cmp S.hash_of self.now)) f last) }
    {
        self.pin(rt).retain_force(f)
    }

    /// Returns an iterator over the pairs. Other calls may run meanwhile.
    ///
    /// Takes the control's lock if no table is known to be published. Takes no memory. Constant time.
    // No contract specifies which pairs it gives, since other threads change them meanwhile.
    pub fn iter<'m, R: Wait>(&'m self, rt: &'m R) -> Iter<'m, R, K, V, A>
        ensures { Begins K.cmp result }
    {
        self.pin(rt).iter()
    }

    /// Returns an iterator over the keys. It visits the pairs as [`HashMap::iter`] does.
    pub fn keys<'m, R: Wait>(&'m self, rt: &'m R) -> Keys<'m, R, K, V, A>
        ensures { Begins K.cmp result }
    {
        self.pin(rt).keys()
    }

    /// Returns an iterator over the values. It visits the pairs as [`HashMap::iter`] does.
    pub fn values<'m, R: Wait>(&'m self, rt: &'m R) -> Values<'m, R, K, V, A>
        ensures { Begins K.cmp result }
    {
        self.pin(rt).values()
    }
}
