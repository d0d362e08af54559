//! The view of a shared map.
ghost use Rattle.std.specs.Prelude.{◌≡◌};
ghost use Rattle.flurry_steps_sweep.specs.OutcomeView.{outcome_of};
ghost use Rattle.flurry_base.specs.OneKey.{hash_of_call};
ghost use Rattle.flurry_shared_view.specs.SharedAnswers.{IsAnswerOf, IsAnswerWith, added_answer, contains_answer, ended_answer, or_refused, pair_answer, value_answer};
ghost use Rattle.flurry_base.specs.declared.call.Call.TheVariants.{Get, GetKeyValue, ContainsKey, Insert, TryInsert, Compute, Remove, RemoveEntry, RemoveSeen, Reserve, Clear};
ghost use Rattle.flurry_shared_replies.specs.Answers.{CanAnswerFrom, CanAdd, CanCompute};
ghost use Rattle.flurry_shared_replies.specs.Replies.{RepliesFrom};
ghost use Rattle.flurry_bins_slots.specs.ComputeFn.{AnswersIfPresent};
ghost use Rattle.flurry_steps_stages.specs.CallView.{CallIsReady, plain_call};
ghost use Rattle.flurry_steps_stages.specs.Stage.{stage_of_call};

use flurry_base::hash::{DefaultHashBuilder, KeyHasher};
use flurry_base::query::HashedQuery;
use flurry_base::try_insert::TryInsertError;
use flurry_bins_slots::{ComputeFn, NoFn};
use flurry_shared_locks::{LockField, Locks};
use flurry_shared_replies::reply_to;
use flurry_steps::party::{Call, Reply};
use flurry_steps_sweep::Seen;
use std::alloc::{AllocError, Allocator, Global};
use std::marker::Model;
use std::sync::{Arc, Wait};

/// A view of a map that threads share. It borrows the map and the runtime by which its calls wait, so they do not take one as an argument.
///
/// Every call is done in steps. Each step holds the lock of what it reads or changes: of one bin, of the bins of one move, or of the
/// control, the state that all calls agree upon. No step waits for a lock of the control while it holds one of a bin. A one-key call has
/// one deciding step, under the lock of one bin. It hashes the key once, and visits at most `max(9, 2 * d)` pairs of a bin of `n` pairs,
/// where `d` is the number of binary digits of `n + 1`. Keys and values are dropped while no lock is held.
///
/// ```
/// let view = map.pin(rt);
/// view.remove(&key).is_some() && !view.contains_key(&key)
/// ```
#[derive(Drop)]
pub struct HashMapRef<
    'm,
    R,
    K: Ord,
    V,
    S: KeyHasher<K> = DefaultHashBuilder,
    A: Allocator = Global,
> {
    pub(crate) lock_field: LockField<'m, R, K, V, A>,
    hasher: &'m S,
    processors: usize,
}

impl<'m, R, K: Ord, V, S: KeyHasher<K>, A: Allocator> Model for HashMapRef<'m, R, K, V, S, A> {
    ghost use Rattle.flurry_shared_view.specs.SharedAnswers.{MapSettings};

    ghost Value = { MapSettings K V S };

    ghost view = { λ m. record { hasher = m.hasher.now; processors = m.processors } };
}

impl<'m, R, K: Ord, V, S: KeyHasher<K>, A: Allocator> HashMapRef<'m, R, K, V, S, A> {
    /// Creates a view of the map whose parts are under `locks`, with the map's hasher. A growth is divided among `processors` threads; `0`
    /// means 1. Constant time; takes no memory.
    pub fn new(rt: &'m R, locks: &'m Locks<K, V, A>, hasher: &'m S, processors: usize) -> Self
        ensures { result ≡ record { hasher = hasher.now; processors = processors } }
    {
        HashMapRef {
            lock_field: LockField::new(rt, locks),
            hasher,
            processors,
        }
    }

    /// Returns the runtime by which the view's calls wait. Constant time.
    pub fn runtime(&self) -> &'m R {
        self.lock_field.runtime()
    }

    /// Returns the number of threads among which a growth is divided; `0` means 1. Constant time.
    pub fn processors(&self) -> usize
        ensures { result ≡ self.now.processors }
    {
        self.processors
    }

    /// Returns another view of the same map. Constant time; takes no memory.
    pub fn reborrow(&self) -> Self
        ensures { result ≡ self.now }
    {
        HashMapRef {
            lock_field: self.lock_field.reborrow(),
            hasher: self.hasher,
            processors: self.processors,
        }
    }
}

impl<'m, R: Wait, K: Ord, V, S: KeyHasher<K>, A: Allocator> HashMapRef<'m, R, K, V, S, A> {
    /// Returns the number of pairs, counted at one moment during the call. A concurrent call that has already taken effect may not be
    /// counted yet. A clear counts what it removed at its end, so beside one the result can be far above the number of pairs present.
    ///
    /// Takes the control's lock, then the lock of each tally in turn. Constant time.
    // No contract specifies the count, since other threads change it.
    pub fn len(&self) -> usize {
        self.lock_field.len()
    }

    /// Returns `true` if the map has no pairs. They are counted as by [`HashMapRef::len`].
    ///
    /// Takes the control's lock, then the lock of each tally in turn. Constant time.
    // No contract specifies the result, since other threads change the count.
    pub fn is_empty(&self) -> bool {
        self.len() == 0
    }
}

impl<'m, R: Wait, K: Ord + Drop, V: Drop, S: KeyHasher<K>, A: Allocator + Copy> HashMapRef<
    'm,
    R,
    K,
    V,
    S,
    A,
> {
    /// Returns a clone of the value's `Arc`, or `None` if the key is absent.
    ///
    /// Takes the lock of the key's bin for reading, or the control's lock if no table has been published yet. If the bin has moved, the
    /// call continues in the next table; it does not help the growth.
    ///
    /// ```
    /// let map: HashMap<u64, u64> = HashMap::new(rt.alloc());
    /// let view = map.pin(&rt);
    /// view.insert(37, 1)?;
    /// assert_eq!(rt; view.get(&37)?.map(|value| *value), Some(1));
    /// assert!(rt; view.get(&38)?.is_none());
    /// ```
    ///
    /// A key of the type `String` is found by a `&str` too, without a `String` made for it, as [`Query`](flurry_base::query::Query) tells:
    ///
    /// ```
    /// let years: HashMap<String, u64> = HashMap::new(rt.alloc());
    /// let view = years.pin(&rt);
    /// view.insert(String::from_str(rt.alloc(), "Ada")?, 1815)?;
    /// assert_eq!(rt; view.get("Ada")?.map(|year| *year), Some(1815));
    /// assert!(rt; view.remove("Alan").is_none());
    /// ```
    ///
    /// # Errors
    ///
    /// Returns [`AllocError`] if cloning the `Arc` fails, which it cannot if the key is absent.
    pub fn get<Q: HashedQuery<K, S>>(&self, key: Q) -> Result<Option<Arc<V, A>>, AllocError>
        ensures { IsAnswerOf K.cmp S.hash_of self.now (Get (Q.stands_for key)) (or_refused value_answer result) }
    {
        let call: Call<Q, K, V, NoFn, A> = Call::Get(key);
        match self.run(call) {
            Reply::Value(value) => Ok(value),
            Reply::Refused => Err(AllocError),
            _ => unreachable!(),
        }
    }

    /// Returns clones of the `Arc`s of the stored key and of its value, or `None` if the key is absent.
    ///
    /// Takes the same locks as [`HashMapRef::get`].
    ///
    /// # Errors
    ///
    /// Returns [`AllocError`] if cloning an `Arc` fails, which it cannot if the key is absent.
    pub fn get_key_value<Q: HashedQuery<K, S>>(
        &self,
        key: Q,
    ) -> Result<Option<(Arc<K, A>, Arc<V, A>)>, AllocError>
        ensures { IsAnswerOf K.cmp S.hash_of self.now (GetKeyValue (Q.stands_for key)) (or_refused pair_answer result) }
    {
        let call: Call<Q, K, V, NoFn, A> = Call::GetKeyValue(key);
        match self.run(call) {
            Reply::Pair(pair) => Ok(pair),
            Reply::Refused => Err(AllocError),
            _ => unreachable!(),
        }
    }

    /// Returns `true` if the map has the key. It takes no memory.
    ///
    /// Takes the same locks as [`HashMapRef::get`].
    ///
    /// ```
    /// let map: HashMap<u64, u64> = HashMap::new(rt.alloc());
    /// let view = map.pin(&rt);
    /// view.insert(37, 1)?;
    /// assert!(rt; view.contains_key(&37));
    /// assert!(rt; !view.contains_key(&38));
    /// ```
    pub fn contains_key<Q: HashedQuery<K, S>>(&self, key: Q) -> bool
        ensures { IsAnswerOf K.cmp S.hash_of self.now (ContainsKey (Q.stands_for key)) (contains_answer result) }
    {
        let call: Call<Q, K, V, NoFn, A> = Call::ContainsKey(key);
        match self.run(call) {
            Reply::Contains(found) => found,
            _ => unreachable!(),
        }
    }

    /// Removes the pair of a key, and returns its value, or `None` if the key is absent. The table keeps its size.
    ///
    /// Takes the lock of the key's bin for writing and, if the key was present, then the lock of a tally or of the control, to count. If
    /// the bin has moved, the call helps the growth first.
    ///
    /// ```
    /// let map: HashMap<u64, u64> = HashMap::new(rt.alloc());
    /// let view = map.pin(&rt);
    /// view.insert(37, 1)?;
    /// assert_eq!(rt; view.remove(&37).map(|value| *value), Some(1));
    /// assert!(rt; view.remove(&37).is_none());
    /// ```
    pub fn remove<Q: HashedQuery<K, S>>(&self, key: Q) -> Option<Arc<V, A>>
        ensures { IsAnswerOf K.cmp S.hash_of self.now (Remove (Q.stands_for key)) (value_answer result) }
    {
        let call: Call<Q, K, V, NoFn, A> = Call::Remove(key);
        match self.run(call) {
            Reply::Value(value) => value,
            _ => unreachable!(),
        }
    }

    /// Removes the pair of a key, and returns the stored key and the value, or `None` if the key is absent. The table keeps its size.
    ///
    /// Takes the same locks as [`HashMapRef::remove`].
    pub fn remove_entry<Q: HashedQuery<K, S>>(&self, key: Q) -> Option<(Arc<K, A>, Arc<V, A>)>
        ensures { IsAnswerOf K.cmp S.hash_of self.now (RemoveEntry (Q.stands_for key)) (pair_answer result) }
    {
        let call: Call<Q, K, V, NoFn, A> = Call::RemoveEntry(key);
        match self.run(call) {
            Reply::Pair(pair) => pair,
            _ => unreachable!(),
        }
    }

    /// Removes a pair that an iterator has read, if its value is still the one that was read: nobody has written or removed it since.
    /// Returns that value, or `None` if the pair was not removed. The table keeps its size.
    ///
    /// Takes the same locks as [`HashMapRef::remove`], and no memory.
    pub fn remove_seen<'s>(&'s self, seen: Seen<K, V, A>) -> Option<Arc<V, A>>
        ensures { IsAnswerOf K.cmp S.hash_of self.now (RemoveSeen seen) (value_answer result) }
    {
        let call: Call<&K, K, V, NoFn, A> = Call::RemoveSeen(seen);
        match self.run(call) {
            Reply::Value(removed) => removed,
            _ => unreachable!(),
        }
    }

    /// Sets the value of a key, and returns the old value, or `None` if the key was absent. If the key is present, the stored key stays,
    /// and the argument `key` is dropped. A new key may make the table grow; if memory for the larger table cannot be allocated, the map
    /// stays in the old table.
    ///
    /// Takes the lock of the key's bin for writing and, if the key was absent, then the lock of a tally or of the control, to count. Before
    /// the first table, it takes the control's lock, to make that table. If the bin has moved, or if the pair is counted at the control
    /// while a growth is running, the call helps the growth.
    ///
    /// ```
    /// let map: HashMap<u64, u64> = HashMap::new(rt.alloc());
    /// let view = map.pin(&rt);
    /// assert!(rt; view.insert(37, 1)?.is_none());
    /// assert_eq!(rt; view.insert(37, 2)?.map(|old| *old), Some(1));
    /// ```
    ///
    /// # Errors
    ///
    /// Returns [`AllocError`] if memory for the pair or for a first table cannot be allocated. The call then changes no pair, and the key
    /// and the value are dropped.
    pub fn insert<'s>(&'s self, key: K, value: V) -> Result<Option<Arc<V, A>>, AllocError>
        ensures { IsAnswerOf K.cmp S.hash_of self.now (Insert key value) (or_refused value_answer result) }
    {
        let Ok(value) = Arc::new(self.lock_field.allocator(), value) else {
            return Err(AllocError);
        };
        let call: Call<&K, K, V, NoFn, A> = Call::Insert(key, value);
        match self.run(call) {
            Reply::Value(value) => Ok(value),
            Reply::Refused => Err(AllocError),
            _ => unreachable!(),
        }
    }

    /// Inserts a pair if the key is absent, and returns a clone of the value's `Arc`. If the key is present, nothing changes: the returned
    /// error has the stored value and the argument `value`, and the argument `key` is dropped.
    ///
    /// Takes the same locks as [`HashMapRef::insert`].
    ///
    /// ```
    /// let map: HashMap<u64, u64> = HashMap::new(rt.alloc());
    /// let view = map.pin(&rt);
    /// assert_eq!(rt; view.try_insert(37, 1)?.ok().map(|new| *new), Some(1));
    /// let refused = view.try_insert(37, 2)?.err();
    /// assert_eq!(rt;
    ///     refused.map(|it| (*it.current, it.not_inserted)),
    ///     Some((1, 2))
    /// );
    /// ```
    ///
    /// # Errors
    ///
    /// Returns [`AllocError`] if memory for the pair or for a first table cannot be allocated, or if cloning the `Arc` of the new or of the
    /// stored value fails. The call then changes no pair, and the key and the value are dropped.
    pub fn try_insert<'s>(
        &'s self,
        key: K,
        value: V,
    ) -> Result<Result<Arc<V, A>, TryInsertError<V, A>>, AllocError>
        ensures answer { IsAnswerOf K.cmp S.hash_of self.now (TryInsert key value) (or_refused added_answer result) }
        ensures added { CanAdd {K = K} value (or_refused added_answer result) }
    {
        let call: Call<&K, K, V, NoFn, A> = Call::TryInsert(key, value);
        match self.run(call) {
            Reply::New(value) => Ok(Ok(value)),
            Reply::Exists(error) => Ok(Err(error)),
            Reply::Refused => Err(AllocError),
            _ => unreachable!(),
        }
    }

    /// Calls `f` once on the stored key and its value if the key is present, and stores what `f` returns as the new value. Returns the new
    /// value. If `f` returns `None`, the pair is removed, and `None` is returned. If the key is absent, `f` is not called, no memory is
    /// taken, and `None` is returned. The table keeps its size.
    ///
    /// `f` runs while the key's bin is locked, as nothing else of the caller's does but the order and the equality of keys. It must not call
    /// this map, since a call with a key of the same bin would wait for itself, nor wait for a thread that does; nor must the `drop` of what
    /// it captures. What is replaced or removed is dropped after the bin is unlocked. Takes the same locks as [`HashMapRef::remove`].
    ///
    /// ```
    /// let map: HashMap<u64, u64> = HashMap::new(rt.alloc());
    /// let view = map.pin(&rt);
    /// view.insert(37, 1)?;
    /// let new = view.compute_if_present(&37, |_key: &u64, value: &u64| -> Option<u64> {
    ///     Some(value.saturating_add(1))
    /// })?;
    /// assert_eq!(rt; new.map(|new| *new), Some(2));
    ///
    /// // `None` removes the pair
    /// view.compute_if_present(&37, |_key: &u64, _value: &u64| -> Option<u64> { None })?;
    /// assert!(rt; view.is_empty());
    /// ```
    ///
    /// # Errors
    ///
    /// Returns [`AllocError`] if memory for the new value cannot be allocated, or if cloning its `Arc` fails. `f` has been called then; the
    /// value that it computed is dropped, and the pair is unchanged.
    pub fn compute_if_present<Q: HashedQuery<K, S>, F: FnOnce(&K, &V) -> Option<V> + Drop>(
        &self,
        key: Q,
        f: F,
    ) -> Result<Option<Arc<V, A>>, AllocError>
        requires { F.IsAlwaysCallable f }
        ensures answer { IsAnswerWith (AnswersIfPresent F.FnOnce) K.cmp S.hash_of self.now
            (Compute (Q.stands_for key) f) (or_refused value_answer result) }
        ensures computed { CanCompute (AnswersIfPresent F.FnOnce f) (or_refused value_answer result) }
    {
        match self.run(Call::Compute(key, f)) {
            Reply::Value(value) => Ok(value),
            Reply::Refused => Err(AllocError),
            _ => unreachable!(),
        }
    }

    /// Grows the table so that `additional` more pairs fit than the map then counts. If another growth is running, it returns at once. A
    /// clear that runs meanwhile counts at its end, so beside one the table can become larger than the pairs need.
    ///
    /// Each doubling moves every pair. Takes the control's lock, and the locks of the bins that it moves. A table is doubled until it is large
    /// enough, has 2^30 bins, or memory for the next one cannot be allocated; so a request of `usize::MAX` pairs may take most of the memory.
    ///
    /// # Errors
    ///
    /// Returns [`AllocError`] if memory for a table cannot be allocated. The pairs stay, and so do the doublings that were done.
    pub fn reserve<'s>(&'s self, additional: usize) -> Result<(), AllocError>
        ensures { IsAnswerOf K.cmp S.hash_of self.now (Reserve additional) (or_refused ended_answer result) }
    {
        let call: Call<&K, K, V, NoFn, A> = Call::Reserve(additional);
        match self.run(call) {
            Reply::Ended => Ok(()),
            Reply::Refused => Err(AllocError),
            _ => unreachable!(),
        }
    }

    /// Removes all pairs, one bin after another. Other calls may insert pairs meanwhile; those in bins that are already cleared remain.
    ///
    /// Linear in the number of bins and pairs. Takes the lock of each bin in turn, and then the control's lock; takes no memory. The pairs of a
    /// bin are dropped after it is unlocked, and the removals are counted at the end.
    ///
    /// ```
    /// let map: HashMap<u64, u64> = HashMap::new(rt.alloc());
    /// let view = map.pin(&rt);
    /// view.insert(37, 1)?;
    /// view.clear();
    /// assert!(rt; view.is_empty());
    /// ```
    pub fn clear<'s>(&'s self)
        ensures { IsAnswerOf K.cmp S.hash_of self.now Clear (ended_answer tt) }
    {
        let call: Call<&K, K, V, NoFn, A> = Call::Clear;
        match self.run(call) {
            Reply::Ended => {}
            _ => unreachable!(),
        }
    }

    // Does the steps of `call` over the locks. It is copied into each caller together with its first steps, which then do not ask which
    // call it is.
    #[inline(always)]
    pub(crate) fn run<Q: HashedQuery<K, S>, F: ComputeFn<K, V>>(
        &self,
        call: Call<Q, K, V, F, A>,
    ) -> Reply<K, V, A>
        requires { CallIsReady F.can_change F.never_keeps call }
        ensures driven { RepliesFrom K.cmp F.changes (hash_of_call (S.hash_of self.now.hasher)
            (plain_call Q.stands_for call))
            self.now.processors (stage_of_call (plain_call Q.stands_for call)) result }
        ensures answers { CanAnswerFrom F.changes (stage_of_call (plain_call Q.stands_for call))
            (outcome_of result) }
    {
        let hash = call.hash_by(self.hasher);
        reply_to(&self.lock_field, call, hash, self.processors)
    }
}
