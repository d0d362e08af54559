//! Calls of an owned map that change a pair by a function of the caller's.
ghost use Rattle.std.specs.Prelude.{◌≡◌, ◌<◌, ◌+◌, length, OnOk, OnErr, IfOk, IfSome, MatchBool, MatchOption, MatchResult, Bool, false, Option, Some, None, Ok, Err, IsSome, IsNone, IsOkAnd};
ghost use Rattle.std.specs.Option.{option_copied, option_map, ForSome};
ghost use Rattle.std.specs.Arc.{arc_value};
ghost use Rattle.std.specs.Borrow.{Bor};
ghost use Rattle.flurry_base.specs.Changes.{IsChange, with_or_without};
ghost use Rattle.flurry_base.specs.FiniteMap.{IsFiniteMap, pair_at, value_at, stored_key, with_pair, without};
ghost use Rattle.flurry_base.specs.declared.sizes.TheConstants.{FIRST_BINS};
ghost use Rattle.flurry_seq.specs.Callable.{IsCallableAt, AnswersAt, IsCallableOn, AnswersOn};
ghost use Rattle.flurry_seq.specs.Contents.{with_pairs, first_bins};
ghost use Rattle.flurry_seq.specs.Growth.{IsTableAfter, IsTableAfterChange};

use super::SeqMap;
use flurry_base::Change;
use flurry_base::hash::KeyHasher;
use flurry_base::query::HashedQuery;
use flurry_bins::bin::Node;
use flurry_bins_insertion::table::new_arc_pair;
use std::alloc::{AllocError, Allocator};
use std::sync::Arc;

impl<K: Ord + Drop, V: Drop, S: KeyHasher<K>, A: Allocator> SeqMap<K, V, S, A> {
    /// Calls `test` once on the stored key and the value of `key`, if it is present. If `test` returns `true`, removes the pair, and
    /// returns its value. Otherwise the map is unchanged, and `None` is returned; if the key is absent, `test` is not called. The size of
    /// the table does not change. The precondition of `test` needs to hold for that one pair only.
    ///
    /// ```
    /// let mut map: SeqMap<u64, u64> = SeqMap::new(rt.alloc());
    /// map.insert(37, 1)?;
    /// let kept = map.remove_if(&37, |_key: &u64, value: &u64| -> bool { *value > 1 });
    /// assert!(rt; kept.is_none());
    /// let removed = map.remove_if(&37, |_key: &u64, value: &u64| -> bool { *value == 1 });
    /// assert_eq!(rt; removed.map(|value| *value), Some(1));
    /// assert!(rt; map.is_empty());
    /// ```
    pub fn remove_if<Q: HashedQuery<K, S>, F: FnOnce(&K, &V) -> bool>(
        &mut self,
        key: Q,
        test: F,
    ) -> Option<Arc<V, A>>
    where
        F: Drop,
        requires { ForSome (pair_at K.cmp self.old.pairs (Q.stands_for key)) (IsCallableAt F.pre test) }
        ensures absent { pair_at K.cmp self.old.pairs (Q.stands_for key) ≡ None
            → (result ≡ None) × (self.new ≡ self.old) }
        ensures present { IfSome (pair_at K.cmp self.old.pairs (Q.stands_for key)) (λ p.
            (says : Bool) × AnswersAt F.post test p says × MatchBool says
            ((option_map arc_value result ≡ Some p.1)
            × (self.new ≡ with_pairs self.old (without K.cmp self.old.pairs (Q.stands_for key))))
            ((result ≡ None) × (self.new ≡ self.old))) }
        ensures ascend { IsFiniteMap K.cmp self.old.pairs }
    {
        let hash = self.hash_of(key);
        if !self.passes(hash, key, test) {
            return None;
        }
        let (_, value) = self.take(hash, key)?;
        Some(value)
    }

    // Whether a key whose hash is `hash` is present, and `test` returns `true` for its pair. If the key is absent, `test` is not called.
    fn passes<Q: HashedQuery<K, S>, F: FnOnce(&K, &V) -> bool>(
        &self,
        hash: u64,
        key: Q,
        test: F,
    ) -> bool
    where
        F: Drop,
        requires hash { hash ≡ S.hash_of self.now.hasher (Q.stands_for key) }
        requires callable { ForSome (pair_at K.cmp self.now.pairs (Q.stands_for key)) (IsCallableAt F.pre test) }
        ensures { MatchOption (pair_at K.cmp self.now.pairs (Q.stands_for key)) (result ≡ false)
            (λ p. AnswersAt F.post test p result) }
    {
        match self.find(hash, key) {
            Some(entry) => test(&entry.key, &entry.value),
            None => false,
        }
    }
}

impl<K: Ord + Drop, V: Drop, S: KeyHasher<K>, A: Allocator + Copy> SeqMap<K, V, S, A> {
    /// Calls `f` once: on the stored key and `Some` of the value, if the key is present, or else on `key` and `None`. What `f` returns
    /// becomes the key's value. If `f` returns `None`, the pair is removed, or none is inserted. Returns what was done, with a clone of the
    /// `Arc` of a new value, or with the value that was removed. If the key is present, the stored key stays, and `key` is dropped. Only a
    /// new key may enlarge the table, as in [`SeqMap::insert`]. The precondition of `f` needs to hold for that one call only.
    ///
    /// ```
    /// let mut map: SeqMap<u64, u64> = SeqMap::new(rt.alloc());
    /// for _ in 0..3 {
    ///     map.compute(37, |_key: &u64, old: Option<&u64>| -> Option<u64> {
    ///         match old {
    ///             Some(count) => Some(count.saturating_add(1)),
    ///             None => Some(1),
    ///         }
    ///     })?;
    /// }
    /// assert_eq!(rt; map.get(&37).map(|count| **count), Some(3));
    ///
    /// // `None` removes the pair
    /// let change = map.compute(37, |_key: &u64, _old: Option<&u64>| -> Option<u64> { None })?;
    /// assert!(rt; matches!(change, Change::Removed(_)));
    /// assert!(rt; map.is_empty());
    /// ```
    ///
    /// # Errors
    ///
    /// Returns [`AllocError`] in the cases of [`SeqMap::insert`], and also if cloning the `Arc` of the new value fails. `f` has been called
    /// by then; the value that it returned is dropped, and the map is unchanged. If `f` returns `None`, there is no error.
    pub fn compute<F: FnOnce(&K, Option<&V>) -> Option<V>>(
        &mut self,
        key: K,
        f: F,
    ) -> Result<Change<V, A>, AllocError>
    where
        F: Drop,
        requires { IsCallableOn F.pre f (stored_key K.cmp self.old.pairs key) (value_at K.cmp self.old.pairs key) }
        ensures reply { (answer : Option V)
            × AnswersOn F.post f (stored_key K.cmp self.old.pairs key) (value_at K.cmp self.old.pairs key) answer
            × MatchResult result
            (λ c. IsChange (value_at K.cmp self.old.pairs key) answer c
            × (self.new.pairs ≡ with_or_without K.cmp self.old.pairs key answer))
            (λ _. IsSome answer × (self.new ≡ self.old)) }
        ensures bins { IfOk result (λ c. IsTableAfterChange c self.old.bins (length self.new.pairs) self.new.bins) }
        ensures hasher { self.new.hasher ≡ self.old.hasher }
        ensures err { OnErr result (self.new ≡ self.old) }
        ensures ascend { IsFiniteMap K.cmp self.old.pairs }
    {
        let hash = self.hash_of(&key);
        let computed = match self.find(hash, &key) {
            Some(entry) => f(&entry.key, Some(&entry.value)),
            None => return self.compute_new(hash, key, f),
        };
        self.change_present(hash, &key, computed)
    }

    // Calls `f` on an absent key whose hash is `hash`, and on none, and adds the key with the value that `f` returns.
    fn compute_new<F: FnOnce(&K, Option<&V>) -> Option<V>>(
        &mut self,
        hash: u64,
        key: K,
        f: F,
    ) -> Result<Change<V, A>, AllocError>
    where
        F: Drop,
        requires hash { hash ≡ S.hash_of self.old.hasher key }
        requires absent { pair_at K.cmp self.old.pairs key ≡ None }
        requires callable { IsCallableOn F.pre f key None }
        ensures reply { (answer : Option V) × AnswersOn F.post f key None answer × MatchResult result
            (λ c. IsChange None answer c × (self.new.pairs ≡ with_or_without K.cmp self.old.pairs key answer))
            (λ _. IsSome answer × (self.new ≡ self.old)) }
        ensures bins { IfOk result (λ c. IsTableAfterChange c self.old.bins (length self.new.pairs) self.new.bins) }
        ensures hasher { self.new.hasher ≡ self.old.hasher }
        ensures err { OnErr result (self.new ≡ self.old) }
    {
        match call_on(f, &key, None) {
            Some(value) => Ok(Change::Added(self.add_pair(hash, key, value)?)),
            None => Ok(Change::Absent),
        }
    }

    /// Returns a clone of the `Arc` of the key's value. If the key is absent, calls `f` once on it first, and inserts what `f` returns; a
    /// new key may enlarge the table, as in [`SeqMap::insert`]. If the key is present, `f` is not called, nothing changes, and `key` is
    /// dropped. The precondition of `f` needs to hold for `key` only, and only if it is absent.
    ///
    /// ```
    /// let mut map: SeqMap<u64, u64> = SeqMap::new(rt.alloc());
    /// let new = map.get_or_insert_with(37, |key: &u64| -> u64 { *key / 2 })?;
    /// assert_eq!(rt; *new, 18);
    /// let old = map.get_or_insert_with(37, |_key: &u64| -> u64 { 0 })?;
    /// assert_eq!(rt; *old, 18);
    /// ```
    ///
    /// # Errors
    ///
    /// Returns [`AllocError`] in the cases of [`SeqMap::insert`] if the key is absent, and also if cloning the `Arc` of the value fails.
    /// The map is unchanged. If the key is absent, `f` has been called by then, and the value that it returned is dropped.
    pub fn get_or_insert_with<F: FnOnce(&K) -> V>(
        &mut self,
        key: K,
        f: F,
    ) -> Result<Arc<V, A>, AllocError>
    where
        F: Drop,
        requires { pair_at K.cmp self.old.pairs key ≡ None → (k : Bor K) → k.now ≡ key → F.pre f k }
        ensures present { IfSome (value_at K.cmp self.old.pairs key) (λ v.
            IfOk result (λ current. arc_value current ≡ v) × (self.new ≡ self.old)) }
        ensures absent { value_at K.cmp self.old.pairs key ≡ None
            → (value : V) × ((k : Bor K) × (k.now ≡ key) × F.post f k value) × MatchResult result
            (λ new. (arc_value new ≡ value) × (self.new.pairs ≡ with_pair K.cmp self.old.pairs key value))
            (λ _. self.new ≡ self.old) }
        ensures grown { value_at K.cmp self.old.pairs key ≡ None
            → OnOk result (IsTableAfter (first_bins self.old.bins FIRST_BINS) (length self.new.pairs) self.new.bins) }
        ensures hasher { self.new.hasher ≡ self.old.hasher }
        ensures err { OnErr result (self.new ≡ self.old) }
        ensures ascend { IsFiniteMap K.cmp self.old.pairs }
    {
        let hash = self.hash_of(&key);
        if let Some(entry) = self.find(hash, &key) {
            return Arc::try_clone(&entry.value);
        }
        let value = f(&key);
        self.add_pair(hash, key, value)
    }

    /// Calls `f` once on the stored key and the value of `key`, if it is present. What `f` returns becomes the new value, and a clone of
    /// its `Arc` is returned. If the key is absent, `f` is not called, nothing changes, and `None` is returned. The size of the table does
    /// not change. The precondition of `f` needs to hold for that one pair only.
    ///
    /// ```
    /// let mut map: SeqMap<u64, u64> = SeqMap::new(rt.alloc());
    /// map.insert(37, 1)?;
    /// let new = map.update(&37, |_key: &u64, value: &u64| -> u64 { value.saturating_add(1) })?;
    /// assert_eq!(rt; new.map(|new| *new), Some(2));
    /// let absent = map.update(&38, |_key: &u64, value: &u64| -> u64 { *value })?;
    /// assert!(rt; absent.is_none());
    /// ```
    ///
    /// # Errors
    ///
    /// Returns [`AllocError`] if memory for the new value cannot be allocated, or if cloning its `Arc` fails. `f` has been called by then;
    /// the value that it returned is dropped, and the map is unchanged.
    pub fn update<Q: HashedQuery<K, S>, F: FnOnce(&K, &V) -> V>(
        &mut self,
        key: Q,
        f: F,
    ) -> Result<Option<Arc<V, A>>, AllocError>
    where
        F: Drop,
        requires { ForSome (pair_at K.cmp self.old.pairs (Q.stands_for key)) (IsCallableAt F.pre f) }
        ensures absent { pair_at K.cmp self.old.pairs (Q.stands_for key) ≡ None
            → (result ≡ Ok None) × (self.new ≡ self.old) }
        ensures present { IfSome (pair_at K.cmp self.old.pairs (Q.stands_for key)) (λ p.
            (answer : V) × AnswersAt F.post f p answer × MatchResult result
            (λ r. (option_map arc_value r ≡ Some answer)
            × (self.new ≡ with_pairs self.old (with_pair K.cmp self.old.pairs (Q.stands_for key) answer)))
            (λ _. self.new ≡ self.old)) }
        ensures hasher { self.new.hasher ≡ self.old.hasher }
        ensures err { OnErr result (self.new ≡ self.old) }
        ensures ascend { IsFiniteMap K.cmp self.old.pairs }
    {
        let hash = self.hash_of(key);
        let value = match self.find(hash, key) {
            Some(entry) => f(&entry.key, &entry.value),
            None => return Ok(None),
        };
        Ok(Some(self.renew(hash, key, value)?))
    }

    /// Inserts `value`, if the key is absent. If it is present, calls `f` once on its value and `value`: what `f` returns becomes the new
    /// value, and if `f` returns `None`, the pair is removed. Returns what was done, with a clone of the `Arc` of a new value, or with the
    /// value that was removed. If the key is present, the stored key stays, and `key` is dropped. Only a new key may enlarge the table, as
    /// in [`SeqMap::insert`]. The precondition of `f` needs to hold for those two values only.
    ///
    /// ```
    /// let mut map: SeqMap<u64, u64> = SeqMap::new(rt.alloc());
    /// for amount in [20, 22] {
    ///     map.merge(37, amount, |old: &u64, new: u64| -> Option<u64> { Some(old.saturating_add(new)) })?;
    /// }
    /// assert_eq!(rt; map.get(&37).map(|sum| **sum), Some(42));
    ///
    /// // `None` removes the pair
    /// let change = map.merge(37, 1, |_old: &u64, _new: u64| -> Option<u64> { None })?;
    /// assert!(rt; matches!(change, Change::Removed(_)));
    /// assert!(rt; map.is_empty());
    /// ```
    ///
    /// # Errors
    ///
    /// Returns [`AllocError`] in the cases of [`SeqMap::insert`], and also if cloning the `Arc` of the new value fails. If the key is
    /// present, `f` has been called by then. The value that was to be stored is dropped, and the map is unchanged. If `f` returns `None`,
    /// there is no error.
    pub fn merge<F: FnOnce(&V, V) -> Option<V>>(
        &mut self,
        key: K,
        value: V,
        f: F,
    ) -> Result<Change<V, A>, AllocError>
    where
        F: Drop,
        requires { ForSome (value_at K.cmp self.old.pairs key) (λ v. (old : Bor V) → old.now ≡ v → F.pre f old value) }
        ensures reply { (answer : Option V)
            × MatchOption (value_at K.cmp self.old.pairs key) (answer ≡ Some value)
            (λ v. (old : Bor V) × (old.now ≡ v) × F.post f old value answer)
            × MatchResult result
            (λ c. IsChange (value_at K.cmp self.old.pairs key) answer c
            × (self.new.pairs ≡ with_or_without K.cmp self.old.pairs key answer))
            (λ _. IsSome answer × (self.new ≡ self.old)) }
        ensures bins { IfOk result (λ c. IsTableAfterChange c self.old.bins (length self.new.pairs) self.new.bins) }
        ensures hasher { self.new.hasher ≡ self.old.hasher }
        ensures err { OnErr result (self.new ≡ self.old) }
        ensures ascend { IsFiniteMap K.cmp self.old.pairs }
    {
        let hash = self.hash_of(&key);
        let merged = match self.find(hash, &key) {
            Some(entry) => f(&entry.value, value),
            None => return Ok(Change::Added(self.add_pair(hash, key, value)?)),
        };
        self.change_present(hash, &key, merged)
    }

    /// Calls `test` once on the stored key and the value of `key`, if it is present. If `test` returns `true`, `value` takes the place of
    /// the old value, which is returned. Otherwise nothing changes, and `value` comes back, in an inner `Err`; if the key is absent, `test`
    /// is not called. The size of the table does not change. The precondition of `test` needs to hold for that one pair only.
    ///
    /// ```
    /// let mut map: SeqMap<u64, u64> = SeqMap::new(rt.alloc());
    /// map.insert(37, 1)?;
    /// let old = map.replace_if(&37, |_key: &u64, value: &u64| -> bool { *value == 1 }, 2)?;
    /// assert_eq!(rt; old.ok().map(|old| *old), Some(1));
    /// let kept = map.replace_if(&37, |_key: &u64, value: &u64| -> bool { *value == 1 }, 3)?;
    /// assert_eq!(rt; kept.err(), Some(3));
    /// assert_eq!(rt; map.get(&37).map(|value| **value), Some(2));
    /// ```
    ///
    /// # Errors
    ///
    /// Returns [`AllocError`] if `test` returned `true` and memory for `value` cannot be allocated. `value` is dropped, and the map is
    /// unchanged.
    pub fn replace_if<Q: HashedQuery<K, S>, F: FnOnce(&K, &V) -> bool>(
        &mut self,
        key: Q,
        test: F,
        value: V,
    ) -> Result<Result<Arc<V, A>, V>, AllocError>
    where
        F: Drop,
        requires { ForSome (pair_at K.cmp self.old.pairs (Q.stands_for key)) (IsCallableAt F.pre test) }
        ensures absent { pair_at K.cmp self.old.pairs (Q.stands_for key) ≡ None
            → (result ≡ Ok (Err value)) × (self.new ≡ self.old) }
        ensures present { IfSome (pair_at K.cmp self.old.pairs (Q.stands_for key)) (λ p.
            (says : Bool) × AnswersAt F.post test p says × MatchBool says
            (MatchResult result
            (λ reply. IsOkAnd reply (λ old. arc_value old ≡ p.1)
            × (self.new ≡ with_pairs self.old (with_pair K.cmp self.old.pairs (Q.stands_for key) value)))
            (λ _. self.new ≡ self.old))
            ((result ≡ Ok (Err value)) × (self.new ≡ self.old))) }
        ensures hasher { self.new.hasher ≡ self.old.hasher }
        ensures err { OnErr result (self.new ≡ self.old) }
        ensures ascend { IsFiniteMap K.cmp self.old.pairs }
    {
        let hash = self.hash_of(key);
        if !self.passes(hash, key, test) {
            return Ok(Err(value));
        }
        let value = Arc::new(*self.allocator(), value)?;
        Ok(Ok(self.swap_value(hash, key, value)))
    }

    // Replaces the value of a present key whose hash is `hash`, or removes its pair.
    fn change_present<Q: HashedQuery<K, S>>(
        &mut self,
        hash: u64,
        key: Q,
        value: Option<V>,
    ) -> Result<Change<V, A>, AllocError>
        requires hash { hash ≡ S.hash_of self.old.hasher (Q.stands_for key) }
        requires present { IsSome (pair_at K.cmp self.old.pairs (Q.stands_for key)) }
        ensures reply { MatchResult result
            (λ c. IsChange (value_at K.cmp self.old.pairs (Q.stands_for key)) value c
            × (self.new.pairs ≡ with_or_without K.cmp self.old.pairs (Q.stands_for key) value))
            (λ _. IsSome value × (self.new ≡ self.old)) }
        ensures bins { IfOk result (λ c. IsTableAfterChange c self.old.bins (length self.new.pairs) self.new.bins) }
        ensures hasher { self.new.hasher ≡ self.old.hasher }
        ensures err { OnErr result (self.new ≡ self.old) }
    {
        match value {
            Some(value) => Ok(Change::Changed(self.renew(hash, key, value)?)),
            None => match self.take(hash, key) {
                Some((_, old)) => Ok(Change::Removed(old)),
                None => unreachable!(),
            },
        }
    }

    // Replaces the value of a present key whose hash is `hash`, and returns a clone of the `Arc` of the new one.
    fn renew<Q: HashedQuery<K, S>>(
        &mut self,
        hash: u64,
        key: Q,
        value: V,
    ) -> Result<Arc<V, A>, AllocError>
        requires hash { hash ≡ S.hash_of self.old.hasher (Q.stands_for key) }
        requires present { IsSome (pair_at K.cmp self.old.pairs (Q.stands_for key)) }
        ensures value { IfOk result (λ new. arc_value new ≡ value) }
        ensures after { OnOk result
            (self.new ≡ with_pairs self.old (with_pair K.cmp self.old.pairs (Q.stands_for key) value)) }
        ensures err { OnErr result (self.new ≡ self.old) }
    {
        match new_arc_pair(*self.allocator(), value) {
            Ok((value, answer)) => {
                let _ = self.swap_value(hash, key, value);
                Ok(answer)
            }
            Err(_) => Err(AllocError),
        }
    }

    // Adds a pair whose key is absent and has the hash `hash`. Returns a clone of the value's `Arc`.
    fn add_pair(&mut self, hash: u64, key: K, value: V) -> Result<Arc<V, A>, AllocError>
        requires hash { hash ≡ S.hash_of self.old.hasher key }
        requires absent { pair_at K.cmp self.old.pairs key ≡ None }
        ensures value { IfOk result (λ new. arc_value new ≡ value) }
        ensures pairs { OnOk result (self.new.pairs ≡ with_pair K.cmp self.old.pairs key value) }
        ensures bins { OnOk result
            (IsTableAfter (first_bins self.old.bins FIRST_BINS) (length self.new.pairs) self.new.bins) }
        ensures hasher { self.new.hasher ≡ self.old.hasher }
        ensures err { OnErr result (self.new ≡ self.old) }
    {
        let node = Node::of_pair(*self.allocator(), hash, key, value, 0)?;
        let value = Arc::try_clone(&node.entry().value)?;
        self.add(node)?;
        Ok(value)
    }
}

// Calls `f` on a key and on a value, or on none.
fn call_on<'a, K, V, F: FnOnce(&K, Option<&V>) -> Option<V>>(
    f: F,
    key: &'a K,
    value: Option<&'a V>,
) -> Option<V>
where
    requires { IsCallableOn F.pre f key.now (option_copied value) }
    ensures { AnswersOn F.post f key.now (option_copied value.entry) result }
{
    f(key, value)
}
