//! Computed values of an owned map.
ghost use Rattle.std.specs.Prelude.{◌≡◌, ◌<◌, ◌+◌, OnErr, IfSome, MatchOption, MatchResult, Option, Some, None, Ok, IsSome};
ghost use Rattle.std.specs.Option.{option_map, ForSome};
ghost use Rattle.std.specs.Arc.{arc_value};
ghost use Rattle.std.specs.Borrow.{Bor};
ghost use Rattle.flurry_base.specs.FiniteMap.{IsFiniteMap, pair_at, value_at, with_pair, without};
ghost use Rattle.flurry_seq.specs.Callable.{IsCallableAt};
ghost use Rattle.flurry_seq.specs.Contents.{with_pairs};

use super::SeqMap;
use flurry_base::hash::KeyHasher;
use flurry_base::query::HashedQuery;
use flurry_bins_insertion::table::new_arc_pair;
use std::alloc::{AllocError, Allocator};
use std::sync::Arc;

impl<K: Ord + Drop, V: Drop, S: KeyHasher<K>, A: Allocator> SeqMap<K, V, S, A> {
    // Replaces the value of a present key whose hash is `hash`, and returns the old value.
    pub(super) fn swap_value<Q: HashedQuery<K, S>>(
        &mut self,
        hash: u64,
        key: Q,
        value: Arc<V, A>,
    ) -> Arc<V, A>
        requires hash { hash ≡ S.hash_of self.old.hasher (Q.stands_for key) }
        requires present { IsSome (pair_at K.cmp self.old.pairs (Q.stands_for key)) }
        ensures old { value_at K.cmp self.old.pairs (Q.stands_for key) ≡ Some (arc_value result) }
        ensures after { self.new ≡ with_pairs self.old (with_pair K.cmp self.old.pairs (Q.stands_for key)
            (arc_value value)) }
    {
        self.table.replace(hash, key, value)
    }
}

impl<K: Ord + Drop, V: Drop, S: KeyHasher<K>, A: Allocator + Copy> SeqMap<K, V, S, A> {
    /// Calls `f` once on the stored key and the value of `key`, if it is present. What `f` returns becomes the new value, and a clone of
    /// its `Arc` is returned; if `f` returns `None`, the pair is removed, and `None` is returned. If the key is absent, `f` is not called,
    /// no memory is allocated, and `None` is returned. The size of the table does not change. The precondition of `f` needs to hold for
    /// that one pair only.
    ///
    /// ```
    /// let mut map: SeqMap<u64, u64> = SeqMap::new(rt.alloc());
    /// map.insert(37, 1)?;
    /// let new = map.compute_if_present(&37, |_key: &u64, value: &u64| -> Option<u64> {
    ///     Some(value.saturating_add(1))
    /// })?;
    /// assert_eq!(rt; new.map(|new| *new), Some(2));
    ///
    /// // `None` removes the pair
    /// map.compute_if_present(&37, |_key: &u64, _value: &u64| -> Option<u64> { None })?;
    /// assert!(rt; map.is_empty());
    /// ```
    ///
    /// # Errors
    ///
    /// Returns [`AllocError`] if memory for the new value cannot be allocated, or if cloning its `Arc` fails. `f` has been called by then;
    /// the value that it returned is dropped, and the map is unchanged.
    pub fn compute_if_present<Q: HashedQuery<K, S>, F: FnOnce(&K, &V) -> Option<V>>(
        &mut self,
        key: Q,
        f: F,
    ) -> Result<Option<Arc<V, A>>, AllocError>
    where
        F: Drop,
        requires { ForSome (pair_at K.cmp self.old.pairs (Q.stands_for key)) (IsCallableAt F.pre f) }
        ensures absent { pair_at K.cmp self.old.pairs (Q.stands_for key) ≡ None
            → (result ≡ Ok None) × (self.new ≡ self.old) }
        ensures present { IfSome (pair_at K.cmp self.old.pairs (Q.stands_for key)) (λ p.
            (answer : Option V) × ((k : Bor K) × (v : Bor V) × (k.now ≡ p.0) × (v.now ≡ p.1) × F.post f k v answer)
            × MatchOption answer
            ((result ≡ Ok None) × (self.new ≡ with_pairs self.old (without K.cmp self.old.pairs (Q.stands_for key))))
            (λ w. MatchResult result
            (λ r. (option_map arc_value r ≡ Some w)
            × (self.new ≡ with_pairs self.old (with_pair K.cmp self.old.pairs (Q.stands_for key) w)))
            (λ _. self.new ≡ self.old))) }
        ensures hasher { self.new.hasher ≡ self.old.hasher }
        ensures err { OnErr result (self.new ≡ self.old) }
        ensures ascend { IsFiniteMap K.cmp self.old.pairs }
    {
        let hash = self.hash_of(key);
        let computed = match self.find(hash, key) {
            Some(entry) => f(&entry.key, &entry.value),
            None => return Ok(None),
        };
        match computed {
            Some(value) => match new_arc_pair(*self.allocator(), value) {
                Ok((value, answer)) => {
                    let _ = self.swap_value(hash, key, value);
                    Ok(Some(answer))
                }
                Err(_) => Err(AllocError),
            },
            None => {
                let _ = self.take(hash, key);
                Ok(None)
            }
        }
    }
}
