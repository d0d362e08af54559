//! Insertions into a shared map of what a function returns.
ghost use Rattle.std.specs.Prelude.{◌≡◌, IfOk, OnErr};
ghost use Rattle.std.specs.Arc.{arc_value};
ghost use Rattle.std.specs.Borrow.{Bor};
ghost use Rattle.flurry_shared_view.specs.Insertions.{FailsToGetOrInsert, GetsOrInserts};
ghost use Rattle.flurry_shared_view.specs.SharedAnswers.{IsAnswerOf};

use crate::HashMapRef;
use flurry_base::hash::KeyHasher;
use std::alloc::{AllocError, Allocator};
use std::sync::{Arc, Wait};

impl<'m, R: Wait, K: Ord + Drop, V: Drop, S: KeyHasher<K>, A: Allocator + Copy> HashMapRef<
    'm,
    R,
    K,
    V,
    S,
    A,
> {
    /// Returns a clone of the `Arc` of the value of `key`. If the key is absent, it first inserts what `f` returns for it. If another call
    /// inserts a value for the key in the meantime, that one stays and is returned, and what `f` returned is dropped.
    ///
    /// `f` is called at most once, on `key`, and only if the key was absent at first. It runs while no lock is held, so it may call this map.
    /// Takes the locks of [`HashMapRef::get`], and those of [`HashMapRef::try_insert`] if the key was absent.
    ///
    /// ```
    /// let map: HashMap<u64, u64> = HashMap::new(rt.alloc());
    /// let view = map.pin(&rt);
    /// let new = view.get_or_insert_with(37, |key: &u64| -> u64 { key.saturating_add(1) })?;
    /// assert_eq!(rt; *new, 38);
    /// let present = view.get_or_insert_with(37, |_key: &u64| -> u64 { 0 })?;
    /// assert_eq!(rt; *present, 38);
    /// ```
    ///
    /// # Errors
    ///
    /// Returns [`AllocError`] if memory for the pair or for a first table cannot be allocated, or if cloning the value's `Arc` fails. The
    /// call changes no pair then; the key, and what `f` returned if it was called, are dropped.
    pub fn get_or_insert_with<'s, F: FnOnce(&K) -> V>(
        &'s self,
        key: K,
        f: F,
    ) -> Result<Arc<V, A>, AllocError>
    where
        F: Drop,
        requires { (k : Bor K) → k.now ≡ key → F.pre f k }
        ensures value { IfOk result (λ value. GetsOrInserts (IsAnswerOf K.cmp S.hash_of self.now) key
            (λ v. (k : Bor K) × (k.now ≡ key) × F.post f k v) (arc_value value)) }
        ensures err { OnErr result (FailsToGetOrInsert (IsAnswerOf K.cmp S.hash_of self.now) key
            (λ v. (k : Bor K) × (k.now ≡ key) × F.post f k v)) }
    {
        if let Some(value) = self.get(&key)? {
            return Ok(value);
        }
        let computed = f(&key);
        match self.try_insert(key, computed) {
            Ok(Ok(value)) => Ok(value),
            Ok(Err(present)) => Ok(present.current),
            Err(error) => Err(error),
        }
    }
}
