//! Values that are computed once, shared by threads.
ghost use Rattle.std.specs.Prelude.{◌≡◌, IfOk, OnErr};
ghost use Rattle.std.specs.Arc.{arc_value};
ghost use Rattle.std.specs.Borrow.{Bor};
ghost use Rattle.flurry_shared_view.specs.SharedAnswers.{IsAnswerOf};
ghost use Rattle.flurry_shared_view.specs.Insertions.{FailsToGetOrInsert, GetsOrInserts};

use flurry_base::hash::{DefaultHashBuilder, KeyHasher};
use flurry_shared::HashMap;
use std::alloc::{AllocError, Allocator, Global};
use std::marker::Model;
use std::sync::{Arc, Wait};

/// Values that are computed once for a key and kept, and that threads share.
///
/// Two calls that find no value for a key at the same time may each call their function. One of the values is kept, and both return that
/// one.
///
/// ```
/// let memo = Memo::with_hasher(rt.alloc(), LowHashBuilder);
/// let four = memo.get_or_compute(&rt, 3, |key: &u64| -> u64 { key.saturating_add(1) })?;
/// assert_eq!(rt; *four, 4);
/// let kept = memo.get_or_compute(&rt, 3, |key: &u64| -> u64 { key.saturating_add(9) })?;
/// assert_eq!(rt; *kept, 4);
/// assert_eq!(rt; memo.len(&rt), 1);
/// ```
#[derive(Drop)]
pub struct Memo<K: Ord, V, S: KeyHasher<K> = DefaultHashBuilder, A: Allocator = Global> {
    map: HashMap<K, V, S, A>,
}

impl<K: Ord, V, S: KeyHasher<K>, A: Allocator> Model for Memo<K, V, S, A> {
    ghost use Rattle.flurry_shared_view.specs.SharedAnswers.{MapSettings};

    ghost Value = { MapSettings K V S };

    ghost view = { λ m. m.map };
}

impl<K: Ord + Drop, V: Drop, S: KeyHasher<K>, A: Allocator> Memo<K, V, S, A> {
    /// Creates a memo that keeps nothing, with the given hasher. It takes no memory.
    ///
    /// Constant time.
    pub fn with_hasher(alloc: A, hasher: S) -> Self
        ensures { result ≡ record { hasher = hasher; processors = 1 } }
    {
        Memo {
            map: HashMap::with_hasher(alloc, hasher),
        }
    }

    /// Returns the number of keys whose values are kept, as [`HashMap::len`] counts pairs.
    ///
    /// Constant time.
    pub fn len<R: Wait>(&self, rt: &R) -> usize {
        self.map.len(rt)
    }
}

impl<K: Ord + Drop, V: Drop, S: KeyHasher<K>, A: Allocator + Copy> Memo<K, V, S, A> {
    /// Returns the value that is kept for `key`, which `f` computes if there is none.
    ///
    /// If there is none, `f` is called once, on `key`. What it returns is kept and returned, unless another call has kept a value in the
    /// meantime, which is returned then. If there is one, `f` is not called.
    ///
    /// No lock is held while `f` runs, so it may call the memo itself.
    ///
    /// As [`HashMap::get_or_insert_with`].
    ///
    /// # Errors
    ///
    /// Returns [`AllocError`] if memory cannot be allocated, or if cloning the value's `Arc` fails. This call has kept nothing then; the
    /// key, and what `f` returned if it was called, are dropped.
    pub fn get_or_compute<R: Wait, F: FnOnce(&K) -> V>(
        &self,
        rt: &R,
        key: K,
        f: F,
    ) -> Result<Arc<V, A>, AllocError>
    where
        F: Drop,
        requires { (k : Bor K) → k.now ≡ key → F.pre f k }
        ensures value { IfOk result (λ value. GetsOrInserts (IsAnswerOf K.cmp S.hash_of self.now) key
            (λ v. (k : Bor K) × (k.now ≡ key) × F.post f k v) (arc_value value)) }
        ensures err { OnErr result (FailsToGetOrInsert (IsAnswerOf K.cmp S.hash_of self.now) key
            (λ v. (k : Bor K) × (k.now ≡ key) × F.post f k v)) }
    {
        self.map.get_or_insert_with(rt, key, f)
    }
}
