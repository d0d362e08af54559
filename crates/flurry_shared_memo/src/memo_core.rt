//! Values that are computed once, with one owner.
ghost use Rattle.std.specs.Prelude.{◌≡◌, [], OnErr, IfSome, None, IfOk, length};
ghost use Rattle.std.specs.Arc.{arc_value};
ghost use Rattle.std.specs.Borrow.{Bor};
ghost use Rattle.flurry_base.specs.FiniteMap.{IsFiniteMap, value_at, with_pair};

use flurry_base::hash::{DefaultHashBuilder, KeyHasher};
use flurry_seq::SeqMap;
use std::alloc::{AllocError, Allocator, Global};
use std::marker::Model;
use std::sync::Arc;

/// Values that are computed once for a key and kept, with one owner.
///
/// ```
/// let mut memo = MemoCore::with_hasher(rt.alloc(), LowHashBuilder);
/// let four = memo.get_or_compute(3, |key: &u64| -> u64 { key.saturating_add(1) })?;
/// assert_eq!(rt; *four, 4);
/// let kept = memo.get_or_compute(3, |key: &u64| -> u64 { key.saturating_add(9) })?;
/// assert_eq!(rt; *kept, 4);
/// assert_eq!(rt; memo.len(), 1);
/// ```
#[derive(Drop)]
pub struct MemoCore<K: Ord, V, S: KeyHasher<K> = DefaultHashBuilder, A: Allocator = Global> {
    map: SeqMap<K, V, S, A>,
}

impl<K: Ord, V, S: KeyHasher<K>, A: Allocator> Model for MemoCore<K, V, S, A> {
    ghost use Rattle.std.specs.Prelude.{List};

    ghost Value = { List (K × V) };

    ghost view = { λ m. m.map.pairs };
}

impl<K: Ord + Drop, V: Drop, S: KeyHasher<K>, A: Allocator> MemoCore<K, V, S, A> {
    /// Creates a memo that keeps nothing, with the given hasher. It takes no memory.
    ///
    /// Constant time.
    pub fn with_hasher(alloc: A, hasher: S) -> Self
        ensures { result ≡ [] }
    {
        MemoCore {
            map: SeqMap::with_hasher(alloc, hasher),
        }
    }

    /// Returns the number of keys whose values are kept.
    ///
    /// Constant time.
    pub fn len(&self) -> usize
        ensures { result ≡ length self.now }
    {
        self.map.len()
    }
}

impl<K: Ord + Drop, V: Drop, S: KeyHasher<K>, A: Allocator + Copy> MemoCore<K, V, S, A> {
    /// Returns the value that is kept for `key`, which `f` computes if there is none.
    ///
    /// If there is none, `f` is called once, on `key`, and what it returns is kept and returned. If there is one, `f` is not called.
    ///
    /// As [`SeqMap::get`], and as [`SeqMap::try_insert`] besides if there is none.
    ///
    /// # Errors
    ///
    /// Returns [`AllocError`] if memory cannot be allocated, or if cloning the value's `Arc` fails. Nothing is kept that was not kept
    /// before; the key, and what `f` returned if it was called, are dropped.
    pub fn get_or_compute<F: FnOnce(&K) -> V>(
        &mut self,
        key: K,
        f: F,
    ) -> Result<Arc<V, A>, AllocError>
    where
        F: Drop,
        requires { value_at K.cmp self.old key ≡ None → (k : Bor K) → k.now ≡ key → F.pre f k }
        ensures absent { value_at K.cmp self.old key ≡ None
            → (v : V) × ((k : Bor K) × (k.now ≡ key) × F.post f k v)
            × IfOk result (λ kept. (arc_value kept ≡ v) × (self.new ≡ with_pair K.cmp self.old key v)) }
        ensures present { IfSome (value_at K.cmp self.old key) (λ there.
            IfOk result (λ kept. arc_value kept ≡ there) × (self.new ≡ self.old)) }
        ensures err { OnErr result (self.new ≡ self.old) }
        ensures ascend { IsFiniteMap K.cmp self.old }
    {
        if let Some(value) = self.map.get(&key) {
            return Arc::try_clone(value);
        }
        let computed = f(&key);
        match self.map.try_insert(key, computed)? {
            Ok(value) => Ok(value),
            Err(present) => Ok(present.current),
        }
    }
}
