//! Calls that go over the pairs of a shared map and change none of them.
ghost use Rattle.std.specs.Prelude.{OnOk, IfOk};
ghost use Rattle.flurry_shared_view.specs.Visits.{FoldsPair, FoldsWalk, Searches, VisitsPair};

use crate::HashMap;
use flurry_base::hash::KeyHasher;
use std::alloc::{AllocError, Allocator};
use std::sync::Wait;

impl<K: Ord + Drop, V: Drop, S: KeyHasher<K>, A: Allocator + Copy> HashMap<K, V, S, A> {
    /// Calls `f` on the stored key and the value of each pair that [`HashMap::iter`] gives, in the same order.
    ///
    /// `f` runs while no lock is held, so it may call this map. Takes the locks of the walk.
    ///
    /// ```
    /// let map: HashMap<u64, u64> = HashMap::new(rt.alloc());
    /// map.insert(&rt, 37, 1)?;
    /// map.insert(&rt, 38, 2)?;
    /// let mut sum: u64 = 0;
    /// map.for_each(
    ///     &rt,
    ///     |_key: &u64, value: &u64| sum = sum.wrapping_add(*value),
    /// )?;
    /// assert_eq!(rt; sum, 3);
    /// ```
    ///
    /// # Errors
    ///
    /// Returns [`AllocError`] if cloning an `Arc` fails. `f` has been called on the pairs that were read before.
    pub fn for_each<F: FnMut(&K, &V), R: Wait>(&self, rt: &R, f: F) -> Result<(), AllocError>
    where
        F: Drop,
        requires { F.IsAlwaysCallable f }
        ensures { OnOk result ((last : F) × FoldsWalk K.cmp (VisitsPair F.step) f last) }
    {
        self.pin(rt).for_each(f)
    }

    /// Returns `true` if `f` returns `true` for the stored key and the value of a pair that [`HashMap::iter`] gives. It is called on one pair
    /// after another, up to the first for which it returns `true`.
    ///
    /// `f` runs while no lock is held, so it may call this map. Takes the locks of the walk, up to that pair.
    ///
    /// ```
    /// let map: HashMap<u64, u64> = HashMap::new(rt.alloc());
    /// map.insert(&rt, 37, 1)?;
    /// assert!(rt; map.any(&rt, |key: &u64, _value: &u64| -> bool { *key == 37 })?);
    /// assert!(rt; !map.any(&rt, |_key: &u64, value: &u64| -> bool { *value > 1 })?);
    /// ```
    ///
    /// # Errors
    ///
    /// Returns [`AllocError`] if cloning an `Arc` fails. `f` has been called on the pairs that were read before.
    pub fn any<F: FnMut(&K, &V) -> bool, R: Wait>(&self, rt: &R, f: F) -> Result<bool, AllocError>
    where
        F: Drop,
        requires { F.IsAlwaysCallable f }
        ensures { IfOk result (λ found. Searches K.cmp F.step f found) }
    {
        self.pin(rt).any(f)
    }

    /// Returns what is made of `init` by calling `f` on it, the stored key and the value of each pair that [`HashMap::iter`] gives, one after
    /// another: each call gets what the one before returned.
    ///
    /// `f` runs while no lock is held, so it may call this map. Takes the locks of the walk.
    ///
    /// ```
    /// let map: HashMap<u64, u64> = HashMap::new(rt.alloc());
    /// map.insert(&rt, 37, 1)?;
    /// map.insert(&rt, 38, 2)?;
    /// let greatest = map.fold(&rt, 0, |seen: u64, _key: &u64, value: &u64| -> u64 {
    ///     seen.max(*value)
    /// })?;
    /// assert_eq!(rt; greatest, 2);
    /// ```
    ///
    /// # Errors
    ///
    /// Returns [`AllocError`] if cloning an `Arc` fails. `f` has been called on the pairs that were read before, and what it returned last is
    /// dropped.
    pub fn fold<B: Drop, F: FnMut(B, &K, &V) -> B, R: Wait>(
        &self,
        rt: &R,
        init: B,
        f: F,
    ) -> Result<B, AllocError>
    where
        F: Drop,
        requires { F.IsAlwaysCallable f }
        ensures { IfOk result (λ folded. (last : F) × FoldsWalk K.cmp (FoldsPair F.step) (f, init) (last, folded)) }
    {
        self.pin(rt).fold(init, f)
    }
}
