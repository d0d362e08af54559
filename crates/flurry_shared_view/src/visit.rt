//! Calls that go over the pairs of a shared map and change none of them.
ghost use Rattle.std.specs.Prelude.{OnOk, IfOk};
ghost use Rattle.flurry_shared_view.specs.Visits.{FoldsPair, FoldsWalk, Searches, VisitsPair};
ghost use Rattle.flurry_shared_view.specs.Walks.{Begins};

use crate::HashMapRef;
use crate::iter::Iter;
use flurry_base::hash::KeyHasher;
use std::alloc::{AllocError, Allocator};
use std::sync::Wait;

impl<'m, R: Wait, K: Ord + Drop, V: Drop, S: KeyHasher<K>, A: Allocator + Copy> HashMapRef<
    'm,
    R,
    K,
    V,
    S,
    A,
> {
    /// Calls `f` on the stored key and the value of each pair that [`HashMapRef::iter`] gives, in the same order.
    ///
    /// `f` runs while no lock is held, so it may call this map. Takes the locks of the walk.
    ///
    /// ```
    /// let map: HashMap<u64, u64> = HashMap::new(rt.alloc());
    /// let view = map.pin(&rt);
    /// view.insert(37, 1)?;
    /// view.insert(38, 2)?;
    /// let mut sum: u64 = 0;
    /// view.for_each(|_key: &u64, value: &u64| sum = sum.wrapping_add(*value))?;
    /// assert_eq!(rt; sum, 3);
    /// ```
    ///
    /// # Errors
    ///
    /// Returns [`AllocError`] if cloning an `Arc` fails. `f` has been called on the pairs that were read before.
    pub fn for_each<F: FnMut(&K, &V)>(&self, f: F) -> Result<(), AllocError>
    where
        F: Drop,
        requires { F.IsAlwaysCallable f }
        ensures { OnOk result ((last : F) × FoldsWalk K.cmp (VisitsPair F.step) f last) }
    {
        let mut visit = f;
        let mut pairs = self.iter();
        let ended = self.visit_rest(&mut pairs, &mut visit);
        drop(pairs);
        ended
    }

    // Visits the pairs that are left. It borrows the iterator, since a body that owns it needs a proof of its drop at each way out.
    fn visit_rest<F: FnMut(&K, &V)>(
        &self,
        pairs: &mut Iter<'_, R, K, V, A>,
        visit: &mut F,
    ) -> Result<(), AllocError>
    where
        requires callable { F.IsAlwaysCallable visit.old }
        requires begun { Begins K.cmp pairs.old }
        ensures { OnOk result (FoldsWalk K.cmp (VisitsPair F.step) visit.old visit.new) }
    {
        for _ in self.runtime().forever() {
            let Some((key, value)) = pairs.next()? else {
                return Ok(());
            };
            visit(&key, &value);
        }
        unreachable!()
    }

    /// Returns `true` if `f` returns `true` for the stored key and the value of a pair that [`HashMapRef::iter`] gives. It is called on one
    /// pair after another, up to the first for which it returns `true`.
    ///
    /// `f` runs while no lock is held, so it may call this map. Takes the locks of the walk, up to that pair.
    ///
    /// ```
    /// let map: HashMap<u64, u64> = HashMap::new(rt.alloc());
    /// let view = map.pin(&rt);
    /// view.insert(37, 1)?;
    /// assert!(rt; view.any(|key: &u64, _value: &u64| -> bool { *key == 37 })?);
    /// assert!(rt; !view.any(|_key: &u64, value: &u64| -> bool { *value > 1 })?);
    /// ```
    ///
    /// # Errors
    ///
    /// Returns [`AllocError`] if cloning an `Arc` fails. `f` has been called on the pairs that were read before.
    pub fn any<F: FnMut(&K, &V) -> bool>(&self, f: F) -> Result<bool, AllocError>
    where
        F: Drop,
        requires { F.IsAlwaysCallable f }
        ensures { IfOk result (λ found. Searches K.cmp F.step f found) }
    {
        let mut test = f;
        let mut pairs = self.iter();
        let found = self.search_rest(&mut pairs, &mut test);
        drop(pairs);
        found
    }

    // Looks for a pair among those that are left. It borrows the iterator, since a body that owns it needs a proof of its drop at each way
    // out.
    fn search_rest<F: FnMut(&K, &V) -> bool>(
        &self,
        pairs: &mut Iter<'_, R, K, V, A>,
        test: &mut F,
    ) -> Result<bool, AllocError>
    where
        requires callable { F.IsAlwaysCallable test.old }
        requires begun { Begins K.cmp pairs.old }
        ensures { IfOk result (λ found. Searches K.cmp F.step test.old found) }
    {
        for _ in self.runtime().forever() {
            let Some((key, value)) = pairs.next()? else {
                return Ok(false);
            };
            if test(&key, &value) {
                return Ok(true);
            }
        }
        unreachable!()
    }

    /// Returns what is made of `init` by calling `f` on it, the stored key and the value of each pair that [`HashMapRef::iter`] gives, one
    /// after another: each call gets what the one before returned.
    ///
    /// `f` runs while no lock is held, so it may call this map. Takes the locks of the walk.
    ///
    /// ```
    /// let map: HashMap<u64, u64> = HashMap::new(rt.alloc());
    /// let view = map.pin(&rt);
    /// view.insert(37, 1)?;
    /// view.insert(38, 2)?;
    /// let greatest = view.fold(0, |seen: u64, _key: &u64, value: &u64| -> u64 {
    ///     seen.max(*value)
    /// })?;
    /// assert_eq!(rt; greatest, 2);
    /// ```
    ///
    /// # Errors
    ///
    /// Returns [`AllocError`] if cloning an `Arc` fails. `f` has been called on the pairs that were read before, and what it returned last
    /// is dropped.
    pub fn fold<B: Drop, F: FnMut(B, &K, &V) -> B>(&self, init: B, f: F) -> Result<B, AllocError>
    where
        F: Drop,
        requires { F.IsAlwaysCallable f }
        ensures { IfOk result (λ folded. (last : F) × FoldsWalk K.cmp (FoldsPair F.step) (f, init) (last, folded)) }
    {
        let mut combine = f;
        let mut pairs = self.iter();
        let folded = self.fold_rest(&mut pairs, init, &mut combine);
        drop(pairs);
        folded
    }

    // Folds the pairs that are left. It borrows the iterator, since a body that owns it needs a proof of its drop at each way out.
    fn fold_rest<B: Drop, F: FnMut(B, &K, &V) -> B>(
        &self,
        pairs: &mut Iter<'_, R, K, V, A>,
        init: B,
        combine: &mut F,
    ) -> Result<B, AllocError>
    where
        requires callable { F.IsAlwaysCallable combine.old }
        requires begun { Begins K.cmp pairs.old }
        ensures { IfOk result (λ folded. FoldsWalk K.cmp (FoldsPair F.step) (combine.old, init) (combine.new, folded)) }
    {
        let mut folded = init;
        for _ in self.runtime().forever() {
            let Some((key, value)) = pairs.next()? else {
                return Ok(folded);
            };
            folded = combine(folded, &key, &value);
        }
        unreachable!()
    }
}
