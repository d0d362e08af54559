//! Calls that keep some of the pairs of a shared map.
ghost use Rattle.std.specs.Prelude.{OnOk};
ghost use Rattle.flurry_shared_view.specs.Visits.{FoldsWalk, KeepsOrRemoves, RemovesKey, RemovesSeen};
ghost use Rattle.flurry_shared_view.specs.Walks.{Begins};

use crate::HashMapRef;
use crate::iter::Iter;
use flurry_base::hash::KeyHasher;
use std::alloc::{AllocError, Allocator};
use std::sync::Wait;

// No contract specifies which pairs are present when they are removed, since other threads change them meanwhile.
impl<'m, R: Wait, K: Ord + Drop, V: Drop, S: KeyHasher<K>, A: Allocator + Copy> HashMapRef<
    'm,
    R,
    K,
    V,
    S,
    A,
> {
    /// Calls `f` on the stored key and the value of each pair that [`HashMapRef::iter`] gives, and removes the pairs for which it returns
    /// `false`. A pair whose value was written or removed since the iterator read it is left as it is.
    ///
    /// `f` runs while no lock is held, so it may call this map. One removal for each pair for which `f` returns `false`, besides the walk.
    /// Takes the locks of the walk, and those of [`HashMapRef::remove`].
    ///
    /// ```
    /// let map: HashMap<u64, u64> = HashMap::new(rt.alloc());
    /// let view = map.pin(&rt);
    /// view.insert(37, 1)?;
    /// view.insert(38, 2)?;
    /// view.retain(|key: &u64, _value: &u64| -> bool { *key % 2 == 0 })?;
    /// assert!(rt; !view.contains_key(&37));
    /// assert!(rt; view.contains_key(&38));
    /// ```
    ///
    /// # Errors
    ///
    /// Returns [`AllocError`] if cloning an `Arc` fails. The pairs that were already removed stay removed.
    pub fn retain<F: FnMut(&K, &V) -> bool>(&self, f: F) -> Result<(), AllocError>
    where
        F: Drop,
        requires { F.IsAlwaysCallable f }
        ensures { OnOk result ((last : F)
            × FoldsWalk K.cmp (KeepsOrRemoves F.step (RemovesSeen K.cmp S.hash_of self.now)) f last) }
    {
        let mut keep = f;
        let mut pairs = self.iter();
        let ended = self.retain_rest(&mut pairs, &mut keep);
        drop(pairs);
        ended
    }

    // Visits the pairs that are left. It borrows the iterator, since a body that owns it needs a proof of its drop at each way out.
    fn retain_rest<F: FnMut(&K, &V) -> bool>(
        &self,
        pairs: &mut Iter<'_, R, K, V, A>,
        keep: &mut F,
    ) -> Result<(), AllocError>
    where
        requires callable { F.IsAlwaysCallable keep.old }
        requires begun { Begins K.cmp pairs.old }
        ensures { OnOk result
            (FoldsWalk K.cmp (KeepsOrRemoves F.step (RemovesSeen K.cmp S.hash_of self.now)) keep.old keep.new) }
    {
        for _ in self.runtime().forever() {
            let Some(seen) = pairs.next_seen()? else {
                return Ok(());
            };
            if !keep(seen.key(), seen.value()) {
                self.remove_seen(seen);
            }
        }
        unreachable!()
    }

    /// Calls `f` on the stored key and the value of each pair that [`HashMapRef::iter`] gives, and removes the keys for which it returns
    /// `false`, with any value that they then have. Unlike [`HashMapRef::retain`], it also removes a value that was written since the
    /// iterator read the pair.
    ///
    /// `f` runs while no lock is held, so it may call this map. One removal for each pair for which `f` returns `false`, besides the walk.
    /// Takes the locks of the walk, and those of [`HashMapRef::remove`].
    ///
    /// # Errors
    ///
    /// Returns [`AllocError`] if cloning an `Arc` fails. The pairs that were already removed stay removed.
    pub fn retain_force<F: FnMut(&K, &V) -> bool>(&self, f: F) -> Result<(), AllocError>
    where
        F: Drop,
        requires { F.IsAlwaysCallable f }
        ensures { OnOk result ((last : F)
            × FoldsWalk K.cmp (KeepsOrRemoves F.step (RemovesKey K.cmp S.hash_of self.now)) f last) }
    {
        let mut keep = f;
        let mut pairs = self.iter();
        let ended = self.retain_force_rest(&mut pairs, &mut keep);
        drop(pairs);
        ended
    }

    // Visits the pairs that are left, and removes a key with any value that it then has. It borrows the iterator, since a body that owns it
    // needs a proof of its drop at each way out.
    fn retain_force_rest<F: FnMut(&K, &V) -> bool>(
        &self,
        pairs: &mut Iter<'_, R, K, V, A>,
        keep: &mut F,
    ) -> Result<(), AllocError>
    where
        requires callable { F.IsAlwaysCallable keep.old }
        requires begun { Begins K.cmp pairs.old }
        ensures { OnOk result
            (FoldsWalk K.cmp (KeepsOrRemoves F.step (RemovesKey K.cmp S.hash_of self.now)) keep.old keep.new) }
    {
        for _ in self.runtime().forever() {
            let Some((key, value)) = pairs.next()? else {
                return Ok(());
            };
            if !keep(&key, &value) {
                self.remove(key.as_ref());
            }
        }
        unreachable!()
    }
}
