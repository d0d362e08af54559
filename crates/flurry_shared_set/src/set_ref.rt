//! The view of a shared set.
ghost use Rattle.std.specs.Prelude.{◌≡◌, IfOk, OnOk, true};
ghost use Rattle.flurry_shared_view.specs.SharedAnswers.{IsAnswerOf, contains_answer, ended_answer, or_refused};
ghost use Rattle.flurry_shared_view.specs.Visits.{FoldsWalk, LooksUpEqual, RemovesSeen};
ghost use Rattle.flurry_shared_view.specs.Walks.{Begins, HasEnded};
ghost use Rattle.flurry_base.specs.declared.call.Call.TheVariants.{GetKeyValue, ContainsKey, TryInsert, Remove, RemoveEntry, Reserve, Clear};
ghost use Rattle.flurry_shared_set.specs.ElementAnswers.{KeepsOrRemovesElement, element_answer, inserted_answer, removed_answer};

use flurry_base::hash::{DefaultHashBuilder, KeyHasher};
use flurry_base::query::HashedQuery;
use flurry_shared_view::HashMapRef;
use flurry_shared_view::iter::{Iter, Keys};
use std::alloc::{AllocError, Allocator, Global};
use std::marker::Model;
use std::sync::{Arc, Wait};

/// A view of a set that threads share. It borrows the set and the runtime by which its calls wait, so they do not take one as an argument.
///
/// Of each class of equal elements the set has the one that was stored first. A one-element call takes the same locks, time and memory as
/// the call of [`HashMapRef`] that it makes.
///
/// ```
/// set.pin(rt).reborrow().processors()
/// ```
#[derive(Drop)]
pub struct HashSetRef<'m, R, T: Ord, S: KeyHasher<T> = DefaultHashBuilder, A: Allocator = Global> {
    map: HashMapRef<'m, R, T, (), S, A>,
}

impl<'m, R, T: Ord, S: KeyHasher<T>, A: Allocator> Model for HashSetRef<'m, R, T, S, A> {
    ghost use Rattle.flurry_shared_view.specs.SharedAnswers.{MapSettings};

    ghost Value = { MapSettings T (Unit {0}) S };

    ghost view = { λ s. s.map };
}

impl<'m, R, T: Ord, S: KeyHasher<T>, A: Allocator> HashSetRef<'m, R, T, S, A> {
    // Creates the view of a set from the view of its map.
    pub(crate) fn of(map: HashMapRef<'m, R, T, (), S, A>) -> Self
        ensures { result ≡ map.entry }
    {
        HashSetRef { map }
    }

    /// Returns the runtime by which the view's calls wait. Constant time.
    pub fn runtime(&self) -> &'m R {
        self.map.runtime()
    }

    /// Returns the number of threads among which a growth is divided; `0` means 1. Constant time.
    pub fn processors(&self) -> usize
        ensures { result ≡ self.now.processors }
    {
        self.map.processors()
    }

    /// Returns another view of the same set. Constant time; takes no memory.
    pub fn reborrow(&self) -> Self
        ensures { result ≡ self.now }
    {
        HashSetRef {
            map: self.map.reborrow(),
        }
    }
}

impl<'m, R: Wait, T: Ord, S: KeyHasher<T>, A: Allocator> HashSetRef<'m, R, T, S, A> {
    /// Returns the number of elements, counted at one moment during the call. See [`HashMapRef::len`].
    // No contract specifies the count, since other threads change it.
    pub fn len(&self) -> usize {
        self.map.len()
    }

    /// Returns `true` if the set has no elements. They are counted as by [`HashSetRef::len`].
    // No contract specifies the result, since other threads change the count.
    pub fn is_empty(&self) -> bool {
        self.map.is_empty()
    }
}

impl<'m, R: Wait, T: Ord + Drop, S: KeyHasher<T>, A: Allocator + Copy> HashSetRef<'m, R, T, S, A> {
    /// Returns `true` if the set has an element equal to `element`. It takes no memory.
    ///
    /// ```
    /// let set: HashSet<u64> = HashSet::new(rt.alloc());
    /// let view = set.pin(&rt);
    /// view.insert(37)?;
    /// assert!(rt; view.contains(&37));
    /// assert!(rt; !view.contains(&38));
    /// ```
    ///
    /// An element of the type `String` is found by a `&str` too, without a `String` made for it, as [`Query`](flurry_base::query::Query) tells.
    pub fn contains<Q: HashedQuery<T, S>>(&self, element: Q) -> bool
        ensures { IsAnswerOf T.cmp S.hash_of self.now (ContainsKey (Q.stands_for element)) (contains_answer result) }
    {
        self.map.contains_key(element)
    }

    /// Returns a clone of the `Arc` of the stored element that is equal to `element`, or `None` if there is none.
    ///
    /// ```
    /// let set: HashSet<u64> = HashSet::new(rt.alloc());
    /// let view = set.pin(&rt);
    /// view.insert(37)?;
    /// assert_eq!(rt; view.get(&37)?.map(|element| *element), Some(37));
    /// assert!(rt; view.get(&38)?.is_none());
    /// ```
    ///
    /// # Errors
    ///
    /// Returns [`AllocError`] if cloning an `Arc` fails, which it cannot if the set has no element equal to `element`.
    pub fn get<Q: HashedQuery<T, S>>(&self, element: Q) -> Result<Option<Arc<T, A>>, AllocError>
        ensures { IsAnswerOf T.cmp S.hash_of self.now (GetKeyValue (Q.stands_for element))
            (or_refused element_answer result) }
    {
        match self.map.get_key_value(element)? {
            Some((stored, _)) => Ok(Some(stored)),
            None => Ok(None),
        }
    }

    /// Inserts an element, and returns `true` if the set had no equal one. If it had one, the stored element stays, and the argument
    /// `element` is dropped. A new element may make the table grow; if memory for the larger table cannot be allocated, the set stays in
    /// the old table.
    ///
    /// ```
    /// let set: HashSet<u64> = HashSet::new(rt.alloc());
    /// let view = set.pin(&rt);
    /// assert!(rt; view.insert(37)?);
    /// assert!(rt; !view.insert(37)?);
    /// ```
    ///
    /// # Errors
    ///
    /// Returns [`AllocError`] if memory for a new element or for a first table cannot be allocated, or if cloning an `Arc` of what is
    /// stored fails. The call then changes no element, and the argument `element` is dropped.
    pub fn insert(&self, element: T) -> Result<bool, AllocError>
        ensures { IsAnswerOf T.cmp S.hash_of self.now (TryInsert element tt) (or_refused inserted_answer result) }
    {
        match self.map.try_insert(element, ())? {
            Ok(_) => Ok(true),
            Err(_) => Ok(false),
        }
    }

    /// Removes the element equal to `element`, and returns `true` if there was one. The table keeps its size. It takes no memory.
    ///
    /// ```
    /// let set: HashSet<u64> = HashSet::new(rt.alloc());
    /// let view = set.pin(&rt);
    /// view.insert(37)?;
    /// assert!(rt; view.remove(&37));
    /// assert!(rt; !view.remove(&37));
    /// ```
    pub fn remove<Q: HashedQuery<T, S>>(&self, element: Q) -> bool
        ensures { IsAnswerOf T.cmp S.hash_of self.now (Remove (Q.stands_for element)) (removed_answer result) }
    {
        match self.map.remove(element) {
            Some(_) => true,
            None => false,
        }
    }

    /// Removes the element equal to `element`, and returns it, or `None` if there is none. The table keeps its size. It takes no memory.
    pub fn take<Q: HashedQuery<T, S>>(&self, element: Q) -> Option<Arc<T, A>>
        ensures { IsAnswerOf T.cmp S.hash_of self.now (RemoveEntry (Q.stands_for element)) (element_answer result) }
    {
        match self.map.remove_entry(element) {
            Some((stored, _)) => Some(stored),
            None => None,
        }
    }

    /// Grows the table so that `additional` more elements fit than the set then counts. See [`HashMapRef::reserve`].
    ///
    /// Each doubling moves every element. So a request of `usize::MAX` elements may take most of the memory.
    ///
    /// # Errors
    ///
    /// Returns [`AllocError`] if memory for a table cannot be allocated. The elements stay, and so do the doublings that were done.
    pub fn reserve(&self, additional: usize) -> Result<(), AllocError>
        ensures { IsAnswerOf T.cmp S.hash_of self.now (Reserve additional) (or_refused ended_answer result) }
    {
        self.map.reserve(additional)
    }

    /// Removes all elements, one bin after another. See [`HashMapRef::clear`].
    ///
    /// ```
    /// let set: HashSet<u64> = HashSet::new(rt.alloc());
    /// let view = set.pin(&rt);
    /// view.insert(37)?;
    /// view.clear();
    /// assert!(rt; view.is_empty());
    /// ```
    pub fn clear(&self)
        ensures { IsAnswerOf T.cmp S.hash_of self.now Clear (ended_answer tt) }
    {
        self.map.clear();
    }

    /// Returns an iterator that gives clones of the `Arc`s of the elements. Other calls may run meanwhile. See [`HashMapRef::iter`].
    pub fn iter(&self) -> Keys<'m, R, T, (), A>
        ensures { Begins T.cmp result }
    {
        self.map.keys()
    }

    /// Returns `true` if both sets count equally many elements, and if each element that a walk of this set reads is equal to one of
    /// `other`.
    ///
    /// # Errors
    ///
    /// Returns [`AllocError`] if cloning an `Arc` fails.
    // No contract specifies when a set is unequal, since its length is one that other threads may change meanwhile.
    pub fn equals(&self, other: &Self) -> Result<bool, AllocError>
        ensures { IfOk result (λ are_equal. are_equal ≡ true
            → FoldsWalk T.cmp (LooksUpEqual T.cmp S.hash_of other.now (λ _ _. true) true) tt tt) }
    {
        self.map.equals(&other.map)
    }

    /// Returns `true` if no element that a walk of this set reads is equal to one of `other`. One look-up for each element.
    ///
    /// # Errors
    ///
    /// Returns [`AllocError`] if cloning an `Arc` fails.
    // While other threads write, the result does not describe any one moment.
    pub fn is_disjoint(&self, other: &Self) -> Result<bool, AllocError> {
        self.each_is(other, false)
    }

    /// Returns `true` if each element that a walk of this set reads is equal to one of `other`. One look-up for each element.
    ///
    /// # Errors
    ///
    /// Returns [`AllocError`] if cloning an `Arc` fails.
    // While other threads write, the result does not describe any one moment.
    pub fn is_subset(&self, other: &Self) -> Result<bool, AllocError> {
        self.each_is(other, true)
    }

    /// Returns `true` if each element that a walk of `other` reads is equal to one of this set. One look-up for each element.
    ///
    /// # Errors
    ///
    /// Returns [`AllocError`] if cloning an `Arc` fails.
    // While other threads write, the result does not describe any one moment.
    pub fn is_superset(&self, other: &Self) -> Result<bool, AllocError> {
        other.is_subset(self)
    }

    /// Calls `f` on each element that [`HashSetRef::iter`] gives, and removes the elements for which it returns `false`. An element that
    /// was removed meanwhile, and inserted again, stays.
    ///
    /// `f` runs while no lock is held, so it may call this set. One removal for each element for which `f` returns `false`, besides the
    /// walk. Takes the locks of [`HashMapRef::retain`].
    ///
    /// ```
    /// let set: HashSet<u64> = HashSet::new(rt.alloc());
    /// let view = set.pin(&rt);
    /// view.insert(37)?;
    /// view.insert(38)?;
    /// view.retain(|element: &u64| -> bool { *element % 2 == 0 })?;
    /// assert!(rt; !view.contains(&37));
    /// assert!(rt; view.contains(&38));
    /// ```
    ///
    /// # Errors
    ///
    /// Returns [`AllocError`] if cloning an `Arc` fails. The elements that were already removed stay removed.
    // No contract specifies which elements are present when they are removed, since other threads change them meanwhile.
    pub fn retain<F: FnMut(&T) -> bool>(&self, f: F) -> Result<(), AllocError>
    where
        F: Drop,
        requires { F.IsAlwaysCallable f }
        ensures { OnOk result ((last : F)
            × FoldsWalk T.cmp (KeepsOrRemovesElement F.step (RemovesSeen T.cmp S.hash_of self.now)) f last) }
    {
        let mut keep = f;
        let mut pairs = self.map.iter();
        let ended = self.retain_rest(&mut pairs, &mut keep);
        drop(pairs);
        ended
    }

    // Visits the elements that are left. It borrows the iterator, since a body that owns it needs a proof of its drop at each way out.
    fn retain_rest<F: FnMut(&T) -> bool>(
        &self,
        pairs: &mut Iter<'_, R, T, (), A>,
        keep: &mut F,
    ) -> Result<(), AllocError>
    where
        requires callable { F.IsAlwaysCallable keep.old }
        requires begun { Begins T.cmp pairs.old }
        ensures { OnOk result
            (FoldsWalk T.cmp (KeepsOrRemovesElement F.step (RemovesSeen T.cmp S.hash_of self.now)) keep.old keep.new) }
    {
        for _ in self.map.runtime().forever() {
            let Some(seen) = pairs.next_seen()? else {
                return Ok(());
            };
            if !keep(seen.key()) {
                self.map.remove_seen(seen);
            }
        }
        unreachable!()
    }

    // Whether each element that a walk of this set reads is in `other`, if `present` is `true`; or whether none of them is, if it is
    // `false`.
    fn each_is(&self, other: &Self, present: bool) -> Result<bool, AllocError> {
        let mut pairs = self.map.iter();
        let answer = other.each_left_is(&mut pairs, present);
        drop(pairs);
        answer
    }

    // Whether each element that is left of a walk is in this set, if `present` is `true`; or whether none of them is, if it is `false`.
    fn each_left_is(
        &self,
        pairs: &mut Iter<'_, R, T, (), A>,
        present: bool,
    ) -> Result<bool, AllocError>
        requires { Begins T.cmp pairs.old }
        ensures { IfOk result (λ is_each. is_each ≡ true → HasEnded T.cmp pairs.new) }
    {
        for _ in self.map.runtime().forever() {
            let Some((element, nothing)) = pairs.next()? else {
                return Ok(true);
            };
            if !self.has_as(&element, &nothing, present)? {
                return Ok(false);
            }
        }
        unreachable!()
    }

    // Whether the set has an element equal to `element`, if `present` is `true`; or whether it has none, if it is `false`.
    // It has the shape of the look-up in the map's `equals`, and no contract: both shorten the proof of the loop above.
    fn has_as(&self, element: &T, _nothing: &(), present: bool) -> Result<bool, AllocError> {
        Ok(self.contains(element) == present)
    }
}
