//! The shared set.
ghost use Rattle.std.specs.Prelude.{◌≡◌, IfOk, OnOk, true};
ghost use Rattle.flurry_shared_view.specs.SharedAnswers.{IsAnswerOf, contains_answer, ended_answer, or_refused};
ghost use Rattle.flurry_shared_view.specs.Visits.{FoldsWalk, LooksUpEqual, RemovesSeen};
ghost use Rattle.flurry_shared_view.specs.Walks.{Begins};
ghost use Rattle.flurry_base.specs.Hashing.{seed_of};
ghost use Rattle.flurry_base.specs.declared.call.Call.TheVariants.{GetKeyValue, ContainsKey, TryInsert, Remove, RemoveEntry, Reserve, Clear};
ghost use Rattle.flurry_shared_set.specs.ElementAnswers.{KeepsOrRemovesElement, element_answer, inserted_answer, removed_answer};

use crate::HashSetRef;
use flurry_base::hash::{DefaultHashBuilder, KeyHasher};
use flurry_base::query::HashedQuery;
use flurry_shared::HashMap;
use flurry_shared::iter::Keys;
use std::alloc::{AllocError, Allocator, Global};
use std::hash::Hash;
use std::marker::Model;
use std::sync::{Arc, Wait};

/// A set that threads share. Each call takes `&self`, and may wait for others.
///
/// Of each class of equal elements it has the one that was stored first. A one-element call takes the same locks, time and memory as the
/// call of [`HashMap`] that it makes.
///
/// ```
/// seen.insert(rt, x)
/// ```
#[derive(Drop)]
pub struct HashSet<T: Ord, S: KeyHasher<T> = DefaultHashBuilder, A: Allocator = Global> {
    map: HashMap<T, (), S, A>,
}

impl<T: Ord, S: KeyHasher<T>, A: Allocator> Model for HashSet<T, S, A> {
    ghost use Rattle.flurry_shared_view.specs.SharedAnswers.{MapSettings};

    ghost Value = { MapSettings T (Unit {0}) S };

    ghost view = { λ s. s.map };
}

impl<T: Hash + Ord + Drop, A: Allocator> HashSet<T, DefaultHashBuilder, A> {
    /// Creates an empty set without a table, with the default hasher whose seed is zero. It takes no memory.
    ///
    /// ```
    /// let set: HashSet<u64> = HashSet::new(rt.alloc());
    /// set.insert(&rt, 37)?;
    /// assert_eq!(rt; set.len(&rt), 1);
    /// ```
    pub fn new(alloc: A) -> Self
        ensures seed { seed_of result.hasher ≡ 0 }
        ensures processors { result.processors ≡ 1 }
    {
        HashSet::with_hasher(alloc, DefaultHashBuilder::default())
    }

    /// Creates an empty set with a table for `capacity` elements, with the default hasher whose seed is zero. If `capacity` is 0, it has no
    /// table.
    ///
    /// Linear in the number of bins.
    ///
    /// # Errors
    ///
    /// Returns [`AllocError`] if memory for the table cannot be allocated.
    pub fn with_capacity(alloc: A, capacity: usize) -> Result<Self, AllocError>
    where
        A: Copy,
        ensures seed { IfOk result (λ s. seed_of s.hasher ≡ 0) }
        ensures processors { IfOk result (λ s. s.processors ≡ 1) }
    {
        HashSet::with_capacity_and_hasher(alloc, capacity, DefaultHashBuilder::default())
    }
}

impl<T: Ord + Drop, S: KeyHasher<T>, A: Allocator> HashSet<T, S, A> {
    /// Creates an empty set without a table, with the given hasher. It takes no memory.
    pub fn with_hasher(alloc: A, hasher: S) -> Self
        ensures { result ≡ record { hasher = hasher; processors = 1 } }
    {
        HashSet {
            map: HashMap::with_hasher(alloc, hasher),
        }
    }

    /// Sets the number of threads among which a growth is divided; `0` means 1. See [`HashMap::with_processors`].
    ///
    /// Constant time.
    pub fn with_processors(self, processors: usize) -> Self
        ensures { result ≡ record { hasher = self.hasher; processors = processors } }
    {
        let HashSet { map } = self;
        HashSet {
            map: map.with_processors(processors),
        }
    }

    /// Returns a view of the set. It keeps the runtime `rt`, so its calls do not take it as an argument. Constant time; takes no memory.
    ///
    /// ```
    /// let set: HashSet<u64> = HashSet::new(rt.alloc());
    /// let view = set.pin(&rt);
    /// assert!(rt; view.insert(37)?);
    /// assert!(rt; view.contains(&37));
    /// ```
    #[inline(always)]
    pub fn pin<'m, R>(&'m self, rt: &'m R) -> HashSetRef<'m, R, T, S, A>
        ensures { result ≡ self.now }
    {
        HashSetRef::of(self.map.pin(rt))
    }

    /// Returns the number of elements, counted at one moment during the call. See [`HashMap::len`].
    // No contract specifies the count, since other threads change it.
    pub fn len<R: Wait>(&self, rt: &R) -> usize {
        self.map.len(rt)
    }

    /// Returns `true` if the set has no elements. They are counted as by [`HashSet::len`].
    // No contract specifies the result, since other threads change the count.
    pub fn is_empty<R: Wait>(&self, rt: &R) -> bool {
        self.map.is_empty(rt)
    }
}

impl<T: Ord + Drop, S: KeyHasher<T>, A: Allocator + Copy> HashSet<T, S, A> {
    /// Creates an empty set with a table for `capacity` elements, with the given hasher. If `capacity` is 0, it has no table.
    ///
    /// Linear in the number of bins.
    ///
    /// # Errors
    ///
    /// Returns [`AllocError`] if memory for the table cannot be allocated.
    pub fn with_capacity_and_hasher(
        alloc: A,
        capacity: usize,
        hasher: S,
    ) -> Result<Self, AllocError>
    where
        S: Drop,
        ensures { IfOk result (λ s. s ≡ record { hasher = hasher; processors = 1 }) }
    {
        let map = HashMap::with_capacity_and_hasher(alloc, capacity, hasher)?;
        Ok(HashSet { map })
    }

    /// Returns `true` if the set has an element equal to `element`. It takes no memory.
    ///
    /// ```
    /// let set: HashSet<u64> = HashSet::new(rt.alloc());
    /// set.insert(&rt, 37)?;
    /// assert!(rt; set.contains(&rt, &37));
    /// assert!(rt; !set.contains(&rt, &38));
    /// ```
    ///
    /// An element of the type `String` is found by a `&str` too, without a `String` made for it, as [`Query`](flurry_base::query::Query) tells.
    pub fn contains<Q: HashedQuery<T, S>, R: Wait>(&self, rt: &R, element: Q) -> bool
        ensures { IsAnswerOf T.cmp S.hash_of self.now (ContainsKey (Q.stands_for element)) (contains_answer result) }
    {
        self.pin(rt).contains(element)
    }

    /// Returns a clone of the `Arc` of the stored element that is equal to `element`, or `None` if there is none.
    ///
    /// ```
    /// let set: HashSet<u64> = HashSet::new(rt.alloc());
    /// set.insert(&rt, 37)?;
    /// assert_eq!(rt; set.get(&rt, &37)?.map(|element| *element), Some(37));
    /// assert!(rt; set.get(&rt, &38)?.is_none());
    /// ```
    ///
    /// # Errors
    ///
    /// Returns [`AllocError`] if cloning an `Arc` fails, which it cannot if the set has no element equal to `element`.
    pub fn get<Q: HashedQuery<T, S>, R: Wait>(
        &self,
        rt: &R,
        element: Q,
    ) -> Result<Option<Arc<T, A>>, AllocError>
        ensures { IsAnswerOf T.cmp S.hash_of self.now (GetKeyValue (Q.stands_for element))
            (or_refused element_answer result) }
    {
        self.pin(rt).get(element)
    }

    /// Inserts an element, and returns `true` if the set had no equal one. If it had one, the stored element stays, and the argument
    /// `element` is dropped. A new element may make the table grow; if memory for the larger table cannot be allocated, the set stays in
    /// the old table.
    ///
    /// ```
    /// let set: HashSet<u64> = HashSet::new(rt.alloc());
    /// assert!(rt; set.insert(&rt, 37)?);
    /// assert!(rt; !set.insert(&rt, 37)?);
    /// ```
    ///
    /// # Errors
    ///
    /// Returns [`AllocError`] if memory for a new element or for a first table cannot be allocated, or if cloning an `Arc` of what is
    /// stored fails. The call then changes no element, and the argument `element` is dropped.
    pub fn insert<R: Wait>(&self, rt: &R, element: T) -> Result<bool, AllocError>
        ensures { IsAnswerOf T.cmp S.hash_of self.now (TryInsert element tt) (or_refused inserted_answer result) }
    {
        self.pin(rt).insert(element)
    }

    /// Removes the element equal to `element`, and returns `true` if there was one. The table keeps its size. It takes no memory.
    ///
    /// ```
    /// let set: HashSet<u64> = HashSet::new(rt.alloc());
    /// set.insert(&rt, 37)?;
    /// assert!(rt; set.remove(&rt, &37));
    /// assert!(rt; !set.remove(&rt, &37));
    /// ```
    pub fn remove<Q: HashedQuery<T, S>, R: Wait>(&self, rt: &R, element: Q) -> bool
        ensures { IsAnswerOf T.cmp S.hash_of self.now (Remove (Q.stands_for element)) (removed_answer result) }
    {
        self.pin(rt).remove(element)
    }

    /// Removes the element equal to `element`, and returns it, or `None` if there is none. The table keeps its size. It takes no memory.
    pub fn take<Q: HashedQuery<T, S>, R: Wait>(&self, rt: &R, element: Q) -> Option<Arc<T, A>>
        ensures { IsAnswerOf T.cmp S.hash_of self.now (RemoveEntry (Q.stands_for element)) (element_answer result) }
    {
        self.pin(rt).take(element)
    }

    /// Grows the table so that `additional` more elements fit than the set then counts. See [`HashMap::reserve`].
    ///
    /// Each doubling moves every element. So a request of `usize::MAX` elements may take most of the memory.
    ///
    /// # Errors
    ///
    /// Returns [`AllocError`] if memory for a table cannot be allocated. The elements stay, and so do the doublings that were done.
    pub fn reserve<R: Wait>(&self, rt: &R, additional: usize) -> Result<(), AllocError>
        ensures { IsAnswerOf T.cmp S.hash_of self.now (Reserve additional) (or_refused ended_answer result) }
    {
        self.pin(rt).reserve(additional)
    }

    /// Removes all elements, one bin after another. See [`HashMap::clear`].
    ///
    /// ```
    /// let set: HashSet<u64> = HashSet::new(rt.alloc());
    /// set.insert(&rt, 37)?;
    /// set.clear(&rt);
    /// assert!(rt; set.is_empty(&rt));
    /// ```
    pub fn clear<R: Wait>(&self, rt: &R)
        ensures { IsAnswerOf T.cmp S.hash_of self.now Clear (ended_answer tt) }
    {
        self.pin(rt).clear();
    }

    /// Returns an iterator that gives clones of the `Arc`s of the elements. Other calls may run meanwhile. See [`HashMap::iter`].
    pub fn iter<'m, R: Wait>(&'m self, rt: &'m R) -> Keys<'m, R, T, (), A>
        ensures { Begins T.cmp result }
    {
        self.pin(rt).iter()
    }

    /// Inserts the elements of `list` in their order. First it makes room, for as many elements as `list` has if the set is empty, and for
    /// half as many, rounded up, if it is not.
    ///
    /// One insertion for each element.
    ///
    /// ```
    /// let set: HashSet<u64> = HashSet::new(rt.alloc());
    /// let mut list = Vec::new(rt.alloc());
    /// list.push(37)?;
    /// list.push(37)?;
    /// set.extend(&rt, list)?;
    /// assert_eq!(rt; set.len(&rt), 1);
    /// ```
    ///
    /// # Errors
    ///
    /// Returns [`AllocError`] if memory for a table cannot be allocated, or if an insertion fails. The elements that were already inserted
    /// stay, and the rest is dropped.
    // No contract specifies what other threads leave in the set.
    pub fn extend<R: Wait>(&self, rt: &R, list: Vec<T, A>) -> Result<(), AllocError> {
        let count = list.len();
        let room = if self.is_empty(rt) {
            count
        } else {
            count.div_ceil(2)
        };
        self.reserve(rt, room)?;
        self.insert_all(rt, list)
    }

    /// Creates a set of the elements of `list`, inserted in their order, with the given hasher. It starts with room for as many elements as
    /// `list` has, or without a table if `list` is empty, and has the allocator of `list`.
    ///
    /// One insertion for each element.
    ///
    /// # Errors
    ///
    /// Returns [`AllocError`] if memory cannot be allocated. The list is dropped.
    pub fn from_list<R: Wait>(rt: &R, list: Vec<T, A>, hasher: S) -> Result<Self, AllocError>
    where
        S: Drop,
        ensures { IfOk result (λ s. s ≡ record { hasher = hasher; processors = 1 }) }
    {
        let set = HashSet::with_capacity_and_hasher(*list.allocator(), list.len(), hasher)?;
        set.insert_all(rt, list)?;
        Ok(set)
    }

    /// Creates another set, of the elements that are found while other calls run. See [`HashMap::try_clone`].
    ///
    /// # Errors
    ///
    /// Returns [`AllocError`] if memory cannot be allocated.
    pub fn try_clone<R: Wait>(&self, rt: &R) -> Result<Self, AllocError>
    where
        S: Copy + Drop,
        ensures { IfOk result (λ s. s ≡ self.now) }
    {
        let map = self.map.try_clone(rt)?;
        Ok(HashSet { map })
    }

    // Inserts the elements of `list` in their order.
    fn insert_all<R: Wait>(&self, rt: &R, list: Vec<T, A>) -> Result<(), AllocError> {
        for element in list {
            self.insert(rt, element)?;
        }
        Ok(())
    }

    /// Returns `true` if both sets count equally many elements, and if each element that a walk of this set reads is equal to one of
    /// `other`.
    ///
    /// # Errors
    ///
    /// Returns [`AllocError`] if cloning an `Arc` fails.
    // No contract specifies when a set is unequal, since its length is one that other threads may change meanwhile.
    pub fn equals<R: Wait>(&self, rt: &R, other: &Self) -> Result<bool, AllocError>
        ensures { IfOk result (λ are_equal. are_equal ≡ true
            → FoldsWalk T.cmp (LooksUpEqual T.cmp S.hash_of other.now (λ _ _. true) true) tt tt) }
    {
        self.pin(rt).equals(&other.pin(rt))
    }

    /// Returns `true` if no element that a walk of this set reads is equal to one of `other`. One look-up for each element.
    ///
    /// # Errors
    ///
    /// Returns [`AllocError`] if cloning an `Arc` fails.
    // While other threads write, the result does not describe any one moment.
    pub fn is_disjoint<R: Wait>(&self, rt: &R, other: &Self) -> Result<bool, AllocError> {
        self.pin(rt).is_disjoint(&other.pin(rt))
    }

    /// Returns `true` if each element that a walk of this set reads is equal to one of `other`. One look-up for each element.
    ///
    /// # Errors
    ///
    /// Returns [`AllocError`] if cloning an `Arc` fails.
    // While other threads write, the result does not describe any one moment.
    pub fn is_subset<R: Wait>(&self, rt: &R, other: &Self) -> Result<bool, AllocError> {
        self.pin(rt).is_subset(&other.pin(rt))
    }

    /// Returns `true` if each element that a walk of `other` reads is equal to one of this set. One look-up for each element.
    ///
    /// # Errors
    ///
    /// Returns [`AllocError`] if cloning an `Arc` fails.
    // While other threads write, the result does not describe any one moment.
    pub fn is_superset<R: Wait>(&self, rt: &R, other: &Self) -> Result<bool, AllocError> {
        self.pin(rt).is_superset(&other.pin(rt))
    }

    /// Calls `f` on each element that [`HashSet::iter`] gives, and removes the elements for which it returns `false`. An element that was
    /// removed meanwhile, and inserted again, stays.
    ///
    /// `f` runs while no lock is held, so it may call this set. One removal for each element for which `f` returns `false`, besides the
    /// walk. Takes the locks of [`HashMap::retain`].
    ///
    /// ```
    /// let set: HashSet<u64> = HashSet::new(rt.alloc());
    /// set.insert(&rt, 37)?;
    /// set.insert(&rt, 38)?;
    /// set.retain(&rt, |element: &u64| -> bool { *element % 2 == 0 })?;
    /// assert!(rt; !set.contains(&rt, &37));
    /// assert!(rt; set.contains(&rt, &38));
    /// ```
    ///
    /// # Errors
    ///
    /// Returns [`AllocError`] if cloning an `Arc` fails. The elements that were already removed stay removed.
    // No contract specifies which elements are present when they are removed, since other threads change them meanwhile.
    pub fn retain<F: FnMut(&T) -> bool, R: Wait>(&self, rt: &R, f: F) -> Result<(), AllocError>
    where
        F: Drop,
        requires { F.IsAlwaysCallable f }
        ensures { OnOk result ((last : F)
            × FoldsWalk T.cmp (KeepsOrRemovesElement F.step (RemovesSeen T.cmp S.hash_of self.now)) f last) }
    {
        self.pin(rt).retain(f)
    }
}
