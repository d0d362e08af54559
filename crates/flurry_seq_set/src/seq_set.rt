//! The owned set: a hash set with one owner.
ghost use Rattle.std.specs.Prelude.{◌≡◌, ℕ, ◌+◌, ◌≤◌, ◌↔◌, ◌++◌, [], List, length, Some, OnOk, OnErr, IfOk, IsTrue, IsSome, IsNone, is_some, is_none, not, ◌==◌, if◌then◌else◌, IsPermutation};
ghost use Rattle.std.specs.Option.{option_map};
ghost use Rattle.std.specs.Arc.{arc_value};
ghost use Rattle.flurry_bins.specs.Chain.{entry_of};
ghost use Rattle.flurry_base.specs.FiniteMap.{IsFiniteMap};
ghost use Rattle.flurry_base.specs.FiniteSet.{IsFiniteSet, element_at, with_element, with_elements, without_element, IsSubset, AreDisjoint};
ghost use Rattle.flurry_base.specs.Hashing.{seed_of};
ghost use Rattle.flurry_base.specs.Sizes.{wanted_of, IsGrown};
ghost use Rattle.flurry_seq.specs.Contents.{first_bins};
ghost use Rattle.flurry_seq.specs.Growth.{bins_for, IsTableFrom, IsTableAfter, HasRoom};
ghost use Rattle.flurry_seq_set.specs.SetContents.{keys_in, set_contents, set_with, SameElements, asked_for, sets_eq, sets_eq_per, sets_eq_equiv};
ghost use Rattle.flurry_seq_set.specs.SetRetain.{RetainsElements};
ghost use Rattle.flurry_base.specs.declared.sizes.TheConstants.{FIRST_BINS, MAX_LEN};

use flurry_base::hash::{DefaultHashBuilder, KeyHasher};
use flurry_base::query::HashedQuery;
use flurry_bins::bin::Node;
use flurry_bins_insertion::table::new_arc_pair;
use flurry_seq::{Keys, SeqMap};
use std::alloc::{AllocError, Allocator, Global};
use std::hash::Hash;
use std::marker::Model;
use std::sync::Arc;

/// A hash set with one owner.
///
/// Its elements are a finite set: of each class of equal elements that is present, it has the one that was stored first.
///
/// A call on one element is as fast as the call of [`SeqMap`] that it makes.
///
/// ```
/// set.insert(x)?;
/// Ok(())
/// ```
#[derive(Drop)]
pub struct SeqSet<T: Ord, S: KeyHasher<T> = DefaultHashBuilder, A: Allocator = Global> {
    map: SeqMap<T, (), S, A>,
}

impl<T: Ord, S: KeyHasher<T>, A: Allocator> Model for SeqSet<T, S, A> {
    ghost use Rattle.flurry_base.specs.FiniteMap.{IsFiniteMap};
    ghost use Rattle.flurry_seq_set.specs.SetContents.{SetContents, keys_in, set_contents_code};

    ghost Value = { SetContents T S };

    ghost coded = { set_contents_code T.code S.code };

    ghost view = { λ s. keys_in s.map };

    ghost invariant = { λ s. IsFiniteMap T.cmp s.map.pairs };
}

impl<T: Hash + Ord + Drop, A: Allocator> SeqSet<T, DefaultHashBuilder, A> {
    /// Creates an empty set without a table, with the default hasher whose seed is zero. Takes no memory.
    ///
    /// ```
    /// let mut set: SeqSet<u64> = SeqSet::new(rt.alloc());
    /// assert!(rt; set.is_empty());
    /// set.insert(37)?;
    /// assert_eq!(rt; set.len(), 1);
    /// ```
    pub fn new(alloc: A) -> Self
        ensures elements { result.elements ≡ [] }
        ensures ascend { IsFiniteSet T.cmp result.elements }
        ensures bins { result.bins ≡ 0 }
        ensures seed { seed_of result.hasher ≡ 0 }
    {
        SeqSet::with_hasher(alloc, DefaultHashBuilder::default())
    }

    /// Creates an empty set with room for `capacity` elements, with the default hasher whose seed is zero. If `capacity` is `0`, the set has
    /// no table.
    ///
    /// Linear in the number of bins.
    ///
    /// # Errors
    ///
    /// Returns [`AllocError`] if memory for the table cannot be allocated.
    pub fn with_capacity(alloc: A, capacity: usize) -> Result<Self, AllocError>
    where
        A: Copy,
        ensures elements { IfOk result (λ s. s.elements ≡ []) }
        ensures ascend { IfOk result (λ s. IsFiniteSet T.cmp s.elements) }
        ensures bins { IfOk result (λ s. s.bins ≡ (if capacity == 0 then 0 else wanted_of capacity)) }
        ensures seed { IfOk result (λ s. seed_of s.hasher ≡ 0) }
    {
        SeqSet::with_capacity_and_hasher(alloc, capacity, DefaultHashBuilder::default())
    }
}

impl<T: Ord + Drop, S: KeyHasher<T>, A: Allocator> SeqSet<T, S, A> {
    /// Creates an empty set without a table, which uses `hasher`. Takes no memory.
    pub fn with_hasher(alloc: A, hasher: S) -> Self
        ensures empty { result ≡ set_contents [] 0 hasher }
        ensures ascend { IsFiniteSet T.cmp result.elements }
    {
        SeqSet {
            map: SeqMap::with_hasher(alloc, hasher),
        }
    }

    /// Creates a set of the keys of `map`, with the table and the hasher of the map. Constant time. Takes no memory.
    ///
    /// The precondition that the keys ascend holds for every map: the contract of each of its calls says so.
    pub fn from_map(map: SeqMap<T, (), S, A>) -> Self
        requires ascend { IsFiniteMap T.cmp map.pairs }
        ensures keys { result ≡ keys_in map }
        ensures ascend { IsFiniteSet T.cmp result.elements }
    {
        SeqSet { map }
    }

    /// Returns a reference to the set's allocator.
    ///
    /// Constant time.
    pub fn allocator(&self) -> &A
        ensures ascend { IsFiniteSet T.cmp self.now.elements }
    {
        self.map.allocator()
    }

    /// Returns a reference to the set's hasher.
    ///
    /// Constant time.
    pub fn hasher(&self) -> &S
        ensures same { result.now ≡ self.now.hasher }
        ensures ascend { IsFiniteSet T.cmp self.now.elements }
    {
        self.map.hasher()
    }

    /// Returns the number of elements in the set.
    ///
    /// Constant time.
    pub fn len(&self) -> usize
        ensures elements { result ≡ length self.now.elements }
        ensures ascend { IsFiniteSet T.cmp self.now.elements }
        ensures few { result ≤ MAX_LEN }
    {
        self.map.len()
    }

    /// Returns `true` if the set has no elements.
    ///
    /// Constant time.
    pub fn is_empty(&self) -> bool
        ensures empty { result ≡ (length self.now.elements == 0) }
        ensures ascend { IsFiniteSet T.cmp self.now.elements }
    {
        self.map.is_empty()
    }

    /// Returns `true` if the set contains an element equal to `element`. One look-up.
    ///
    /// ```
    /// let mut set: SeqSet<u64> = SeqSet::new(rt.alloc());
    /// set.insert(37)?;
    /// assert!(rt; set.contains(&37));
    /// assert!(rt; !set.contains(&38));
    /// ```
    ///
    /// An element of the type `String` is found by a `&str` too, without a `String` made for it, as [`Query`](flurry_base::query::Query) tells.
    pub fn contains<Q: HashedQuery<T, S>>(&self, element: Q) -> bool
        ensures found { result ≡ is_some (element_at T.cmp self.now.elements (Q.stands_for element)) }
        ensures ascend { IsFiniteSet T.cmp self.now.elements }
    {
        self.map.contains_key(element)
    }

    /// Returns a reference to the `Arc` of the stored element that is equal to `element`, or `None` if there is none. One look-up.
    ///
    /// ```
    /// let mut set: SeqSet<u64> = SeqSet::new(rt.alloc());
    /// set.insert(37)?;
    /// assert_eq!(rt; set.get(&37).map(|element| **element), Some(37));
    /// assert!(rt; set.get(&38).is_none());
    /// ```
    pub fn get<Q: HashedQuery<T, S>>(&self, element: Q) -> Option<&Arc<T, A>>
        ensures element { option_map (λ x. arc_value x.now) result
            ≡ element_at T.cmp self.now.elements (Q.stands_for element) }
        ensures ascend { IsFiniteSet T.cmp self.now.elements }
    {
        let (stored, _) = self.map.get_key_value(element)?;
        Some(stored)
    }

    /// Removes the element equal to `element`, and returns `true` if there was one. The size of the table does not change.
    ///
    /// ```
    /// let mut set: SeqSet<u64> = SeqSet::new(rt.alloc());
    /// set.insert(37)?;
    /// assert!(rt; set.remove(&37));
    /// assert!(rt; !set.remove(&37));
    /// ```
    pub fn remove<Q: HashedQuery<T, S>>(&mut self, element: Q) -> bool
        ensures found { result ≡ is_some (element_at T.cmp self.old.elements (Q.stands_for element)) }
        ensures after { self.new ≡ set_with self.old (without_element T.cmp self.old.elements (Q.stands_for element)) }
        ensures ascend { IsFiniteSet T.cmp self.old.elements }
    {
        self.map.remove(element).is_some()
    }

    /// Removes the element equal to `element`, and returns it, or `None` if there is none. The size of the table does not change.
    pub fn take<Q: HashedQuery<T, S>>(&mut self, element: Q) -> Option<Arc<T, A>>
        ensures element { option_map arc_value result ≡ element_at T.cmp self.old.elements (Q.stands_for element) }
        ensures after { self.new ≡ set_with self.old (without_element T.cmp self.old.elements (Q.stands_for element)) }
        ensures ascend { IsFiniteSet T.cmp self.old.elements }
    {
        let (stored, _) = self.map.remove_entry(element)?;
        Some(stored)
    }

    /// Removes all elements. The size of the table does not change.
    ///
    /// Linear in the number of bins and elements.
    ///
    /// ```
    /// let mut set: SeqSet<u64> = SeqSet::new(rt.alloc());
    /// set.insert(37)?;
    /// set.clear();
    /// assert!(rt; set.is_empty());
    /// ```
    pub fn clear(&mut self)
        ensures after { self.new ≡ set_with self.old [] }
        ensures ascend { IsFiniteSet T.cmp self.old.elements }
    {
        self.map.clear();
    }

    /// Calls `f` once on each element, and keeps only the elements for which it returns `true`. The order of the calls is unspecified. The
    /// size of the table does not change.
    ///
    /// One call for each element, and as many steps again as the table has bins. Takes no memory.
    ///
    /// ```
    /// let mut set: SeqSet<u64> = SeqSet::new(rt.alloc());
    /// set.insert(37)?;
    /// set.insert(38)?;
    /// set.retain(|element: &u64| -> bool { *element % 2 == 0 });
    /// assert!(rt; !set.contains(&37));
    /// assert!(rt; set.contains(&38));
    /// ```
    pub fn retain<F: FnMut(&T) -> bool>(&mut self, mut f: F)
    where
        F: Drop,
        requires { F.IsAlwaysCallable f }
        ensures kept { RetainsElements F.step T.cmp f self.old self.new }
        ensures ascend { IsFiniteSet T.cmp self.old.elements }
    {
        self.map.retain(move |element: &T, _: &()| f(element));
    }

    /// Returns an iterator over the elements, each once, in unspecified order. It is as fast as [`SeqMap::iter`]. Takes no memory.
    ///
    /// ```
    /// let mut set: SeqSet<u64> = SeqSet::new(rt.alloc());
    /// set.insert(37)?;
    /// set.insert(38)?;
    /// let mut sum: u64 = 0;
    /// for element in set.iter() {
    ///     sum = sum.saturating_add(**element);
    /// }
    /// assert_eq!(rt; sum, 75);
    /// ```
    pub fn iter(&self) -> Keys<'_, T, (), A>
        ensures elements { IsPermutation self.now.elements result }
        ensures count { length result ≡ length self.now.elements }
        ensures ascend { IsFiniteSet T.cmp self.now.elements }
    {
        self.map.keys()
    }

    /// Returns `true` if no element of the set is equal to an element of `other`. At most one look-up for each element of the set.
    pub fn is_disjoint(&self, other: &Self) -> bool
        ensures disjoint { IsTrue result ↔ AreDisjoint T.cmp self.now.elements other.now.elements }
        ensures ascend { IsFiniteSet T.cmp self.now.elements × IsFiniteSet T.cmp other.now.elements }
    {
        if self.is_empty() | other.is_empty() {
            return true;
        }
        for element in self.iter() {
            if other.contains(element.as_ref()) {
                return false;
            }
        }
        true
    }

    /// Returns `true` if each element of the set is equal to an element of `other`. At most one look-up for each element of the set.
    pub fn is_subset(&self, other: &Self) -> bool
        ensures subset { IsTrue result ↔ IsSubset T.cmp self.now.elements other.now.elements }
        ensures ascend { IsFiniteSet T.cmp self.now.elements × IsFiniteSet T.cmp other.now.elements }
    {
        if other.is_empty() {
            return self.is_empty();
        }
        for element in self.iter() {
            if !other.contains(element.as_ref()) {
                return false;
            }
        }
        true
    }

    /// Returns `true` if each element of `other` is equal to an element of the set. At most one look-up for each element of `other`.
    pub fn is_superset(&self, other: &Self) -> bool
        ensures superset { IsTrue result ↔ IsSubset T.cmp other.now.elements self.now.elements }
        ensures ascend { IsFiniteSet T.cmp self.now.elements × IsFiniteSet T.cmp other.now.elements }
    {
        other.is_subset(self)
    }
}

impl<T: Ord + Drop, S: KeyHasher<T>, A: Allocator + Copy> SeqSet<T, S, A> {
    /// Creates an empty set with room for `capacity` elements, which uses `hasher`. If `capacity` is `0`, the set has no table.
    ///
    /// Linear in the number of bins.
    ///
    /// # Errors
    ///
    /// Returns [`AllocError`] if memory for the table cannot be allocated.
    pub fn with_capacity_and_hasher(
        alloc: A,
        capacity: usize,
        hasher: S,
    ) -> Result<Self, AllocError>
    where
        S: Drop,
        ensures empty { IfOk result
            (λ s. s ≡ set_contents [] (if capacity == 0 then 0 else wanted_of capacity) hasher) }
        ensures ascend { IfOk result (λ s. IsFiniteSet T.cmp s.elements) }
    {
        let map = SeqMap::with_capacity_and_hasher(alloc, capacity, hasher)?;
        Ok(SeqSet { map })
    }

    /// Inserts an element, and returns `true` if the set had no equal element. If it had one, the stored element stays, `element` is
    /// dropped, and no memory is allocated. A new element may enlarge the table, as in [`SeqMap::insert`].
    ///
    /// ```
    /// let mut set: SeqSet<u64> = SeqSet::new(rt.alloc());
    /// assert!(rt; set.insert(37)?);
    /// assert!(rt; !set.insert(37)?);
    /// assert_eq!(rt; set.len(), 1);
    /// ```
    ///
    /// # Errors
    ///
    /// Returns [`AllocError`] if memory for a new element or for a first table cannot be allocated, or if the element is new and the set
    /// has [`flurry_seq::seq_map::MAX_LEN`] elements. The set is unchanged, and the element is dropped.
    pub fn insert(&mut self, element: T) -> Result<bool, AllocError>
        ensures new { IfOk result (λ new. new ≡ is_none (element_at T.cmp self.old.elements element)) }
        ensures elements { OnOk result (self.new.elements ≡ with_element T.cmp self.old.elements element) }
        ensures hasher { self.new.hasher ≡ self.old.hasher }
        ensures bins { IfOk result (λ new. IsTrue (not new) → self.new.bins ≡ self.old.bins) }
        ensures grown { IfOk result (λ new. IsTrue new
            → IsTableAfter (first_bins self.old.bins FIRST_BINS) (length self.new.elements) self.new.bins) }
        ensures err { OnErr result (self.new ≡ self.old) }
        ensures ascend { IsFiniteSet T.cmp self.old.elements }
    {
        Ok(self.map.try_insert(element, ())?.is_ok())
    }

    /// Inserts `element` if the set has no equal element, and returns a clone of the `Arc` of the stored element. If an equal element is
    /// stored, it stays, and `element` is dropped. A new element may enlarge the table, as in [`SeqMap::insert`].
    ///
    /// ```
    /// Ok(*set.get_or_insert(x)?)
    /// ```
    ///
    /// # Errors
    ///
    /// Returns [`AllocError`] if cloning the `Arc` fails, if memory for a new element or for a first table cannot be allocated, or if the
    /// element is new and the set has [`flurry_seq::seq_map::MAX_LEN`] elements. The set is unchanged, and the element is dropped.
    pub fn get_or_insert(&mut self, element: T) -> Result<Arc<T, A>, AllocError>
        ensures stored { IfOk result (λ stored. element_at T.cmp self.new.elements element ≡ Some (arc_value stored)) }
        ensures elements { OnOk result (self.new.elements ≡ with_element T.cmp self.old.elements element) }
        ensures hasher { self.new.hasher ≡ self.old.hasher }
        ensures bins { IsSome (element_at T.cmp self.old.elements element) → self.new.bins ≡ self.old.bins }
        ensures grown { IsNone (element_at T.cmp self.old.elements element) → OnOk result
            (IsTableAfter (first_bins self.old.bins FIRST_BINS) (length self.new.elements) self.new.bins) }
        ensures err { OnErr result (self.new ≡ self.old) }
        ensures ascend { IsFiniteSet T.cmp self.old.elements }
    {
        if let Some(stored) = self.get(&element) {
            return Arc::try_clone(stored);
        }
        self.put_new(element)
    }

    // Inserts an element to which no stored one is equal, and returns a clone of its `Arc`.
    fn put_new(&mut self, element: T) -> Result<Arc<T, A>, AllocError>
        requires { IsNone (element_at T.cmp self.old.elements element) }
        ensures stored { IfOk result (λ stored. element_at T.cmp self.new.elements element ≡ Some (arc_value stored)) }
        ensures elements { OnOk result (self.new.elements ≡ with_element T.cmp self.old.elements element) }
        ensures hasher { self.new.hasher ≡ self.old.hasher }
        ensures grown { OnOk result
            (IsTableAfter (first_bins self.old.bins FIRST_BINS) (length self.new.elements) self.new.bins) }
        ensures err { OnErr result (self.new ≡ self.old) }
    {
        let alloc = *self.map.allocator();
        let Ok((stored, answer)) = new_arc_pair(alloc, element) else {
            return Err(AllocError);
        };
        let nothing = Arc::new(alloc, ())?;
        self.map.insert_arc(stored, nothing)?;
        Ok(answer)
    }

    /// Inserts the element of a node that is in no bin, as [`SeqSet::insert`] does, and returns `true` if the set had no equal element. See
    /// [`SeqMap::insert_node`].
    ///
    /// # Errors
    ///
    /// Returns [`AllocError`] if memory for a first table cannot be allocated, or if the element is new and the set has
    /// [`flurry_seq::seq_map::MAX_LEN`] elements. The set is unchanged, and the node is dropped.
    pub fn insert_node(&mut self, node: Box<Node<T, (), A>, A>) -> Result<bool, AllocError>
        requires number { (entry_of node.value).number ≡ 0 }
        ensures new { let e = entry_of node.value in
            IfOk result (λ new. new ≡ is_none (element_at T.cmp self.old.elements (arc_value e.key))) }
        ensures elements { let e = entry_of node.value in
            OnOk result (self.new.elements ≡ with_element T.cmp self.old.elements (arc_value e.key)) }
        ensures hasher { self.new.hasher ≡ self.old.hasher }
        ensures bins { IfOk result (λ new. IsTrue (not new) → self.new.bins ≡ self.old.bins) }
        ensures grown { IfOk result (λ new. IsTrue new
            → IsTableAfter (first_bins self.old.bins FIRST_BINS) (length self.new.elements) self.new.bins) }
        ensures err { OnErr result (self.new ≡ self.old) }
        ensures ascend { IsFiniteSet T.cmp self.old.elements }
    {
        Ok(self.map.insert_node(node)?.is_none())
    }

    /// Inserts the elements of `list` in order. Of equal elements, the first stays. Room is made first: for as many elements as the list
    /// has if the set is empty, and otherwise for half as many, rounded up.
    ///
    /// One insertion for each element.
    ///
    /// ```
    /// let mut set: SeqSet<u64> = SeqSet::new(rt.alloc());
    /// let mut list = Vec::new(rt.alloc());
    /// list.push(37)?;
    /// list.push(37)?;
    /// set.extend(list)?;
    /// assert_eq!(rt; set.len(), 1);
    /// ```
    ///
    /// # Errors
    ///
    /// Returns [`AllocError`] if memory for a table cannot be allocated, or if an insertion fails. The elements inserted before stay, and
    /// so may a larger table; the rest is dropped.
    pub fn extend(&mut self, list: Vec<T, A>) -> Result<(), AllocError>
        ensures ok { OnOk result (self.new.elements ≡ with_elements T.cmp self.old.elements list.items) }
        ensures hasher { self.new.hasher ≡ self.old.hasher }
        ensures err { OnErr result ((front rest : List T) × (list.items ≡ front ++ rest)
            × (self.new.elements ≡ with_elements T.cmp self.old.elements front)) }
        ensures ascend { IsFiniteSet T.cmp self.old.elements }
    {
        let count = list.len();
        let room = if self.is_empty() {
            count
        } else {
            count.div_ceil(2)
        };
        self.reserve(room)?;
        self.insert_all(list)
    }

    /// Creates a set that uses `hasher` from the elements of `list`, inserted in order. It starts with room for as many elements as the
    /// list has.
    ///
    /// One insertion for each element.
    ///
    /// # Errors
    ///
    /// Returns [`AllocError`] if memory cannot be allocated. The list is dropped.
    pub fn from_list(alloc: A, list: Vec<T, A>, hasher: S) -> Result<Self, AllocError>
    where
        S: Drop,
        ensures made { IfOk result (λ s. (s.elements ≡ with_elements T.cmp [] list.items) × (s.hasher ≡ hasher)) }
        ensures ascend { IfOk result (λ s. IsFiniteSet T.cmp s.elements) }
        ensures bins { IfOk result (λ s. IsTableFrom (bins_for (length list.items)) (length s.elements) s.bins) }
    {
        let mut set = SeqSet::with_capacity_and_hasher(alloc, list.len(), hasher)?;
        set.insert_all(list)?;
        Ok(set)
    }

    // Inserts the elements of `list` in order.
    fn insert_all(&mut self, list: Vec<T, A>) -> Result<(), AllocError>
        ensures ok { OnOk result (self.new.elements ≡ with_elements T.cmp self.old.elements list.items) }
        ensures hasher { self.new.hasher ≡ self.old.hasher }
        ensures err { OnErr result ((front rest : List T) × (list.items ≡ front ++ rest)
            × (self.new.elements ≡ with_elements T.cmp self.old.elements front)) }
        ensures room { (n : ℕ) → HasRoom n (length self.old.elements + length list.items)
            → IsTableFrom n (length self.old.elements) self.old.bins
            → OnOk result (IsTableFrom n (length self.new.elements) self.new.bins) }
    {
        for element in list {
            self.insert(element)?;
        }
        Ok(())
    }

    /// Returns another set with the same elements and the same hasher. It has a table of its own, with room for as many elements, and
    /// shares the stored elements, none of which is copied or hashed again.
    ///
    /// One insertion for each element.
    ///
    /// # Errors
    ///
    /// Returns [`AllocError`] if memory cannot be allocated, or if the `Arc` of an element has as many owners as can be counted.
    pub fn try_clone(&self) -> Result<Self, AllocError>
    where
        S: Copy + Drop,
        ensures elements { IfOk result (λ s. s.elements ≡ self.now.elements) }
        ensures ascend { IsFiniteSet T.cmp self.now.elements }
        ensures hasher { IfOk result (λ s. s.hasher ≡ self.now.hasher) }
        ensures bins { IfOk result (λ s. IsTableFrom (bins_for (length self.now.elements)) (length s.elements) s.bins) }
    {
        let map = self.map.try_clone()?;
        Ok(SeqSet { map })
    }

    /// Grows the table so that `additional` more elements fit, as [`SeqMap::reserve`] does for pairs.
    ///
    /// Linear in the number of bins afterwards, and each element is moved.
    ///
    /// # Errors
    ///
    /// Returns [`AllocError`] if memory for the larger table cannot be allocated. The set is then as it was.
    pub fn reserve(&mut self, additional: usize) -> Result<(), AllocError>
        ensures same { SameElements self.old self.new }
        ensures ascend { IsFiniteSet T.cmp self.old.elements }
        ensures ok { let w = asked_for self.old additional in
            OnOk result (IsGrown (first_bins self.old.bins w) w self.new.bins) }
        ensures err { OnErr result (self.new ≡ self.old) }
    {
        self.map.reserve(additional)
    }
}

/// Two sets are equal if they have the same classes of elements. Which element of a class is stored, the order in which the elements were
/// inserted, the tables and the hashers make no difference.
///
/// At most one look-up for each element, and none if the sets have different numbers of elements.
impl<T: Ord + Drop, S: KeyHasher<T>, A: Allocator> PartialEq for SeqSet<T, S, A> {
    ghost eq = { sets_eq T.cmp };

    ghost laws = { sets_eq_per T.total };

    fn eq(&self, other: &Self) -> bool
        ensures value { result ≡ sets_eq T.cmp self.now other.now }
        ensures classes { IsTrue result ↔ ((x : T)
            → is_some (element_at T.cmp self.now.elements x) ≡ is_some (element_at T.cmp other.now.elements x)) }
        ensures ascend { IsFiniteSet T.cmp self.now.elements × IsFiniteSet T.cmp other.now.elements }
    {
        self.map == other.map
    }
}

impl<T: Ord + Drop, S: KeyHasher<T>, A: Allocator> Eq for SeqSet<T, S, A> {
    ghost laws = { sets_eq_equiv T.total };
}
