//! Calls of a shared map that visit many pairs.
ghost use Rattle.std.specs.Prelude.{◌≡◌, IfOk, true};
ghost use Rattle.flurry_shared_view.specs.Visits.{FoldsWalk, LooksUpEqual};

use crate::HashMap;
use flurry_base::hash::KeyHasher;
use std::alloc::{AllocError, Allocator};
use std::sync::Wait;

// No contract specifies which pairs an insertion of a list leaves, since other threads change them meanwhile.
impl<K: Ord + Drop, V: Drop, S: KeyHasher<K>, A: Allocator + Copy> HashMap<K, V, S, A> {
    /// Inserts the pairs of `list` in their order: if a key comes twice, its last value is inserted last. First it makes room, for as many
    /// pairs as `list` has if the map is empty, and for half as many, rounded up, if it is not.
    ///
    /// One insertion for each pair. Takes the locks of [`HashMap::reserve`], and for each pair those of [`HashMap::insert`].
    ///
    /// ```
    /// let map: HashMap<u64, u64> = HashMap::new(rt.alloc());
    /// let mut list = Vec::new(rt.alloc());
    /// list.push((37, 1))?;
    /// list.push((37, 2))?;
    /// map.extend(&rt, list)?;
    /// assert_eq!(rt; map.get(&rt, &37)?.map(|value| *value), Some(2));
    /// ```
    ///
    /// # Errors
    ///
    /// Returns [`AllocError`] if memory for a table cannot be allocated, or if an insertion fails. The pairs that were already inserted
    /// stay, and so may a larger table; the rest is dropped.
    pub fn extend<R: Wait>(&self, rt: &R, list: Vec<(K, V), A>) -> Result<(), AllocError> {
        let count = list.len();
        let room = if self.is_empty(rt) {
            count
        } else {
            count.div_ceil(2)
        };
        self.reserve(rt, room)?;
        self.insert_all(rt, list)
    }

    /// Creates a map of the pairs of `list`, inserted in their order, with the given hasher. It starts with room for as many pairs as
    /// `list` has, or without a table if `list` is empty, and has the allocator of `list`.
    ///
    /// One insertion for each pair. Takes the locks of [`HashMap::insert`] for each.
    ///
    /// # Errors
    ///
    /// Returns [`AllocError`] if memory cannot be allocated. The list is dropped.
    pub fn from_list<R: Wait>(rt: &R, list: Vec<(K, V), A>, hasher: S) -> Result<Self, AllocError>
    where
        S: Drop,
        ensures { IfOk result (λ m. m ≡ record { hasher = hasher; processors = 1 }) }
    {
        let map = HashMap::with_capacity_and_hasher(*list.allocator(), list.len(), hasher)?;
        map.insert_all(rt, list)?;
        Ok(map)
    }

    /// Returns `true` if this map counts as many pairs as `other`, and if `other` has an equal value for each pair that [`HashMap::iter`]
    /// gives of this map. If no thread changes either map, it returns whether the maps are equal.
    ///
    /// One look-up for each pair if the maps are equally long. Takes the locks of [`HashMap::len`] of both maps, those of the walk, and
    /// those of [`HashMap::get`] of `other`.
    ///
    /// # Errors
    ///
    /// Returns [`AllocError`] if cloning an `Arc` fails.
    pub fn equals<R: Wait>(&self, rt: &R, other: &Self) -> Result<bool, AllocError>
    where
        V: PartialEq,
        ensures { IfOk result (λ are_equal. are_equal ≡ true
            → FoldsWalk K.cmp (LooksUpEqual K.cmp S.hash_of other.now V.eq true) tt tt) }
    {
        self.pin(rt).equals(&other.pin(rt))
    }

    // Inserts the pairs of `list` in their order.
    fn insert_all<R: Wait>(&self, rt: &R, list: Vec<(K, V), A>) -> Result<(), AllocError> {
        for (key, value) in list {
            self.insert(rt, key, value)?;
        }
        Ok(())
    }
}
