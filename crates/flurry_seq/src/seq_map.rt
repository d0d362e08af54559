//! The owned map: a hash map with one owner.
ghost use Rattle.std.specs.Prelude.{◌≡◌, [], ◌<◌, ◌≤◌, ◌+◌, length, count_by, IfOk, ◌==◌, if◌then◌else◌};
ghost use Rattle.flurry_base.specs.FiniteMap.{IsFiniteMap};
ghost use Rattle.flurry_base.specs.Hashing.{seed_of};
ghost use Rattle.flurry_base.specs.Sizes.{wanted_of};
ghost use Rattle.flurry_seq.specs.HandedOut.{AreBinsOf};
ghost use Rattle.flurry_seq.specs.Numbers.{BinsBearZero};
ghost use Rattle.flurry_seq.specs.MapsOfBins.{maps_of_bins};
ghost use Rattle.flurry_seq.specs.Shapes.{count_in, IsFit};
ghost use Rattle.flurry_seq.specs.Table.{bin_of};
ghost use Rattle.flurry_seq.specs.Contents.{contents};
ghost use Rattle.flurry_base.specs.declared.sizes.TheConstants.{MAX_LEN};

mod bulk;
mod capacity;
mod change;
mod compute;
mod get;
mod insert;
mod remove;
mod retain;

use crate::table::Table;
use flurry_base::hash::{DefaultHashBuilder, KeyHasher};
pub use flurry_base::sizes::MAX_LEN;
use flurry_bins::bin::{Bin, Shape};
use std::alloc::{AllocError, Allocator, Global};
use std::hash::Hash;
use std::marker::Model;

/// A hash map with one owner.
///
/// Its pairs are a finite map: for each class of equal keys that is present, it has the key that was stored first, and a value.
///
/// A one-key call hashes the key once and looks into one bin. In a bin of `n` pairs it visits at most 9 of them, or twice as many as
/// `n + 1` has binary digits, whichever is more, even if all hashes are equal. Hashes that spread keep the bins short: the table is doubled
/// when it has three pairs for every four bins, as long as memory can be allocated and it has fewer than 2^30 bins. A doubling moves every
/// pair.
///
/// ```
/// let mut map = SeqMap::new(alloc);
/// map.insert(key, value)?;
/// Ok(map)
/// ```
pub struct SeqMap<K: Ord, V, S: KeyHasher<K> = DefaultHashBuilder, A: Allocator = Global> {
    pub(crate) table: Table<K, V, A>,
    len: usize,
    pub(crate) hasher: S,
}

// By hand and not derived: so a function that owns a map calls this, and is not proved to drop each part of the map.
impl<K: Ord + Drop, V: Drop, S: KeyHasher<K> + Drop, A: Allocator> Drop for SeqMap<K, V, S, A> {
    fn drop(self) {
        let SeqMap {
            table: _table,
            len: _,
            hasher: _hasher,
        } = self;
    }
}

impl<K: Ord, V, S: KeyHasher<K>, A: Allocator> Model for SeqMap<K, V, S, A> {
    ghost use Rattle.std.specs.Prelude.{length};
    ghost use Rattle.flurry_base.specs.FiniteMap.{map_of_pairs};
    ghost use Rattle.flurry_seq.specs.Contents.{Contents, contents, contents_code};
    ghost use Rattle.flurry_seq.specs.Table.{all_pairs};
    ghost use Rattle.flurry_seq.specs.Invariant.{IsTable};

    ghost Value = { Contents K V S };

    ghost coded = { contents_code K.code V.code S.code };

    ghost view = { λ m. contents (map_of_pairs K.cmp (all_pairs m.table)) (length m.table) m.hasher };

    ghost invariant = { λ m. IsTable K.cmp (S.hash_of m.hasher) m.table m.len };
}

impl<K: Hash + Ord + Drop, V: Drop, A: Allocator> SeqMap<K, V, DefaultHashBuilder, A> {
    /// Creates an empty map without a table, with the default hasher whose seed is zero. Takes no memory.
    ///
    /// ```
    /// let mut map: SeqMap<u64, u64> = SeqMap::new(rt.alloc());
    /// assert!(rt; map.is_empty());
    /// map.insert(37, 1)?;
    /// assert_eq!(rt; map.len(), 1);
    /// ```
    pub fn new(alloc: A) -> Self
        ensures pairs { result.pairs ≡ [] }
        ensures ascend { IsFiniteMap K.cmp result.pairs }
        ensures bins { result.bins ≡ 0 }
        ensures seed { seed_of result.hasher ≡ 0 }
    {
        SeqMap::with_hasher(alloc, DefaultHashBuilder::default())
    }

    /// Creates an empty map with room for `capacity` pairs, with the default hasher whose seed is zero. If `capacity` is `0`, the map has no
    /// table.
    ///
    /// Linear in the number of bins.
    ///
    /// ```
    /// let map: SeqMap<u64, u64> = SeqMap::with_capacity(rt.alloc(), 100)?;
    /// assert!(rt; map.is_empty());
    /// assert_eq!(rt; map.capacity(), 256);
    /// ```
    ///
    /// # Errors
    ///
    /// Returns [`AllocError`] if memory for the table cannot be allocated.
    pub fn with_capacity(alloc: A, capacity: usize) -> Result<Self, AllocError>
    where
        A: Copy,
        ensures pairs { IfOk result (λ m. m.pairs ≡ []) }
        ensures ascend { IfOk result (λ m. IsFiniteMap K.cmp m.pairs) }
        ensures bins { IfOk result (λ m. m.bins ≡ (if capacity == 0 then 0 else wanted_of capacity)) }
        ensures seed { IfOk result (λ m. seed_of m.hasher ≡ 0) }
    {
        SeqMap::with_capacity_and_hasher(alloc, capacity, DefaultHashBuilder::default())
    }
}

impl<K: Ord + Drop, V: Drop, S: KeyHasher<K>, A: Allocator> SeqMap<K, V, S, A> {
    /// Creates an empty map without a table, which uses `hasher`. Takes no memory.
    pub fn with_hasher(alloc: A, hasher: S) -> Self
        ensures empty { result ≡ contents [] 0 hasher }
        ensures ascend { IsFiniteMap K.cmp result.pairs }
    {
        SeqMap {
            table: Table::new(alloc),
            len: 0,
            hasher,
        }
    }

    /// Returns a reference to the map's allocator.
    ///
    /// Constant time.
    pub fn allocator(&self) -> &A
        ensures ascend { IsFiniteMap K.cmp self.now.pairs }
    {
        self.table.allocator()
    }

    /// Returns a reference to the map's hasher.
    ///
    /// Constant time.
    pub fn hasher(&self) -> &S
        ensures same { result.now ≡ self.now.hasher }
        ensures ascend { IsFiniteMap K.cmp self.now.pairs }
    {
        &self.hasher
    }

    /// Returns the number of pairs in the map.
    ///
    /// Constant time.
    pub fn len(&self) -> usize
        ensures pairs { result ≡ length self.now.pairs }
        ensures ascend { IsFiniteMap K.cmp self.now.pairs }
        ensures few { result ≤ MAX_LEN }
    {
        self.len
    }

    /// Returns `true` if the map has no pairs.
    ///
    /// Constant time.
    pub fn is_empty(&self) -> bool
        ensures empty { result ≡ (length self.now.pairs == 0) }
        ensures ascend { IsFiniteMap K.cmp self.now.pairs }
    {
        self.len() == 0
    }

    /// Returns the shape of the bin to which `hash` belongs, or [`Shape::Empty`] if there is no table.
    ///
    /// Constant time.
    pub fn shape_of(&self, hash: u64) -> Shape
        ensures count { count_in result
            ≡ count_by
            (λ p. bin_of self.now.bins (S.hash_of self.now.hasher p.0) == bin_of self.now.bins hash) self.now.pairs }
        ensures fit { IsFit result }
        ensures ascend { IsFiniteMap K.cmp self.now.pairs }
    {
        self.table.shape_of(hash)
    }

    /// Consumes the map, and returns its bins in the order of their indices, and its hasher. Without a table there are no bins. Each entry
    /// has the write number 0. Takes no memory.
    pub fn into_bins(self) -> (Vec<Bin<K, V, A>, A>, S)
        ensures bins { AreBinsOf K.cmp (S.hash_of self.hasher) self (maps_of_bins result.0.items) }
        ensures numbers { BinsBearZero result.0.items }
        ensures hasher { result.1 ≡ self.hasher }
        ensures ascend { IsFiniteMap K.cmp self.pairs }
    {
        let SeqMap {
            table,
            len: _,
            hasher,
        } = self;
        (table.into_bins(), hasher)
    }
}
