//! The table of an owned map: how it is made, and how it grows.
ghost use Rattle.std.specs.Prelude.{◌≡◌, [], ◌<◌, ◌≤◌, ◌+◌, ◌*◌, ◌^◌, length, OnOk, OnErr, IfOk, IsTrue, ◌==◌, if◌then◌else◌};
ghost use Rattle.flurry_base.specs.FiniteMap.{IsFiniteMap};
ghost use Rattle.flurry_base.specs.Sizes.{wanted_of, IsOnTheWay, IsGrown};
ghost use Rattle.flurry_seq.specs.Growth.{IsTableAfter};
ghost use Rattle.flurry_seq.specs.Invariant.{IsTableSize};
ghost use Rattle.flurry_seq.specs.Contents.{contents, SamePairs, asked_for, first_bins};
ghost use Rattle.flurry_seq.specs.Table.{IsTimesPower};
ghost use Rattle.flurry_base.specs.declared.sizes.TheConstants.{MAX_TABLE, MIN_TREEIFY_BINS, TREEIFY_LEN};

use super::SeqMap;
use flurry_base::hash::KeyHasher;
use flurry_base::sizes::{MAX_BINS, threshold, wanted};
use std::alloc::{AllocError, Allocator};

impl<K: Ord + Drop, V: Drop, S: KeyHasher<K>, A: Allocator> SeqMap<K, V, S, A> {
    /// Returns the number of bins of the table, which is a power of two, or 0 if there is no table.
    ///
    /// Constant time.
    pub fn capacity(&self) -> usize
        ensures bins { result ≡ self.now.bins }
        ensures ascend { IsFiniteMap K.cmp self.now.pairs }
        ensures size { IsTableSize result }
        ensures most { result ≤ 2 ^ MAX_TABLE }
    {
        self.table.len()
    }
}

impl<K: Ord + Drop, V: Drop, S: KeyHasher<K>, A: Allocator + Copy> SeqMap<K, V, S, A> {
    /// Creates an empty map with room for `capacity` pairs, which uses `hasher`. If `capacity` is `0`, the map has no table.
    ///
    /// Linear in the number of bins.
    ///
    /// # Errors
    ///
    /// Returns [`AllocError`] if memory for the table cannot be allocated.
    pub fn with_capacity_and_hasher(
        alloc: A,
        capacity: usize,
        hasher: S,
    ) -> Result<Self, AllocError>
    where
        S: Drop,
        ensures empty { IfOk result (λ m. m ≡ contents [] (if capacity == 0 then 0 else wanted_of capacity) hasher) }
        ensures ascend { IfOk result (λ m. IsFiniteMap K.cmp m.pairs) }
    {
        let mut map = SeqMap::with_hasher(alloc, hasher);
        if capacity > 0 {
            map.begin(wanted(capacity))?;
        }
        Ok(map)
    }

    /// Grows the table so that `additional` more pairs fit. The number of bins asked for is [`wanted`] of the length plus `additional`, a
    /// sum that saturates at `usize::MAX`. The table then has the least number of bins whose [`threshold`] is at least that number, but at
    /// most [`MAX_BINS`], of those that its own number of bins, or without a table the number asked for, gives by doubling. It is made in
    /// one step.
    ///
    /// Linear in the number of bins afterwards, and each pair is moved.
    ///
    /// # Errors
    ///
    /// Returns [`AllocError`] if memory for the larger table cannot be allocated. The map is then as it was.
    pub fn reserve(&mut self, additional: usize) -> Result<(), AllocError>
        ensures same { SamePairs self.old self.new }
        ensures ascend { IsFiniteMap K.cmp self.old.pairs }
        ensures ok { let w = asked_for self.old additional in
            OnOk result (IsGrown (first_bins self.old.bins w) w self.new.bins) }
        ensures err { OnErr result (self.new ≡ self.old) }
    {
        let least = wanted(self.len().saturating_add(additional));
        if self.capacity() == 0 {
            self.begin(grown(least, least))
        } else {
            self.grow_to(least)
        }
    }

    // Makes a table of `bins` bins, if there is none.
    pub(super) fn ensure_table(&mut self, bins: usize) -> Result<(), AllocError>
        requires { IsTableSize bins }
        ensures ok { OnOk result (self.new ≡ contents self.old.pairs (first_bins self.old.bins bins) self.old.hasher) }
        ensures err { OnErr result (self.new ≡ self.old) }
    {
        if self.capacity() == 0 {
            self.begin(bins)?;
        }
        Ok(())
    }

    // Makes a first table, of `bins` bins.
    fn begin(&mut self, bins: usize) -> Result<(), AllocError>
        requires none { self.old.bins ≡ 0 }
        requires size { IsTableSize bins }
        ensures ok { OnOk result (self.new ≡ contents self.old.pairs bins self.old.hasher) }
        ensures err { OnErr result (self.new ≡ self.old) }
    {
        self.table.begin(bins)?;
        Ok(())
    }

    // Enlarges the table if that is due after a new key was added; `asks` says whether the key's bin asks for it.
    pub(super) fn grow(&mut self, asks: bool)
        requires table { 0 < self.old.bins }
        requires asks { IsTrue asks → (self.old.bins < MIN_TREEIFY_BINS) × (TREEIFY_LEN < length self.old.pairs) }
        ensures same { SamePairs self.old self.new }
        ensures bins { IsTableAfter self.old.bins (length self.new.pairs) self.new.bins }
    {
        if asks {
            let _ = self.grow_to(wanted(2 * self.capacity()));
        }
        self.grow_while_full();
    }

    // Enlarges the table until its threshold is at least `least`, or it has `MAX_BINS` bins.
    fn grow_to(&mut self, least: usize) -> Result<(), AllocError>
        requires { 0 < self.old.bins }
        ensures same { SamePairs self.old self.new }
        ensures way { IsOnTheWay self.old.bins least self.new.bins }
        ensures ok { OnOk result (IsGrown self.old.bins least self.new.bins) }
        ensures err { OnErr result (self.new ≡ self.old) }
    {
        self.enlarge(grown(self.capacity(), least))
    }

    // Doubles the table while it has as many pairs as its threshold. If memory cannot be allocated, it stays as it is.
    fn grow_while_full(&mut self)
        requires { 0 < self.old.bins }
        ensures same { SamePairs self.old self.new }
        ensures way { IsOnTheWay self.old.bins (length self.old.pairs + 1) self.new.bins }
    {
        while self.len() >= threshold(self.capacity()) && self.capacity() < MAX_BINS {
            if self.enlarge(2 * self.capacity()).is_err() {
                return;
            }
        }
    }

    // Moves the pairs to a table of `bins` bins.
    fn enlarge(&mut self, bins: usize) -> Result<(), AllocError>
        requires table { 0 < self.old.bins }
        requires times { IsTimesPower self.old.bins bins }
        requires most { bins ≤ 2 ^ MAX_TABLE }
        ensures ok { OnOk result (self.new ≡ contents self.old.pairs bins self.old.hasher) }
        ensures err { OnErr result (self.new ≡ self.old) }
    {
        self.table.enlarge(bins)?;
        Ok(())
    }
}

// Returns the bins that `bins` bins become where they are doubled until their threshold is at least `least`, or they are `MAX_BINS`.
fn grown(bins: usize, least: usize) -> usize
    requires size { IsTableSize bins }
    requires some { 0 < bins }
    ensures grown { IsGrown bins least result }
    ensures size { IsTableSize result }
{
    let mut grown = bins;
    while threshold(grown) < least && grown < MAX_BINS {
        grown *= 2;
    }
    grown
}
