//! The table of an owned map: a power of two of bins, or no bins.
ghost use Rattle.std.specs.Prelude.{◌≡◌, ◌&&◌, not, is_some, ℕ, [], ◌*◌, ◌<◌, ◌≤◌, ◌^◌, length, replicate, OnOk, OnErr, IfOk, None, IsSome, IsTrue, Some};
ghost use Rattle.std.specs.Vec.{vec_capacity};
ghost use Rattle.std.specs.Option.{option_map};
ghost use Rattle.std.specs.Arc.{arc_value};
ghost use Rattle.flurry_bins.specs.Bin.{entries_of_bin, is_tree};
ghost use Rattle.flurry_bins.specs.Chain.{entry_of};
ghost use Rattle.flurry_bins.specs.Entries.{IsInsertion};
ghost use Rattle.flurry_base.specs.BinSizes.{asks_for_growth};
ghost use Rattle.flurry_bins.specs.PlainEntries.{pair_of_entry};
ghost use Rattle.flurry_seq.specs.Invariant.{IsTableSize};
ghost use Rattle.flurry_seq.specs.Numbers.{BinsBearZero};
ghost use Rattle.flurry_seq.specs.MapsOfBins.{maps_of_bins};
ghost use Rattle.flurry_seq.specs.Shapes.{count_in, IsFit};
ghost use Rattle.flurry_seq.specs.Table.{bin_of, bin_at, entry_in, bins_with, bins_without, bins_doubled, IsTimesPower, IsEnlarged};
ghost use Rattle.flurry_base.specs.declared.sizes.TheConstants.{MAX_TABLE, MIN_TREEIFY_BINS, TREEIFY_LEN, MAX_LEN};

mod retain;

use flurry_base::query::Query;
use flurry_base::sizes::bin_index;
use flurry_bins::bin::{Bin, Entry, Node, Ordered, Shape};
use flurry_bins_insertion::table::{Inserted, insert_pair_in_bin, put_node_in_bin};
use std::alloc::{AllocError, Allocator};
use std::marker::Model;
use std::mem;
use std::sync::Arc;

#[derive(Drop)]
pub(crate) struct Table<K: Ord, V, A: Allocator> {
    bins: Vec<Bin<K, V, A>, A>,
}

impl<K: Ord, V, A: Allocator> Model for Table<K, V, A> {
    ghost use Rattle.std.specs.Prelude.{ℕ, List, length};
    ghost use Rattle.flurry_seq.specs.MapsOfBins.{maps_of_bins};
    ghost use Rattle.flurry_seq.specs.Invariant.{IsTableSize};
    ghost use Rattle.flurry_seq.specs.Numbers.{BinsBearZero};

    ghost Value = { List (List ((ℕ × K) × V)) };

    ghost view = { λ t. maps_of_bins t.bins.items };

    ghost invariant = { λ t. IsTableSize (length t.bins.items) × BinsBearZero t.bins.items };
}

// The index of a hash's bin.
#[inline]
fn place<K: Ord, V, A: Allocator>(bins: &Vec<Bin<K, V, A>, A>, hash: u64) -> usize
    requires size { IsTableSize (length bins.now.items) }
    requires some { 0 < length bins.now.items }
    ensures place { result ≡ bin_of (length bins.now.items) hash }
    ensures below { result < length bins.now.items }
{
    bin_index(hash, bins.len().ilog2() as u8)
}

impl<K: Ord + Drop, V: Drop, A: Allocator> Table<K, V, A> {
    pub(crate) fn new(alloc: A) -> Self
        ensures { result ≡ [] }
    {
        Table {
            bins: Vec::new(alloc),
        }
    }

    pub(crate) fn allocator(&self) -> &A {
        self.bins.allocator()
    }

    // The bins in their order.
    pub(crate) fn bins(&self) -> &[Bin<K, V, A>]
        ensures { maps_of_bins result.now ≡ self.now }
    {
        self.bins.as_slice()
    }

    pub(crate) fn len(&self) -> usize
        ensures len { result ≡ length self.now }
        ensures size { IsTableSize result }
    {
        self.bins.len()
    }

    // The entry of a hash and a key. The function is inlined into each caller, so that the found entry is passed on by a branch: a pointer
    // that is selected by the result of the comparison of keys would have to wait for it.
    #[inline(always)]
    pub(crate) fn find<Q: Query<K>>(&self, hash: u64, key: Q) -> Option<&Entry<K, V, A>>
        ensures { option_map (λ e. pair_of_entry e.now) result ≡ entry_in K.cmp self.now hash (Q.stands_for key) }
    {
        if self.bins.is_empty() {
            return None;
        }
        let bin = &self.bins[place(&self.bins, hash)];
        bin.find(hash, key).0
    }

    // The shape of a hash's bin.
    pub(crate) fn shape_of(&self, hash: u64) -> Shape
        ensures count { count_in result ≡ length (bin_at self.now hash) }
        ensures fit { IsFit result }
    {
        if self.bins.is_empty() {
            return Shape::Empty;
        }
        let bin = &self.bins[place(&self.bins, hash)];
        bin.shape()
    }

    // Returns the bins.
    pub(crate) fn into_bins(self) -> Vec<Bin<K, V, A>, A>
        ensures bins { maps_of_bins result.items ≡ self }
        ensures numbers { BinsBearZero result.items }
    {
        let Table { bins } = self;
        bins
    }

    // Replaces the value at a hash and a key that are present, and returns the old value.
    pub(crate) fn replace<Q: Query<K>>(&mut self, hash: u64, key: Q, value: Arc<V, A>) -> Arc<V, A>
        requires { IsSome (entry_in K.cmp self.old hash (Q.stands_for key)) }
        ensures old { option_map (λ e. e.1) (entry_in K.cmp self.old hash (Q.stands_for key))
            ≡ Some (arc_value result) }
        ensures after { self.new ≡ bins_with K.cmp self.old hash (Q.stands_for key) (arc_value value) }
    {
        let at = place(&self.bins, hash);
        let bin = &mut self.bins[at];
        bin.write(hash, key, value, 0)
    }

    // Inserts a node whose hash and key are absent. Returns whether the bin asks for a larger table.
    pub(crate) fn put(&mut self, node: Box<Node<K, V, A>, A>) -> bool
        requires table { 0 < length self.old }
        requires number { (entry_of node.value).number ≡ 0 }
        requires room { length (bin_at self.old (entry_of node.value).hash) < MAX_LEN }
        requires absent { let e = entry_of node.value in entry_in K.cmp self.old e.hash (arc_value e.key) ≡ None }
        ensures after { let e = entry_of node.value in
            self.new ≡ bins_with K.cmp self.old e.hash (arc_value e.key) (arc_value e.value) }
        ensures asks { IsTrue result
            → (length self.old < MIN_TREEIFY_BINS) × (length (bin_at self.old (entry_of node.value).hash) ≡ TREEIFY_LEN) }
    {
        let count = self.bins.len();
        let at = place(&self.bins, node.entry().hash);
        let bin = &mut self.bins[at];
        put_node_in_bin(bin, node, count)
    }

    // Removes the entry of a hash and a key from its bin, and returns it.
    pub(crate) fn remove<Q: Query<K>>(&mut self, hash: u64, key: Q) -> Option<Entry<K, V, A>>
        ensures entry { option_map pair_of_entry result ≡ entry_in K.cmp self.old hash (Q.stands_for key) }
        ensures after { self.new ≡ bins_without K.cmp self.old hash (Q.stands_for key) }
    {
        if self.bins.is_empty() {
            return None;
        }
        let at = place(&self.bins, hash);
        let bin = &mut self.bins[at];
        match bin.remove(hash, key) {
            Some(node) => Some(Box::into_inner(node).into_entry()),
            None => None,
        }
    }

    // Removes all entries.
    pub(crate) fn clear(&mut self)
        ensures { self.new ≡ replicate (length self.old) [] }
    {
        for at in 0..self.bins.len() {
            let bin = &mut self.bins[at];
            *bin = Bin::new();
        }
    }
}

// Sets the value at a hash and a key in their bin, in a table of `bins` bins. Returns the old value, if there was one, and whether the bin asks
// for a larger table. What is not kept is dropped.
fn insert_in_bin<K: Ord + Drop, V: Drop, A: Allocator + Copy>(
    bin: &mut Bin<K, V, A>,
    alloc: A,
    hash: u64,
    key: K,
    value: Arc<V, A>,
    bins: usize,
) -> Result<(Option<Arc<V, A>>, bool), AllocError>
    requires { length (entries_of_bin bin.old) < MAX_LEN }
    ensures entries { IfOk result (λ r.
        IsInsertion K.cmp hash key value 0 r.0 (entries_of_bin bin.old) (entries_of_bin bin.new)) }
    ensures asks { IfOk result (λ r. r.1
        ≡ (not (is_some r.0) && asks_for_growth bins (is_tree bin.old) (length (entries_of_bin bin.old)))) }
    ensures err { OnErr result (entries_of_bin bin.new ≡ entries_of_bin bin.old) }
{
    match insert_pair_in_bin(bin, alloc, hash, key, value, 0, bins) {
        Ok(Inserted::New { asks_for_growth }) => Ok((None, asks_for_growth)),
        Ok(Inserted::Replaced(replaced)) => Ok((Some(replaced.old), false)),
        Err(_) => Err(AllocError),
    }
}

impl<K: Ord + Drop, V: Drop, A: Allocator + Copy> Table<K, V, A> {
    // Sets the value at a hash and a key. Returns the old value, if there was one, and whether the bin asks for a larger table.
    pub(crate) fn insert(
        &mut self,
        hash: u64,
        key: K,
        value: Arc<V, A>,
    ) -> Result<(Option<Arc<V, A>>, bool), AllocError>
        requires table { 0 < length self.old }
        requires room { length (bin_at self.old hash) < MAX_LEN }
        ensures old { IfOk result
            (λ r. option_map arc_value r.0 ≡ option_map (λ e. e.1) (entry_in K.cmp self.old hash key)) }
        ensures after { OnOk result (self.new ≡ bins_with K.cmp self.old hash key (arc_value value)) }
        ensures asks { IfOk result (λ r. IsTrue r.1
            → (length self.old < MIN_TREEIFY_BINS) × (length (bin_at self.old hash) ≡ TREEIFY_LEN)) }
        ensures err { OnErr result (self.new ≡ self.old) }
    {
        let alloc = *self.bins.allocator();
        let count = self.bins.len();
        let at = place(&self.bins, hash);
        let bin = &mut self.bins[at];
        insert_in_bin(bin, alloc, hash, key, value, count)
    }

    // Makes `bins` empty bins.
    pub(crate) fn begin(&mut self, bins: usize) -> Result<(), AllocError>
        requires { IsTableSize bins }
        ensures ok { OnOk result (self.new ≡ replicate bins []) }
        ensures err { OnErr result (self.new ≡ self.old) }
    {
        let mut table = Vec::with_capacity(*self.bins.allocator(), bins)?;
        for _ in 0..bins {
            table.push(Bin::new())?;
        }
        self.bins = table;
        Ok(())
    }

    // Enlarges the table to `bins` bins, and moves each entry to its bin. No table between is made.
    pub(crate) fn enlarge(&mut self, bins: usize) -> Result<(), AllocError>
        requires some { 0 < length self.old }
        requires times { IsTimesPower (length self.old) bins }
        requires most { bins ≤ 2 ^ MAX_TABLE }
        ensures ok { OnOk result (IsEnlarged bins self.old self.new) }
        ensures err { OnErr result (self.new ≡ self.old) }
    {
        self.bins.reserve_exact(bins - self.bins.len())?;
        halve_until(&mut self.bins, bins);
        Ok(())
    }
}

// Halves all bins until there are `count`.
fn halve_until<K: Ord + Drop, V: Drop, A: Allocator>(bins: &mut Vec<Bin<K, V, A>, A>, count: usize)
    requires size { IsTableSize (length bins.old.items) }
    requires some { 0 < length bins.old.items }
    requires times { IsTimesPower (length bins.old.items) count }
    requires most { count ≤ 2 ^ MAX_TABLE }
    requires room { count ≤ vec_capacity bins.old }
    ensures bins { IsEnlarged count (maps_of_bins bins.old.items) (maps_of_bins bins.new.items) }
    ensures size { IsTableSize (length bins.new.items) }
    ensures numbers { BinsBearZero bins.old.items → BinsBearZero bins.new.items }
{
    while bins.len() < count {
        halve(bins);
    }
}

// Leaves the low half of each bin in its place, and appends the high halves in the same order.
fn halve<K: Ord + Drop, V: Drop, A: Allocator>(bins: &mut Vec<Bin<K, V, A>, A>)
    requires size { IsTableSize (length bins.old.items) }
    requires some { 0 < length bins.old.items }
    requires room { 2 * length bins.old.items ≤ vec_capacity bins.old }
    ensures bins { maps_of_bins bins.new.items ≡ bins_doubled (maps_of_bins bins.old.items) }
    ensures numbers { BinsBearZero bins.old.items → BinsBearZero bins.new.items }
    ensures room { vec_capacity bins.new ≡ vec_capacity bins.old }
{
    let count = bins.len();
    let bit = count.ilog2() as u8;
    for at in 0..count {
        let bin = &mut bins[at];
        let (low, high) = mem::replace(bin, Bin::new()).split(bit);
        *bin = low;
        bins.push_reserved(high);
    }
}
