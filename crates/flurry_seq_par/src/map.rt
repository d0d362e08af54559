//! The owned map, built in parallel, and joined.
ghost use Rattle.std.specs.Prelude.{◌≡◌, [], ◌≤◌, ◌+◌, ℕ, length, IfOk, OnOk, OnErr, map, flat_map};
ghost use Rattle.flurry_bins.specs.Bin.{entries_of_list};
ghost use Rattle.flurry_base.specs.FiniteMap.{IsFiniteMap, with_all};
ghost use Rattle.flurry_seq_par.specs.Joins.{HasFrontOf, HasSomeOf, pairs_in, pairs_of_bins, with_maps};
ghost use Rattle.flurry_seq.specs.Growth.{bins_for, IsTableFrom, HasRoom};
ghost use Rattle.flurry_seq.specs.Numbers.{BearZero, BinsBearZero};

use crate::pieces::pieces;
use flurry_base::hash::KeyHasher;
use flurry_bins::bin::{Bin, ListBin, Ordered};
use flurry_seq::SeqMap;
use rayon::prelude::*;
use std::alloc::{AllocError, Allocator};
use std::thread::Threads;

/// Moves the pairs of `right` into `left`. If both have a key, `left` keeps its stored key, and takes the value of `right`. The hashes are
/// those of the hasher of `left`. Room is made first, as in [`SeqMap::extend`]; if memory for that cannot be allocated, the table grows as
/// pairs come in.
///
/// One insertion for each pair of `right`, whose nodes are moved. Takes memory for tables only.
///
/// # Errors
///
/// Returns [`AllocError`] if memory for a first table cannot be allocated, or if a key is new and `left` has
/// [`flurry_seq::seq_map::MAX_LEN`] pairs. `left` then has some of the pairs of `right`, and the others are dropped.
pub fn join<K: Ord + Drop, V: Drop, S: KeyHasher<K> + Drop, A: Allocator + Copy>(
    left: &mut SeqMap<K, V, S, A>,
    right: SeqMap<K, V, S, A>,
) -> Result<(), AllocError>
    ensures ok { OnOk result (left.new.pairs ≡ with_all K.cmp left.old.pairs right.pairs) }
    ensures hasher { left.new.hasher ≡ left.old.hasher }
    ensures err { OnErr result (HasSomeOf K.cmp left.old.pairs right.pairs left.new.pairs) }
    ensures ascend { IsFiniteMap K.cmp left.old.pairs }
{
    let count = right.len();
    let room = if left.is_empty() {
        count
    } else {
        count.div_ceil(2)
    };
    let _ = left.reserve(room);
    let (bins, _) = right.into_bins();
    join_bins(left, bins)
}

// Moves the pairs of `bins` into `left`.
fn join_bins<K: Ord + Drop, V: Drop, S: KeyHasher<K>, A: Allocator + Copy>(
    left: &mut SeqMap<K, V, S, A>,
    bins: Vec<Bin<K, V, A>, A>,
) -> Result<(), AllocError>
    requires numbers { BinsBearZero bins.items }
    ensures ok { OnOk result (left.new.pairs ≡ with_all K.cmp left.old.pairs (pairs_of_bins bins.items)) }
    ensures hasher { left.new.hasher ≡ left.old.hasher }
    ensures err { OnErr result (HasFrontOf K.cmp left.old.pairs (pairs_of_bins bins.items) left.new.pairs) }
    ensures few { OnOk result (length left.new.pairs ≤ length left.old.pairs + length (pairs_of_bins bins.items)) }
    ensures room { (n : ℕ) → HasRoom n (length left.old.pairs + length (pairs_of_bins bins.items))
        → IsTableFrom n (length left.old.pairs) left.old.bins
        → OnOk result (IsTableFrom n (length left.new.pairs) left.new.bins) }
{
    for bin in bins {
        join_list(left, bin.into_list())?;
    }
    Ok(())
}

// Moves the pairs of a bin's nodes into `left`.
fn join_list<K: Ord + Drop, V: Drop, S: KeyHasher<K>, A: Allocator + Copy>(
    left: &mut SeqMap<K, V, S, A>,
    list: ListBin<K, V, A>,
) -> Result<(), AllocError>
    requires numbers { BearZero (entries_of_list list) }
    ensures ok { OnOk result (left.new.pairs ≡ with_all K.cmp left.old.pairs (pairs_in (entries_of_list list))) }
    ensures hasher { left.new.hasher ≡ left.old.hasher }
    ensures err { OnErr result (HasFrontOf K.cmp left.old.pairs (pairs_in (entries_of_list list)) left.new.pairs) }
    ensures few { OnOk result
        (length left.new.pairs ≤ length left.old.pairs + length (pairs_in (entries_of_list list))) }
    ensures room { (n : ℕ) → HasRoom n (length left.old.pairs + length (pairs_in (entries_of_list list)))
        → IsTableFrom n (length left.old.pairs) left.old.bins
        → OnOk result (IsTableFrom n (length left.new.pairs) left.new.bins) }
{
    let mut rest = list;
    while let Some(node) = rest.pop_front() {
        left.insert_node(node)?;
    }
    Ok(())
}

// The maps, joined in order, as one map that uses `hasher` and starts with room for `count` pairs. No other room is made.
fn join_all<K: Ord + Drop, V: Drop, S: KeyHasher<K> + Drop, A: Allocator + Copy>(
    alloc: A,
    maps: Vec<SeqMap<K, V, S, A>, A>,
    count: usize,
    hasher: S,
) -> Result<SeqMap<K, V, S, A>, AllocError>
    ensures made { IfOk result
        (λ m. (m.pairs ≡ with_maps K.cmp [] (map (λ n. n.pairs) maps.items)) × (m.hasher ≡ hasher)) }
    ensures bins { length (flat_map (λ n. n.pairs) maps.items) ≤ count
        → IfOk result (λ m. IsTableFrom (bins_for count) (length m.pairs) m.bins) }
{
    let mut all = SeqMap::with_capacity_and_hasher(alloc, count, hasher)?;
    for map in maps {
        let (bins, _) = map.into_bins();
        join_bins(&mut all, bins)?;
    }
    Ok(all)
}

/// Creates a map that uses `hasher` from the pairs of `list`, as [`SeqMap::from_list`] does, but in parallel: `rayon`'s workers build maps
/// of pieces of the list, of `part` pairs each, which are then joined. A `part` of `0` means 1. Each worker has a copy of the hasher. The
/// resulting map starts with room for as many pairs as the list has.
///
/// Each pair is moved to its piece, inserted by a worker, and inserted once more when the maps are joined. Takes memory for the pieces, for
/// their maps, and for the table of the resulting map.
///
/// # Errors
///
/// Returns [`AllocError`] if memory cannot be allocated. The list is dropped.
pub fn from_par_list<
    K: Ord + Drop + Send + Sync,
    V: Drop + Send + Sync,
    S: KeyHasher<K> + Copy + Send + Sync,
    A: Allocator + Copy + Send + Sync,
>(
    rt: &(impl Threads + Sync),
    alloc: A,
    list: Vec<(K, V), A>,
    hasher: S,
    part: usize,
) -> Result<SeqMap<K, V, S, A>, AllocError>
    ensures made { IfOk result (λ m. (m.pairs ≡ with_all K.cmp [] list.items) × (m.hasher ≡ hasher)) }
    ensures ascend { IfOk result (λ m. IsFiniteMap K.cmp m.pairs) }
    ensures bins { IfOk result (λ m. IsTableFrom (bins_for (length list.items)) (length m.pairs) m.bins) }
{
    let count = list.len();
    let maps = pieces(alloc, list, part)?
        .into_par_iter()
        .with_min_len(1)
        .map(
            |piece: Vec<(K, V), A>| -> Result<SeqMap<K, V, S, A>, AllocError>
                ensures { IfOk result (λ m. m.pairs ≡ with_all K.cmp [] piece.items) }
            { SeqMap::from_list(alloc, piece, hasher) },
        )
        .collect::<Result<Vec<SeqMap<K, V, S, A>, A>, AllocError>>(rt, alloc)??;
    join_all(alloc, maps, count, hasher)
}

/// Inserts the pairs of `list`, as [`SeqMap::extend`] does, but in parallel: `rayon`'s workers first build a map of them, as in
/// [`from_par_list`], which is then joined into `map`, with one more insertion for each of its pairs.
///
/// # Errors
///
/// Returns [`AllocError`] if memory cannot be allocated. If the map of the new pairs cannot be built, `map` is unchanged; otherwise it has
/// some of the new pairs, and the others are dropped.
pub fn par_extend<
    K: Ord + Drop + Send + Sync,
    V: Drop + Send + Sync,
    S: KeyHasher<K> + Copy + Send + Sync,
    A: Allocator + Copy + Send + Sync,
>(
    rt: &(impl Threads + Sync),
    map: &mut SeqMap<K, V, S, A>,
    list: Vec<(K, V), A>,
    part: usize,
) -> Result<(), AllocError>
    ensures ok { OnOk result (map.new.pairs ≡ with_all K.cmp map.old.pairs list.items) }
    ensures hasher { map.new.hasher ≡ map.old.hasher }
    ensures err { OnErr result (HasSomeOf K.cmp map.old.pairs (with_all K.cmp [] list.items) map.new.pairs) }
    ensures ascend { IsFiniteMap K.cmp map.old.pairs }
{
    let built = from_par_list(rt, *map.allocator(), list, *map.hasher(), part)?;
    join(map, built)
}
