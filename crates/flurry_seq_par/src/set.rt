//! The owned set, built in parallel.
ghost use Rattle.std.specs.Prelude.{◌≡◌, [], length, IfOk, OnOk, OnErr, map};
ghost use Rattle.flurry_bins.specs.Bin.{entries_of_list};
ghost use Rattle.flurry_base.specs.FiniteSet.{IsFiniteSet, with_elements};
ghost use Rattle.flurry_seq_par.specs.Joins.{HasFirstOf, HasAnyOf, elements_of_list, elements_of_bins, with_unit};
ghost use Rattle.flurry_seq.specs.Growth.{bins_for, IsTableFrom};
ghost use Rattle.flurry_seq.specs.Numbers.{BearZero, BinsBearZero};

use crate::map;
use flurry_base::hash::KeyHasher;
use flurry_bins::bin::{Bin, ListBin, Ordered};
use flurry_seq_set::SeqSet;
use std::alloc::{AllocError, Allocator};
use std::thread::Threads;

// The elements as the keys of pairs.
fn as_pairs<T: Drop, A: Allocator + Copy>(
    alloc: A,
    list: Vec<T, A>,
) -> Result<Vec<(T, ()), A>, AllocError>
    ensures { IfOk result (λ pairs. pairs.items ≡ map with_unit list.items) }
{
    let mut pairs = Vec::with_capacity(alloc, list.len())?;
    for element in list {
        pairs.push((element, ()))?;
    }
    Ok(pairs)
}

/// Creates a set that uses `hasher` from the elements of `list`, as [`SeqSet::from_list`] does, but in parallel. Takes the time of
/// [`map::from_par_list`].
///
/// # Errors
///
/// Returns [`AllocError`] if memory cannot be allocated. The list is dropped.
pub fn from_par_list<
    T: Ord + Drop + Send + Sync,
    S: KeyHasher<T> + Copy + Send + Sync,
    A: Allocator + Copy + Send + Sync,
>(
    rt: &(impl Threads + Sync),
    alloc: A,
    list: Vec<T, A>,
    hasher: S,
    part: usize,
) -> Result<SeqSet<T, S, A>, AllocError>
    ensures made { IfOk result (λ s. (s.elements ≡ with_elements T.cmp [] list.items) × (s.hasher ≡ hasher)) }
    ensures ascend { IfOk result (λ s. IsFiniteSet T.cmp s.elements) }
    ensures bins { IfOk result (λ s. IsTableFrom (bins_for (length list.items)) (length s.elements) s.bins) }
{
    let pairs = as_pairs(alloc, list)?;
    let map = map::from_par_list(rt, alloc, pairs, hasher, part)?;
    Ok(SeqSet::from_map(map))
}

/// Inserts the elements of `list`, as [`SeqSet::extend`] does, but in parallel: `rayon`'s workers first build a set of them, as in
/// [`from_par_list`], whose elements are then moved into `set`, with one more insertion for each.
///
/// # Errors
///
/// Returns [`AllocError`] if memory cannot be allocated. If the set of the new elements cannot be built, `set` is unchanged; otherwise it
/// has some of the new elements, and the others are dropped.
pub fn par_extend<
    T: Ord + Drop + Send + Sync,
    S: KeyHasher<T> + Copy + Send + Sync,
    A: Allocator + Copy + Send + Sync,
>(
    rt: &(impl Threads + Sync),
    set: &mut SeqSet<T, S, A>,
    list: Vec<T, A>,
    part: usize,
) -> Result<(), AllocError>
    ensures ok { OnOk result (set.new.elements ≡ with_elements T.cmp set.old.elements list.items) }
    ensures hasher { set.new.hasher ≡ set.old.hasher }
    ensures err { OnErr result (HasAnyOf T.cmp set.old.elements (with_elements T.cmp [] list.items) set.new.elements) }
    ensures ascend { IsFiniteSet T.cmp set.old.elements }
{
    let alloc = *set.allocator();
    let pairs = as_pairs(alloc, list)?;
    let built = map::from_par_list(rt, alloc, pairs, *set.hasher(), part)?;
    let (bins, _) = built.into_bins();
    join_bins(set, bins)
}

// Moves the elements of `bins` into `set`.
fn join_bins<T: Ord + Drop, S: KeyHasher<T>, A: Allocator + Copy>(
    set: &mut SeqSet<T, S, A>,
    bins: Vec<Bin<T, (), A>, A>,
) -> Result<(), AllocError>
    requires numbers { BinsBearZero bins.items }
    ensures ok { OnOk result (set.new.elements ≡ with_elements T.cmp set.old.elements (elements_of_bins bins.items)) }
    ensures hasher { set.new.hasher ≡ set.old.hasher }
    ensures err { OnErr result (HasFirstOf T.cmp set.old.elements (elements_of_bins bins.items) set.new.elements) }
{
    for bin in bins {
        join_list(set, bin.into_list())?;
    }
    Ok(())
}

// Moves the elements of a bin's nodes into `set`.
fn join_list<T: Ord + Drop, S: KeyHasher<T>, A: Allocator + Copy>(
    set: &mut SeqSet<T, S, A>,
    list: ListBin<T, (), A>,
) -> Result<(), AllocError>
    requires numbers { BearZero (entries_of_list list) }
    ensures ok { OnOk result (set.new.elements ≡ with_elements T.cmp set.old.elements (elements_of_list list)) }
    ensures hasher { set.new.hasher ≡ set.old.hasher }
    ensures err { OnErr result (HasFirstOf T.cmp set.old.elements (elements_of_list list) set.new.elements) }
{
    let mut rest = list;
    while let Some(node) = rest.pop_front() {
        set.insert_node(node)?;
    }
    Ok(())
}
