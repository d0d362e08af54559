//! Callers of parallel building.
ghost use Rattle.std.specs.Prelude.{◌≡◌, [], IfOk, OnOk};
ghost use Rattle.std.specs.Ordering.{nat_cmp};
ghost use Rattle.flurry.specs.FiniteMap.{with_all};
ghost use Rattle.flurry.specs.FiniteSet.{with_elements};

use flurry::hash::DefaultHashBuilder;
use flurry::{HashMap, SeqMap, SeqSet, par};
use std::alloc::{AllocError, Global};
use std::sync::Wait;
use std::thread::Threads;

type Map = SeqMap<u64, u64>;

/// Builds a map in parallel. It is the map of the list's pairs, inserted in their order.
pub fn build(
    rt: &(impl Threads + Sync),
    alloc: Global,
    list: Vec<(u64, u64)>,
) -> Result<Map, AllocError>
    ensures { IfOk result (λ m. m.pairs ≡ with_all nat_cmp [] list.items) }
{
    par::seq_map_from_list(rt, alloc, list, DefaultHashBuilder::default(), 1024)
}

/// Builds a map from two lists, one after the other.
pub fn build_two(
    rt: &(impl Threads + Sync),
    alloc: Global,
    first: Vec<(u64, u64)>,
    second: Vec<(u64, u64)>,
) -> Result<Map, AllocError>
    ensures { IfOk result (λ m. m.pairs ≡ with_all nat_cmp (with_all nat_cmp [] first.items) second.items) }
{
    let mut map = build(rt, alloc, first)?;
    par::extend_seq_map(rt, &mut map, second, 1024)?;
    Ok(map)
}

/// Inserts the pairs of one map into another.
pub fn merge(left: &mut Map, right: Map) -> Result<(), AllocError>
    ensures { OnOk result (left.new.pairs ≡ with_all nat_cmp left.old.pairs right.pairs) }
{
    par::join_seq_maps(left, right)
}

/// Builds a set from a list.
pub fn build_set(
    rt: &(impl Threads + Sync),
    alloc: Global,
    list: Vec<u64>,
) -> Result<SeqSet<u64>, AllocError>
    ensures { IfOk result (λ s. s.elements ≡ with_elements nat_cmp [] list.items) }
{
    par::seq_set_from_list(rt, alloc, list, DefaultHashBuilder::default(), 1024)
}

/// Extends a shared map by several threads. No contract specifies what the map then has.
pub fn fill<R: Threads + Wait + Sync>(
    rt: &R,
    map: &HashMap<u64, u64>,
    list: Vec<(u64, u64)>,
) -> Result<(), AllocError> {
    par::extend_map(map, rt, list, 256)
}
