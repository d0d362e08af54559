//! Calls that take no memory.

use super::{NumberMap, assert_same, lent, map_of, metered, size_of};
use flurry_base::hash::LowHashBuilder;
use flurry_bins::bin::{Ordered, Shape};
use metered_alloc::MeteredAlloc;
use std::alloc::{Allocator, Global};
use std::process::Abort;

// Reads the map of nine pairs.
fn reads<A: Allocator + Copy>(rt: &impl Abort, map: &NumberMap<LowHashBuilder, A>) {
    assert_same(rt, lent(map.get(&3)), Some(3));
    assert_same(
        rt,
        map.get_key_value(&3).is_some() && map.contains_key(&4),
        true,
    );
    let counts = (map.iter().count(), map.keys().count(), map.values().count());
    assert_same(rt, counts, (9, 9, 9));
    assert_same(rt, map.shape_of(3), Shape::List(1));
}

// Removes pairs from the map, and at last all of them.
fn removes<A: Allocator + Copy>(rt: &impl Abort, map: &mut NumberMap<LowHashBuilder, A>) {
    assert_same(
        rt,
        map.remove(&3).is_some() && map.remove_entry(&4).is_some(),
        true,
    );
    assert_same(rt, size_of(map), (16, 7));
    map.retain(|_: &u64, value: &u64| *value < 9);
    map.retain_force(|key: &u64, _: &u64| *key > 1);
    assert_same(rt, size_of(map), (16, 5));
    map.clear();
    assert_same(rt, map.is_empty(), true);
}

// Takes the map apart into its bins.
fn gives_its_bins<A: Allocator + Copy>(rt: &impl Abort, map: NumberMap<LowHashBuilder, A>) {
    let (bins, _) = map.into_bins();
    assert_same(rt, bins.len(), 16);
    assert_same(rt, bins.iter().filter(|bin| bin.len() > 0).count(), 9);
}

// Makes these calls of two equal maps while every request fails.
fn takes_no_memory<A: Allocator + Copy>(
    rt: &impl Abort,
    metered: &MeteredAlloc<Global>,
    memory: A,
) {
    let mut map = map_of(rt, memory, 9);
    let other = map_of(rt, memory, 9);
    metered.refuse_from(0);
    reads(rt, &map);
    assert_same(rt, map == other, true);
    removes(rt, &mut map);
    gives_its_bins(rt, other);
}

#[test]
fn calls_that_take_no_memory(rt: HostRuntime) {
    let rt = &rt;
    let memory = metered(rt, rt.alloc());
    takes_no_memory(rt, memory, memory);
    assert_same(rt, memory.requests(), 0);
}
