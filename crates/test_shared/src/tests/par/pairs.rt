//! Pairs that several threads insert.

use super::{assert_same, has_sums, insert_two, pairs_from_100, values_at};
use flurry_base::hash::LowHashBuilder;
use flurry_shared::HashMap;
use flurry_shared_par::{map, map_ref};
use std::process::Abort;
use std::sync::Wait;
use std::thread::Threads;

// Asserts that a map has a hundred pairs besides the two earlier ones.
fn has_a_hundred_more<R: Abort + Wait>(rt: &R, map: &HashMap<u64, u64>) {
    has_sums(rt, map, (102, 14_954, 49_506));
    assert_same(rt, values_at(rt, map, 100, 199), (Some(0), Some(990)));
}

// Extends a map by no pairs, and by a hundred.
fn extends<R: Abort + AllocGlobal + Threads + Wait + Sync>(rt: &R, map: &HashMap<u64, u64>) {
    insert_two(rt, map);
    map::par_extend(map, rt, Vec::new(rt.alloc()), 7).expect(rt, "memory");
    has_sums(rt, map, (2, 4, 6));
    let list = pairs_from_100(rt, rt.alloc(), 100);
    map::par_extend(map, rt, list, 7).expect(rt, "memory");
    has_a_hundred_more(rt, map);
}

#[test]
fn a_hundred_pairs(rt: HostRuntime) {
    extends(&rt, &HashMap::new(rt.alloc()).with_processors(4));
}

// Extends a map by a view, by no pairs, and by a hundred.
fn extends_by_a_view<R: Abort + AllocGlobal + Threads + Wait + Sync>(
    rt: &R,
    map: &HashMap<u64, u64>,
) {
    insert_two(rt, map);
    map_ref::par_extend(&map.pin(rt), Vec::new(rt.alloc()), 7).expect(rt, "memory");
    has_sums(rt, map, (2, 4, 6));
    let list = pairs_from_100(rt, rt.alloc(), 100);
    map_ref::par_extend(&map.pin(rt), list, 7).expect(rt, "memory");
    has_a_hundred_more(rt, map);
}

#[test]
fn a_hundred_pairs_by_a_view(rt: HostRuntime) {
    extends_by_a_view(&rt, &HashMap::new(rt.alloc()).with_processors(4));
}

// A new map for `processors` threads has a hundred pairs after they were inserted in pieces of the length `part`.
fn extends_to_a_hundred<R: Abort + AllocGlobal + Threads + Wait + Sync>(
    rt: &R,
    processors: usize,
    part: usize,
) {
    let map = HashMap::with_hasher(rt.alloc(), LowHashBuilder).with_processors(processors);
    let list = pairs_from_100(rt, rt.alloc(), 100);
    map::par_extend(&map, rt, list, part).expect(rt, "memory");
    has_sums(rt, &map, (100, 14_950, 49_500));
}

#[test]
fn processors_and_parts(rt: HostRuntime) {
    for processors in [0usize, 1, 4, 64, 100] {
        for part in [0usize, 1, 7, 1000] {
            extends_to_a_hundred(&rt, processors, part);
        }
    }
}

// Inserts three pairs in pieces of the length `part`. Two of them have one key: one of their values is stored, and the key is counted once.
fn has_one_of_two<R: Abort + AllocGlobal + Threads + Wait + Sync>(
    rt: &R,
    map: &HashMap<u64, u64>,
    part: usize,
) {
    let list = Vec::from_array(rt.alloc(), [(1u64, 10u64), (2, 20), (1, 30)]).expect(rt, "memory");
    map::par_extend(map, rt, list, part).expect(rt, "memory");
    assert_same(rt, map.len(rt), 2);
    let (value, other) = values_at(rt, map, 1, 2);
    assert_same(rt, other, Some(20));
    assert_same(rt, value == Some(10) || value == Some(30), true);
}

#[test]
fn a_doubled_key(rt: HostRuntime) {
    for part in 0..5usize {
        has_one_of_two(&rt, &HashMap::new(rt.alloc()).with_processors(2), part);
    }
}

// One thread takes a thousand pieces.
#[test]
fn a_thousand_pieces(rt: HostRuntime) {
    let rt = &rt;
    let map = HashMap::with_hasher(rt.alloc(), LowHashBuilder);
    let list = pairs_from_100(rt, rt.alloc(), 1000);
    map::par_extend(&map, rt, list, 1).expect(rt, "memory");
    assert_same(rt, map.len(rt), 1000);
}
