//! Lists of maps and sets that no other thread changes, and each request for memory that making a list makes, which fails in turn.

use super::assert_same;
use flurry_base::hash::LowHashBuilder;
use flurry_seq_pairs::{SortedItems, SortedPairs};
use flurry_shared::HashMap;
use flurry_shared_pairs::{map, map_ref, set, set_ref};
use flurry_shared_set::HashSet;
use metered_alloc::MeteredAlloc;
use std::alloc::Global;
use std::process::Abort;
use std::sync::Wait;

type Numbers = HashMap<u64, u64, LowHashBuilder>;

type Elements = HashSet<u64, LowHashBuilder>;

// More requests than any call makes.
const MAX_REQUESTS: u64 = 100;

// Returns a map of the keys 2, 0 and 1, each with ten times itself as its value.
fn three_pairs<R: Abort + Wait>(rt: &R, alloc: Global) -> Numbers {
    let map = HashMap::with_hasher(alloc, LowHashBuilder);
    for key in [2u64, 0, 1] {
        map.insert(rt, key, key.saturating_mul(10))
            .expect(rt, "memory");
    }
    map
}

fn three_elements<R: Abort + Wait>(rt: &R, alloc: Global) -> Elements {
    let set = HashSet::with_hasher(alloc, LowHashBuilder);
    for element in [2u64, 0, 1] {
        set.insert(rt, element).expect(rt, "memory");
    }
    set
}

fn lists_three_pairs<R: Abort + Wait>(rt: &R, alloc: Global, map: &Numbers) {
    let wanted = Vec::from_array(alloc, [(0u64, 0u64), (1, 10), (2, 20)]).expect(rt, "memory");
    let wanted = &SortedPairs(wanted);
    let list = map::to_sorted_pairs(rt, alloc, map).expect(rt, "memory");
    assert_same(rt, &list, wanted);
    let list = map_ref::to_sorted_pairs(alloc, &map.pin(rt)).expect(rt, "memory");
    assert_same(rt, &list, wanted)
}

#[test]
fn pairs_of_a_map(rt: HostRuntime) {
    lists_three_pairs(&rt, rt.alloc(), &three_pairs(&rt, rt.alloc()))
}

// Returns how many pairs the list of a map has.
fn pair_count<R: Abort + Wait>(rt: &R, alloc: Global, map: &Numbers) -> usize {
    let list = map::to_sorted_pairs(rt, alloc, map).expect(rt, "memory");
    list.0.len()
}

#[test]
fn no_pairs(rt: HostRuntime) {
    let map = HashMap::with_hasher(rt.alloc(), LowHashBuilder);
    assert_same(&rt, pair_count(&rt, rt.alloc(), &map), 0)
}

fn lists_three_elements<R: Abort + Wait>(rt: &R, alloc: Global, set: &Elements) {
    let wanted = Vec::from_array(alloc, [0u64, 1, 2]).expect(rt, "memory");
    let wanted = &SortedItems(wanted);
    let list = set::to_sorted_items(rt, alloc, set).expect(rt, "memory");
    assert_same(rt, &list, wanted);
    let list = set_ref::to_sorted_items(alloc, &set.pin(rt)).expect(rt, "memory");
    assert_same(rt, &list, wanted)
}

#[test]
fn elements_of_a_set(rt: HostRuntime) {
    lists_three_elements(&rt, rt.alloc(), &three_elements(&rt, rt.alloc()))
}

// Makes the list of a map while the request numbered `k` fails, and returns whether that request was made.
fn pairs_without(
    rt: &(impl Abort + Wait),
    memory: &MeteredAlloc<Global>,
    map: &Numbers,
    k: u64,
) -> bool {
    memory.refuse_at(k);
    let count = map::to_sorted_pairs(rt, memory, map)
        .ok()
        .map(|list| list.0.len());
    let refused = memory.was_refused();
    memory.refuse_nothing();
    assert_same(rt, count, if refused { None } else { Some(3) });
    refused
}

// Makes the list of a set while the request numbered `k` fails, and returns whether that request was made.
fn elements_without(
    rt: &(impl Abort + Wait),
    memory: &MeteredAlloc<Global>,
    set: &Elements,
    k: u64,
) -> bool {
    memory.refuse_at(k);
    let count = set::to_sorted_items(rt, memory, set)
        .ok()
        .map(|list| list.0.len());
    let refused = memory.was_refused();
    memory.refuse_nothing();
    assert_same(rt, count, if refused { None } else { Some(3) });
    refused
}

// Returns how many requests the list of a map makes. With each of them refused no list is made, and no block is left.
fn requests_for_pairs<R: Abort + Wait>(
    rt: &R,
    memory: &MeteredAlloc<Global>,
    map: &Numbers,
) -> u64 {
    for k in 0..MAX_REQUESTS {
        let refused = pairs_without(rt, memory, map, k);
        assert_same(rt, memory.live_blocks(), 0);
        if !refused {
            return k;
        }
    }
    MAX_REQUESTS
}

#[test]
fn refused_pairs(rt: HostRuntime) {
    let rt = &rt;
    let memory = MeteredAlloc::new(rt.alloc());
    let requests = requests_for_pairs(rt, &memory, &three_pairs(rt, rt.alloc()));
    assert_same(rt, (1..MAX_REQUESTS).contains(&requests), true)
}

// Returns how many requests the list of a set makes. With each of them refused no list is made, and no block is left.
fn requests_for_elements<R: Abort + Wait>(
    rt: &R,
    memory: &MeteredAlloc<Global>,
    set: &Elements,
) -> u64 {
    for k in 0..MAX_REQUESTS {
        let refused = elements_without(rt, memory, set, k);
        assert_same(rt, memory.live_blocks(), 0);
        if !refused {
            return k;
        }
    }
    MAX_REQUESTS
}

#[test]
fn refused_elements(rt: HostRuntime) {
    let rt = &rt;
    let memory = MeteredAlloc::new(rt.alloc());
    let requests = requests_for_elements(rt, &memory, &three_elements(rt, rt.alloc()));
    assert_same(rt, (1..MAX_REQUESTS).contains(&requests), true)
}

fn lists_a_thousand_pairs<R: Abort + Wait>(rt: &R, alloc: Global, map: &Numbers) {
    for key in 0..1000u64 {
        map.insert(rt, key, key).expect(rt, "memory");
    }
    assert_same(rt, pair_count(rt, alloc, map), 1000)
}

fn lists_a_thousand_elements<R: Abort + Wait>(rt: &R, alloc: Global, set: &Elements) {
    for element in 0..1000u64 {
        set.insert(rt, element).expect(rt, "memory");
    }
    let list = set::to_sorted_items(rt, alloc, set).expect(rt, "memory");
    assert_same(rt, list.0.len(), 1000)
}

// A list has every pair and every element, and each pair its own value.
#[test]
fn a_thousand_of_each(rt: HostRuntime) {
    lists_a_thousand_pairs(
        &rt,
        rt.alloc(),
        &HashMap::with_hasher(rt.alloc(), LowHashBuilder),
    );
    lists_a_thousand_elements(
        &rt,
        rt.alloc(),
        &HashSet::with_hasher(rt.alloc(), LowHashBuilder),
    )
}
