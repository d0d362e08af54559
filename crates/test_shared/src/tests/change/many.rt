//! Calls by a function in a map of 2,000 pairs, one at each key.

use super::super::{Memory, assert_same, insert, metered, number_at};
use flurry_base::hash::LowHashBuilder;
use flurry_shared::HashMap;
use metered_alloc::MeteredAlloc;
use std::alloc::{Allocator, Global};
use std::process::Abort;
use std::sync::Wait;

// A map of numbers, in which the hash of each key is the key.
type Numbers<A> = HashMap<u64, u64, LowHashBuilder, A>;

// The number of pairs.
const PAIRS: u64 = 2000;

// The calls, one of which is made at each key, in turn.
#[derive(Clone, Copy)]
enum Call {
    Compute,
    ComputeIfPresent,
    Merge,
    Update,
    ReplaceIf,
    GetOrInsert,
    RemoveIf,
}

// Returns the call that is made at a key.
fn call_at(key: u64) -> Call {
    match key % 7 {
        0 => Call::Compute,
        1 => Call::ComputeIfPresent,
        2 => Call::Merge,
        3 => Call::Update,
        4 => Call::ReplaceIf,
        5 => Call::GetOrInsert,
        _ => Call::RemoveIf,
    }
}

// Makes the call of a key, by which the number there becomes 1 if it changes.
fn change_at<A: Allocator + Copy, R: Abort + Wait>(rt: &R, map: &Numbers<A>, key: u64) {
    match call_at(key) {
        Call::Compute => drop(map.compute(rt, key, |_, _| Some(1))),
        Call::ComputeIfPresent => drop(map.compute_if_present(rt, &key, |_, _| Some(1))),
        Call::Merge => drop(map.merge(rt, key, 1, |_, new| Some(new))),
        Call::Update => drop(map.update(rt, &key, |_, _| 1)),
        Call::ReplaceIf => drop(map.replace_if(rt, &key, |_, _| true, 1)),
        Call::GetOrInsert => drop(map.get_or_insert_with(rt, key, |_| 1)),
        Call::RemoveIf => drop(map.remove_if(rt, &key, |_, _| true)),
    }
}

// Returns the number that then is at a key, which was 0.
fn number_after(key: u64) -> Option<u64> {
    match call_at(key) {
        Call::GetOrInsert => Some(0),
        Call::RemoveIf => None,
        _ => Some(1),
    }
}

// Makes the call of each key.
fn change_each<A: Allocator + Copy, R: Abort + Wait>(rt: &R, map: &Numbers<A>) {
    for key in 0..PAIRS {
        change_at(rt, map, key);
    }
}

// Asserts that each number is the one after its call.
fn has_numbers_after<A: Allocator + Copy, R: Abort + Wait>(rt: &R, map: &Numbers<A>) {
    for key in 0..PAIRS {
        assert_same(rt, (key, number_at(rt, map, key)), (key, number_after(key)));
    }
}

// Returns a map of all keys, with 0 at each.
fn pairs<A: Allocator + Copy, R: Abort + Wait>(rt: &R, alloc: A) -> Numbers<A> {
    let map = HashMap::with_hasher(alloc, LowHashBuilder);
    for key in 0..PAIRS {
        insert(rt, &map, key, 0);
    }
    map
}

// Changes the pairs, and returns how many requests for memory that took: one for each new value, and none for a larger table.
fn requests_of<A: Allocator + Copy, R: Abort + Wait>(
    rt: &R,
    metered: &MeteredAlloc<Global>,
    map: &Numbers<A>,
) -> u64 {
    metered.refuse_nothing();
    change_each(rt, map);
    let requests = metered.requests();
    has_numbers_after(rt, map);
    requests
}

// Does so in a map of its own, of which it then makes an owned one. Returns the requests, and how many pairs and bins that one has.
fn changed<R: Abort + Wait>(rt: &R, memory: Memory) -> (u64, usize, usize) {
    let map = pairs(rt, memory);
    let requests = requests_of(rt, memory, &map);
    let owned = map.into_seq(rt).expect(rt, "memory");
    (requests, owned.len(), owned.capacity())
}

// 2,000 keys are 285 times seven, and five more.
#[test]
fn each_of_two_thousand_keys(rt: HostRuntime) {
    let rt = &rt;
    let memory = metered(rt, rt.alloc());
    assert_same(rt, changed(rt, memory), (1430, 1715, 4096));
    assert_same(rt, memory.live_blocks(), 0);
}
