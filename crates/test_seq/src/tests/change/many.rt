//! Calls of maps of 2,000 pairs: each once at each of a thousand keys. Then all keys are looked at, and the table is as it was.

use super::super::steps::{Step, list_of, on_map_with};
use super::super::{assert_same, assert_same_at, lent, taken};
use super::{Done, NumberMap, compute, get_or_insert, merge, remove_if, replace_if, update};
use flurry_base::hash::LowHashBuilder;
use flurry_seq::SeqMap;
use std::process::Abort;

// The calls. Those whose names end with `None` call a function that returns `None`.
#[derive(Clone, Copy, Debug, Drop, PartialEq)]
enum Call {
    Insert,
    TryInsert,
    Compute,
    ComputeNone,
    Merge,
    MergeNone,
    Update,
    GetOrInsert,
    ReplaceIf,
    RemoveIf,
}

// Returns the number of what a call did.
fn number_of(done: Done) -> Option<u64> {
    match done {
        Done::Absent => None,
        Done::Added(number) | Done::Changed(number) | Done::Removed(number) => Some(number),
    }
}

// Inserts an absent key and returns its value, or returns the value that the key has.
fn try_insert(rt: &impl Abort, map: &mut NumberMap, key: u64, value: u64) -> u64 {
    match map.try_insert(key, value).expect(rt, "memory") {
        Ok(new) => *new,
        Err(error) => *error.current,
    }
}

// Makes a call that has this value, and returns the number that it tells.
fn make(rt: &impl Abort, map: &mut NumberMap, call: Call, key: u64, value: u64) -> Option<u64> {
    match call {
        Call::Insert => taken(map.insert(key, value).expect(rt, "memory")),
        Call::TryInsert => Some(try_insert(rt, map, key, value)),
        Call::Compute => number_of(compute(rt, map, key, Some(value)).1),
        Call::ComputeNone => number_of(compute(rt, map, key, None).1),
        Call::Merge => number_of(merge(rt, map, key, value, Some(value)).1),
        Call::MergeNone => number_of(merge(rt, map, key, value, None).1),
        Call::Update => update(rt, map, key, value).1,
        Call::GetOrInsert => Some(get_or_insert(rt, map, key, value).1),
        Call::ReplaceIf => replace_if(rt, map, key, true, value).1.ok(),
        Call::RemoveIf => remove_if(map, key, true).1,
    }
}

// Returns a key with a distance added to it, or `None` if there is none.
fn beside(key: u64, distance: Option<u64>) -> Option<u64> {
    distance.map(|distance| key.wrapping_add(distance))
}

// Makes a call at each of a thousand keys from `first` on, with the value that is greater by 5. Each tells the number at this distance from
// its key.
fn make_each(rt: &impl Abort, map: &mut NumberMap, call: Call, first: u64, told: Option<u64>) {
    for key in first..first.saturating_add(1000) {
        let seen = make(rt, map, call, key, key.wrapping_add(5));
        assert_same_at(rt, (call, key), seen, beside(key, told));
    }
}

// Asserts that each of a thousand keys from `first` on has the value at this distance from it.
fn have(rt: &impl Abort, map: &NumberMap, first: u64, distance: Option<u64>) {
    for key in first..first.saturating_add(1000) {
        assert_same_at(rt, key, lent(map.get(&key)), beside(key, distance));
    }
}

// Makes a call at each of a thousand keys of a map of the keys below 2,000, each of which has itself as its value. It tells a number at one
// distance from its key, leaves one at the other, and the map then has so many pairs.
fn run(
    rt: &(impl Abort + AllocGlobal),
    call: Call,
    first: u64,
    (told, left): (Option<u64>, Option<u64>),
    len: usize,
) {
    let list = list_of(rt, rt.alloc(), 0, 2000, 1);
    let mut map: NumberMap = SeqMap::from_list(rt.alloc(), list, LowHashBuilder).expect(
        rt, "memory",
    );
    make_each(rt, &mut map, call, first, told);
    have(rt, &map, first, left);
    have(rt, &map, 1000, Some(0));
    assert_same_at(rt, call, (map.capacity(), map.len()), (4096, len));
}

#[test]
fn calls_that_change_each_of_many_keys(rt: HostRuntime) {
    for (call, told, left) in [
        (Call::Insert, 0, 5),
        (Call::TryInsert, 0, 0),
        (Call::Compute, 5, 5),
        (Call::Merge, 5, 5),
        (Call::Update, 5, 5),
        (Call::GetOrInsert, 0, 0),
        (Call::ReplaceIf, 0, 5),
    ] {
        run(&rt, call, 0, (Some(told), Some(left)), 2000);
    }
}

#[test]
fn calls_that_remove_each_of_many_keys(rt: HostRuntime) {
    for call in [Call::ComputeNone, Call::MergeNone, Call::RemoveIf] {
        run(&rt, call, 0, (Some(0), None), 1000);
    }
}

#[test]
fn calls_that_add_many_keys(rt: HostRuntime) {
    for (call, told) in [
        (Call::Insert, None),
        (Call::TryInsert, Some(5)),
        (Call::Compute, Some(5)),
        (Call::Merge, Some(5)),
        (Call::MergeNone, Some(5)),
        (Call::GetOrInsert, Some(5)),
    ] {
        run(&rt, call, 2000, (told, Some(5)), 3000);
    }
}

#[test]
fn calls_at_many_absent_keys(rt: HostRuntime) {
    for call in [
        Call::ComputeNone,
        Call::Update,
        Call::ReplaceIf,
        Call::RemoveIf,
    ] {
        run(&rt, call, 2000, (None, None), 2000);
    }
}

// The calls of the rows of a table: a table that grew, keys that are removed, and keys that come back.
#[test]
fn many_keys_come_and_go(rt: HostRuntime) {
    let steps = [
        Step::InsertNew(0, 2000),
        Step::Holds(4096, 2000),
        Step::Clone(4096, 2000, 1999, Some(1999)),
        Step::ComputeNone(0, 500),
        Step::RemoveEach(500, 1000),
        Step::Holds(4096, 1000),
        Step::Clone(2048, 1000, 1999, Some(1999)),
        Step::InsertEach(0, 1000, 3, 4096),
        Step::Get(999, Some(3)),
        Step::Extend(0, 2000, 2),
        Step::Get(1999, Some(3998)),
        Step::Clear,
        Step::Len(0),
    ];
    on_map_with::<u64, _>(&rt, LowHashBuilder, &steps);
}
