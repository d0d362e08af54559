//! Calls that change a pair by a function. By the bound on it, a function is called at most once.

mod many;

use super::steps::three_pairs;
use super::{assert_same, assert_same_at, lent, taken};
use flurry_base::Change;
use flurry_base::hash::LowHashBuilder;
use flurry_seq::SeqMap;
use std::process::Abort;

// A map of numbers.
type NumberMap = SeqMap<u64, u64, LowHashBuilder>;

// What a call did, with the number in the `Arc`.
#[derive(Clone, Copy, Debug, PartialEq)]
enum Done {
    Absent,
    Added(u64),
    Changed(u64),
    Removed(u64),
}

// Returns what a call did.
fn what_was_done(change: Change<u64>) -> Done {
    match change {
        Change::Absent => Done::Absent,
        Change::Added(new) => Done::Added(*new),
        Change::Changed(new) => Done::Changed(*new),
        Change::Removed(old) => Done::Removed(*old),
    }
}

// Asserts the value at a key, and that the map has so many pairs in 8 bins.
fn assert_stands(rt: &impl Abort, map: &NumberMap, key: u64, value: Option<u64>, len: usize) {
    assert_same_at(
        rt,
        key,
        (lent(map.get(&key)), map.len(), map.capacity()),
        (value, len, 8),
    );
}

// Computes the answer at a key. Returns the key and the value on which the function was called, and what was done.
fn compute(
    rt: &impl Abort,
    map: &mut NumberMap,
    key: u64,
    answer: Option<u64>,
) -> (Option<(u64, Option<u64>)>, Done) {
    let mut seen = None;
    let change = map.compute(key, |key, value| {
        seen = Some((*key, value.copied()));
        answer
    });
    (seen, what_was_done(change.expect(rt, "memory")))
}

#[test]
fn computations_at_present_and_absent_keys(rt: HostRuntime) {
    let rt = &rt;
    let mut map = three_pairs(rt, rt.alloc());
    for (answer, before, wanted, len) in [
        (Some(21), Some(20), Done::Changed(21), 3),
        (None, Some(21), Done::Removed(21), 2),
        (None, None, Done::Absent, 2),
        (Some(22), None, Done::Added(22), 3),
    ] {
        let seen = compute(rt, &mut map, 2, answer);
        assert_same(rt, seen, (Some((2, before)), wanted));
        assert_stands(rt, &map, 2, answer, len);
    }
}

// Merges a value at a key, with the answer. Returns the values on which the function was called, if it was, and what was done.
fn merge(
    rt: &impl Abort,
    map: &mut NumberMap,
    key: u64,
    value: u64,
    answer: Option<u64>,
) -> (Option<(u64, u64)>, Done) {
    let mut seen = None;
    let change = map.merge(key, value, |old, new| {
        seen = Some((*old, new));
        answer
    });
    (seen, what_was_done(change.expect(rt, "memory")))
}

#[test]
fn merges_at_present_and_absent_keys(rt: HostRuntime) {
    let rt = &rt;
    let mut map = three_pairs(rt, rt.alloc());
    for (value, answer, called, wanted, stands, len) in [
        (5, Some(25), Some((20, 5)), Done::Changed(25), Some(25), 3),
        (6, None, Some((25, 6)), Done::Removed(25), None, 2),
        (7, None, None, Done::Added(7), Some(7), 3),
    ] {
        let seen = merge(rt, &mut map, 2, value, answer);
        assert_same(rt, seen, (called, wanted));
        assert_stands(rt, &map, 2, stands, len);
    }
}

// Updates the value of a key. Returns the pair on which the function was called, if it was, and the number that was returned.
fn update(
    rt: &impl Abort,
    map: &mut NumberMap,
    key: u64,
    value: u64,
) -> (Option<(u64, u64)>, Option<u64>) {
    let mut seen = None;
    let answer = map.update(&key, |key, old| {
        seen = Some((*key, *old));
        value
    });
    (seen, taken(answer.expect(rt, "memory")))
}

#[test]
fn updates_of_present_keys_alone(rt: HostRuntime) {
    let rt = &rt;
    let mut map = three_pairs(rt, rt.alloc());
    for (key, called, stands) in [
        (2, Some((2, 20)), Some(40)),
        (2, Some((2, 40)), Some(40)),
        (4, None, None),
    ] {
        let seen = update(rt, &mut map, key, 40);
        assert_same(rt, seen, (called, stands));
        assert_stands(rt, &map, key, stands, 3);
    }
}

// Returns the value of a key, which is inserted if it is absent, and the key on which the function was called, if it was.
fn get_or_insert(rt: &impl Abort, map: &mut NumberMap, key: u64, value: u64) -> (Option<u64>, u64) {
    let mut seen = None;
    let answer = map.get_or_insert_with(key, |key| {
        seen = Some(*key);
        value
    });
    (seen, *answer.expect(rt, "memory"))
}

#[test]
fn insertions_of_what_a_function_returns(rt: HostRuntime) {
    let rt = &rt;
    let mut map = three_pairs(rt, rt.alloc());
    for (key, value, called, stands, len) in [
        (2, 40, None, 20, 3),
        (4, 40, Some(4), 40, 4),
        (4, 41, None, 40, 4),
    ] {
        let seen = get_or_insert(rt, &mut map, key, value);
        assert_same(rt, seen, (called, stands));
        assert_stands(rt, &map, key, Some(stands), len);
    }
}

// Removes a key if the test says so. Returns the pair that was tested, if one was, and the number that was returned.
fn remove_if(map: &mut NumberMap, key: u64, says: bool) -> (Option<(u64, u64)>, Option<u64>) {
    let mut seen = None;
    let answer = map.remove_if(&key, |key, value| {
        seen = Some((*key, *value));
        says
    });
    (seen, taken(answer))
}

#[test]
fn removals_by_a_test(rt: HostRuntime) {
    let rt = &rt;
    let mut map = three_pairs(rt, rt.alloc());
    for (says, called, removed, stands, len) in [
        (false, Some((2, 20)), None, Some(20), 3),
        (true, Some((2, 20)), Some(20), None, 2),
        (true, None, None, None, 2),
    ] {
        let seen = remove_if(&mut map, 2, says);
        assert_same(rt, seen, (called, removed));
        assert_stands(rt, &map, 2, stands, len);
    }
}

// Replaces the value of a key if the test says so. Returns the pair that was tested, if one was, and the old number, or the new one if it
// comes back.
fn replace_if(
    rt: &impl Abort,
    map: &mut NumberMap,
    key: u64,
    says: bool,
    value: u64,
) -> (Option<(u64, u64)>, Result<u64, u64>) {
    let mut seen = None;
    let answer = map.replace_if(
        &key,
        |key, value| {
            seen = Some((*key, *value));
            says
        },
        value,
    );
    (seen, answer.expect(rt, "memory").map(|old| *old))
}

#[test]
fn replacements_by_a_test(rt: HostRuntime) {
    let rt = &rt;
    let mut map = three_pairs(rt, rt.alloc());
    for (key, says, called, answer, stands) in [
        (2, false, Some((2, 20)), Err(40), Some(20)),
        (2, true, Some((2, 20)), Ok(20), Some(40)),
        (4, true, None, Err(40), None),
    ] {
        let seen = replace_if(rt, &mut map, key, says, 40);
        assert_same(rt, seen, (called, answer));
        assert_stands(rt, &map, key, stands, 3);
    }
}

// A new key makes a first table, and enlarges it: the twelfth pair fills three quarters of 16 bins.
#[test]
fn growth_by_new_keys(rt: HostRuntime) {
    let rt = &rt;
    let mut map: NumberMap = SeqMap::with_hasher(rt.alloc(), LowHashBuilder);
    for (first, bins) in [(0, 16), (3, 16), (6, 16), (9, 32)] {
        compute(rt, &mut map, first, Some(0));
        merge(rt, &mut map, first + 1, 0, None);
        get_or_insert(rt, &mut map, first + 2, 0);
        assert_same_at(rt, first, map.capacity(), bins);
    }
    assert_same(rt, map.len(), 12);
}
