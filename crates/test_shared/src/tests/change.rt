//! Calls that change a pair by a function, which is called while the bin of the key is locked.

mod many;

use super::workers::insert_all;
use super::{TURNS, assert_same, insert, number_at, taken};
use flurry_base::Change;
use flurry_base::hash::LowHashBuilder;
use flurry_shared::{HashMap, HashMapRef};
use std::alloc::{Allocator, Global};
use std::process::Abort;
use std::sync::Wait;
use std::thread;
use std::thread::Threads;

// A map of numbers, in which the hash of each key is the key.
type Numbers = HashMap<u64, u64, LowHashBuilder>;

// What a call did, with the number in the `Arc`.
#[derive(Clone, Copy, Debug, PartialEq)]
enum Done {
    Absent,
    Added(u64),
    Changed(u64),
    Removed(u64),
}

// Returns what a call did.
fn what_was_done(change: Change<u64>) -> Done {
    match change {
        Change::Absent => Done::Absent,
        Change::Added(new) => Done::Added(*new),
        Change::Changed(new) => Done::Changed(*new),
        Change::Removed(old) => Done::Removed(*old),
    }
}

// Returns a map of the keys 1, 2 and 3, each with ten times itself as its value.
fn three_pairs<R: Abort + Wait>(rt: &R, alloc: Global) -> Numbers {
    let map = HashMap::with_hasher(alloc, LowHashBuilder);
    for key in 1..4u64 {
        insert(rt, &map, key, key.wrapping_mul(10));
    }
    map
}

// Asserts the value at a key, and that the map has so many pairs.
fn assert_stands<R: Abort + Wait>(rt: &R, map: &Numbers, key: u64, value: Option<u64>, len: usize) {
    let seen = number_at(rt, map, key);
    assert_same(rt, (seen, map.len(rt)), (value, len));
}

// Computes the answer at a key. Returns the key and the value on which the function was called, and what was done.
fn compute<R: Abort + Wait>(
    rt: &R,
    map: &Numbers,
    key: u64,
    answer: Option<u64>,
) -> (Option<(u64, Option<u64>)>, Done) {
    let mut seen = None;
    let change = map.compute(rt, key, |key, value| {
        seen = Some((*key, value.copied()));
        answer
    });
    (seen, what_was_done(change.expect(rt, "memory")))
}

#[test]
fn computations_at_present_and_absent_keys(rt: HostRuntime) {
    let rt = &rt;
    let map = &three_pairs(rt, rt.alloc());
    for (answer, before, wanted, len) in [
        (Some(21), Some(20), Done::Changed(21), 3),
        (None, Some(21), Done::Removed(21), 2),
        (None, None, Done::Absent, 2),
        (Some(22), None, Done::Added(22), 3),
    ] {
        let seen = compute(rt, map, 2, answer);
        assert_same(rt, seen, (Some((2, before)), wanted));
        assert_stands(rt, map, 2, answer, len);
    }
}

// On a map that has no table yet.
#[test]
fn computations_on_a_new_map(rt: HostRuntime) {
    let rt = &rt;
    let map = &HashMap::with_hasher(rt.alloc(), LowHashBuilder);
    assert_same(rt, compute(rt, map, 2, None).1, Done::Absent);
    assert_same(rt, compute(rt, map, 2, Some(20)).1, Done::Added(20));
    assert_stands(rt, map, 2, Some(20), 1);
}

// Merges a value at a key, with the answer. Returns the values on which the function was called, if it was, and what was done.
fn merge<R: Abort + Wait>(
    rt: &R,
    map: &Numbers,
    key: u64,
    value: u64,
    answer: Option<u64>,
) -> (Option<(u64, u64)>, Done) {
    let mut seen = None;
    let change = map.merge(rt, key, value, |old, new| {
        seen = Some((*old, new));
        answer
    });
    (seen, what_was_done(change.expect(rt, "memory")))
}

#[test]
fn merges_at_present_and_absent_keys(rt: HostRuntime) {
    let rt = &rt;
    let map = &three_pairs(rt, rt.alloc());
    for (value, answer, called, wanted, stands, len) in [
        (5, Some(25), Some((20, 5)), Done::Changed(25), Some(25), 3),
        (6, None, Some((25, 6)), Done::Removed(25), None, 2),
        (7, None, None, Done::Added(7), Some(7), 3),
    ] {
        let seen = merge(rt, map, 2, value, answer);
        assert_same(rt, seen, (called, wanted));
        assert_stands(rt, map, 2, stands, len);
    }
}

// Updates the value of a key. Returns the pair on which the function was called, if it was, and the number that was returned.
fn update<R: Abort + Wait>(
    rt: &R,
    map: &Numbers,
    key: u64,
    value: u64,
) -> (Option<(u64, u64)>, Option<u64>) {
    let mut seen = None;
    let new = map.update(rt, &key, |key, old| {
        seen = Some((*key, *old));
        value
    });
    (seen, taken(new.expect(rt, "memory")))
}

#[test]
fn updates_of_present_and_absent_keys(rt: HostRuntime) {
    let rt = &rt;
    let map = &three_pairs(rt, rt.alloc());
    assert_same(rt, update(rt, map, 2, 21), (Some((2, 20)), Some(21)));
    assert_stands(rt, map, 2, Some(21), 3);
    assert_same(rt, update(rt, map, 4, 40), (None, None));
    assert_stands(rt, map, 4, None, 3);
}

// Removes a key if the test says so. Returns the pair on which the test was called, if it was, and the value that was removed.
fn remove_if<R: Wait>(
    rt: &R,
    map: &Numbers,
    key: u64,
    says: bool,
) -> (Option<(u64, u64)>, Option<u64>) {
    let mut seen = None;
    let old = map.remove_if(rt, &key, |key, value| {
        seen = Some((*key, *value));
        says
    });
    (seen, taken(old))
}

#[test]
fn removals_if_a_test_passes(rt: HostRuntime) {
    let rt = &rt;
    let map = &three_pairs(rt, rt.alloc());
    assert_same(rt, remove_if(rt, map, 2, false), (Some((2, 20)), None));
    assert_stands(rt, map, 2, Some(20), 3);
    assert_same(rt, remove_if(rt, map, 2, true), (Some((2, 20)), Some(20)));
    assert_stands(rt, map, 2, None, 2);
    assert_same(rt, remove_if(rt, map, 2, true), (None, None));
}

// Replaces the value of a key if the test says so. Returns the pair on which the test was called, if it was, and the old value.
fn replace_if<R: Abort + Wait>(
    rt: &R,
    map: &Numbers,
    key: u64,
    says: bool,
) -> (Option<(u64, u64)>, Option<u64>) {
    let mut seen = None;
    let test = |key: &u64, value: &u64| -> bool {
        seen = Some((*key, *value));
        says
    };
    let old = map.replace_if(rt, &key, test, 99);
    (seen, taken(old.expect(rt, "memory")))
}

#[test]
fn replacements_if_a_test_passes(rt: HostRuntime) {
    let rt = &rt;
    let map = &three_pairs(rt, rt.alloc());
    assert_same(rt, replace_if(rt, map, 2, false), (Some((2, 20)), None));
    assert_stands(rt, map, 2, Some(20), 3);
    assert_same(rt, replace_if(rt, map, 2, true), (Some((2, 20)), Some(20)));
    assert_stands(rt, map, 2, Some(99), 3);
    assert_same(rt, replace_if(rt, map, 4, true), (None, None));
}

// Adds the key 4 by a computation, and changes its value by a merge.
fn changes_by_view<R: Abort + Wait>(rt: &R, view: &HashMapRef<'_, R, u64, u64, LowHashBuilder>) {
    let computed = view.compute(4, |_, _| Some(40)).expect(rt, "memory");
    assert_same(rt, what_was_done(computed), Done::Added(40));
    let merged = view.merge(4, 2, |old, new| old.checked_add(new));
    let merged = merged.expect(rt, "memory");
    assert_same(rt, what_was_done(merged), Done::Changed(42))
}

// Changes the value of the key 4, 42, twice, and removes it.
fn replaces_by_view<R: Abort + Wait>(rt: &R, view: &HashMapRef<'_, R, u64, u64, LowHashBuilder>) {
    let updated = view.update(&4, |_, _| 43).expect(rt, "memory");
    assert_same(rt, taken(updated), Some(43));
    let replaced = view.replace_if(&4, |_, _| true, 44).expect(rt, "memory");
    assert_same(rt, taken(replaced), Some(43));
    let removed = view.remove_if(&4, |_, value| *value == 44);
    assert_same(rt, taken(removed), Some(44))
}

// The calls of a view are those of its map.
#[test]
fn calls_of_a_view(rt: HostRuntime) {
    let rt = &rt;
    let map = three_pairs(rt, rt.alloc());
    changes_by_view(rt, &map.pin(rt));
    replaces_by_view(rt, &map.pin(rt))
}

// Returns what the function of an insertion of a key returned, if it was called, and the number that then stands.
fn get_or_insert<R: Abort + Wait>(
    rt: &R,
    map: &Numbers,
    key: u64,
    number: u64,
) -> (Option<u64>, u64) {
    let mut made = None;
    let stands = map.get_or_insert_with(rt, key, |_| {
        made = Some(number);
        number
    });
    (made, *stands.expect(rt, "memory"))
}

// The function is called at an absent key alone.
#[test]
fn insertions_of_what_a_function_returns(rt: HostRuntime) {
    let rt = &rt;
    let map = three_pairs(rt, rt.alloc());
    for (key, number, wanted) in [
        (2, 99, (None, 20)),
        (4, 99, (Some(99), 99)),
        (4, 98, (None, 99)),
    ] {
        let seen = get_or_insert(rt, &map, key, number);
        assert_same(rt, (key, seen), (key, wanted));
    }
}

// A map in which threads count.
type Counters<A> = HashMap<u64, u64, LowHashBuilder, A>;

// How a thread adds one to a number.
#[derive(Clone, Copy)]
enum Adds {
    Merge,
    Compute,
    Update,
    ReplaceIf,
}

fn adds_by_merge<A: Allocator + Copy, R: Abort + Wait>(
    rt: &R,
    map: &Counters<A>,
    key: u64,
) -> bool {
    let change = map.merge(rt, key, 1, |old, new| old.checked_add(new));
    drop(change.expect(rt, "memory"));
    true
}

fn adds_by_compute<A: Allocator + Copy, R: Abort + Wait>(
    rt: &R,
    map: &Counters<A>,
    key: u64,
) -> bool {
    let change = map.compute(
        rt,
        key,
        |_, old| Some(old.map_or(1, |old| old.saturating_add(1))),
    );
    drop(change.expect(rt, "memory"));
    true
}

fn adds_by_update<A: Allocator + Copy, R: Abort + Wait>(
    rt: &R,
    map: &Counters<A>,
    key: u64,
) -> bool {
    let new = map.update(rt, &key, |_, old| old.saturating_add(1));
    new.expect(rt, "memory").is_some()
}

// Adds one if the number is still the one that it found.
fn adds_by_replace_if<A: Allocator + Copy, R: Abort + Wait>(
    rt: &R,
    map: &Counters<A>,
    key: u64,
) -> bool {
    let Some(found) = map.get(rt, &key).expect(rt, "memory") else {
        return false;
    };
    let new = found.saturating_add(1);
    let old = map.replace_if(rt, &key, |_, value| *value == *found, new);
    old.expect(rt, "memory").is_some()
}

// Adds one to the number at a key, unless the key is absent for a call that needs it, or the number is replaced meanwhile. Returns whether
// it did.
fn adds_one<A: Allocator + Copy, R: Abort + Wait>(
    rt: &R,
    map: &Counters<A>,
    key: u64,
    adds: Adds,
) -> bool {
    match adds {
        Adds::Merge => adds_by_merge(rt, map, key),
        Adds::Compute => adds_by_compute(rt, map, key),
        Adds::Update => adds_by_update(rt, map, key),
        Adds::ReplaceIf => adds_by_replace_if(rt, map, key),
    }
}

// Tries until it adds one.
fn add_one<A: Allocator + Copy, R: Abort + Wait>(rt: &R, map: &Counters<A>, key: u64, adds: Adds) {
    for _ in 0..TURNS {
        if adds_one(rt, map, key, adds) {
            return;
        }
        thread::yield_now();
    }
}

// Adds one to the number at each of eight keys, so many times.
fn count_up<A: Allocator + Copy, R: Abort + Wait>(
    rt: &R,
    map: &Counters<A>,
    times: u64,
    adds: Adds,
) {
    for time in 0..times {
        add_one(rt, map, time % 8, adds);
    }
}

// Adds to the same eight numbers in each of four threads, while this one inserts other keys, for which the table grows.
fn add_in_threads<A: Allocator + Copy + Send + Sync, R: Abort + Threads + Wait + Sync>(
    rt: &R,
    map: &Counters<A>,
) {
    thread::scope(thread::scope_env(), rt, |scope| {
        for adds in [Adds::Merge, Adds::Compute, Adds::Update, Adds::ReplaceIf] {
            if scope.spawn(move || count_up(rt, map, 2000, adds)).is_err() {
                count_up(rt, map, 2000, adds);
            }
        }
        insert_all(rt, map, 8, 2000);
    });
}

// No addition is lost, whoever adds the key and by whichever call.
#[test]
fn four_threads_add_to_the_same_numbers(rt: HostRuntime) {
    let map: &Numbers = &HashMap::with_hasher(rt.alloc(), LowHashBuilder);
    add_in_threads(&rt, map);
    for key in 0..8u64 {
        assert_stands(&rt, map, key, Some(1000), 2000);
    }
}
