//! Histories that no order explains.

use super::{altered, check_unlawful, computed, event, get, insert, remove};
use stress_judge::calls::{Call, Outcome, Reply};

// The second insertion is lost: the third finds what the first wrote.
#[test]
fn a_lost_update(rt: HostRuntime) {
    let events = [
        insert(0, 1, 2, 5, None),
        insert(1, 3, 4, 6, Some(5)),
        insert(0, 5, 6, 7, Some(5)),
    ];
    check_unlawful(&rt, rt.alloc(), &events);
}

// A look-up starts after a write has ended, and finds the value before it.
#[test]
fn a_stale_read(rt: HostRuntime) {
    let events = [
        insert(0, 1, 2, 5, None),
        insert(1, 3, 4, 6, Some(5)),
        get(2, 5, 6, Some(5)),
    ];
    check_unlawful(&rt, rt.alloc(), &events);
}

// Two look-ups, one after the other, see a write that overlaps both and then do not see it.
#[test]
fn new_and_then_old(rt: HostRuntime) {
    let events = [
        insert(0, 1, 6, 5, None),
        get(1, 2, 3, Some(5)),
        get(2, 4, 5, None),
    ];
    check_unlawful(&rt, rt.alloc(), &events);
}

#[test]
fn two_first_insertions(rt: HostRuntime) {
    check_unlawful(
        &rt,
        rt.alloc(),
        &[insert(0, 1, 3, 5, None), insert(1, 2, 4, 6, None)],
    );
}

#[test]
fn one_value_removed_twice(rt: HostRuntime) {
    let events = [
        insert(0, 1, 2, 5, None),
        remove(1, 3, 5, Some(5)),
        remove(2, 4, 6, Some(5)),
    ];
    check_unlawful(&rt, rt.alloc(), &events);
}

// A look-up ends before the insertion starts whose value it finds.
#[test]
fn a_value_before_its_insertion(rt: HostRuntime) {
    check_unlawful(
        &rt,
        rt.alloc(),
        &[get(0, 1, 2, Some(5)), insert(1, 3, 4, 5, None)],
    );
}

#[test]
fn try_insert_of_a_present_key(rt: HostRuntime) {
    let events = [
        insert(0, 1, 2, 5, None),
        event(1, 3, 4, Call::TryInsert(6), Reply::Added(6)),
    ];
    check_unlawful(&rt, rt.alloc(), &events);
}

// The key is removed, and a later look-up finds it.
#[test]
fn a_removed_key_comes_back(rt: HostRuntime) {
    let events = [
        insert(0, 1, 2, 5, None),
        remove(0, 3, 4, Some(5)),
        event(1, 5, 6, Call::ContainsKey, Reply::Presence(true)),
    ];
    check_unlawful(&rt, rt.alloc(), &events);
}

// A computation returns the new value, and the function saw a value that was already replaced.
#[test]
fn a_computation_on_an_old_value(rt: HostRuntime) {
    let events = [
        insert(0, 1, 2, 5, None),
        insert(0, 3, 4, 6, Some(5)),
        event(
            1,
            5,
            6,
            Call::ComputeIfPresent(Some(9)),
            computed(Some(5), Some(9)),
        ),
    ];
    check_unlawful(&rt, rt.alloc(), &events);
}

// Two overlapping calls by a function see the same value, so what one of them wrote is lost.
#[test]
fn two_merges_with_one_value(rt: HostRuntime) {
    let events = [
        insert(0, 1, 2, 4, None),
        event(
            0,
            3,
            5,
            Call::Merge(6),
            altered(Some(4), Outcome::Changed(6)),
        ),
        event(
            1,
            4,
            6,
            Call::Merge(8),
            altered(Some(4), Outcome::Changed(8)),
        ),
    ];
    check_unlawful(&rt, rt.alloc(), &events);
}

// Two overlapping calls each add a value at an absent key.
#[test]
fn two_computations_that_add(rt: HostRuntime) {
    let events = [
        event(
            0,
            1,
            3,
            Call::Compute(Some(5)),
            altered(None, Outcome::Added(5)),
        ),
        event(
            1,
            2,
            4,
            Call::Compute(Some(6)),
            altered(None, Outcome::Added(6)),
        ),
    ];
    check_unlawful(&rt, rt.alloc(), &events);
}

// A removal by a test takes an odd value away.
#[test]
fn an_odd_value_is_removed(rt: HostRuntime) {
    let events = [
        insert(0, 1, 2, 5, None),
        event(1, 3, 4, Call::RemoveEven, Reply::Value(Some(5))),
    ];
    check_unlawful(&rt, rt.alloc(), &events);
}

// A pair has another key than the one that was asked for.
#[test]
fn the_pair_of_another_key(rt: HostRuntime) {
    let events = [
        insert(0, 1, 2, 5, None),
        event(1, 3, 4, Call::GetKeyValue, Reply::Pair(Some((8, 5)))),
    ];
    check_unlawful(&rt, rt.alloc(), &events);
}

// Two removals overlap an insertion and both find no key, though a look-up has seen the value between them.
#[test]
fn a_removal_that_misses(rt: HostRuntime) {
    let events = [
        insert(0, 1, 8, 5, None),
        remove(1, 2, 3, None),
        get(1, 4, 5, Some(5)),
        remove(1, 6, 7, None),
    ];
    check_unlawful(&rt, rt.alloc(), &events);
}
