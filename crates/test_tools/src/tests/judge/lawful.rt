//! Histories that an order explains.

use super::{altered, check_lawful, computed, event, get, insert, remove};
use stress_judge::calls::{Call, Outcome, Reply};

#[test]
fn no_call(rt: HostRuntime) {
    check_lawful(&rt, rt.alloc(), &[]);
}

// Each call, one after another, on an absent and then on a present key.
#[test]
fn each_call_alone(rt: HostRuntime) {
    let kept = Reply::Kept {
        current: 5,
        not_inserted: 6,
    };
    let events = [
        get(0, 1, 2, None),
        event(
            1,
            3,
            4,
            Call::ComputeIfPresent(Some(4)),
            computed(None, None),
        ),
        event(0, 5, 6, Call::TryInsert(5), Reply::Added(5)),
        event(1, 7, 8, Call::TryInsert(6), kept),
        event(0, 9, 10, Call::GetKeyValue, Reply::Pair(Some((7, 5)))),
        event(
            1,
            11,
            12,
            Call::ComputeIfPresent(Some(8)),
            computed(Some(5), Some(8)),
        ),
        event(0, 13, 14, Call::ContainsKey, Reply::Presence(true)),
        event(
            1,
            15,
            16,
            Call::ComputeIfPresent(None),
            computed(Some(8), None),
        ),
        remove(0, 17, 18, None),
        insert(1, 19, 20, 9, None),
        event(0, 21, 22, Call::RemoveEntry, Reply::Pair(Some((7, 9)))),
        event(1, 23, 24, Call::ContainsKey, Reply::Presence(false)),
    ];
    check_lawful(&rt, rt.alloc(), &events);
}

// `compute`, `merge` and `update`, one after another, on an absent key, an even value and an odd one.
#[test]
fn each_call_by_a_function(rt: HostRuntime) {
    let events = [
        event(0, 1, 2, Call::Compute(None), altered(None, Outcome::Absent)),
        event(
            1,
            3,
            4,
            Call::Compute(Some(4)),
            altered(None, Outcome::Added(4)),
        ),
        event(
            0,
            5,
            6,
            Call::Compute(Some(6)),
            altered(Some(4), Outcome::Changed(6)),
        ),
        event(
            1,
            7,
            8,
            Call::Merge(5),
            altered(Some(6), Outcome::Changed(5)),
        ),
        event(
            0,
            9,
            10,
            Call::Merge(7),
            altered(Some(5), Outcome::Removed(5)),
        ),
        event(1, 11, 12, Call::Merge(8), altered(None, Outcome::Added(8))),
        event(0, 13, 14, Call::Update(9), computed(Some(8), Some(9))),
        event(
            1,
            15,
            16,
            Call::Compute(None),
            altered(Some(9), Outcome::Removed(9)),
        ),
        event(0, 17, 18, Call::Update(3), computed(None, None)),
        get(1, 19, 20, None),
    ];
    check_lawful(&rt, rt.alloc(), &events);
}

// `remove_if` and `replace_if` take an even value away, and leave an odd one.
#[test]
fn each_call_by_a_test(rt: HostRuntime) {
    let (even, odd) = (Reply::Value(Some(4)), Reply::Value(None));
    let events = [
        event(0, 1, 2, Call::ReplaceEven(5), odd),
        event(1, 3, 4, Call::RemoveEven, odd),
        insert(0, 5, 6, 4, None),
        event(1, 7, 8, Call::ReplaceEven(5), even),
        event(0, 9, 10, Call::ReplaceEven(6), odd),
        event(1, 11, 12, Call::RemoveEven, odd),
        insert(0, 13, 14, 4, Some(5)),
        event(1, 15, 16, Call::RemoveEven, even),
        get(0, 17, 18, None),
    ];
    check_lawful(&rt, rt.alloc(), &events);
}

// The look-up starts first, and sees what an insertion writes that starts later and overlaps it.
#[test]
fn only_the_reverse_order(rt: HostRuntime) {
    check_lawful(
        &rt,
        rt.alloc(),
        &[get(0, 1, 4, Some(5)), insert(1, 2, 3, 5, None)],
    );
}

// The third insertion comes first, then the second, then the first.
#[test]
fn three_writes_in_reverse(rt: HostRuntime) {
    let events = [
        insert(0, 1, 10, 1, Some(2)),
        insert(1, 2, 11, 2, Some(3)),
        insert(2, 3, 12, 3, None),
        get(3, 13, 14, Some(1)),
    ];
    check_lawful(&rt, rt.alloc(), &events);
}

// Two look-ups that overlap an insertion see it and do not see it: the second before the first.
#[test]
fn old_and_new_beside_a_write(rt: HostRuntime) {
    let events = [
        insert(0, 1, 6, 5, None),
        get(1, 2, 4, Some(5)),
        get(2, 3, 5, None),
    ];
    check_lawful(&rt, rt.alloc(), &events);
}

// A removal and an insertion, between which another insertion finds no value.
#[test]
fn a_removal_between_two_insertions(rt: HostRuntime) {
    let events = [
        insert(0, 1, 2, 5, None),
        insert(1, 3, 8, 6, None),
        remove(2, 4, 7, Some(5)),
        get(0, 9, 10, Some(6)),
    ];
    check_lawful(&rt, rt.alloc(), &events);
}

// A computation removes the key while it is present, so it cannot come before the insertion, at which it would do nothing.
#[test]
fn a_computation_that_waits(rt: HostRuntime) {
    let events = [
        event(
            0,
            1,
            6,
            Call::ComputeIfPresent(None),
            computed(Some(5), None),
        ),
        insert(1, 2, 3, 5, None),
        get(1, 4, 5, Some(5)),
        get(1, 7, 8, None),
    ];
    check_lawful(&rt, rt.alloc(), &events);
}

// One call overlaps 200 calls of another thread, and takes effect after the last.
#[test]
fn one_call_beside_many(rt: HostRuntime) -> Result<(), std::alloc::AllocError> {
    let mut events = Vec::new(rt.alloc());
    events.push(remove(0, 0, 1000, Some(199)))?;
    let mut old = None;
    for value in 0..200u64 {
        events.push(insert(1, 2 * value + 1, 2 * value + 2, value, old))?;
        old = Some(value);
    }
    events.push(get(1, 1001, 1002, None))?;
    check_lawful(&rt, rt.alloc(), &events);
    Ok(())
}
