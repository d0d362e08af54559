//! What is left of unlawful histories.

use super::{event, get, insert, remove};
use std::alloc::Global;
use std::process::Abort;
use stress_judge::calls::{Call, Event, Reply};
use stress_judge::judging::judge;
use stress_judge::shrinking::{Fault, shrink, writers};

// What is left of an unlawful history.
fn shrunk(rt: &impl Abort, alloc: Global, events: &[Event]) -> Fault {
    let judged = judge(alloc, None, events).expect(rt, "memory for the orders");
    shrink(alloc, events, judged).expect(rt, "memory for the calls")
}

// Checks that these calls are left, and the value before them.
fn check_left(rt: &impl Abort, fault: &Fault, first: Option<u64>, left: &[Event]) {
    let is_left = fault.first == first && fault.events.as_slice() == left;
    assert!(rt; is_left, "other calls are left");
}

// Checks that these are the calls that wrote the values which the fault names.
fn check_writers(
    rt: &impl Abort,
    alloc: Global,
    events: &[Event],
    fault: &Fault,
    wanted: &[Event],
) {
    let wrote = writers(alloc, events, fault).expect(rt, "memory for the list");
    assert!(rt; wrote.as_slice() == wanted, "other calls wrote the values");
}

// The stale read alone is left of seven calls, and the value that it should have found. The calls that wrote either value are told beside.
#[test]
fn a_stale_read_alone(rt: HostRuntime) {
    let rt = &rt;
    let stale = get(2, 9, 12, Some(5));
    let events = &[
        insert(0, 1, 2, 5, None),
        get(1, 3, 4, Some(5)),
        insert(1, 5, 6, 6, Some(5)),
        get(0, 7, 8, Some(6)),
        stale,
        get(1, 10, 11, Some(6)),
        remove(0, 13, 14, Some(6)),
    ];
    let fault = shrunk(rt, rt.alloc(), events);
    check_left(rt, &fault, Some(6), &[stale]);
    assert!(rt; fault.until == 12);
    let both = [insert(0, 1, 2, 5, None), insert(1, 5, 6, 6, Some(5))];
    check_writers(rt, rt.alloc(), events, &fault, &both);
}

// Two insertions overlap and both find no value. When the first ends, no order has the second before it; so the second alone is left.
#[test]
fn the_second_of_two_first_insertions(rt: HostRuntime) {
    let rt = &rt;
    let one = insert(0, 5, 8, 6, None);
    let other = insert(1, 6, 9, 7, None);
    let events = &[
        insert(0, 1, 2, 5, None),
        remove(0, 3, 4, Some(5)),
        one,
        other,
        event(2, 7, 10, Call::ContainsKey, Reply::Presence(true)),
    ];
    let fault = shrunk(rt, rt.alloc(), events);
    check_left(rt, &fault, Some(6), &[other]);
    check_writers(rt, rt.alloc(), events, &fault, &[one]);
}
