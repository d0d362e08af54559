//! Histories on which there is no verdict.

use super::{check_lawful, get, insert, remove, verdict};
use std::alloc::{AllocError, Global};
use std::process::Abort;
use stress_judge::calls::Event;
use stress_judge::judging::Verdict;

// Checks that there is no verdict on the calls.
fn check_not_judged(rt: &impl Abort, alloc: Global, events: &[Event]) {
    let is_not_judged = verdict(rt, alloc, events) == Verdict::NotJudged;
    assert!(rt; is_not_judged, "there is a verdict");
}

// A thread makes one call after another.
#[test]
fn two_calls_of_one_thread(rt: HostRuntime) {
    let events = [get(0, 1, 3, None), get(0, 2, 4, None)];
    check_not_judged(&rt, rt.alloc(), &events);
}

#[test]
fn a_thread_too_many(rt: HostRuntime) {
    check_not_judged(&rt, rt.alloc(), &[get(64, 1, 2, None)]);
    check_lawful(&rt, rt.alloc(), &[get(63, 1, 2, None)]);
}

// Fourteen insertions and fourteen removals are open at the same time, so that more sets of them are possible than the judge looks at.
#[test]
fn too_many_orders(rt: HostRuntime) -> Result<(), AllocError> {
    let mut events = Vec::new(rt.alloc());
    for thread in 0..14u64 {
        events.push(insert(thread, thread, 100 + thread, thread, None))?;
        events.push(remove(20 + thread, 20 + thread, 200 + thread, Some(thread)))?;
    }
    events.push(get(50, 50, 60, Some(1000)))?;
    check_not_judged(&rt, rt.alloc(), &events);
    Ok(())
}
