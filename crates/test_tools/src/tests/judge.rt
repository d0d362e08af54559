//! The judge of `stress`, and what its tests share.

mod compared;
mod lawful;
mod limits;
mod shrunk;
mod unlawful;

use std::alloc::Global;
use std::process::Abort;
use stress_judge::calls::{Call, Event, Outcome, Reply};
use stress_judge::judging::{Verdict, judge};

// The key of all calls.
const KEY: u64 = 7;

// A call of a thread between two tickets.
fn event(thread: u64, start: u64, end: u64, call: Call, reply: Reply) -> Event {
    Event {
        key: KEY,
        thread,
        start,
        end,
        call,
        reply,
    }
}

// An insertion of a value, which finds another value or none.
fn insert(thread: u64, start: u64, end: u64, value: u64, old: Option<u64>) -> Event {
    event(thread, start, end, Call::Insert(value), Reply::Value(old))
}

// A look-up that finds this.
fn get(thread: u64, start: u64, end: u64, found: Option<u64>) -> Event {
    event(thread, start, end, Call::Get, Reply::Value(found))
}

// A removal that finds this.
fn remove(thread: u64, start: u64, end: u64, found: Option<u64>) -> Event {
    event(thread, start, end, Call::Remove, Reply::Value(found))
}

// What a `compute` or a `merge` replies whose function saw a value or none.
fn altered(seen: Option<u64>, outcome: Outcome) -> Reply {
    Reply::Altered { seen, outcome }
}

// What a `compute_if_present` or an `update` replies whose function saw a value or was not called.
fn computed(seen: Option<u64>, returned: Option<u64>) -> Reply {
    Reply::Computed { seen, returned }
}

// The verdict on the calls, of a key that is absent at first.
fn verdict(rt: &impl Abort, alloc: Global, events: &[Event]) -> Verdict {
    judge(alloc, None, events)
        .expect(rt, "memory for the orders")
        .verdict
}

// Checks that the calls have an order.
fn check_lawful(rt: &impl Abort, alloc: Global, events: &[Event]) {
    let is_lawful = verdict(rt, alloc, events) == Verdict::Lawful;
    assert!(rt; is_lawful, "the calls have an order");
}

// Checks that the calls have no order.
fn check_unlawful(rt: &impl Abort, alloc: Global, events: &[Event]) {
    let is_unlawful = verdict(rt, alloc, events) == Verdict::Unlawful;
    assert!(rt; is_unlawful, "the calls have no order");
}
