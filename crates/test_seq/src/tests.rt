//! Tests by topic, and what they share.

mod calls;
mod change;
mod forms;
mod growth;
mod iterators;
mod keys;
mod large;
mod memory;
mod pairs;
mod par;
mod recorded;
mod retain;
mod sets;
mod shapes;
mod sorted;
mod steps;

use metered_alloc::MeteredAlloc;
use std::alloc::{Allocator, Global};
use std::collections::VecDeque;
use std::fmt::Debug;
use std::process::Abort;
use std::sync::Arc;

// Returns the number in a value that a call returned.
fn taken<A: Allocator>(value: Option<Arc<u64, A>>) -> Option<u64> {
    value.map(|value| *value)
}

// Returns the number in a value to which a call returned a reference.
fn lent<A: Allocator>(value: Option<&Arc<u64, A>>) -> Option<u64> {
    value.map(|value| **value)
}

// Asserts that a value is the expected one. A test with many assertions calls this, because each `assert_eq!` in its own body makes its
// proof longer. The proof of the caller does not learn of the value.
fn assert_same<T: PartialEq + Debug + Drop>(rt: &impl Abort, seen: T, wanted: T) {
    assert_eq!(rt; seen, wanted);
}

// Asserts that a value is the expected one. A failure also reports `at`.
fn assert_same_at<I: PartialEq + Debug + Copy + Drop, T: PartialEq + Debug + Drop>(
    rt: &impl Abort,
    at: I,
    seen: T,
    wanted: T,
) {
    assert_eq!(rt; (at, seen), (at, wanted));
}

// Returns a queue of calls as values, in their order.
fn queue_of<T: Drop, const N: usize>(rt: &impl Abort, alloc: Global, calls: [T; N]) -> VecDeque<T> {
    VecDeque::from(Vec::from_array(alloc, calls).expect(rt, "memory"))
}

// An allocator that can be told which requests fail.
type Memory = &'static MeteredAlloc<Global>;

// Returns an allocator that can be told which requests fail.
fn metered(rt: &impl Abort, alloc: Global) -> Memory {
    MeteredAlloc::leak(alloc).expect(rt, "memory for the allocator")
}
