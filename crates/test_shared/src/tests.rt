//! Tests of the shared map and of what stands over it, and what they share.

mod calls;
mod change;
mod counterparts;
mod locks;
mod memo;
mod order;
mod owned;
mod par;
mod refused;
mod removals;
mod rows;
mod set;
mod sorted;
mod sweeps;
mod texts;
mod threads;
mod workers;

use flurry_base::hash::KeyHasher;
use flurry_shared::HashMap;
use metered_alloc::MeteredAlloc;
use std::alloc::{Allocator, Global};
use std::fmt::Debug;
use std::process::Abort;
use std::sync::{Arc, Wait};

// The greatest number of turns that one thread waits for another.
const TURNS: u32 = 1_000_000;

// Asserts that a value is the expected one. A test with many assertions calls this, because each `assert_eq!` in its own body makes its
// proof longer.
fn assert_same<T: PartialEq + Debug + Drop>(rt: &impl Abort, seen: T, wanted: T) {
    assert_eq!(rt; seen, wanted);
}

// Returns the number in a value that a call returned.
fn taken<A: Allocator>(value: Option<Arc<u64, A>>) -> Option<u64> {
    value.map(|value| *value)
}

// Returns the number at a key, or `None` if the key is absent.
fn number_at<K: Ord + Drop, S: KeyHasher<K>, A: Allocator + Copy, R: Abort + Wait>(
    rt: &R,
    map: &HashMap<K, u64, S, A>,
    key: K,
) -> Option<u64> {
    taken(map.get(rt, &key).expect(rt, "memory"))
}

// Inserts a pair, and returns the number that was replaced, if the key was present.
fn insert<K: Ord + Drop, S: KeyHasher<K>, A: Allocator + Copy, R: Abort + Wait>(
    rt: &R,
    map: &HashMap<K, u64, S, A>,
    key: K,
    value: u64,
) -> Option<u64> {
    taken(map.insert(rt, key, value).expect(rt, "memory"))
}

// An allocator that can be told which requests fail.
type Memory = &'static MeteredAlloc<Global>;

// Returns an allocator that can be told which requests fail.
fn metered(rt: &impl Abort, alloc: Global) -> Memory {
    MeteredAlloc::leak(alloc).expect(rt, "memory for the allocator")
}
