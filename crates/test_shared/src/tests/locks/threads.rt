//! Threads that own locks, and threads that share them.

use super::calls::{Numbered, count_found, put_all};
use flurry_shared_locks::Locks;
use std::alloc::Allocator;
use std::sync::Wait;
use std::thread;
use std::thread::Threads;

// Inserts pairs in four threads at the same time, `each` pairs in every thread, where each thread has its own numbers.
pub(super) fn put_in_threads<
    K: Ord + Drop + Numbered + Send + Sync,
    V: Drop + Numbered + Send + Sync,
    A: Allocator + Copy + Send + Sync,
    R: Threads + Wait + Sync,
>(rt: &R, locks: &Locks<K, V, A>, each: u32) {
    thread::scope(thread::scope_env(), rt, |scope| {
        for part in 0..4u32 {
            let from = u64::from(part) * u64::from(each);
            let to = from + u64::from(each);
            if scope.spawn(move || put_all(rt, locks, from, to)).is_err() {
                put_all(rt, locks, from, to);
            }
        }
    });
}

// Moves locks into a thread of its own, which counts the pairs of the numbers below `below` and drops the locks. Returns `None` if the
// thread cannot be started.
pub(super) fn count_in_thread<
    K: Ord + Drop + Numbered + Send + Sync,
    V: Drop + Send + Sync,
    A: Allocator + Copy + Send + Sync,
    R: Threads + Wait + Sync,
>(rt: &R, locks: Locks<K, V, A>, below: u64) -> Option<usize> {
    thread::scope(thread::scope_env(), rt, |scope| {
        match scope.spawn(move || count_found(rt, &locks, 0, below)) {
            Ok(child) => Some(child.join(rt)),
            Err(_) => None,
        }
    })
}
