//! Clones of a map that grows.

use super::super::workers::count_own;
use super::{Numbers, assert_same, insert_all, numbers};
use std::process::Abort;
use std::sync::Wait;
use std::sync::atomic::{AtomicBool, Ordering};
use std::thread;
use std::thread::Threads;

// The number of keys that are present before the threads start.
const STANDING: u64 = 1000;

// The greatest number of clones.
const CLONES: u32 = 10_000;

// What the threads share.
#[derive(Drop)]
struct Shared {
    map: Numbers,
    is_over: AtomicBool,
}

// Clones the map, and returns how many of the earlier keys the clone lacks.
fn lost_by_a_clone<R: Abort + Wait>(rt: &R, map: &Numbers) -> u64 {
    let clone = map.try_clone(rt).expect(rt, "memory");
    STANDING.abs_diff(count_own(rt, &clone, 0, STANDING))
}

// Makes one clone after another until the insertions are over, and returns how many keys they lack.
fn clone_often<R: Abort + Wait>(rt: &R, map: &Numbers, is_over: &AtomicBool) -> u64 {
    let mut lost = 0u64;
    for _ in 0..CLONES {
        if is_over.load(Ordering::SeqCst) {
            break;
        }
        lost = lost.saturating_add(lost_by_a_clone(rt, map));
    }
    lost
}

// Inserts the keys up to `to`, and says that it is over. Returns how many could not be inserted.
fn insert_beside<R: Wait>(rt: &R, map: &Numbers, to: u64, is_over: &AtomicBool) -> u64 {
    let refused = insert_all(rt, map, STANDING, to);
    is_over.store(true, Ordering::SeqCst);
    refused
}

// Does both in threads of their own.
fn clone_and_insert<R: Abort + Threads + Wait + Sync>(rt: &R, shared: &Shared) -> (u64, u64) {
    thread::join(
        rt,
        move || clone_often(rt, &shared.map, &shared.is_over),
        move || insert_beside(rt, &shared.map, 30_000, &shared.is_over),
    )
}

// A clone has each key that was present all the while, though the table is doubled five times.
#[test]
fn clones_beside_insertions(rt: HostRuntime) {
    let rt = &rt;
    let shared = &Shared {
        map: numbers(rt, rt.alloc(), STANDING),
        is_over: AtomicBool::new(false),
    };
    assert_same(rt, clone_and_insert(rt, shared), (0, 0));
}
