//! Threads that insert the same elements into a set, and that remove them.

use super::assert_same;
use flurry_shared_set::HashSet;
use std::process::Abort;
use std::sync::Wait;
use std::thread;
use std::thread::Threads;

// What the threads share.
#[derive(Drop)]
struct Shared {
    set: HashSet<u64>,
}

// Inserts the numbers below 64. Returns how many were new.
fn insert_all<R: Abort + Wait>(rt: &R, set: &HashSet<u64>) -> u64 {
    let mut new = 0u64;
    for number in 0..64u64 {
        if set.insert(rt, number).expect(rt, "memory") {
            new = new.saturating_add(1);
        }
    }
    new
}

// Removes the numbers below 64. Returns how many were present.
fn remove_all<R: Wait>(rt: &R, set: &HashSet<u64>) -> u64 {
    let mut removed = 0u64;
    for number in 0..64u64 {
        if set.remove(rt, &number) {
            removed = removed.saturating_add(1);
        }
    }
    removed
}

// Returns how many of the numbers below 64 are contained, and how many are returned as themselves.
fn count_found<R: Abort + Wait>(rt: &R, set: &HashSet<u64>) -> (u64, u64) {
    let (mut contained, mut own) = (0u64, 0u64);
    for number in 0..64u64 {
        if set.contains(rt, &number) {
            contained = contained.saturating_add(1);
        }
        if set
            .get(rt, &number)
            .expect(rt, "memory")
            .is_some_and(|it| *it == number)
        {
            own = own.saturating_add(1);
        }
    }
    (contained, own)
}

// Returns how many elements were new in each of two threads.
fn insert_in_threads<R: Abort + Threads + Wait + Sync>(rt: &R, shared: &Shared) -> (u64, u64) {
    thread::join(
        rt,
        move || insert_all(rt, &shared.set),
        move || insert_all(rt, &shared.set),
    )
}

// Returns how many elements each of two threads removed.
fn remove_in_threads<R: Threads + Wait + Sync>(rt: &R, shared: &Shared) -> (u64, u64) {
    thread::join(
        rt,
        move || remove_all(rt, &shared.set),
        move || remove_all(rt, &shared.set),
    )
}

// Each element is new once, and is removed once.
#[test]
fn two_threads_insert_and_remove_the_same_elements(rt: HostRuntime) {
    let rt = &rt;
    let shared = &Shared {
        set: HashSet::new(rt.alloc()),
    };
    let set = &shared.set;
    let new = insert_in_threads(rt, shared);
    assert_same(rt, (new.0.saturating_add(new.1), set.len(rt)), (64, 64));
    assert_same(rt, count_found(rt, set), (64, 64));
    let removed = remove_in_threads(rt, shared);
    assert_same(
        rt,
        (removed.0.saturating_add(removed.1), set.len(rt)),
        (64, 0),
    );
    assert_same(rt, count_found(rt, set), (0, 0));
}
