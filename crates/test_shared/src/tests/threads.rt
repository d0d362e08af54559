//! Calls of several threads at the same time.

use super::workers::{count_missed, count_own, insert_all};
use super::{TURNS, assert_same};
use flurry_base::hash::{KeyHasher, LowHashBuilder, ZeroHashBuilder};
use flurry_shared::HashMap;
use std::alloc::Allocator;
use std::sync::Wait;
use std::sync::atomic::{AtomicBool, AtomicU64, Ordering};
use std::thread;
use std::thread::Threads;

// Waits for a bounded number of turns until a flag is set, and returns whether it was.
pub(super) fn is_set_in_time(flag: &AtomicBool) -> bool {
    for _ in 0..TURNS {
        if flag.load(Ordering::SeqCst) {
            return true;
        }
        thread::yield_now();
    }
    false
}

// Inserts `each` keys in each of `threads` threads. The first key of a thread is its number times `distance`.
pub(super) fn insert_in_threads<
    S: KeyHasher<u64> + Sync,
    A: Allocator + Copy + Send + Sync,
    R: Threads + Wait + Sync,
>(rt: &R, map: &HashMap<u64, u64, S, A>, threads: u64, distance: u64, each: u64) {
    thread::scope(thread::scope_env(), rt, |scope| {
        for part in 0..threads {
            let from = part.saturating_mul(distance);
            let to = from.saturating_add(each);
            if scope.spawn(move || insert_all(rt, map, from, to)).is_err() {
                insert_all(rt, map, from, to);
            }
        }
    });
}

#[test]
fn eight_threads_insert_the_same_keys(rt: HostRuntime) {
    let rt = &rt;
    let map = &HashMap::new(rt.alloc());

    insert_in_threads(rt, map, 8, 0, 1000);

    assert_same(rt, map.len(rt), 1000);
    assert_same(rt, count_own(rt, map, 0, 1000), 1000);
}

#[test]
fn four_threads_insert_keys_of_one_hash(rt: HostRuntime) {
    let rt = &rt;
    let map = &HashMap::with_hasher(rt.alloc(), ZeroHashBuilder);

    insert_in_threads(rt, map, 4, 100, 100);

    assert_same(rt, map.len(rt), 400);
    assert_same(rt, count_own(rt, map, 0, 400), 400);
}

// Inserts 64 keys, waits until the other thread has done so, and returns how many of its keys are found.
fn insert_and_read<S: KeyHasher<u64>, A: Allocator + Copy, R: Wait>(
    rt: &R,
    map: &HashMap<u64, u64, S, A>,
    own: (u64, &AtomicBool),
    other: (u64, &AtomicBool),
) -> u64 {
    insert_all(rt, map, own.0, own.0.saturating_add(64));
    own.1.store(true, Ordering::SeqCst);
    if !is_set_in_time(other.1) {
        return 0;
    }
    count_own(rt, map, other.0, other.0.saturating_add(64))
}

// Two threads insert 64 keys each. Then each thread reads the keys of the other one, and returns how many it found.
fn insert_and_read_in_threads<
    S: KeyHasher<u64> + Sync,
    A: Allocator + Copy + Send + Sync,
    R: Threads + Wait + Sync,
>(rt: &R, map: &HashMap<u64, u64, S, A>) -> (u64, u64) {
    let first = &AtomicBool::new(false);
    let second = &AtomicBool::new(false);
    thread::join(
        rt,
        || insert_and_read(rt, map, (0, first), (64, second)),
        || insert_and_read(rt, map, (64, second), (0, first)),
    )
}

#[test]
fn two_threads_read_each_other(rt: HostRuntime) {
    let rt = &rt;
    let map = HashMap::new(rt.alloc());

    let found = insert_and_read_in_threads(rt, &map);

    assert_same(rt, found, (64, 64));
    assert_same(rt, map.len(rt), 128);
}

// Makes room, and then inserts `keys` keys from 16 on.
fn grow<S: KeyHasher<u64>, A: Allocator + Copy, R: Wait>(
    rt: &R,
    map: &HashMap<u64, u64, S, A>,
    room: usize,
    keys: u64,
) {
    let _ = map.reserve(rt, room);
    insert_all(rt, map, 16, keys.saturating_add(16));
}

// Looks for the keys below 16 in eight threads, 512 times in each, while a ninth thread makes the map larger. Returns how often a key was
// missed.
fn look_while_it_grows<
    S: KeyHasher<u64> + Sync,
    A: Allocator + Copy + Send + Sync,
    R: Threads + Wait + Sync,
>(rt: &R, map: &HashMap<u64, u64, S, A>, room: usize, keys: u64) -> u64 {
    let missed = AtomicU64::new(0);
    let missed_by_all = &missed;
    thread::scope(thread::scope_env(), rt, |scope| {
        for _ in 0..8u32 {
            let looker = scope.spawn(move || count_missed(rt, map, 16, 512, missed_by_all));
            if looker.is_err() {
                count_missed(rt, map, 16, 512, missed_by_all);
            }
        }
        grow(rt, map, room, keys);
    });
    missed.load(Ordering::SeqCst)
}

#[test]
fn eight_threads_look_while_a_ninth_makes_room(rt: HostRuntime) {
    let rt = &rt;
    let map = &HashMap::with_hasher(rt.alloc(), LowHashBuilder);
    insert_all(rt, map, 0, 16);

    assert_same(rt, look_while_it_grows(rt, map, 4096, 0), 0);

    assert_same(rt, map.len(rt), 16);
    assert_same(rt, count_own(rt, map, 0, 16), 16);
}

// Look-ups that start at a table that is old by the time they look.
#[test]
fn eight_threads_look_while_a_ninth_inserts(rt: HostRuntime) {
    let rt = &rt;
    let map = &HashMap::new(rt.alloc()).with_processors(4);
    insert_all(rt, map, 0, 16);

    assert_same(rt, look_while_it_grows(rt, map, 0, 5000), 0);

    assert_same(rt, map.len(rt), 5016);
    assert_same(rt, count_own(rt, map, 0, 5016), 5016);
}

// Moves a map into a thread of its own, which counts the keys below `below` and drops the map. Returns `None` if the thread cannot be
// started.
fn count_in_thread<
    S: KeyHasher<u64> + Send + Sync + Drop,
    A: Allocator + Copy + Send + Sync,
    R: Threads + Wait + Sync,
>(rt: &R, map: HashMap<u64, u64, S, A>, below: u64) -> Option<u64> {
    thread::scope(thread::scope_env(), rt, |scope| {
        match scope.spawn(move || count_own(rt, &map, 0, below)) {
            Ok(child) => Some(child.join(rt)),
            Err(_) => None,
        }
    })
}

#[test]
fn a_thread_owns_a_map(rt: HostRuntime) {
    let rt = &rt;
    let map = HashMap::new(rt.alloc());
    insert_all(rt, &map, 0, 100);

    assert_same(rt, count_in_thread(rt, map, 200), Some(100));
}
