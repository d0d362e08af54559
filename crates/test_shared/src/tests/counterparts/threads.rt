//! Threads that work on one map.

use super::super::workers::{count_missed, count_own, insert_all};
use super::{SPREAD, assert_same};
use flurry_base::hash::KeyHasher;
use flurry_shared::HashMap;
use std::alloc::Allocator;
use std::process::Abort;
use std::sync::Wait;
use std::sync::atomic::{AtomicU64, Ordering};
use std::thread;
use std::thread::Threads;

// The work of one thread.
#[derive(Clone, Copy)]
enum Work {
    // Looks 512 times for the keys below 16.
    Look,
    // Inserts 128 keys, of which the number says which, and looks for each at once.
    InsertAndLook(u64),
    // Inserts the keys below 64, each with this value.
    Write(u64),
    // Removes the keys below 64 by computations, each of which returns `None`.
    ComputeNone,
    // Makes room, several times.
    MakeRoom,
    // Gets the keys below 1024, each 32 times.
    Get,
}

// Does the work of one thread, and counts what fails.
fn do_work<S: KeyHasher<u64>, A: Allocator + Copy, R: Wait>(
    rt: &R,
    map: &HashMap<u64, u64, S, A>,
    work: Work,
    failures: &AtomicU64,
) {
    let failed = match work {
        Work::Look => {
            count_missed(rt, map, 16, 512, failures);
            0
        }
        Work::InsertAndLook(part) => insert_and_look(rt, map, part.saturating_mul(128)),
        Work::Write(value) => write_all(rt, map, value),
        Work::ComputeNone => compute_none(rt, map),
        Work::MakeRoom => make_room(rt, map),
        Work::Get => get_often(rt, map),
    };
    failures.fetch_add(failed, Ordering::SeqCst);
}

// Inserts 128 keys. Returns how many of them were refused, or missed thereafter.
fn insert_and_look<S: KeyHasher<u64>, A: Allocator + Copy, R: Wait>(
    rt: &R,
    map: &HashMap<u64, u64, S, A>,
    from: u64,
) -> u64 {
    let mut failed = 0u64;
    for number in from..from.saturating_add(128) {
        let key = number.wrapping_mul(SPREAD);
        let is_refused = map.insert(rt, key, key).is_err();
        if is_refused || !map.contains_key(rt, &key) {
            failed = failed.saturating_add(1);
        }
    }
    failed
}

// Inserts the keys below 64. Returns how many of them were refused.
fn write_all<S: KeyHasher<u64>, A: Allocator + Copy, R: Wait>(
    rt: &R,
    map: &HashMap<u64, u64, S, A>,
    value: u64,
) -> u64 {
    let mut refused = 0u64;
    for key in 0..64u64 {
        if map.insert(rt, key, value).is_err() {
            refused = refused.saturating_add(1);
        }
    }
    refused
}

// Removes the keys below 64. Returns how many of the computations did not return `None`.
fn compute_none<S: KeyHasher<u64>, A: Allocator + Copy, R: Wait>(
    rt: &R,
    map: &HashMap<u64, u64, S, A>,
) -> u64 {
    let mut failed = 0u64;
    for key in 0..64u64 {
        let answer = map.compute_if_present(rt, &key, |_, _| None);
        if !answer.is_ok_and(|value| value.is_none()) {
            failed = failed.saturating_add(1);
        }
    }
    failed
}

// Returns how often room was refused.
fn make_room<S: KeyHasher<u64>, A: Allocator + Copy, R: Wait>(
    rt: &R,
    map: &HashMap<u64, u64, S, A>,
) -> u64 {
    let mut refused = 0u64;
    for room in [2048usize, 4096, 8192, 16_384, 32_768] {
        if map.reserve(rt, room).is_err() {
            refused = refused.saturating_add(1);
        }
    }
    refused
}

// Returns how often a key below 1024 was missed, or had another value than itself.
fn get_often<S: KeyHasher<u64>, A: Allocator + Copy, R: Wait>(
    rt: &R,
    map: &HashMap<u64, u64, S, A>,
) -> u64 {
    let mut failed = 0u64;
    for _ in 0..32u32 {
        let found = count_own(rt, map, 0, 1024);
        failed = failed.saturating_add(found.abs_diff(1024));
    }
    failed
}

// Does each of `works` in a thread of its own, and returns how much failed.
fn work_in_threads<
    S: KeyHasher<u64> + Sync,
    A: Allocator + Copy + Send + Sync,
    R: Threads + Wait + Sync,
>(rt: &R, map: &HashMap<u64, u64, S, A>, works: &[Work]) -> u64 {
    let failures = AtomicU64::new(0);
    let failed = &failures;
    thread::scope(thread::scope_env(), rt, |scope| {
        for work in works {
            let work = *work;
            if scope.spawn(move || do_work(rt, map, work, failed)).is_err() {
                do_work(rt, map, work, failed);
            }
        }
    });
    failures.load(Ordering::SeqCst)
}

// In each of 256 rounds, eight threads look for sixteen keys.
#[test]
fn eight_threads_find_sixteen_keys(rt: HostRuntime) {
    let rt = &rt;
    let map = &HashMap::new(rt.alloc());
    insert_all(rt, map, 0, 16);
    let works = [Work::Look; 8];
    for round in 0..256u32 {
        assert_same(rt, (round, work_in_threads(rt, map, &works)), (round, 0));
    }
}

// Eight threads insert 128 keys each.
fn inserts_and_finds<R: Abort + Threads + Wait + Sync>(rt: &R, map: &HashMap<u64, u64>) {
    let works = [
        Work::InsertAndLook(0),
        Work::InsertAndLook(1),
        Work::InsertAndLook(2),
        Work::InsertAndLook(3),
        Work::InsertAndLook(4),
        Work::InsertAndLook(5),
        Work::InsertAndLook(6),
        Work::InsertAndLook(7),
    ];
    assert_same(rt, work_in_threads(rt, map, &works), 0);
    assert_same(rt, map.len(rt), 1024)
}

// In each of 64 rounds, with a map of its own, each thread finds each of its keys at once.
#[test]
fn eight_threads_find_what_they_insert(rt: HostRuntime) {
    let rt = &rt;
    for _ in 0..64u32 {
        inserts_and_finds(rt, &HashMap::new(rt.alloc()).with_processors(4));
    }
}

// Returns how many of the keys below 64 have the value 0 or 1, by a look-up of the value and by one of the pair.
fn count_written<R: Abort + Wait>(rt: &R, map: &HashMap<u64, u64>) -> (u64, u64) {
    let (mut values, mut pairs) = (0u64, 0u64);
    for key in 0..64u64 {
        if map
            .get(rt, &key)
            .expect(rt, "memory")
            .is_some_and(|value| *value <= 1)
        {
            values = values.saturating_add(1);
        }
        let pair = map.get_key_value(rt, &key).expect(rt, "memory");
        if pair.is_some_and(|(own, value)| *own == key && *value <= 1) {
            pairs = pairs.saturating_add(1);
        }
    }
    (values, pairs)
}

// Each key has the value of one of the threads.
#[test]
fn two_threads_write_the_same_keys(rt: HostRuntime) {
    let rt = &rt;
    let map = &HashMap::new(rt.alloc());
    assert_same(
        rt,
        work_in_threads(rt, map, &[Work::Write(0), Work::Write(1)]),
        0,
    );
    assert_same(rt, count_written(rt, map), (64, 64));
    assert_same(rt, map.len(rt), 64);
}

// Each computation returns `None`, whichever thread removed the key.
#[test]
fn two_threads_compute_the_same_keys_away(rt: HostRuntime) {
    let rt = &rt;
    let map = &HashMap::new(rt.alloc());
    insert_all(rt, map, 0, 64);
    assert_same(rt, work_in_threads(rt, map, &[Work::ComputeNone; 2]), 0);
    assert_same(rt, (map.len(rt), count_own(rt, map, 0, 64)), (0, 0));
}

// The keys are found while the table is doubled again and again, and afterwards.
#[test]
fn a_thousand_keys_are_found_while_room_is_made(rt: HostRuntime) {
    let rt = &rt;
    let map = &HashMap::new(rt.alloc());
    insert_all(rt, map, 0, 1024);
    assert_same(
        rt,
        work_in_threads(rt, map, &[Work::MakeRoom, Work::Get]),
        0,
    );
    assert_same(rt, (map.len(rt), count_own(rt, map, 0, 1024)), (1024, 1024));
}
