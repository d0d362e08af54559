//! Walks, and calls over many pairs, while other threads work.

use super::{assert_same, insert_all, numbers, read_all};
use flurry_base::hash::{KeyHasher, ZeroHashBuilder};
use flurry_shared::HashMap;
use flurry_shared::iter::Keys;
use std::alloc::{AllocError, Allocator};
use std::sync::Wait;
use std::sync::atomic::{AtomicU64, Ordering};
use std::thread;
use std::thread::Threads;

// The number of keys that are present before the threads start.
const STANDING: usize = 1000;

// The first key of the second thread that inserts.
const SECOND: u64 = 11_000;

// The number of keys that are counted.
const COUNTED: usize = 21_000;

// The work of one thread.
#[derive(Clone, Copy)]
enum Work {
    // Inserts the keys from the first number to the second, without the second, each with itself as its value.
    Insert(u64, u64),
    // Removes the keys from the first number to the second, without the second.
    Remove(u64, u64),
    // Looks up the keys from the first number to the second, without the second.
    Look(u64, u64),
    // Walks this number of times, and fails if a walk does not give each of the keys once that were inserted before it began, or gives another
    // key twice.
    Walk(u32),
    // Visits all pairs this number of times, and fails if a visit does not count each of the keys once that the first inserting thread, or
    // nobody, inserted before it began.
    Visit(u32),
    // Keeps the even keys.
    KeepEven,
}

// Does the work of one thread, and counts what fails.
fn do_work<S: KeyHasher<u64>, A: Allocator + Copy, R: Wait>(
    rt: &R,
    map: &HashMap<u64, u64, S, A>,
    work: Work,
    failures: &AtomicU64,
) {
    let failed = match work {
        Work::Insert(from, to) => insert_all(rt, map, from, to),
        Work::Remove(from, to) => remove_all(rt, map, from, to),
        Work::Look(from, to) => look_all(rt, map, from, to),
        Work::Walk(times) => walk_often(rt, map, times),
        Work::Visit(times) => visit_often(rt, map, times),
        Work::KeepEven => u64::from(map.retain(rt, |key, _| *key % 2 == 0).is_err()),
    };
    failures.fetch_add(failed, Ordering::SeqCst);
}

// Removes keys, and returns how many had a value other than themselves.
fn remove_all<S: KeyHasher<u64>, A: Allocator + Copy, R: Wait>(
    rt: &R,
    map: &HashMap<u64, u64, S, A>,
    from: u64,
    to: u64,
) -> u64 {
    let mut others = 0u64;
    for key in from..to {
        if let Some(value) = map.remove(rt, &key) {
            others = others.saturating_add(u64::from(*value != key));
        }
    }
    others
}

// Looks keys up, and returns how many had a value other than themselves.
fn look_all<S: KeyHasher<u64>, A: Allocator + Copy, R: Wait>(
    rt: &R,
    map: &HashMap<u64, u64, S, A>,
    from: u64,
    to: u64,
) -> u64 {
    let mut others = 0u64;
    for key in from..to {
        match map.get(rt, &key) {
            Ok(Some(value)) => others = others.saturating_add(u64::from(*value != key)),
            Ok(None) => {}
            Err(_) => others = others.saturating_add(1),
        }
    }
    others
}

// Returns how far the keys from `from` on have come, where a thread inserts them in ascending order and none is removed: all below the key
// that is returned were present.
fn reached<S: KeyHasher<u64>, A: Allocator + Copy, R: Wait>(
    rt: &R,
    map: &HashMap<u64, u64, S, A>,
    from: u64,
    to: u64,
) -> u64 {
    let mut present = from;
    let mut absent = to;
    for _ in 0..64 {
        if absent <= present {
            break;
        }
        let middle = present.saturating_add(absent.saturating_sub(present) / 2);
        if map.contains_key(rt, &middle) {
            present = middle.saturating_add(1);
        } else {
            absent = middle;
        }
    }
    present
}

// Walks `times` times, and returns how many keys were given otherwise than `walk_once` says, by what was inserted when each walk began.
fn walk_often<S: KeyHasher<u64>, A: Allocator + Copy, R: Wait>(
    rt: &R,
    map: &HashMap<u64, u64, S, A>,
    times: u32,
) -> u64 {
    let mut failed = 0u64;
    for _ in 0..times {
        let first = reached(rt, map, STANDING as u64, SECOND);
        let second = reached(rt, map, SECOND, COUNTED as u64);
        failed = failed.saturating_add(walk_once(rt, map, first, second));
    }
    failed
}

// Visits all pairs `times` times, by one call after another, and returns how many of the keys that were there before were counted too often or
// not at all.
fn visit_often<S: KeyHasher<u64>, A: Allocator + Copy, R: Wait>(
    rt: &R,
    map: &HashMap<u64, u64, S, A>,
    times: u32,
) -> u64 {
    let mut failed = 0u64;
    for time in 0..times {
        let end = reached(rt, map, STANDING as u64, SECOND);
        let counted = match time % 3 {
            0 => count_by_fold(rt, map, end),
            1 => count_by_for_each(rt, map, end),
            _ => count_by_any(rt, map, end),
        };
        failed = failed.saturating_add(counted.unwrap_or(0).abs_diff(end));
    }
    failed
}

// Counts the keys below `end`.
fn count_by_fold<S: KeyHasher<u64>, A: Allocator + Copy, R: Wait>(
    rt: &R,
    map: &HashMap<u64, u64, S, A>,
    end: u64,
) -> Result<u64, AllocError> {
    map.fold(rt, 0, |count: u64, key: &u64, _value: &u64| -> u64 {
        count.saturating_add(u64::from(*key < end))
    })
}

fn count_by_for_each<S: KeyHasher<u64>, A: Allocator + Copy, R: Wait>(
    rt: &R,
    map: &HashMap<u64, u64, S, A>,
    end: u64,
) -> Result<u64, AllocError> {
    let mut count = 0u64;
    map.for_each(rt, |key: &u64, _value: &u64| {
        count = count.saturating_add(u64::from(*key < end));
    })?;
    Ok(count)
}

// The test passes at no pair, and so is called at each.
fn count_by_any<S: KeyHasher<u64>, A: Allocator + Copy, R: Wait>(
    rt: &R,
    map: &HashMap<u64, u64, S, A>,
    end: u64,
) -> Result<u64, AllocError> {
    let mut count = 0u64;
    map.any(rt, |key: &u64, _value: &u64| -> bool {
        count = count.saturating_add(u64::from(*key < end));
        false
    })?;
    Ok(count)
}

// Returns how many keys one walk does not give once of those below `first`, and of those from `SECOND` on that are below `second`, and how
// many other keys it gives more than once.
fn walk_once<S: KeyHasher<u64>, A: Allocator + Copy, R: Wait>(
    rt: &R,
    map: &HashMap<u64, u64, S, A>,
    first: u64,
    second: u64,
) -> u64 {
    let mut given = [0u8; COUNTED];
    let mut keys = map.keys(rt);
    count_given(&mut keys, &mut given);
    drop(keys);
    let mut failed = 0u64;
    for (key, times) in given.iter().enumerate() {
        let key = key as u64;
        let stood = key < first || SECOND <= key && key < second;
        if *times > 1 || stood && *times == 0 {
            failed = failed.saturating_add(1);
        }
    }
    failed
}

// Counts how often a walk gives each key.
fn count_given<A: Allocator + Copy, R: Wait>(
    keys: &mut Keys<'_, R, u64, u64, A>,
    given: &mut [u8; COUNTED],
) {
    for _ in 0..super::MAX_READ {
        let Ok(Some(key)) = keys.next() else {
            break;
        };
        if let Some(times) = given.get_mut(*key as usize) {
            *times = times.saturating_add(1);
        }
    }
}

// Does each of `works` in a thread of its own, and returns how much failed.
fn work_in_threads<
    S: KeyHasher<u64> + Sync,
    A: Allocator + Copy + Send + Sync,
    R: Threads + Wait + Sync,
>(rt: &R, map: &HashMap<u64, u64, S, A>, works: &[Work]) -> u64 {
    let failures = AtomicU64::new(0);
    let failed = &failures;
    thread::scope(thread::scope_env(), rt, |scope| {
        for work in works {
            let work = *work;
            if scope.spawn(move || do_work(rt, map, work, failed)).is_err() {
                do_work(rt, map, work, failed);
            }
        }
    });
    failures.load(Ordering::SeqCst)
}

// Each walk and each visit gives each key once that was present before it started, also one that was inserted beside an earlier walk, while
// the table is doubled several times. No walk gives a key twice.
#[test]
fn walks_beside_insertions(rt: HostRuntime) {
    let rt = &rt;
    let map = &numbers(rt, rt.alloc(), STANDING as u64).with_processors(4);
    let works = [
        Work::Insert(1000, SECOND),
        Work::Insert(SECOND, 21_000),
        Work::Walk(2),
        Work::Walk(2),
        Work::Walk(2),
        Work::Visit(3),
    ];

    assert_same(rt, work_in_threads(rt, map, &works), 0);

    assert_same(rt, map.len(rt), 21_000);
    assert_same(rt, walk_once(rt, map, SECOND, 21_000), 0);
}

// After all threads have ended, the count is that of the pairs that a walk gives.
#[test]
fn writers_removers_and_readers_of_one_bin(rt: HostRuntime) {
    let rt = &rt;
    let map = &HashMap::with_hasher(rt.alloc(), ZeroHashBuilder);
    let works = [
        Work::Insert(0, 1000),
        Work::Remove(0, 1000),
        Work::Look(0, 1000),
        Work::Look(0, 1000),
        Work::Insert(0, 1000),
        Work::Remove(0, 1000),
        Work::Look(0, 1000),
        Work::Look(0, 1000),
        Work::Insert(0, 1000),
        Work::Remove(0, 1000),
        Work::Look(0, 1000),
        Work::Look(0, 1000),
        Work::Insert(0, 1000),
        Work::Remove(0, 1000),
        Work::Look(0, 1000),
        Work::Look(0, 1000),
    ];

    assert_same(rt, work_in_threads(rt, map, &works), 0);

    assert_same(
        rt,
        read_all(map.iter(rt)).expect(rt, "memory").0,
        map.len(rt) as u64,
    );
}

// The even keys stay, and of the earlier keys the odd ones are removed.
#[test]
fn a_retain_beside_insertions(rt: HostRuntime) {
    let rt = &rt;
    let map = &numbers(rt, rt.alloc(), STANDING as u64);
    let works = [
        Work::KeepEven,
        Work::Insert(1000, 3000),
        Work::KeepEven,
        Work::Insert(3000, 5000),
    ];

    assert_same(rt, work_in_threads(rt, map, &works), 0);

    assert_same(rt, walk_once(rt, map, STANDING as u64, SECOND), 500);
    map.retain(rt, |key, _| *key % 2 == 0).expect(rt, "memory");
    assert_same(rt, map.len(rt), 2500);
    assert_same(
        rt,
        read_all(map.iter(rt)).expect(rt, "memory"),
        (2500, 6_247_500, 6_247_500),
    );
}
