//! The parts that the locks give, and the parts that are held together.

use super::threads::is_set_in_time;
use super::workers::{count_own, insert_all, remove_even};
use super::{assert_same, insert, number_at};
use flurry_base::hash::{KeyHasher, LowHashBuilder};
use flurry_shared::HashMap;
use std::alloc::Allocator;
use std::process::Abort;
use std::sync::atomic::{AtomicBool, Ordering};
use std::sync::{Arc, Wait};
use std::thread;
use std::thread::Threads;

// Holds the bin of key 1 until another thread sets `inserted`, and returns whether it did so in time.
fn hold_bin<S: KeyHasher<u64>, A: Allocator + Copy, R: Wait>(
    rt: &R,
    map: &HashMap<u64, u64, S, A>,
    held: &AtomicBool,
    inserted: &AtomicBool,
) -> bool {
    let answer = map.compute_if_present(rt, &1, |_, _| {
        held.store(true, Ordering::SeqCst);
        Some(u64::from(is_set_in_time(inserted)))
    });
    match answer {
        Ok(Some(in_time)) => *in_time == 1,
        _ => false,
    }
}

// Waits until the bin of key 1 is held, and inserts key 2.
fn insert_beside<S: KeyHasher<u64>, A: Allocator + Copy, R: Wait>(
    rt: &R,
    map: &HashMap<u64, u64, S, A>,
    held: &AtomicBool,
    inserted: &AtomicBool,
) -> bool {
    if !is_set_in_time(held) {
        return false;
    }
    let answer = map.insert(rt, 2, 22);
    inserted.store(true, Ordering::SeqCst);
    answer.is_ok()
}

// Holds the bin of key 1 and inserts key 2, in two threads at the same time.
fn hold_and_insert<
    S: KeyHasher<u64> + Sync,
    A: Allocator + Copy + Send + Sync,
    R: Threads + Wait + Sync,
>(rt: &R, map: &HashMap<u64, u64, S, A>) -> (bool, bool) {
    let held = &AtomicBool::new(false);
    let inserted = &AtomicBool::new(false);
    thread::join(
        rt,
        || hold_bin(rt, map, held, inserted),
        || insert_beside(rt, map, held, inserted),
    )
}

// Two keys are in bins of their own. One of them takes a new value while the bin of the other is held.
fn holds_two_bins<R: Abort + Threads + Wait + Sync>(
    rt: &R,
    map: &HashMap<u64, u64, LowHashBuilder>,
) {
    insert(rt, map, 1, 11);
    insert(rt, map, 2, 12);
    assert_same(rt, hold_and_insert(rt, map), (true, true));
    assert_same(rt, number_at(rt, map, 2), Some(22));
}

// A key is inserted while another thread holds the bin of another key.
#[test]
fn two_bins_at_once(rt: HostRuntime) {
    let map = HashMap::with_capacity_and_hasher(rt.alloc(), 10, LowHashBuilder).expect(
        &rt, "memory",
    );
    holds_two_bins(&rt, &map)
}

// What one thread does with the map of `lent_parts`.
#[derive(Clone, Copy)]
enum Phase {
    Fill,
    Halve,
    LookAfter,
}

// Does what `phase` says, and returns whether everything was as it must be.
fn run_phase<S: KeyHasher<u64>, A: Allocator + Copy, R: Wait>(
    rt: &R,
    map: &HashMap<u64, u64, S, A>,
    phase: Phase,
) -> bool {
    match phase {
        Phase::Fill => insert_all(rt, map, 0, 100) == 0,
        Phase::Halve => {
            map.len(rt) == 100
                && count_own(rt, map, 0, 100) == 100
                && remove_even(rt, map, 100) == 50
        }
        Phase::LookAfter => map.len(rt) == 50 && has_odd_alone(rt, map),
    }
}

// Returns whether, of the keys below 100, the odd ones have themselves as values and the even ones are absent.
fn has_odd_alone<S: KeyHasher<u64>, A: Allocator + Copy, R: Wait>(
    rt: &R,
    map: &HashMap<u64, u64, S, A>,
) -> bool {
    for key in 0..100u64 {
        let own = match map.get(rt, &key) {
            Ok(Some(value)) => Some(*value),
            Ok(None) => None,
            Err(_) => return false,
        };
        let wanted = if key % 2 == 1 { Some(key) } else { None };
        if own != wanted {
            return false;
        }
    }
    true
}

// Does a phase in a thread of its own, and returns its result, or `None` if it was not done in time.
fn in_thread<
    S: KeyHasher<u64> + Send + Sync + Drop + 'static,
    A: Allocator + Copy + Send + Sync + 'static,
    R: Abort + Threads + Wait + Copy + Send + 'static,
>(rt: R, alloc: A, map: &Arc<HashMap<u64, u64, S, A>, A>, phase: Phase) -> Option<bool> {
    let done = &Arc::new(alloc, AtomicBool::new(false)).expect(&rt, "memory");
    let theirs = Arc::try_clone(map).expect(&rt, "memory");
    let flag = Arc::try_clone(done).expect(&rt, "memory");
    let child = thread::spawn(&rt, move || {
        let answer = run_phase(&rt, &theirs, phase);
        flag.store(true, Ordering::SeqCst);
        answer
    });
    let child = child.ok().expect(&rt, "a thread");
    if !is_set_in_time(done) {
        return None;
    }
    Some(child.join(&rt))
}

// Threads that run one after another see what earlier threads did, while the table is doubled four times.
#[test]
fn lent_parts(rt: HostRuntime) {
    let map = HashMap::with_capacity_and_hasher(rt.alloc(), 10, LowHashBuilder)
        .expect(&rt, "memory")
        .with_processors(2);
    let map = Arc::new(rt.alloc(), map).expect(&rt, "memory");
    for phase in [Phase::Fill, Phase::Halve, Phase::LookAfter] {
        assert_same(&rt, in_thread(rt, rt.alloc(), &map, phase), Some(true));
    }
}
