//! What threads do with a shared map.

use flurry_base::hash::KeyHasher;
use flurry_shared::HashMap;
use std::alloc::Allocator;
use std::sync::Wait;
use std::sync::atomic::{AtomicU64, Ordering};

// Inserts the keys from `from` to `to`, without `to`, each with itself as its value. Returns for how many of them memory could not be
// allocated.
pub(super) fn insert_all<S: KeyHasher<u64>, A: Allocator + Copy, R: Wait>(
    rt: &R,
    map: &HashMap<u64, u64, S, A>,
    from: u64,
    to: u64,
) -> u64 {
    let mut refused = 0u64;
    for key in from..to {
        if map.insert(rt, key, key).is_err() {
            refused = refused.saturating_add(1);
        }
    }
    refused
}

// Returns how many of the keys from `from` to `to` have themselves as values.
pub(super) fn count_own<S: KeyHasher<u64>, A: Allocator + Copy, R: Wait>(
    rt: &R,
    map: &HashMap<u64, u64, S, A>,
    from: u64,
    to: u64,
) -> u64 {
    let mut own = 0u64;
    for key in from..to {
        if let Ok(Some(value)) = map.get(rt, &key) {
            if *value == key {
                own = own.saturating_add(1);
            }
        }
    }
    own
}

// Looks `times` times for the keys below `below`, in their order, and counts how often one was missed.
pub(super) fn count_missed<S: KeyHasher<u64>, A: Allocator + Copy, R: Wait>(
    rt: &R,
    map: &HashMap<u64, u64, S, A>,
    below: u64,
    times: u32,
    missed: &AtomicU64,
) {
    for turn in 0..times {
        let key = u64::from(turn) % below.max(1);
        if !map.contains_key(rt, &key) {
            missed.fetch_add(1, Ordering::SeqCst);
        }
    }
}

// Removes the even keys below `below`, and returns how many were present with themselves as values.
pub(super) fn remove_even<S: KeyHasher<u64>, A: Allocator + Copy, R: Wait>(
    rt: &R,
    map: &HashMap<u64, u64, S, A>,
    below: u64,
) -> u64 {
    let mut removed = 0u64;
    for half in 0..below.div_ceil(2) {
        let key = half.saturating_mul(2);
        if let Some(value) = map.remove(rt, &key) {
            if *value == key {
                removed = removed.saturating_add(1);
            }
        }
    }
    removed
}
