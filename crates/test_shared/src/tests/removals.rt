//! Threads that remove the same keys.

use super::{assert_same, insert};
use flurry_base::hash::KeyHasher;
use flurry_shared::HashMap;
use std::alloc::Allocator;
use std::process::Abort;
use std::sync::Wait;
use std::thread;
use std::thread::Threads;

// The number of text keys.
const KEYS: usize = 64;

// The signs of the keys. Each key is one of them.
const SIGNS: &str = "ABCDEFGHIJKLMNOPQRSTUVWXYZabcdefghijklmnopqrstuvwxyz0123456789+/";

// Removes a key, by a test that passes or by itself, and returns its value.
fn removed<K: Ord + Drop, S: KeyHasher<K>, A: Allocator + Copy, R: Wait>(
    rt: &R,
    map: &HashMap<K, u64, S, A>,
    key: &K,
    is_tested: bool,
) -> Option<u64> {
    let value = if is_tested {
        map.remove_if(rt, key, |_, _| true)
    } else {
        map.remove(rt, key)
    };
    value.map(|value| *value)
}

// Removes all keys. Returns how many it removed, and how many of these had a value other than their place in the list.
fn remove_all<K: Ord + Drop, S: KeyHasher<K>, A: Allocator + Copy, R: Wait>(
    rt: &R,
    map: &HashMap<K, u64, S, A>,
    keys: &[K],
    is_tested: bool,
) -> (u64, u64) {
    let mut taken = 0u64;
    let mut others = 0u64;
    for (place, key) in keys.iter().enumerate() {
        if let Some(value) = removed(rt, map, key, is_tested) {
            taken = taken.saturating_add(1);
            if value != place as u64 {
                others = others.saturating_add(1);
            }
        }
    }
    (taken, others)
}

// Removes all keys in each of two threads, in one of them by a test.
fn remove_in_threads<
    K: Ord + Send + Sync + Drop,
    S: KeyHasher<K> + Sync,
    A: Allocator + Copy + Send + Sync,
    R: Threads + Wait + Sync,
>(rt: &R, map: &HashMap<K, u64, S, A>, keys: &[K]) -> (u64, u64) {
    let (first, second) = thread::join(
        rt,
        || remove_all(rt, map, keys, false),
        || remove_all(rt, map, keys, true),
    );
    (
        first.0.saturating_add(second.0),
        first.1.saturating_add(second.1),
    )
}

// Returns the keys, each of one sign.
fn signs<A: Allocator>(rt: &impl Abort, alloc: A) -> Vec<&'static str, A> {
    let mut keys = Vec::new(alloc);
    for place in 0..KEYS {
        let key = SIGNS
            .get(place..place.saturating_add(1))
            .expect(rt, "there are so many signs");
        keys.push(key).expect(rt, "memory");
    }
    keys
}

// Inserts keys, each with its place in the list.
fn insert_all<K: Ord + Drop + Copy, S: KeyHasher<K>, A: Allocator + Copy, R: Abort + Wait>(
    rt: &R,
    map: &HashMap<K, u64, S, A>,
    keys: &[K],
) {
    for (place, key) in keys.iter().enumerate() {
        insert(rt, map, *key, place as u64);
    }
}

// Asserts that none of these keys is present, and no other.
fn has_none<K: Ord + Drop, S: KeyHasher<K>, A: Allocator + Copy, R: Abort + Wait>(
    rt: &R,
    map: &HashMap<K, u64, S, A>,
    keys: &[K],
) {
    for key in keys {
        assert_same(rt, map.contains_key(rt, key), false);
    }
    assert_same(rt, map.is_empty(rt), true);
}

// Inserts all keys. Two threads then remove each of them once, with its own number.
fn come_and_go<
    K: Ord + Copy + Send + Sync + Drop,
    S: KeyHasher<K> + Sync,
    R: Abort + Threads + Wait + Sync,
>(rt: &R, map: &HashMap<K, u64, S>, keys: &[K]) {
    insert_all(rt, map, keys);
    assert_same(rt, map.len(rt), 64);
    assert_same(rt, remove_in_threads(rt, map, keys), (64, 0));
    has_none(rt, map, keys);
}

// Each key is removed once, with its own number.
#[test]
fn two_threads_remove_the_same_keys(rt: HostRuntime) {
    let keys = signs(&rt, rt.alloc());
    come_and_go(&rt, &HashMap::new(rt.alloc()), &keys);
}
