//! Many keys.

use super::{assert_same, assert_same_at};
use flurry_base::hash::{DefaultHashBuilder, KeyHasher, MaxHashBuilder, ZeroHashBuilder};
use flurry_seq::SeqMap;
use std::process::Abort;

fn row_08_with<S: KeyHasher<i32> + Drop>(rt: &(impl Abort + AllocGlobal), hasher: S) {
    let mut map = SeqMap::with_hasher(rt.alloc(), hasher);
    for key in 0..1000i32 {
        let old = map.insert(key, key).expect(rt, "memory");
        assert_same_at(rt, key, old.is_none(), true);
    }
    assert_same(rt, map.len(), 1000);
    for key in 0..1000i32 {
        assert_same_at(rt, key, map.contains_key(&key), true);
    }
    for key in [-1, 1000, i32::MIN, i32::MAX] {
        assert_same_at(rt, key, map.contains_key(&key), false);
    }
}

// A thousand signed keys, with different hashes and with one hash for all.
#[test]
fn row_08(rt: HostRuntime) {
    let rt = &rt;
    row_08_with(rt, DefaultHashBuilder::default());
    row_08_with(rt, ZeroHashBuilder);
    row_08_with(rt, MaxHashBuilder)
}

const KEYS: u64 = 50_000;

// Inserts all keys, and returns how many of them were new.
fn insert_all(rt: &impl Abort, map: &mut SeqMap<u64, u64>) -> u64 {
    let mut new = 0u64;
    for key in 0..KEYS {
        if map.insert(key, key).expect(rt, "memory").is_none() {
            new = new.saturating_add(1);
        }
    }
    new
}

// Removes every second key, from the last but one down, and returns how many were present.
fn remove_half(map: &mut SeqMap<u64, u64>) -> u64 {
    let mut removed = 0u64;
    for half in 1..=KEYS / 2 {
        if map.remove(&(KEYS - 2 * half)).is_some() {
            removed = removed.saturating_add(1);
        }
    }
    removed
}

// Returns how many pairs, keys and values the iterators pass.
fn counts(map: &SeqMap<u64, u64>) -> (usize, usize, usize) {
    (map.iter().count(), map.keys().count(), map.values().count())
}

// Fifty thousand keys, half of which are removed and inserted again.
#[test]
fn row_09(rt: HostRuntime) {
    let rt = &rt;
    let mut map = SeqMap::new(rt.alloc());
    assert_same(rt, insert_all(rt, &mut map), 50_000);
    assert_same(rt, (map.capacity(), map.len()), (131_072, 50_000));
    assert_same(rt, insert_all(rt, &mut map), 0);
    assert_same(rt, remove_half(&mut map), 25_000);
    assert_same(rt, insert_all(rt, &mut map), 25_000);
    assert_same(rt, counts(&map), (50_000, 50_000, 50_000));
}
