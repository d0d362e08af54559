//! Worked rows, in one thread.

use super::{assert_same, insert, number_at, taken};
use flurry_base::hash::{KeyHasher, MaxHashBuilder, ZeroHashBuilder};
use flurry_shared::HashMap;
use flurry_shared::iter::{Iter, Keys, Values};
use std::alloc::AllocError;
use std::process::Abort;
use std::sync::Wait;

type Words = HashMap<&'static str, u64>;

fn takes_a_new_value<R: Abort + Wait>(rt: &R, map: &Words) {
    assert_same(rt, insert(rt, map, "foo", 0), None);
    assert_same(rt, insert(rt, map, "foo", 1), Some(0));
    assert_same(rt, number_at(rt, map, "foo"), Some(1));
    assert_same(rt, map.len(rt), 1);
}

// A present key takes the new value, and the old value is returned.
#[test]
fn row_01(rt: HostRuntime) {
    takes_a_new_value(&rt, &HashMap::new(rt.alloc()))
}

fn has_no_key<R: Abort + Wait>(rt: &R, map: &Words) {
    assert_same(rt, number_at(rt, map, "foo"), None);
    assert_same(rt, taken(map.remove(rt, &"foo")), None);
}

// A new map has no key.
#[test]
fn row_02(rt: HostRuntime) {
    has_no_key(&rt, &HashMap::new(rt.alloc()))
}

// Inserts the keys below a thousand, each of which is new.
fn insert_a_thousand<S: KeyHasher<i32>, R: Abort + Wait>(rt: &R, map: &HashMap<i32, i32, S>) {
    for key in 0..1000i32 {
        assert_same(
            rt,
            (key, map.insert(rt, key, key).expect(rt, "memory").is_none()),
            (key, true),
        );
    }
    assert_same(rt, map.len(rt), 1000);
}

// Asserts that these keys are present, and no others.
fn has_a_thousand<S: KeyHasher<i32>, R: Abort + Wait>(rt: &R, map: &HashMap<i32, i32, S>) {
    for key in 0..1000i32 {
        assert_same(rt, (key, map.contains_key(rt, &key)), (key, true));
    }
    assert_same(rt, map.contains_key(rt, &-1), false);
    assert_same(rt, map.contains_key(rt, &1000), false);
    assert_same(rt, map.contains_key(rt, &i32::MIN), false);
    assert_same(rt, map.contains_key(rt, &i32::MAX), false);
}

fn row_08_with<S: KeyHasher<i32>, R: Abort + Wait>(rt: &R, map: &HashMap<i32, i32, S>) {
    insert_a_thousand(rt, map);
    has_a_thousand(rt, map);
}

// A thousand signed keys, with different hashes and with one hash for all.
#[test]
fn row_08(rt: HostRuntime) {
    let rt = &rt;
    row_08_with(rt, &HashMap::new(rt.alloc()));
    row_08_with(rt, &HashMap::with_hasher(rt.alloc(), ZeroHashBuilder));
    row_08_with(rt, &HashMap::with_hasher(rt.alloc(), MaxHashBuilder))
}

const KEYS: u64 = 50_000;

// Inserts all keys, and returns how many of them were new.
fn insert_all<R: Abort + Wait>(rt: &R, map: &HashMap<u64, u64>) -> u64 {
    let mut new = 0u64;
    for key in 0..KEYS {
        if insert(rt, map, key, key).is_none() {
            new = new.saturating_add(1);
        }
    }
    new
}

// Removes every second key, from the last but one down, and returns how many were present.
fn remove_half<R: Wait>(rt: &R, map: &HashMap<u64, u64>) -> u64 {
    let mut removed = 0u64;
    for half in 1..=KEYS / 2 {
        if map.remove(rt, &(KEYS - 2 * half)).is_some() {
            removed = removed.saturating_add(1);
        }
    }
    removed
}

// Returns whether an iterator gave another item, which is dropped.
fn is_given<T: Drop>(rt: &impl Abort, item: Result<Option<T>, AllocError>) -> bool {
    item.expect(rt, "memory").is_some()
}

// How many pairs an iterator has left. It borrows it, since each way out of a body that owns it has a proof of its drop.
fn count_pairs<R: Abort + Wait>(rt: &R, pairs: &mut Iter<'_, R, u64, u64>) -> u64 {
    let mut count = 0u64;
    for _ in 0..=KEYS {
        if !is_given(rt, pairs.next()) {
            break;
        }
        count = count.saturating_add(1);
    }
    count
}

// How many keys an iterator has left.
fn count_keys<R: Abort + Wait>(rt: &R, keys: &mut Keys<'_, R, u64, u64>) -> u64 {
    let mut count = 0u64;
    for _ in 0..=KEYS {
        if !is_given(rt, keys.next()) {
            break;
        }
        count = count.saturating_add(1);
    }
    count
}

// How many values an iterator has left.
fn count_values<R: Abort + Wait>(rt: &R, values: &mut Values<'_, R, u64, u64>) -> u64 {
    let mut count = 0u64;
    for _ in 0..=KEYS {
        if !is_given(rt, values.next()) {
            break;
        }
        count = count.saturating_add(1);
    }
    count
}

// How many pairs, keys and values the iterators of a map give.
fn counts<R: Abort + Wait>(rt: &R, map: &HashMap<u64, u64>) -> (u64, u64, u64) {
    let pairs = count_pairs(rt, &mut map.iter(rt));
    let keys = count_keys(rt, &mut map.keys(rt));
    let values = count_values(rt, &mut map.values(rt));
    (pairs, keys, values)
}

fn halves_and_fills<R: Abort + Wait>(rt: &R, map: &HashMap<u64, u64>) {
    assert_same(rt, insert_all(rt, map), 50_000);
    assert_same(rt, insert_all(rt, map), 0);
    assert_same(rt, remove_half(rt, map), 25_000);
    assert_same(rt, insert_all(rt, map), 25_000);
    assert_same(rt, map.len(rt), 50_000);
    assert_same(rt, counts(rt, map), (50_000, 50_000, 50_000));
}

// Fifty thousand keys, half of which are removed and inserted again.
#[test]
fn row_09(rt: HostRuntime) {
    halves_and_fills(&rt, &HashMap::new(rt.alloc()))
}
