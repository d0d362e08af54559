//! More keys that are absent than keys that are present.

use super::{SPREAD, assert_same};
use flurry_shared::HashMap;
use std::process::Abort;
use std::sync::Wait;

// The number of keys that are present, and the number of all.
const PRESENT: u64 = 50_000;

const ALL: u64 = PRESENT + 131_072;

// Inserts the keys that are to be present, and returns how many were new.
fn insert_present<R: Abort + Wait>(rt: &R, map: &HashMap<u64, u64>) -> u64 {
    let mut new = 0u64;
    for number in 0..PRESENT {
        let old = map.insert(rt, number.wrapping_mul(SPREAD), number);
        if old.expect(rt, "memory").is_none() {
            new = new.saturating_add(1);
        }
    }
    new
}

// Returns how many of the keys of the numbers from `from` to `to` have their numbers as values, and how many are contained.
fn count_found<R: Abort + Wait>(rt: &R, map: &HashMap<u64, u64>, from: u64, to: u64) -> (u64, u64) {
    let (mut own, mut contained) = (0u64, 0u64);
    for number in from..to {
        let key = number.wrapping_mul(SPREAD);
        if map
            .get(rt, &key)
            .expect(rt, "memory")
            .is_some_and(|value| *value == number)
        {
            own = own.saturating_add(1);
        }
        if map.contains_key(rt, &key) {
            contained = contained.saturating_add(1);
        }
    }
    (own, contained)
}

// Returns how many of the keys of the numbers from `from` to `to` were removed.
fn remove_all<R: Wait>(rt: &R, map: &HashMap<u64, u64>, from: u64, to: u64) -> u64 {
    let mut removed = 0u64;
    for number in from..to {
        if map.remove(rt, &number.wrapping_mul(SPREAD)).is_some() {
            removed = removed.saturating_add(1);
        }
    }
    removed
}

// No absent key is found or removed.
#[test]
fn absent_keys_beside_present_ones(rt: HostRuntime) {
    let rt = &rt;
    let map = &HashMap::new(rt.alloc());
    assert_same(
        rt,
        (insert_present(rt, map), insert_present(rt, map)),
        (PRESENT, 0),
    );
    assert_same(rt, count_found(rt, map, 0, PRESENT), (PRESENT, PRESENT));
    assert_same(rt, count_found(rt, map, PRESENT, ALL), (0, 0));
    assert_same(rt, remove_all(rt, map, PRESENT, ALL), 0);
    assert_same(rt, map.len(rt), PRESENT as usize);
}
