//! A map of one bin, empty maps, and maps of ten pairs.

use super::super::{insert, number_at, taken};
use super::assert_same;
use flurry_base::hash::{LowHashBuilder, ZeroHashBuilder};
use flurry_shared::HashMap;
use std::alloc::Global;
use std::process::Abort;
use std::sync::Wait;

// A map of three texts, in one bin.
type Words = HashMap<&'static str, u64, ZeroHashBuilder>;

// A map of numbers.
type Numbers = HashMap<u64, u64, LowHashBuilder>;

const WORDS: [&str; 3] = ["head", "middle", "tail"];

// Inserts the three texts with values from `first` on, over values that are one less, if there are any.
fn writes_each<R: Abort + Wait>(rt: &R, map: &Words, first: u64, is_new: bool) {
    let mut value = first;
    for word in WORDS {
        let old = if is_new {
            None
        } else {
            Some(value.saturating_sub(1))
        };
        assert_same(rt, insert(rt, map, word, value), old);
        value = value.saturating_add(10);
    }
}

// Asserts the values of the three texts.
fn has_each<R: Abort + Wait>(rt: &R, map: &Words, first: u64) {
    let mut value = first;
    for word in WORDS {
        assert_same(rt, number_at(rt, map, word), Some(value));
        value = value.saturating_add(10);
    }
}

// Removes the three texts: first the one in the middle, then the last.
fn takes_each<R: Abort + Wait>(rt: &R, map: &Words) {
    for (word, value) in [("middle", 11), ("tail", 21), ("head", 1)] {
        assert_same(rt, taken(map.remove(rt, &word)), Some(value));
        assert_same(rt, number_at(rt, map, word), None);
    }
    assert_same(rt, map.is_empty(rt), true);
}

// Wherever a key is in its bin, its value is found, replaced and removed.
#[test]
fn three_keys_of_one_bin(rt: HostRuntime) {
    let rt = &rt;
    let map = &HashMap::with_hasher(rt.alloc(), ZeroHashBuilder);
    writes_each(rt, map, 0, true);
    has_each(rt, map, 0);
    writes_each(rt, map, 1, false);
    has_each(rt, map, 1);
    takes_each(rt, map)
}

// Returns a map of the keys from `from` to `to`, without `to`, each with itself as its value.
fn numbers<R: Abort + Wait>(rt: &R, alloc: Global, from: u64, to: u64) -> Numbers {
    let map = HashMap::with_hasher(alloc, LowHashBuilder);
    for key in from..to {
        insert(rt, &map, key, key);
    }
    map
}

// Asserts that two maps are equal, and their views.
fn are_equal<R: Abort + Wait>(rt: &R, left: &Numbers, right: &Numbers) {
    assert_same(rt, left.equals(rt, right).expect(rt, "memory"), true);
    assert_same(rt, right.equals(rt, left).expect(rt, "memory"), true);
    let equal = left.pin(rt).equals(&right.pin(rt));
    assert_same(rt, equal.expect(rt, "memory"), true)
}

// Keeps no pair of a map.
fn keeps_none<R: Abort + Wait>(rt: &R, map: &Numbers) {
    map.retain(rt, |_, _| false).expect(rt, "memory");
    assert_same(rt, map.len(rt), 0);
    map.retain_force(rt, |_, _| false).expect(rt, "memory");
    assert_same(rt, map.len(rt), 0)
}

// An empty map is equal to another one and to its clone, and has nothing to keep.
#[test]
fn empty_maps(rt: HostRuntime) {
    let rt = &rt;
    let map = &numbers(rt, rt.alloc(), 0, 0);
    are_equal(rt, map, &numbers(rt, rt.alloc(), 0, 0));
    are_equal(rt, map, &map.try_clone(rt).expect(rt, "memory"));
    keeps_none(rt, map)
}

// Keeps the ten pairs of a map, then the values from 5 on, and then none.
fn keeps_less<R: Abort + Wait>(rt: &R, map: &Numbers, half: &Numbers) {
    map.retain(rt, |_, _| true).expect(rt, "memory");
    assert_same(rt, map.len(rt), 10);
    map.retain(rt, |_, value| *value >= 5).expect(rt, "memory");
    are_equal(rt, map, half);
    keeps_none(rt, map)
}

#[test]
fn pairs_that_a_map_keeps(rt: HostRuntime) {
    let rt = &rt;
    let half = &numbers(rt, rt.alloc(), 5, 10);
    keeps_less(rt, &numbers(rt, rt.alloc(), 0, 10), half)
}

// By `retain_force` too the values from 5 on stay.
#[test]
fn pairs_that_a_map_keeps_by_force(rt: HostRuntime) {
    let rt = &rt;
    let map = &numbers(rt, rt.alloc(), 0, 10);
    map.retain_force(rt, |_, value| *value >= 5)
        .expect(rt, "memory");
    are_equal(rt, map, &numbers(rt, rt.alloc(), 5, 10))
}
