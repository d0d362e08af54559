//! Calls that go over all pairs and change none: `for_each`, `any` and `fold`, and the `Debug` forms.

use super::{assert_same, numbers};
use flurry_base::hash::LowHashBuilder;
use flurry_shared::HashMap;
use flurry_shared_set::HashSet;
use std::alloc::{Allocator, Global};
use std::fmt::Debug;
use std::process::Abort;
use std::sync::Wait;

// The number of keys that are counted.
const STANDING: u64 = 500;

// Returns how many of the counted keys `fold` gives, and how many times `for_each` gives one of them.
fn standing<A: Allocator + Copy, R: Wait>(
    rt: &R,
    map: &HashMap<u64, u64, LowHashBuilder, A>,
) -> (u64, u64) {
    let folded = map.fold(rt, 0, |count: u64, key: &u64, _value: &u64| -> u64 {
        count.saturating_add(u64::from(*key < STANDING))
    });
    let mut calls = 0u64;
    let ended = map.for_each(rt, |key: &u64, _value: &u64| {
        calls = calls.saturating_add(u64::from(*key < STANDING));
    });
    (folded.unwrap_or(0), if ended.is_ok() { calls } else { 0 })
}

// Returns the `Debug` form of a value.
fn debug_of<T: Debug>(rt: &impl Abort, alloc: Global, value: &T) -> String {
    format!(in alloc; "{value:?}").expect(rt, "memory for a text")
}

#[test]
fn for_each_calls_once_at_each_pair(rt: HostRuntime) {
    let rt = &rt;
    let map = numbers(rt, rt.alloc(), 50);
    let (mut calls, mut sum) = (0u64, 0u64);
    let ended = map.for_each(rt, |_key: &u64, value: &u64| {
        calls = calls.saturating_add(1);
        sum = sum.saturating_add(*value);
    });
    assert_same(rt, (ended.is_ok(), calls, sum), (true, 50, 1225));
}

#[test]
fn fold_passes_on_what_each_call_returns(rt: HostRuntime) {
    let rt = &rt;
    let map = numbers(rt, rt.alloc(), 50);
    let greatest = map.fold(rt, 0, |seen: u64, key: &u64, _value: &u64| -> u64 {
        seen.max(*key)
    });
    assert_same(rt, greatest.ok(), Some(49));
}

#[test]
fn any_looks_for_a_pair(rt: HostRuntime) {
    let rt = &rt;
    let map = numbers(rt, rt.alloc(), 50);
    for (wanted, found) in [(0, true), (49, true), (50, false)] {
        let seen = map.any(rt, |key: &u64, _value: &u64| -> bool { *key == wanted });
        assert_same(rt, (wanted, seen.ok()), (wanted, Some(found)));
    }
}

#[test]
fn any_calls_no_further_than_it_needs(rt: HostRuntime) {
    let rt = &rt;
    let map = numbers(rt, rt.alloc(), 50);
    let mut calls = 0u64;
    let found = map.any(rt, |_key: &u64, _value: &u64| -> bool {
        calls = calls.saturating_add(1);
        calls == 3
    });
    assert_same(rt, (found.ok(), calls), (Some(true), 3));
}

#[test]
fn a_map_without_a_table_has_nothing_to_visit(rt: HostRuntime) {
    let rt = &rt;
    let map = numbers(rt, rt.alloc(), 0);
    assert_same(rt, standing(rt, &map), (0, 0));
    let found = map.any(rt, |_key: &u64, _value: &u64| -> bool { true });
    assert_same(rt, found.ok(), Some(false));
}

#[test]
fn each_key_is_visited_once(rt: HostRuntime) {
    let rt = &rt;
    let map = numbers(rt, rt.alloc(), 700);
    assert_same(rt, standing(rt, &map), (STANDING, STANDING));
}

#[test]
fn any_looks_through_two_thousand_pairs(rt: HostRuntime) {
    let rt = &rt;
    let map = numbers(rt, rt.alloc(), 2000);
    let seen = map.any(rt, |key: &u64, _value: &u64| -> bool { *key == 2000 });
    assert_same(rt, seen.ok(), Some(false));
}

#[test]
fn views_print_how_many(rt: HostRuntime) {
    let rt = &rt;
    let map = numbers(rt, rt.alloc(), 13);
    let text = debug_of(rt, rt.alloc(), &map.pin(rt));
    assert_same(rt, text.as_str(), "HashMapRef { len: 13, .. }");
    let text = debug_of(rt, rt.alloc(), &map);
    assert_same(rt, text.as_str(), "HashMap { .. }");
}

// A struct that has a map.
#[derive(Debug, Drop)]
struct Registry {
    sessions: HashMap<u64, u64>,
    limit: u64,
}

#[test]
fn a_struct_with_a_map_derives_debug(rt: HostRuntime) {
    let registry = Registry {
        sessions: HashMap::new(rt.alloc()),
        limit: 7,
    };
    let text = debug_of(&rt, rt.alloc(), &registry);
    let wanted = "Registry { sessions: HashMap { .. }, limit: 7 }";
    assert_same(&rt, text.as_str(), wanted);
}

#[test]
fn views_of_sets_print_how_many(rt: HostRuntime) {
    let rt = &rt;
    let set: HashSet<u64> = HashSet::new(rt.alloc());
    assert_same(rt, set.insert(rt, 5).ok(), Some(true));
    let text = debug_of(rt, rt.alloc(), &set.pin(rt));
    assert_same(rt, text.as_str(), "HashSetRef { len: 1, .. }");
    let text = debug_of(rt, rt.alloc(), &set);
    assert_same(rt, text.as_str(), "HashSet { .. }");
}
