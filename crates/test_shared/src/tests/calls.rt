//! Each call once, in one thread.
//!
//! A test creates a map and passes it to the calls by reference, because a body that owns a map has a proof of its drop at each way out.

use super::{assert_same, insert, number_at, taken};
use flurry_base::TryInsertError;
use flurry_base::hash::{DefaultHashBuilder, LowHashBuilder};
use flurry_shared::HashMap;
use std::process::Abort;
use std::sync::{Arc, Wait};

type Numbers = HashMap<u64, u64, LowHashBuilder>;

// Returns the map with the value 1 at key 10 and the value 2 at key 20.
fn two_pairs<R: Abort + Wait + AllocGlobal>(rt: &R) -> Numbers {
    let map = HashMap::with_hasher(rt.alloc(), LowHashBuilder);
    insert(rt, &map, 10, 1);
    insert(rt, &map, 20, 2);
    map
}

// Returns the numbers of a pair that a call returned.
fn pair_of(pair: Option<(Arc<u64>, Arc<u64>)>) -> Option<(u64, u64)> {
    pair.map(|pair| (*pair.0, *pair.1))
}

fn inserts<R: Abort + Wait>(rt: &R, map: &Numbers) {
    assert_same(rt, insert(rt, map, 10, 3), Some(1));
    assert_same(rt, insert(rt, map, 30, 4), None);
    assert_same(rt, number_at(rt, map, 10), Some(3));
    assert_same(rt, number_at(rt, map, 30), Some(4));
    assert_same(rt, map.len(rt), 3);
}

#[test]
fn insertions(rt: HostRuntime) {
    inserts(&rt, &two_pairs(&rt))
}

// Returns the value that was inserted, or the value that is present and the value that was not inserted.
fn put_or_kept(answer: Result<Arc<u64>, TryInsertError<u64>>) -> Result<u64, (u64, u64)> {
    match answer {
        Ok(new) => Ok(*new),
        Err(error) => Err((*error.current, error.not_inserted)),
    }
}

fn inserts_once<R: Abort + Wait>(rt: &R, map: &Numbers) {
    assert_same(
        rt,
        put_or_kept(map.try_insert(rt, 30, 3).expect(rt, "memory")),
        Ok(3),
    );
    assert_same(
        rt,
        put_or_kept(map.try_insert(rt, 30, 4).expect(rt, "memory")),
        Err((3, 4)),
    );
    assert_same(rt, number_at(rt, map, 30), Some(3));
    assert_same(rt, map.len(rt), 3);
}

#[test]
fn insertions_at_absent_keys_alone(rt: HostRuntime) {
    inserts_once(&rt, &two_pairs(&rt))
}

fn looks_up<R: Abort + Wait>(rt: &R, map: &Numbers) {
    assert_same(
        rt,
        pair_of(map.get_key_value(rt, &20).expect(rt, "memory")),
        Some((20, 2)),
    );
    assert_same(
        rt,
        map.get_key_value(rt, &30).expect(rt, "memory").is_none(),
        true,
    );
    assert_same(rt, number_at(rt, map, 10), Some(1));
    assert_same(rt, number_at(rt, map, 30), None);
    assert_same(rt, map.contains_key(rt, &10), true);
    assert_same(rt, map.contains_key(rt, &30), false);
}

#[test]
fn look_ups(rt: HostRuntime) {
    looks_up(&rt, &two_pairs(&rt))
}

fn removes<R: Abort + Wait>(rt: &R, map: &Numbers) {
    assert_same(rt, taken(map.remove(rt, &10)), Some(1));
    assert_same(rt, taken(map.remove(rt, &10)), None);
    assert_same(rt, pair_of(map.remove_entry(rt, &20)), Some((20, 2)));
    assert_same(rt, map.remove_entry(rt, &20).is_none(), true);
    assert_same(rt, map.is_empty(rt), true);
}

#[test]
fn removals(rt: HostRuntime) {
    removes(&rt, &two_pairs(&rt));
}

fn computes<R: Abort + Wait>(rt: &R, map: &Numbers) {
    let doubled = map
        .compute_if_present(rt, &20, |key, value| Some(key.wrapping_add(*value)))
        .expect(rt, "memory");
    assert_same(rt, taken(doubled), Some(22));
    assert_same(rt, number_at(rt, map, 20), Some(22));
    let absent = map
        .compute_if_present(rt, &30, |_, _| Some(9))
        .expect(rt, "memory");
    assert_same(rt, taken(absent), None);
    let gone = map
        .compute_if_present(rt, &20, |_, _| None)
        .expect(rt, "memory");
    assert_same(rt, taken(gone), None);
    assert_same(rt, map.contains_key(rt, &20), false);
    assert_same(rt, map.len(rt), 1);
}

#[test]
fn computations(rt: HostRuntime) {
    computes(&rt, &two_pairs(&rt))
}

// An empty map makes room, and then takes a pair.
fn makes_room<R: Abort + Wait>(rt: &R, map: &HashMap<u64, u64>) {
    assert_same(rt, map.is_empty(rt), true);
    map.reserve(rt, 100).expect(rt, "memory");
    assert_same(rt, insert(rt, map, 7, 8), None);
    assert_same(rt, number_at(rt, map, 7), Some(8));
}

// A map that was created with room for five pairs takes a thousand.
fn takes_a_thousand<R: Abort + Wait>(rt: &R, map: &HashMap<u64, u64>) {
    for key in 0..1000 {
        insert(rt, map, key, key);
    }
    assert_same(rt, map.len(rt), 1000);
}

// Maps that are created with room, and make room.
#[test]
fn rooms(rt: HostRuntime) {
    let rt = &rt;
    for capacity in [0usize, 1, 5, 16, 1000] {
        makes_room(
            rt,
            &HashMap::with_capacity(rt.alloc(), capacity).expect(rt, "memory"),
        );
    }
    let map = HashMap::with_capacity_and_hasher(
        rt.alloc(),
        5,
        DefaultHashBuilder::with_seed(3),
    ).expect(rt, "memory");
    takes_a_thousand(rt, &map.with_processors(4))
}

// Inserts a thousand keys, each of which is new, and removes them all.
fn grows_and_clears<R: Abort + Wait>(rt: &R, map: &Numbers) {
    for key in 0..1000 {
        assert_same(rt, insert(rt, map, key, key), None);
    }
    map.clear(rt);
    assert_same(rt, map.is_empty(rt), true);
}

// Asserts that none of the thousand keys is present.
fn has_none<R: Abort + Wait>(rt: &R, map: &Numbers) {
    for key in 0..1000 {
        assert_same(rt, map.contains_key(rt, &key), false);
    }
}

fn clears_two_pairs<R: Abort + Wait>(rt: &R, map: &Numbers) {
    map.clear(rt);
    assert_same(rt, map.len(rt), 0);
    assert_same(rt, map.contains_key(rt, &10), false);
    grows_and_clears(rt, map);
    has_none(rt, map);
}

// Clears a map without a table, a map with two pairs, and a map that has grown.
#[test]
fn clears(rt: HostRuntime) {
    let rt = &rt;
    let empty: HashMap<u64, u64> = HashMap::new(rt.alloc());
    empty.clear(rt);
    assert_same(rt, empty.is_empty(rt), true);
    clears_two_pairs(rt, &two_pairs(rt))
}

// Returns whether a map is empty and how many pairs it has, by itself and by a view of it.
fn sizes<R: Wait>(rt: &R, map: &Numbers) -> ((bool, usize), (bool, usize)) {
    let view = map.pin(rt);
    (
        (map.is_empty(rt), map.len(rt)),
        (view.is_empty(), view.len()),
    )
}

#[test]
fn a_map_of_one_pair_is_not_empty(rt: HostRuntime) {
    let rt = &rt;
    let map = &HashMap::with_hasher(rt.alloc(), LowHashBuilder);
    assert_same(rt, sizes(rt, map), ((true, 0), (true, 0)));
    insert(rt, map, 1, 1);
    assert_same(rt, sizes(rt, map), ((false, 1), (false, 1)));
}
