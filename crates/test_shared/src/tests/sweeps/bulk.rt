//! Maps that are made from lists, their clones, and equal maps.

use super::super::insert;
use super::walks::sums_of_later_pairs;
use super::{Numbers, assert_same, has_sums, numbers};
use flurry_base::hash::{DefaultHashBuilder, KeyHasher, LowHashBuilder, ZeroHashBuilder};
use flurry_shared::HashMap;
use std::alloc::Allocator;
use std::process::Abort;
use std::sync::Wait;

// Returns a list of the keys from `from` to `to`, without `to`. The value of a key is the key plus `more`.
pub(super) fn list<A: Allocator>(
    rt: &impl Abort,
    alloc: A,
    (from, to, more): (u64, u64, u64),
) -> Vec<(u64, u64), A> {
    let mut list = Vec::new(alloc);
    for key in from..to {
        list.push((key, key.saturating_add(more)))
            .expect(rt, "memory");
    }
    list
}

// Extends a map by the pairs of a list, and checks the map's sums afterwards.
fn extends_to<S: KeyHasher<u64>, R: Abort + Wait + AllocGlobal>(
    rt: &R,
    map: &HashMap<u64, u64, S>,
    further: (u64, u64, u64),
    wanted: (u64, u64, u64),
) {
    map.extend(rt, list(rt, rt.alloc(), further))
        .expect(rt, "memory");
    has_sums(rt, map, wanted)
}

fn lists_of_many_bins<R: Abort + Wait + AllocGlobal>(rt: &R) {
    let pairs = list(rt, rt.alloc(), (0, 100, 0));
    let map = &HashMap::from_list(rt, pairs, LowHashBuilder).expect(rt, "memory");
    has_sums(rt, map, (100, 4950, 4950));
    extends_to(rt, map, (90, 110, 1), (110, 5995, 6015))
}

fn lists_of_one_bin<R: Abort + Wait + AllocGlobal>(rt: &R) {
    let map = &HashMap::with_hasher(rt.alloc(), ZeroHashBuilder);
    extends_to(rt, map, (0, 50, 0), (50, 1225, 1225));
    extends_to(rt, map, (0, 0, 0), (50, 1225, 1225))
}

#[test]
fn lists(rt: HostRuntime) {
    lists_of_many_bins(&rt);
    lists_of_one_bin(&rt)
}

// An empty list makes no table: a walk that starts before the first pair gives no pairs.
#[test]
fn an_empty_list(rt: HostRuntime) {
    let rt = &rt;
    let pairs = list(rt, rt.alloc(), (0, 0, 0));
    let map = &HashMap::from_list(rt, pairs, LowHashBuilder).expect(rt, "memory");
    assert_same(
        rt,
        sums_of_later_pairs(rt, map).expect(rt, "memory"),
        (0, 0, 0),
    );
    has_sums(rt, map, (10, 45, 45))
}

// Inserts a pair into the clone of a map of a hundred pairs, and removes a pair from the map. Neither changes the other.
fn are_apart<R: Abort + Wait>(rt: &R, map: &Numbers, copy: &Numbers) {
    insert(rt, copy, 200, 0);
    map.remove(rt, &3);
    has_sums(rt, copy, (101, 5150, 4950));
    has_sums(rt, map, (99, 4947, 4947))
}

// A clone of a map has the map's pairs, and is a map of its own.
#[test]
fn a_further_map(rt: HostRuntime) {
    let rt = &rt;
    let map = numbers(rt, rt.alloc(), 100);
    let copy = map.try_clone(rt).expect(rt, "memory");
    are_apart(rt, &map, &copy)
}

// Returns a map of the keys below `to`, with the hasher of `seed`. The value of a key is the key plus `more`.
fn seeded<R: Abort + Wait + AllocGlobal>(
    rt: &R,
    to: u64,
    more: u64,
    seed: u64,
) -> HashMap<u64, u64> {
    let list = list(rt, rt.alloc(), (0, to, more));
    HashMap::from_list(rt, list, DefaultHashBuilder::with_seed(seed)).expect(rt, "memory")
}

// Returns whether a map is equal to the map of the keys below `to`, in which the value of a key is the key plus `more`.
fn equals_further<R: Abort + Wait + AllocGlobal>(
    rt: &R,
    map: &HashMap<u64, u64>,
    to: u64,
    more: u64,
) -> bool {
    map.equals(rt, &seeded(rt, to, more, 1))
        .expect(rt, "memory")
}

// A map of twenty pairs is equal to itself and to another map of these pairs, and to no other map.
fn equals_its_like<R: Abort + Wait + AllocGlobal>(
    rt: &R,
    map: &HashMap<u64, u64>,
    other: &HashMap<u64, u64>,
) {
    assert_same(rt, map.equals(rt, other).expect(rt, "memory"), true);
    assert_same(rt, map.equals(rt, map).expect(rt, "memory"), true);
    for (to, more) in [(19, 0), (21, 0), (20, 1)] {
        let equal = equals_further(rt, map, to, more);
        assert_same(rt, (to, more, equal), (to, more, false));
    }
}

// The other map has another key in place of one key.
fn differs_by_a_key<R: Abort + Wait>(rt: &R, map: &HashMap<u64, u64>, other: &HashMap<u64, u64>) {
    other.remove(rt, &3);
    insert(rt, other, 30, 3);
    assert_same(rt, map.equals(rt, other).expect(rt, "memory"), false);
    assert_same(rt, other.equals(rt, map).expect(rt, "memory"), false);
}

// Compares a map with an equal one, and then with one that has another key.
fn compares<R: Abort + Wait + AllocGlobal>(
    rt: &R,
    map: &HashMap<u64, u64>,
    other: &HashMap<u64, u64>,
) {
    equals_its_like(rt, map, other);
    differs_by_a_key(rt, map, other)
}

#[test]
fn equal_maps(rt: HostRuntime) {
    let rt = &rt;
    let map = seeded(rt, 20, 0, 1);
    compares(rt, &map, &seeded(rt, 20, 0, 2))
}

// Pairs are inserted in their order: of a key that comes twice the last value stands.
#[test]
fn a_doubled_key_in_a_list(rt: HostRuntime) {
    let rt = &rt;
    let pairs = Vec::from_array(rt.alloc(), [(1u64, 10u64), (2, 20), (1, 30)]).expect(rt, "memory");
    let map = &HashMap::from_list(rt, pairs, LowHashBuilder).expect(rt, "memory");
    has_sums(rt, map, (2, 3, 50));
    map.extend(
        rt,
        Vec::from_array(rt.alloc(), [(2u64, 1u64), (2, 2)]).expect(rt, "memory"),
    )
    .expect(rt, "memory");
    has_sums(rt, map, (2, 3, 32))
}
