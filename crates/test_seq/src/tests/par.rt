//! Maps and sets that are built in parallel, and joined.

mod at_once;
mod nothing;
mod refused;

use super::keys::Tagged;
use super::steps::list_of;
use super::{assert_same, lent};
use flurry_base::hash::{LowHashBuilder, ZeroHashBuilder};
use flurry_seq::SeqMap;
use flurry_seq_par::{map, set};
use flurry_seq_set::SeqSet;
use std::alloc::Allocator;
use std::process::Abort;
use std::sync::Arc;
use std::thread::Threads;

// A map of numbers.
type Numbers = SeqMap<u64, u64, LowHashBuilder>;

// Returns a hundred pairs: the keys from 100 on, each with ten times its distance from 100.
fn pairs(rt: &(impl Abort + AllocGlobal)) -> Vec<(u64, u64)> {
    let mut list = Vec::new(rt.alloc());
    for i in 0..100u64 {
        list.push((i + 100, i * 10)).expect(rt, "memory");
    }
    list
}

// Returns the map of three pairs, two of which have one key, built from pieces of the length `part`.
fn doubled(rt: &(impl Abort + AllocGlobal + Threads + Sync), part: usize) -> Numbers {
    let list = Vec::from_array(rt.alloc(), [(1, 10), (2, 20), (1, 30)]).expect(rt, "memory");
    map::from_par_list(rt, rt.alloc(), list, LowHashBuilder, part).expect(rt, "memory")
}

// Asserts that the map has two pairs, and the last value of the key that came twice.
fn has_the_last(rt: &impl Abort, map: &Numbers) {
    assert_same(rt, map.len(), 2);
    assert_same(
        rt,
        (lent(map.get(&1)), lent(map.get(&2))),
        (Some(30), Some(20)),
    );
}

// Of a key that comes twice, the last value is stored, for any length of a piece. A length of 0 counts as 1.
#[test]
fn row_10(rt: HostRuntime) {
    let rt = &rt;
    let one = doubled(rt, 1);
    has_the_last(rt, &one);
    for part in [0, 2, 3, usize::MAX] {
        let map = doubled(rt, part);
        has_the_last(rt, &map);
        assert_same(rt, map == one, true);
    }
}

#[test]
fn a_hundred_pairs(rt: HostRuntime) {
    let rt = &rt;
    let built = map::from_par_list(rt, rt.alloc(), pairs(rt), LowHashBuilder, 7).expect(
        rt, "memory",
    );
    assert_same(rt, built.len(), 100);
    assert_same(
        rt,
        (lent(built.get(&100)), lent(built.get(&199))),
        (Some(0), Some(990)),
    );
}

// As of `from_list`, five pairs have 8 bins, and a hundred have 256, however long the pieces are.
#[test]
fn bins_of_what_is_built(rt: HostRuntime) {
    let rt = &rt;
    for part in [1, 2, 5, 100] {
        let mut list = Vec::new(rt.alloc());
        for key in 0..5u64 {
            list.push((key, key)).expect(rt, "memory");
        }
        let five = map::from_par_list(rt, rt.alloc(), list, LowHashBuilder, part).expect(
            rt, "memory",
        );
        assert_same(rt, five.capacity(), 8);
        let hundred = map::from_par_list(rt, rt.alloc(), pairs(rt), LowHashBuilder, part).expect(
            rt, "memory",
        );
        assert_same(rt, hundred.capacity(), 256);
    }
}

#[test]
fn pairs_into_a_map(rt: HostRuntime) {
    let rt = &rt;
    let list = Vec::from_array(rt.alloc(), [(1u64, 2u64), (3, 4)]).expect(rt, "memory");
    let mut map = SeqMap::from_list(rt.alloc(), list, LowHashBuilder).expect(rt, "memory");
    map::par_extend(rt, &mut map, Vec::new(rt.alloc()), 7).expect(rt, "memory");
    assert_same(rt, map.len(), 2);
    map::par_extend(rt, &mut map, pairs(rt), 7).expect(rt, "memory");
    assert_same(rt, map.len(), 102);
    assert_same(
        rt,
        (lent(map.get(&3)), lent(map.get(&199))),
        (Some(4), Some(990)),
    );
}

// Joins a map of so many new keys to a map of one pair in 16 bins, and returns how many bins and pairs that has then.
fn after_a_join(rt: &(impl Abort + AllocGlobal), count: u64) -> (usize, usize) {
    let mut left: Numbers = SeqMap::with_hasher(rt.alloc(), LowHashBuilder);
    let _ = left.insert(0, 0).expect(rt, "memory");
    let list = list_of(rt, rt.alloc(), 1, count.saturating_add(1), 1);
    let right = SeqMap::from_list(rt.alloc(), list, LowHashBuilder).expect(rt, "memory");
    map::join(&mut left, right).expect(rt, "memory");
    (left.capacity(), left.len())
}

// If a map has pairs, there is room for half of those that are joined to it before they come: 16 bins are enough for 4 more, and not for 5.
#[test]
fn room_in_a_join(rt: HostRuntime) {
    assert_same(&rt, after_a_join(&rt, 8), (16, 9));
    assert_same(&rt, after_a_join(&rt, 9), (32, 10));
}

// Returns a list of `count` pairs of the key 7.
fn pairs_of_one_key(rt: &(impl Abort + AllocGlobal), count: u64) -> Vec<(u64, u64)> {
    let mut list = Vec::new(rt.alloc());
    for value in 0..count {
        list.push((7, value)).expect(rt, "memory");
    }
    list
}

// A map that is built has room for as many pairs as the list has, from the start.
#[test]
fn room_for_a_list(rt: HostRuntime) {
    let rt = &rt;
    let list = pairs_of_one_key(rt, 100);
    let built = map::from_par_list(rt, rt.alloc(), list, LowHashBuilder, 7).expect(rt, "memory");
    assert_same(rt, (built.capacity(), built.len()), (256, 1));
    assert_same(rt, lent(built.get(&7)), Some(99));
}

// For a class that both maps have, the key of the left map stays, and the value of the right map is stored.
#[test]
fn joined(rt: HostRuntime) {
    let rt = &rt;
    let (first, second) = (Tagged { id: 1, tag: 10 }, Tagged { id: 1, tag: 20 });
    let mut left = SeqMap::with_hasher(rt.alloc(), ZeroHashBuilder);
    let _ = left.insert(first, 1u64).expect(rt, "memory");
    let mut right = SeqMap::with_hasher(rt.alloc(), ZeroHashBuilder);
    let _ = right.insert(second, 2).expect(rt, "memory");
    let _ = right
        .insert(Tagged { id: 2, tag: 30 }, 3)
        .expect(rt, "memory");
    map::join(&mut left, right).expect(rt, "memory");
    assert_same(rt, left.len(), 2);
    let (key, value) = left.get_key_value(&second).expect(rt, "the key is present");
    assert_same(rt, (key.tag, **value), (10, 2));
}

#[test]
fn sets_of_pairs(rt: HostRuntime) {
    let rt = &rt;
    let mut built: SeqSet<(u64, u64), ZeroHashBuilder> = set::from_par_list(
        rt,
        rt.alloc(),
        pairs(rt),
        ZeroHashBuilder,
        7,
    ).expect(rt, "memory");
    assert_same(rt, built.len(), 100);
    assert_same(
        rt,
        (built.contains(&(100, 0)), built.contains(&(100, 10000))),
        (true, false),
    );
    let more = Vec::from_array(rt.alloc(), [(100, 0), (100, 10000)]).expect(rt, "memory");
    set::par_extend(rt, &mut built, more, 1).expect(rt, "memory");
    assert_same(
        rt,
        (built.len(), built.contains(&(100, 10000))),
        (101, true),
    );
}
