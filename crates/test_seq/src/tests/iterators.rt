//! Iterators, equality and copies of maps, through maps whose sums are known.

use super::assert_same;
use super::keys::Tagged;
use super::steps::{Step, run};
use flurry_base::hash::{DefaultHashBuilder, KeyHasher, LowHashBuilder, ZeroHashBuilder};
use flurry_seq::SeqMap;
use std::alloc::Global;
use std::process::Abort;
use std::sync::Arc;

// Returns the map of the keys below 101, inserted in steps that reach each of them. The value of a key is 2 * key + 1.
fn filled<S: KeyHasher<u64> + Drop>(
    rt: &impl Abort,
    alloc: Global,
    hasher: S,
    step: u8,
) -> SeqMap<u64, u64, S> {
    let mut map = SeqMap::with_hasher(alloc, hasher);
    for i in 0u64..101 {
        let key = i * u64::from(step) % 101;
        let _ = map.insert(key, 2 * key + 1).expect(rt, "memory");
    }
    map
}

// Returns the map of the ids below 7 with the tag `tag`, each with the value 5.
fn filled_with_tag(
    rt: &impl Abort,
    alloc: Global,
    tag: u64,
) -> SeqMap<Tagged, u64, ZeroHashBuilder> {
    let mut map = SeqMap::with_hasher(alloc, ZeroHashBuilder);
    for id in 0u64..7 {
        let _ = map.insert(Tagged { id, tag }, 5).expect(rt, "memory");
    }
    map
}

fn sum_of_pairs<S: KeyHasher<u64> + Drop>(map: &SeqMap<u64, u64, S>) -> u64 {
    let mut sum = 0u64;
    for (key, value) in map.iter() {
        sum = sum.wrapping_add(key.as_ref().wrapping_mul(*value.as_ref()));
    }
    sum
}

fn sum_of_keys<S: KeyHasher<u64> + Drop>(map: &SeqMap<u64, u64, S>) -> u64 {
    let mut sum = 0u64;
    for key in map.keys() {
        sum = sum.wrapping_add(*key.as_ref());
    }
    sum
}

fn sum_of_values<S: KeyHasher<u64> + Drop>(map: &SeqMap<u64, u64, S>) -> u64 {
    let mut sum = 0u64;
    for value in map.values() {
        sum = sum.wrapping_add(*value.as_ref());
    }
    sum
}

#[test]
fn iterators_pass_each_pair(rt: HostRuntime) {
    let rt = &rt;
    let spread = &filled(rt, rt.alloc(), LowHashBuilder, 1);
    let one_bin = &filled(rt, rt.alloc(), ZeroHashBuilder, 7);
    assert_same(rt, sum_of_pairs(spread), 681_750);
    assert_same(rt, sum_of_pairs(one_bin), 681_750);
    assert_same(rt, sum_of_keys(one_bin), 5050);
    assert_same(rt, sum_of_values(spread), 10_201);
    assert_same(rt, spread.keys().count(), 101);
    let mut pairs = one_bin.iter();
    assert_same(rt, pairs.next().is_some(), true);
    assert_same(rt, pairs.len(), 100);
    let none: SeqMap<u64, u64> = SeqMap::new(rt.alloc());
    assert_same(rt, none.values().next().is_none(), true);
}

#[test]
fn equality_reads_classes_and_values(rt: HostRuntime) {
    let rt = &rt;
    let mut left = filled(rt, rt.alloc(), DefaultHashBuilder::with_seed(1), 1);
    let right = filled(rt, rt.alloc(), DefaultHashBuilder::with_seed(2), 30);
    assert_same(rt, left == right, true);
    run(rt, &mut left, &[Step::Insert(3, 8, Some(7))]);
    assert_same(rt, left != right, true);
    run(
        rt,
        &mut left,
        &[Step::Insert(3, 7, Some(8)), Step::Remove(4, Some(9))],
    );
    assert_same(rt, left != right, true);
    run(rt, &mut left, &[Step::Insert(101, 9, None)]);
    assert_same(rt, left != right, true);
}

// The tag of a key plays no part in comparisons.
#[test]
fn equality_reads_no_tags(rt: HostRuntime) {
    let rt = &rt;
    let one = filled_with_tag(rt, rt.alloc(), 1);
    let other = filled_with_tag(rt, rt.alloc(), 2);
    assert_same(rt, one == other, true);
}

#[test]
fn a_clone_shares_and_stands_alone(rt: HostRuntime) {
    let rt = &rt;
    let map = filled(rt, rt.alloc(), DefaultHashBuilder::default(), 1);
    let mut copy = map.try_clone().expect(rt, "memory");
    assert_same(rt, copy == map, true);
    let value = map.get(&9).expect(rt, "the key is there");
    assert_same(rt, Arc::strong_count(value), 2);
    copy.remove(&9);
    assert_same(rt, map.len(), 101);
}
