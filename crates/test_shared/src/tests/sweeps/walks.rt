//! Iterators in one thread.

use super::super::insert;
use super::{Numbers, assert_same, has_sums, insert_all, numbers, read_all, taken};
use flurry_base::hash::{DefaultHashBuilder, KeyHasher, LowHashBuilder, ZeroHashBuilder};
use flurry_shared::HashMap;
use flurry_shared::iter::{Iter, Keys, Values};
use std::alloc::{AllocError, Allocator};
use std::process::Abort;
use std::sync::Wait;

// Returns the sum of the keys that are left.
fn sum_of_keys<R: Wait>(keys: &mut Keys<'_, R, u64, u64>) -> Result<u64, AllocError> {
    let mut sum = 0u64;
    for _ in 0..super::MAX_READ {
        let Some(key) = keys.next()? else {
            break;
        };
        sum = sum.saturating_add(*key);
    }
    Ok(sum)
}

// Returns the sum of the values that are left.
fn sum_of_values<R: Wait>(values: &mut Values<'_, R, u64, u64>) -> Result<u64, AllocError> {
    let mut sum = 0u64;
    for _ in 0..super::MAX_READ {
        let Some(value) = values.next()? else {
            break;
        };
        sum = sum.saturating_add(*value);
    }
    Ok(sum)
}

#[test]
fn keys_and_values(rt: HostRuntime) {
    let rt = &rt;
    let map = &HashMap::with_hasher(rt.alloc(), ZeroHashBuilder);
    for key in 0..100u64 {
        insert(rt, map, key, key.saturating_mul(2));
    }
    has_sums(rt, map, (100, 4950, 9900));
    let mut keys = map.keys(rt);
    let sum = sum_of_keys(&mut keys);
    drop(keys);
    assert_same(rt, sum.expect(rt, "memory"), 4950);
    let mut values = map.values(rt);
    let sum = sum_of_values(&mut values);
    drop(values);
    assert_same(rt, sum.expect(rt, "memory"), 9900);
}

// Inserts `count` keys, each with itself as its value, and walks over them.
fn walk_over<S: KeyHasher<u64> + Drop, R: Abort + Wait>(
    rt: &R,
    map: HashMap<u64, u64, S>,
    count: u64,
) {
    assert_same(rt, insert_all(rt, &map, 0, count), 0);
    let sum = count.saturating_mul(count.saturating_sub(1)) / 2;
    has_sums(rt, &map, (count, sum, sum))
}

// Maps without a table, with one bin that is a list or a tree, and with many bins.
#[test]
fn each_walk_gives_all_pairs(rt: HostRuntime) {
    let rt = &rt;
    for count in [0u64, 1, 9, 10, 1000] {
        walk_over(rt, HashMap::with_hasher(rt.alloc(), ZeroHashBuilder), count);
        walk_over(rt, numbers(rt, rt.alloc(), 0), count);
    }
    walk_over(
        rt,
        HashMap::with_hasher(rt.alloc(), DefaultHashBuilder::with_seed(5)),
        50_000,
    )
}

// Returns what a walk gives that was created before the first table, although there are pairs then.
pub(super) fn sums_of_later_pairs<A: Allocator + Copy, R: Wait>(
    rt: &R,
    map: &HashMap<u64, u64, LowHashBuilder, A>,
) -> Result<(u64, u64, u64), AllocError> {
    let pairs = map.iter(rt);
    insert_all(rt, map, 0, 10);
    read_all(pairs)
}

#[test]
fn a_walk_without_a_table(rt: HostRuntime) {
    let rt = &rt;
    let map = &numbers(rt, rt.alloc(), 0);
    assert_same(
        rt,
        sums_of_later_pairs(rt, map).expect(rt, "memory"),
        (0, 0, 0),
    );
    has_sums(rt, map, (10, 45, 45))
}

// Reads the one pair of a map, and no other pair after the walk has ended, although there are more pairs then.
fn read_past_the_end<R: Abort + Wait>(rt: &R, map: &Numbers, pairs: &mut Iter<'_, R, u64, u64>) {
    assert_same(rt, pairs.next().expect(rt, "memory").is_some(), true);
    assert_same(rt, pairs.next().expect(rt, "memory").is_none(), true);
    insert_all(rt, map, 1, 100);
    assert_same(rt, pairs.next().expect(rt, "memory").is_none(), true);
}

#[test]
fn a_walk_that_has_ended(rt: HostRuntime) {
    let rt = &rt;
    let map = numbers(rt, rt.alloc(), 1);
    let mut pairs = map.iter(rt);
    read_past_the_end(rt, &map, &mut pairs);
    drop(pairs);
}

// Returns the next pair of a walk, as numbers.
fn next_pair<R: Wait>(pairs: &mut Iter<'_, R, u64, u64>) -> Result<Option<(u64, u64)>, AllocError> {
    Ok(pairs.next()?.map(|pair| (*pair.0, *pair.1)))
}

// Replaces the values of the keys 0 and 1, and removes the key 2.
fn write_and_remove<R: Abort + Wait>(rt: &R, map: &Numbers) {
    assert_same(rt, insert(rt, map, 0, 7), Some(0));
    assert_same(rt, insert(rt, map, 1, 8), Some(1));
    assert_same(rt, taken(map.remove(rt, &2)), Some(2));
}

// Walks over the keys 0 to 3, which are written and removed after the first of them was read.
fn read_beside_writes<R: Abort + Wait>(rt: &R, map: &Numbers, pairs: &mut Iter<'_, R, u64, u64>) {
    let Some((key, value)) = pairs.next().expect(rt, "memory") else {
        panic!(rt; "there are pairs")
    };
    assert_same(rt, (*key, *value), (0, 0));
    write_and_remove(rt, map);
    assert_same(rt, *value, 0);
    assert_same(rt, next_pair(pairs).expect(rt, "memory"), Some((1, 8)));
    assert_same(rt, next_pair(pairs).expect(rt, "memory"), Some((3, 3)));
    assert_same(rt, next_pair(pairs).expect(rt, "memory"), None);
}

// A value that a walk gave stays with its owner. The walk sees what is written or removed before it reaches it.
#[test]
fn a_walk_sees_what_stands(rt: HostRuntime) {
    let rt = &rt;
    let map = numbers(rt, rt.alloc(), 4);
    let mut pairs = map.iter(rt);
    read_beside_writes(rt, &map, &mut pairs);
    drop(pairs);
}
