//! Calls that keep some of the pairs.

use super::super::{insert, number_at};
use super::{Numbers, assert_same, has_sums, numbers, taken};
use flurry_shared::iter::Iter;
use std::process::Abort;
use std::sync::Wait;

// Keeps half of a hundred pairs, then half of these, and then none.
fn keeps_less<R: Abort + Wait>(rt: &R, map: &Numbers) {
    map.retain(rt, |key, _| *key % 2 == 0).expect(rt, "memory");
    has_sums(rt, map, (50, 2450, 2450));
    map.retain_force(rt, |_, value| *value % 4 == 0)
        .expect(rt, "memory");
    has_sums(rt, map, (25, 1200, 1200));
    map.retain(rt, |_, _| false).expect(rt, "memory");
    assert_same(rt, map.is_empty(rt), true);
}

#[test]
fn the_even_keys(rt: HostRuntime) {
    keeps_less(&rt, &numbers(&rt, rt.alloc(), 100))
}

// Inserts a value for the key that is shown, and returns `false`, by which the pair is to be removed.
fn write_and_refuse<R: Wait>(rt: &R, map: &Numbers, key: u64) -> bool {
    map.insert(rt, key, 100).is_err()
}

// Twenty pairs that are written during a `retain` are kept, and during a `retain_force` they are removed.
fn keeps_what_is_written<R: Abort + Wait>(rt: &R, map: &Numbers) {
    map.retain(rt, |key, _| write_and_refuse(rt, map, *key))
        .expect(rt, "memory");
    has_sums(rt, map, (20, 190, 2000));
    map.retain_force(rt, |key, _| write_and_refuse(rt, map, *key))
        .expect(rt, "memory");
    assert_same(rt, map.is_empty(rt), true);
}

// A value that was written after it was shown stays, and `retain_force` removes it.
#[test]
fn a_pair_that_is_written_meanwhile(rt: HostRuntime) {
    keeps_what_is_written(&rt, &numbers(&rt, rt.alloc(), 20))
}

// Removes the pair that is shown and inserts it again, and returns `false`, by which the pair is to be removed.
fn put_again_and_refuse<R: Wait>(rt: &R, map: &Numbers, key: u64, value: u64) -> bool {
    map.remove(rt, &key).is_none() || map.insert(rt, key, value).is_err()
}

// A pair that is removed and inserted again during the call is another pair.
fn keeps_what_is_put_again<R: Abort + Wait>(rt: &R, map: &Numbers) {
    map.retain(rt, |key, value| put_again_and_refuse(rt, map, *key, *value))
        .expect(rt, "memory");
    assert_same(rt, number_at(rt, map, 0), Some(0));
}

#[test]
fn a_pair_that_is_put_again_meanwhile(rt: HostRuntime) {
    keeps_what_is_put_again(&rt, &numbers(&rt, rt.alloc(), 1))
}

// Reads two pairs, writes the second one, and removes both as they were read.
fn remove_as_read<R: Abort + Wait>(rt: &R, map: &Numbers, pairs: &mut Iter<'_, R, u64, u64>) {
    let Some(first) = pairs.next_seen().expect(rt, "memory") else {
        panic!(rt; "two pairs stand")
    };
    let Some(second) = pairs.next_seen().expect(rt, "memory") else {
        panic!(rt; "two pairs stand")
    };
    insert(rt, map, *second.key(), 9);
    assert_same(
        rt,
        taken(map.remove_seen(rt, first.try_clone().expect(rt, "memory"))),
        Some(0),
    );
    assert_same(rt, map.remove_seen(rt, first).is_none(), true);
    assert_same(rt, map.remove_seen(rt, second).is_none(), true);
}

// A pair is removed if it is as it was read, and only once. A pair that was written after it was read stays.
#[test]
fn pairs_as_they_were_read(rt: HostRuntime) {
    let rt = &rt;
    let map = &numbers(rt, rt.alloc(), 2);
    let mut pairs = map.iter(rt);
    remove_as_read(rt, map, &mut pairs);
    drop(pairs);
    has_sums(rt, map, (1, 1, 9))
}
