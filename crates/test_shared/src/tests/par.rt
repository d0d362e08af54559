//! Tests of `par_extend`, and what they share.

mod at_once;
mod elements;
mod pairs;
mod refused;

use super::sweeps::{has_sums, read_all};
use super::{assert_same, insert, number_at};
use flurry_base::hash::KeyHasher;
use flurry_shared::HashMap;
use std::alloc::Allocator;
use std::process::Abort;
use std::sync::Wait;

// Returns `count` pairs: the keys from 100 on, each with ten times its distance from 100 as its value.
fn pairs_from_100<A: Allocator>(rt: &impl Abort, alloc: A, count: u64) -> Vec<(u64, u64), A> {
    let mut list = Vec::new(alloc);
    for i in 0..count {
        list.push((i.saturating_add(100), i.saturating_mul(10)))
            .expect(rt, "memory");
    }
    list
}

// Inserts the earlier pairs of a test: the key 1 with the value 2, and the key 3 with the value 4.
fn insert_two<S: KeyHasher<u64>, A: Allocator + Copy, R: Abort + Wait>(
    rt: &R,
    map: &HashMap<u64, u64, S, A>,
) {
    insert(rt, map, 1, 2);
    insert(rt, map, 3, 4);
}

// Returns the values of two keys.
fn values_at<S: KeyHasher<u64>, A: Allocator + Copy, R: Abort + Wait>(
    rt: &R,
    map: &HashMap<u64, u64, S, A>,
    first: u64,
    second: u64,
) -> (Option<u64>, Option<u64>) {
    (number_at(rt, map, first), number_at(rt, map, second))
}
