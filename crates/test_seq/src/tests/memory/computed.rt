//! Calls of `compute_if_present`. By the bound on its function, the function is called at most once.

use super::{
    NumberMap, Refused, adds, assert_same, assert_same_at, map_of, metered, number_at, refuse_each,
    size_of, taken,
};
use flurry_base::hash::LowHashBuilder;
use metered_alloc::MeteredAlloc;
use std::alloc::{Allocator, Global};
use std::process::Abort;

// Computes `value` at a key. Returns whether the function was called, and the number that was returned, or `None` if the call failed.
fn compute<A: Allocator + Copy>(
    map: &mut NumberMap<LowHashBuilder, A>,
    key: u64,
    value: Option<u64>,
) -> (bool, Option<Option<u64>>) {
    let mut called = false;
    let answer = map.compute_if_present(&key, |_, _| {
        called = true;
        value
    });
    match answer {
        Ok(answer) => (called, Some(taken(answer))),
        Err(_) => (called, None),
    }
}

// Computes `value` at a key of a map while every request fails. Returns how many requests that makes, and what `compute` returns.
fn compute_without<A: Allocator + Copy>(
    metered: &MeteredAlloc<Global>,
    map: &mut NumberMap<LowHashBuilder, A>,
    key: u64,
    value: Option<u64>,
) -> (u64, (bool, Option<Option<u64>>)) {
    metered.refuse_from(0);
    let seen = compute(map, key, value);
    let asked = metered.requests();
    metered.refuse_nothing();
    (asked, seen)
}

// Computes a value at an absent key.
fn computes_nowhere<A: Allocator + Copy>(
    rt: &impl Abort,
    metered: &MeteredAlloc<Global>,
    memory: A,
) {
    let mut map = map_of(rt, memory, 2);
    let seen = compute_without(metered, &mut map, 7, Some(9));
    assert_same(rt, seen, (0, (false, Some(None))));
    assert_same(rt, map.len(), 2);
}

#[test]
fn compute_at_an_absent_key(rt: HostRuntime) {
    let memory = metered(&rt, rt.alloc());
    computes_nowhere(&rt, memory, memory);
}

// The computation of the value 9 at the key 7, whose value is 0.
struct ComputesNine;

impl Refused for ComputesNine {
    fn run_refusing<A: Allocator + Copy>(
        &self,
        rt: &impl Abort,
        metered: &MeteredAlloc<Global>,
        memory: A,
        k: u64,
    ) -> bool {
        let mut map = map_of(rt, memory, 0);
        adds(rt, &mut map, 7, 0);
        let before = metered.live_blocks();
        metered.refuse_at(k);
        let seen = compute(&mut map, 7, Some(9));
        let refused = metered.was_refused();
        metered.refuse_nothing();
        let (answer, stands) = if refused {
            (None, 0)
        } else {
            (Some(Some(9)), 9)
        };
        assert_same_at(
            rt,
            k,
            (seen, number_at(&map, 7)),
            ((true, answer), Some(stands)),
        );
        assert_same_at(rt, k, metered.live_blocks(), before);
        refused
    }
}

#[test]
fn compute_of_a_value(rt: HostRuntime) {
    refuse_each(&rt, rt.alloc(), &ComputesNine);
}

// Removes a pair by a computation.
fn computes_none<A: Allocator + Copy>(rt: &impl Abort, metered: &MeteredAlloc<Global>, memory: A) {
    let mut map = map_of(rt, memory, 2);
    let seen = compute_without(metered, &mut map, 1, None);
    assert_same(rt, seen, (0, (true, Some(None))));
    assert_same(rt, size_of(&map), (16, 1));
    assert_same(rt, number_at(&map, 1), None);
}

#[test]
fn compute_of_none(rt: HostRuntime) {
    let memory = metered(&rt, rt.alloc());
    computes_none(&rt, memory, memory);
}
