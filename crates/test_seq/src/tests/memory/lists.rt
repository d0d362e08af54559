//! Lists of pairs and of calls.

use super::{
    NumberMap, Refused, assert_same, assert_same_at, map_of, number_at, push_call, refuse_each,
    size_of,
};
use flurry_base::hash::LowHashBuilder;
use flurry_seq::SeqMap;
use flurry_seq::calls::Call;
use metered_alloc::MeteredAlloc;
use std::alloc::{Allocator, Global};
use std::collections::VecDeque;
use std::process::Abort;

fn three_pairs<A: Allocator + Copy>(rt: &impl Abort, memory: A) -> Vec<(u64, u64), A> {
    Vec::from_array(memory, [(5, 5), (6, 6), (7, 7)]).expect(rt, "memory for the list")
}

// Asserts that the map has a front of the keys from 5 on, each with itself as its value, and as many of them as it has pairs beside its
// `first` ones.
fn has_a_front<A: Allocator + Copy>(
    rt: &impl Abort,
    map: &NumberMap<LowHashBuilder, A>,
    first: usize,
) {
    let mut count = first;
    for key in 5..8u64 {
        let number = number_at(map, key);
        if count < map.len() {
            assert_same(rt, number, Some(key));
            count += 1;
        } else {
            assert_same(rt, number, None);
        }
    }
    assert_same(rt, count, map.len());
}

// Extends a map of `first` pairs while the request numbered `k` fails, and returns whether that request was made.
fn extended<A: Allocator + Copy>(
    rt: &impl Abort,
    metered: &MeteredAlloc<Global>,
    map: &mut NumberMap<LowHashBuilder, A>,
    k: u64,
    first: usize,
) -> bool {
    let list = three_pairs(rt, *map.allocator());
    metered.refuse_at(k);
    let failed = map.extend(list).is_err();
    let refused = metered.was_refused();
    metered.refuse_nothing();
    has_a_front(rt, map, first);
    assert_same_at(rt, k, failed, refused);
    refused
}

// The extension of a map of two pairs by the list of three pairs.
struct Extends;

impl Refused for Extends {
    fn run_refusing<A: Allocator + Copy>(
        &self,
        rt: &impl Abort,
        metered: &MeteredAlloc<Global>,
        memory: A,
        k: u64,
    ) -> bool {
        let mut map = map_of(rt, memory, 2);
        let refused = extended(rt, metered, &mut map, k, 2);
        let first = (number_at(&map, 0), number_at(&map, 1));
        assert_same_at(rt, k, first, (Some(0), Some(1)));
        refused
    }
}

#[test]
fn extend(rt: HostRuntime) {
    refuse_each(&rt, rt.alloc(), &Extends);
}

// The extension of a new map by the list of three pairs. Room for them is a table of 16 bins, which is requested at once.
struct ExtendsNew;

impl Refused for ExtendsNew {
    fn run_refusing<A: Allocator + Copy>(
        &self,
        rt: &impl Abort,
        metered: &MeteredAlloc<Global>,
        memory: A,
        k: u64,
    ) -> bool {
        let mut map = map_of(rt, memory, 0);
        let refused = extended(rt, metered, &mut map, k, 0);
        let bins = if k == 0 { 0 } else { 16 };
        assert_same_at(rt, k, map.capacity(), bins);
        refused
    }
}

#[test]
fn extend_of_a_new_map(rt: HostRuntime) {
    refuse_each(&rt, rt.alloc(), &ExtendsNew);
}

// The making of a map from the list of three pairs.
struct MakesOfList;

impl Refused for MakesOfList {
    fn run_refusing<A: Allocator + Copy>(
        &self,
        rt: &impl Abort,
        metered: &MeteredAlloc<Global>,
        memory: A,
        k: u64,
    ) -> bool {
        let list = three_pairs(rt, memory);
        metered.refuse_at(k);
        let answer = SeqMap::from_list(memory, list, LowHashBuilder);
        let refused = metered.was_refused();
        metered.refuse_nothing();
        assert_same_at(rt, k, answer.is_err(), refused);
        match answer {
            Ok(map) => {
                has_a_front(rt, &map, 0);
                assert_same(rt, size_of(&map), (8, 3));
            }
            Err(_) => assert_same_at(rt, k, metered.live_blocks(), 0),
        }
        refused
    }
}

#[test]
fn from_list(rt: HostRuntime) {
    refuse_each(&rt, rt.alloc(), &MakesOfList);
}

// The function that the calls pass to `compute_if_present`.
fn unchanged(_key: &u64, value: &u64) -> Option<u64> {
    Some(*value)
}

// The function that the calls pass to `retain`.
fn is_own_value(key: &u64, value: &u64) -> bool {
    *key == *value
}

// The run of calls as values on a new map.
struct Runs;

impl Refused for Runs {
    fn run_refusing<A: Allocator + Copy>(
        &self,
        rt: &impl Abort,
        metered: &MeteredAlloc<Global>,
        memory: A,
        k: u64,
    ) -> bool {
        let mut map = map_of(rt, memory, 0);
        let mut calls = VecDeque::new(memory);
        push_call(rt, &mut calls, Call::Insert(5, 5));
        push_call(rt, &mut calls, Call::Insert(6, 6));
        push_call(rt, &mut calls, Call::ComputeIfPresent(6, unchanged));
        push_call(rt, &mut calls, Call::Retain(is_own_value));
        push_call(rt, &mut calls, Call::Insert(7, 7));
        push_call(rt, &mut calls, Call::Pairs);
        push_call(rt, &mut calls, Call::Keys);
        push_call(rt, &mut calls, Call::Values);
        push_call(rt, &mut calls, Call::TryClone);
        metered.refuse_at(k);
        let failed = map.run(memory, calls).is_err();
        let refused = metered.was_refused();
        metered.refuse_nothing();
        has_a_front(rt, &map, 0);
        assert_same_at(rt, k, failed, refused);
        assert_same_at(rt, k, refused || map.len() == 3, true);
        refused
    }
}

#[test]
fn calls_in_their_order(rt: HostRuntime) {
    refuse_each(&rt, rt.alloc(), &Runs);
}
