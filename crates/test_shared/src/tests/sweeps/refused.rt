//! Each request for memory of a walk, or of a call over many pairs, fails in turn.

use super::super::{Memory, metered};
use super::bulk::list;
use super::{assert_same, numbers, read_all};
use flurry_base::hash::LowHashBuilder;
use flurry_shared::HashMap;
use metered_alloc::MeteredAlloc;
use std::alloc::{Allocator, Global};
use std::process::Abort;
use std::sync::Wait;

// A map of numbers. Its allocator is a parameter, because a proof over `Memory` would have to unfold it in each step.
type Numbers<A> = HashMap<u64, u64, LowHashBuilder, A>;

// A call that may fail to allocate memory.
#[derive(Clone, Copy, Debug, PartialEq)]
enum Call {
    Walk,
    ForEach,
    Any,
    Fold,
    Retain,
    RetainForce,
    Extend,
    FromList,
    Equals,
    TryClone,
}

// Makes the call, of a map or of a list, and returns whether it succeeded.
fn is_done<A: Allocator + Copy, R: Wait>(
    rt: &R,
    map: &Numbers<A>,
    list: Vec<(u64, u64), A>,
    call: Call,
) -> bool {
    match call {
        Call::Walk => read_all(map.iter(rt)).is_ok(),
        Call::ForEach => map.for_each(rt, |_, _| {}).is_ok(),
        Call::Any => map.any(rt, |_, _| false).is_ok(),
        Call::Fold => map.fold(rt, 0u64, |sum, _, _| sum).is_ok(),
        Call::Retain => map.retain(rt, |key, _| *key < 2).is_ok(),
        Call::RetainForce => map.retain_force(rt, |key, _| *key < 2).is_ok(),
        Call::Extend => map.extend(rt, list).is_ok(),
        Call::FromList => HashMap::from_list(rt, list, LowHashBuilder).is_ok(),
        Call::Equals => map.equals(rt, map).is_ok(),
        Call::TryClone => map.try_clone(rt).is_ok(),
    }
}

// Returns the number of pairs that a walk gives, which must be the count of the map.
fn count_there<A: Allocator + Copy, R: Abort + Wait>(rt: &R, map: &Numbers<A>) -> usize {
    let there = read_all(map.iter(rt)).expect(rt, "memory").0 as usize;
    assert_same(rt, there, map.len(rt));
    there
}

// What a call did: whether a request failed, whether the call succeeded, the number of pairs afterwards, and how many requests it made.
type Seen = (bool, bool, usize, u64);

// Makes the call while the request numbered `k` fails, of a map and a list in this memory.
fn refuse_in<A: Allocator + Copy, R: Abort + Wait>(
    rt: &R,
    metered: &MeteredAlloc<Global>,
    k: u64,
    map: &Numbers<A>,
    list: Vec<(u64, u64), A>,
    call: Call,
) -> Seen {
    metered.refuse_at(k);
    let done = is_done(rt, map, list, call);
    let (refused, requests) = (metered.was_refused(), metered.requests());
    metered.refuse_nothing();
    (refused, done, count_there(rt, map), requests)
}

// Does the same as `refuse_in`, with a map of the keys below `pairs`, and a list of `others` greater keys.
fn call_without<R: Abort + Wait>(
    rt: &R,
    memory: Memory,
    (pairs, others): (u64, u64),
    call: Call,
    k: u64,
) -> Seen {
    let list = list(rt, memory, (1000, others.saturating_add(1000), 0));
    refuse_in(rt, memory, k, &numbers(rt, memory, pairs), list, call)
}

// Makes the call of a map of three pairs and a list of three more, while each of `requests` requests fails in turn: the call then fails,
// and leaves three pairs. If no request fails, it leaves `left` pairs.
fn refuse_each<R: Abort + Wait>(
    rt: &R,
    memory: Memory,
    (call, requests, left): (Call, u64, usize),
) {
    for k in 0..requests.saturating_add(1) {
        let (refused, done, count, _) = call_without(rt, memory, (3, 3), call, k);
        let seen = (refused, done, count);
        let wanted = if k < requests {
            (true, false, 3)
        } else {
            (false, true, left)
        };
        assert_same(rt, (call, k, seen), (call, k, wanted));
        assert_same(rt, memory.live_blocks(), 0);
    }
}

// The first seven make no request. The requests of the others are for a table and its slots, and three for each pair. A clone of a map
// shares its keys and values, and is built in a table of its own first.
#[test]
fn each_request_of_a_call(rt: HostRuntime) {
    let memory = metered(&rt, rt.alloc());
    for row in [
        (Call::Walk, 0, 3),
        (Call::ForEach, 0, 3),
        (Call::Any, 0, 3),
        (Call::Fold, 0, 3),
        (Call::Retain, 0, 2),
        (Call::RetainForce, 0, 2),
        (Call::Equals, 0, 3),
        (Call::FromList, 11, 3),
        (Call::TryClone, 6, 3),
    ] {
        refuse_each(&rt, memory, row);
    }
}

// An extension keeps the pairs that it inserted before the request that failed.
#[test]
fn an_extension(rt: HostRuntime) {
    let rt = &rt;
    let memory = metered(rt, rt.alloc());
    for k in 0..10u64 {
        let (refused, done, count, _) = call_without(rt, memory, (3, 3), Call::Extend, k);
        let seen = (refused, done, count);
        assert_same(rt, (k, seen), (k, (k < 9, k == 9, 3 + k as usize / 3)));
        assert_same(rt, memory.live_blocks(), 0);
    }
}

// Room is made first: a hundred pairs ask for the tables of that room, one of them by a growth with its board and seats, and for three
// blocks each. A map that is not empty makes room for half of a list: for a map of one pair in 16 bins and a list of eight, that is no
// further table.
#[test]
fn room_is_made_first(rt: HostRuntime) {
    let rt = &rt;
    let memory = metered(rt, rt.alloc());
    for (sizes, call, pairs, requests) in [
        ((0, 100), Call::FromList, 0, 302),
        ((100, 0), Call::TryClone, 100, 103),
        ((0, 100), Call::Extend, 100, 309),
        ((1, 8), Call::Extend, 9, 24),
    ] {
        let seen = call_without(rt, memory, sizes, call, u64::MAX);
        assert_same(rt, (call, seen), (call, (false, true, pairs, requests)));
    }
}
