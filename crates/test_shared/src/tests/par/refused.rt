//! Calls in which a request for memory fails.

use super::super::{Memory, metered};
use super::{assert_same, insert_two, pairs_from_100, read_all, values_at};
use flurry_base::hash::LowHashBuilder;
use flurry_shared::HashMap;
use flurry_shared_par::{map, set, set_ref};
use flurry_shared_set::HashSet;
use metered_alloc::MeteredAlloc;
use std::alloc::{Allocator, Global};
use std::process::Abort;
use std::sync::Wait;
use std::thread::Threads;

// A map of numbers. Its allocator is a parameter, because a proof over `Memory` would have to unfold it in each step.
type Numbers<A> = HashMap<u64, u64, LowHashBuilder, A>;

// Returns whether the two earlier pairs are present, and the count is that of the pairs that a walk gives.
fn is_whole<A: Allocator + Copy, R: Abort + Wait>(rt: &R, map: &Numbers<A>) -> bool {
    let stand = values_at(rt, map, 1, 3) == (Some(2), Some(4));
    let (count, _, _) = read_all(map.iter(rt)).expect(rt, "memory");
    stand && count == map.len(rt) as u64
}

// Which requests of a memory fail.
#[derive(Clone, Copy)]
enum Refused {
    // The one of this number.
    At(u64),
    // Those from this number on.
    From(u64),
}

// Inserts a list in pieces of this length while requests of this memory fail. Returns whether one of them was made, whether the call
// succeeded, whether the map is whole, and the number of its pairs.
fn refuse_in<A: Allocator + Copy + Send + Sync, R: Abort + Threads + Wait + Sync>(
    rt: &R,
    metered: &MeteredAlloc<Global>,
    requests: Refused,
    map: &Numbers<A>,
    list: Vec<(u64, u64), A>,
    part: usize,
) -> (bool, bool, bool, usize) {
    match requests {
        Refused::At(k) => metered.refuse_at(k),
        Refused::From(k) => metered.refuse_from(k),
    }
    let done = map::par_extend(map, rt, list, part).is_ok();
    let refused = metered.was_refused();
    metered.refuse_nothing();
    (refused, done, is_whole(rt, map), map.len(rt))
}

// Does the same as `refuse_in` with `count` pairs, which so many threads insert into a map of two.
fn extend_without<R: Abort + Threads + Wait + Sync>(
    rt: &R,
    memory: Memory,
    requests: Refused,
    (count, part, threads): (u64, usize, usize),
) -> (bool, bool, bool, usize) {
    let list = pairs_from_100(rt, memory, count);
    let map = &HashMap::with_hasher(memory, LowHashBuilder).with_processors(threads);
    insert_two(rt, map);
    refuse_in(rt, memory, requests, map, list, part)
}

// Two threads insert six pairs in pieces of two. There is a request for each of three pieces, and three for each pair. If one of them fails, the call fails, and the earlier pairs stay.
#[test]
fn each_request(rt: HostRuntime) {
    let rt = &rt;
    let memory = metered(rt, rt.alloc());
    for k in 0..21u64 {
        let (refused, done, whole, len) = extend_without(rt, memory, Refused::At(k), (6, 2, 2));
        assert_same(rt, (k, refused, done, whole), (k, true, false, true));
        assert_same(rt, len < 8, true);
        assert_same(rt, memory.live_blocks(), 0);
    }
    let seen = extend_without(rt, memory, Refused::At(21), (6, 2, 2));
    assert_same(rt, seen, (false, true, true, 8));
    assert_same(rt, memory.live_blocks(), 0);
}

// Inserts a list in pieces of two into a set, or by its view, while the request numbered `k` of this memory fails. Returns whether that
// request was made, whether the call succeeded, and the number of elements.
fn refuse_in_set<A: Allocator + Copy + Send + Sync, R: Threads + Wait + Sync>(
    rt: &R,
    metered: &MeteredAlloc<Global>,
    k: u64,
    set: &HashSet<u64, LowHashBuilder, A>,
    list: Vec<u64, A>,
    by_view: bool,
) -> (bool, bool, usize) {
    metered.refuse_at(k);
    let done = if by_view {
        set_ref::par_extend(&set.pin(rt), list, 2).is_ok()
    } else {
        set::par_extend(set, rt, list, 2).is_ok()
    };
    let refused = metered.was_refused();
    metered.refuse_nothing();
    (refused, done, set.len(rt))
}

// Does the same as `refuse_in_set` with the numbers below 6, which two threads insert into a set with room.
fn extend_set_without<R: Abort + Threads + Wait + Sync>(
    rt: &R,
    memory: Memory,
    k: u64,
    by_view: bool,
) -> (bool, bool, usize) {
    let list = Vec::from_array(memory, [0, 1, 2, 3, 4, 5]).expect(rt, "memory");
    let set = HashSet::with_capacity_and_hasher(memory, 6, LowHashBuilder)
        .expect(rt, "memory")
        .with_processors(2);
    refuse_in_set(rt, memory, k, &set, list, by_view)
}

// The same requests as of a map, of a set and of its view.
#[test]
fn each_request_of_a_set(rt: HostRuntime) {
    let rt = &rt;
    let memory = metered(rt, rt.alloc());
    for by_view in [false, true] {
        for k in 0..21u64 {
            let (refused, done, len) = extend_set_without(rt, memory, k, by_view);
            assert_same(rt, (k, refused, done, len < 6), (k, true, false, true));
            assert_same(rt, memory.live_blocks(), 0);
        }
        let seen = extend_set_without(rt, memory, 21, by_view);
        assert_same(rt, seen, (false, true, 6));
    }
}

// Four threads insert a thousand pairs while memory runs out: the call fails, and the earlier pairs stay.
#[test]
fn memory_that_runs_out(rt: HostRuntime) {
    let rt = &rt;
    let memory = metered(rt, rt.alloc());
    for k in [0u64, 100, 1000] {
        let (refused, done, whole, _) = extend_without(rt, memory, Refused::From(k), (1000, 10, 4));
        assert_same(rt, (k, refused, done, whole), (k, true, false, true));
        assert_same(rt, (k, memory.live_blocks()), (k, 0));
    }
}
