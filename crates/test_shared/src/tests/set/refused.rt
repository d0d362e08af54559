//! Each request for memory of a call that may fail, which fails in turn.

use super::super::refused::succeeded;
use super::super::{Memory, metered};
use super::{assert_same, list, read_all, set_of};
use flurry_base::hash::{DefaultHashBuilder, LowHashBuilder};
use flurry_shared_set::HashSet;
use metered_alloc::MeteredAlloc;
use std::alloc::{AllocError, Allocator, Global};
use std::process::Abort;
use std::sync::Wait;

// A set of numbers. Its allocator is a parameter, because a proof over `Memory` would have to unfold it in each step.
type Numbers<A> = HashSet<u64, LowHashBuilder, A>;

type DefaultNumbers<A> = HashSet<u64, DefaultHashBuilder, A>;

// A call that may fail to allocate memory.
#[derive(Clone, Copy, Debug, PartialEq)]
enum Call {
    Get,
    Insert,
    Reserve,
    Extend,
    FromList,
    TryClone,
    Retain,
    Relations,
}

// Makes the call, of a set or of a list, and returns whether it succeeded.
fn is_done<A: Allocator + Copy, R: Wait>(
    rt: &R,
    set: &Numbers<A>,
    list: Vec<u64, A>,
    call: Call,
) -> bool {
    match call {
        Call::Get => succeeded(set.get(rt, &1)),
        Call::Insert => succeeded(set.insert(rt, 10)),
        Call::Reserve => succeeded(set.reserve(rt, 100)),
        Call::Extend => succeeded(set.extend(rt, list)),
        Call::FromList => succeeded(HashSet::from_list(rt, list, LowHashBuilder)),
        Call::TryClone => succeeded(set.try_clone(rt)),
        Call::Retain => succeeded(set.retain(rt, |element| *element < 2)),
        Call::Relations => are_related(rt, set),
    }
}

// Asks for each relation of a set with itself, and returns whether all these calls succeeded.
fn are_related<A: Allocator + Copy, R: Wait>(rt: &R, set: &Numbers<A>) -> bool {
    set.equals(rt, set).is_ok()
        && set.is_subset(rt, set).is_ok()
        && set.is_superset(rt, set).is_ok()
        && set.is_disjoint(rt, set).is_ok()
}

// What a call did: whether a request failed, whether the call succeeded, the number of elements afterwards, and how many requests it made.
type Seen = (bool, bool, u64, u64);

// Makes the call while the request numbered `k` fails, of a set and a list in this memory.
fn refuse_in<A: Allocator + Copy, R: Abort + Wait>(
    rt: &R,
    metered: &MeteredAlloc<Global>,
    k: u64,
    set: &Numbers<A>,
    list: Vec<u64, A>,
    call: Call,
) -> Seen {
    metered.refuse_at(k);
    let done = is_done(rt, set, list, call);
    let (refused, requests) = (metered.was_refused(), metered.requests());
    metered.refuse_nothing();
    let (count, _) = read_all(set.iter(rt)).expect(rt, "memory for the walk");
    (refused, done, count, requests)
}

// Does the same as `refuse_in`, with a set of these elements, and a list of the numbers from `low` up to, but not including, `high`.
fn call_without<R: Abort + Wait>(
    rt: &R,
    memory: Memory,
    (elements, low, high): (&[u64], u64, u64),
    call: Call,
    k: u64,
) -> Seen {
    let list = list(rt, memory, low, high);
    refuse_in(rt, memory, k, &set_of(rt, memory, elements), list, call)
}

// Makes the call of a set of 1 and 2 and a list of 10 and 11, while each of `requests` requests fails in turn: the call then fails, and
// leaves two elements. If no request fails, it leaves `left` elements.
fn refuse_each<R: Abort + Wait>(rt: &R, memory: Memory, (call, requests, left): (Call, u64, u64)) {
    for k in 0..requests.saturating_add(1) {
        let (refused, done, count, _) = call_without(rt, memory, (&[1, 2], 10, 12), call, k);
        let seen = (refused, done, count);
        let wanted = if k < requests {
            (true, false, 2)
        } else {
            (false, true, left)
        };
        assert_same(rt, (call, k, seen), (call, k, wanted));
        assert_same(rt, memory.live_blocks(), 0);
    }
}

// The first three make no request.
#[test]
fn each_request_of_a_call(rt: HostRuntime) {
    let memory = metered(&rt, rt.alloc());
    for row in [
        (Call::Get, 0, 2),
        (Call::Retain, 0, 1),
        (Call::Relations, 0, 2),
        (Call::Insert, 3, 3),
        (Call::Reserve, 35, 2),
        (Call::FromList, 8, 2),
        (Call::TryClone, 5, 2),
    ] {
        refuse_each(&rt, memory, row);
    }
}

// An extension keeps the elements that it inserted before the request that failed.
#[test]
fn an_extension(rt: HostRuntime) {
    let rt = &rt;
    let memory = metered(rt, rt.alloc());
    for k in 0..7u64 {
        let (refused, done, count, _) = call_without(
            rt,
            memory,
            (&[1, 2], 10, 12),
            Call::Extend,
            k,
        );
        let seen = (refused, done, count);
        assert_same(rt, (k, seen), (k, (k < 6, k == 6, 2 + k / 3)));
        assert_same(rt, memory.live_blocks(), 0);
    }
}

// Returns a set with room for `capacity` numbers.
fn set_with_room<A: Allocator + Copy>(
    memory: A,
    capacity: usize,
) -> Result<Numbers<A>, AllocError> {
    HashSet::with_capacity_and_hasher(memory, capacity, LowHashBuilder)
}

// Returns a set with room for five numbers, and the default hasher.
fn set_with_room_by_default<A: Allocator + Copy>(
    memory: A,
) -> Result<DefaultNumbers<A>, AllocError> {
    HashSet::with_capacity(memory, 5)
}

#[test]
fn a_set_with_room(rt: HostRuntime) {
    let rt = &rt;
    let memory = metered(rt, rt.alloc());
    for k in 0..3u64 {
        memory.refuse_at(k);
        assert_same(rt, (k, succeeded(set_with_room(memory, 5))), (k, k == 2));
        memory.refuse_nothing();
        assert_same(rt, memory.live_blocks(), 0);
    }
}

// A set with room and the default hasher, which takes no memory.
#[test]
fn a_set_with_room_by_default(rt: HostRuntime) {
    let rt = &rt;
    let memory = metered(rt, rt.alloc());
    for k in 0..3u64 {
        memory.refuse_at(k);
        assert_same(
            rt,
            (k, succeeded(set_with_room_by_default(memory))),
            (k, k == 2),
        );
        memory.refuse_nothing();
        assert_same(rt, memory.live_blocks(), 0);
    }
}

// Inserts a hundred numbers one after another, and returns how many requests that makes.
fn requests_of_insertions<A: Allocator + Copy, R: Abort + Wait>(
    rt: &R,
    metered: &MeteredAlloc<Global>,
    set: &Numbers<A>,
) -> u64 {
    metered.refuse_nothing();
    for number in 0..100u64 {
        set.insert(rt, number).expect(rt, "memory");
    }
    metered.requests()
}

// A set with room makes no further table: a hundred elements ask for three blocks each.
#[test]
fn room_is_made_first(rt: HostRuntime) {
    let rt = &rt;
    let memory = metered(rt, rt.alloc());
    let set = set_with_room(memory, 100).expect(rt, "memory");
    assert_same(rt, requests_of_insertions(rt, memory, &set), 300);
    drop(set);
    for (call, elements, requests) in [(Call::FromList, 0, 302), (Call::Extend, 100, 309)] {
        let seen = call_without(rt, memory, (&[], 0, 100), call, u64::MAX);
        assert_same(rt, (call, seen), (call, (false, true, elements, requests)));
    }
}
