//! Each request for memory fails in turn.
//!
//! How a list is cut among the threads may differ from run to run, and so may the number of requests. Each case ends with the first run in
//! which the request was not made.

mod sets;

use super::super::metered;
use super::{assert_same, lent};
use flurry_base::hash::LowHashBuilder;
use flurry_seq::SeqMap;
use flurry_seq_par::map;
use metered_alloc::MeteredAlloc;
use std::alloc::{Allocator, Global};
use std::process::Abort;
use std::thread::Threads;

// A map of numbers. Its allocator is a parameter, because a proof over `&'static MeteredAlloc<Global>` unfolds it in each step.
type Numbers<A> = SeqMap<u64, u64, LowHashBuilder, A>;

// More requests than any call makes.
const MAX_REQUESTS: u64 = 200;

// A call whose requests fail in turn. A call that changes a map or a set has the number of its pairs or elements before the call.
#[derive(Clone, Copy)]
enum Call {
    Builds,
    Extends { old: u64 },
    Joins { old: u64 },
    BuildsSet,
    ExtendsSet { old: u64 },
}

// Which requests fail.
#[derive(Clone, Copy)]
struct Refusal {
    // The number of the first one.
    k: u64,
    // Whether all later ones fail too.
    all: bool,
}

// Makes the call while requests of this memory fail. Checks what the call did, and returns whether it made the first of those requests.
fn make<A: Allocator + Copy + Send + Sync, R: Abort + Threads + Sync>(
    rt: &R,
    metered: &MeteredAlloc<Global>,
    memory: A,
    call: Call,
    refusal: Refusal,
) -> bool {
    match call {
        Call::Builds => build(rt, metered, memory, refusal),
        Call::Extends { old } => extend(rt, metered, memory, old, refusal),
        Call::Joins { old } => join_to(rt, metered, memory, old, refusal),
        Call::BuildsSet => sets::build(rt, metered, memory, refusal),
        Call::ExtendsSet { old } => sets::extend(rt, metered, memory, old, refusal),
    }
}

// Makes each request of a call fail in turn, alone or with all later ones. The call makes at least one request, and every block is
// deallocated.
fn refuse_in_turn<A: Allocator + Copy + Send + Sync, R: Abort + Threads + Sync>(
    rt: &R,
    metered: &MeteredAlloc<Global>,
    memory: A,
    call: Call,
    all: bool,
) {
    for k in 0..MAX_REQUESTS {
        let refused = make(rt, metered, memory, call, Refusal { k, all });
        assert_same(rt, (k, metered.live_blocks()), (k, 0));
        if !refused {
            assert_same(rt, k > 0, true);
            return;
        }
    }
    panic!(rt; "it makes fewer requests");
}

// Makes each request fail, alone and with all later ones.
fn refuse_each(rt: &(impl Abort + Threads + Sync), alloc: Global, call: Call) {
    let memory = metered(rt, alloc);
    refuse_in_turn(rt, memory, memory, call, false);
    refuse_in_turn(rt, memory, memory, call, true);
}

// Makes requests fail from now on.
fn refuse(metered: &MeteredAlloc<Global>, refusal: Refusal) {
    if refusal.all {
        metered.refuse_from(refusal.k);
    } else {
        metered.refuse_at(refusal.k);
    }
}

// Returns a list of `count` keys from `from` on. The value of a key is the key plus `add`.
fn list<A: Allocator>(
    rt: &impl Abort,
    memory: A,
    (from, count, add): (u64, u64, u64),
) -> Vec<(u64, u64), A> {
    let mut list = Vec::new(memory);
    for i in 0..count {
        let key = from.wrapping_add(i);
        list.push((key, key.wrapping_add(add)))
            .expect(rt, "memory for the list");
    }
    list
}

fn numbers<A: Allocator + Copy>(rt: &impl Abort, memory: A, pairs: (u64, u64, u64)) -> Numbers<A> {
    SeqMap::from_list(memory, list(rt, memory, pairs), LowHashBuilder).expect(
        rt,
        "memory for the map",
    )
}

// Asserts that the map has the keys below `old`, each with itself as its value. If `new` is `true`, it also has the keys 2 to 7 with their
// new values.
fn holds<A: Allocator + Copy>(rt: &impl Abort, map: &Numbers<A>, old: u64, new: bool) {
    let mut count = 0usize;
    for key in 0..8u64 {
        let wanted = if new && key >= 2 {
            Some(key + 100)
        } else if key < old {
            Some(key)
        } else {
            None
        };
        assert_same(rt, (key, lent(map.get(&key))), (key, wanted));
        if wanted.is_some() {
            count = count.wrapping_add(1);
        }
    }
    assert_same(rt, map.len(), count);
}

// Asserts that a building succeeds if no request failed, and fails if its first request did. If a later request failed, it may be one that
// `rayon` does without.
fn refused_or_done(rt: &impl Abort, k: u64, refused: bool, done: bool) {
    assert_same(rt, (k, refused || done), (k, true));
    assert_same(rt, (k, done && k == 0), (k, false));
}

// Makes a map from three pieces of a list.
fn build<A: Allocator + Copy + Send + Sync, R: Abort + Threads + Sync>(
    rt: &R,
    metered: &MeteredAlloc<Global>,
    memory: A,
    refusal: Refusal,
) -> bool {
    let list = list(rt, memory, (2, 6, 100));
    refuse(metered, refusal);
    let answer = map::from_par_list(rt, memory, list, LowHashBuilder, 2);
    let refused = metered.was_refused();
    metered.refuse_nothing();
    refused_or_done(rt, refusal.k, refused, answer.is_ok());
    if let Ok(map) = answer {
        holds(rt, &map, 0, true);
    }
    refused
}

#[test]
fn from_par_list(rt: HostRuntime) {
    refuse_each(&rt, rt.alloc(), Call::Builds);
}

// Extends a map of `old` pairs by the list. If the map has a table, only the building can fail. If it has none, joining may also fail,
// before the first pair. In either case the map is unchanged.
fn extend<A: Allocator + Copy + Send + Sync, R: Abort + Threads + Sync>(
    rt: &R,
    metered: &MeteredAlloc<Global>,
    memory: A,
    old: u64,
    refusal: Refusal,
) -> bool {
    let mut map = numbers(rt, memory, (0, old, 0));
    let list = list(rt, memory, (2, 6, 100));
    refuse(metered, refusal);
    let done = map::par_extend(rt, &mut map, list, 2).is_ok();
    let refused = metered.was_refused();
    metered.refuse_nothing();
    refused_or_done(rt, refusal.k, refused, done);
    holds(rt, &map, old, done);
    refused
}

#[test]
fn par_extend(rt: HostRuntime) {
    refuse_each(&rt, rt.alloc(), Call::Extends { old: 4 });
    refuse_each(&rt, rt.alloc(), Call::Extends { old: 0 });
}

// Joins another map to a map of `old` pairs. This fails only if the map has no table and all requests fail, and the map is then unchanged.
fn join_to<A: Allocator + Copy>(
    rt: &impl Abort,
    metered: &MeteredAlloc<Global>,
    memory: A,
    old: u64,
    refusal: Refusal,
) -> bool {
    let mut left = numbers(rt, memory, (0, old, 0));
    let right = numbers(rt, memory, (2, 6, 100));
    refuse(metered, refusal);
    let done = map::join(&mut left, right).is_ok();
    let refused = metered.was_refused();
    metered.refuse_nothing();
    let Refusal { k, all } = refusal;
    assert_same(rt, (k, !done), (k, old == 0 && all && k == 0));
    holds(rt, &left, old, done);
    refused
}

#[test]
fn join(rt: HostRuntime) {
    refuse_each(&rt, rt.alloc(), Call::Joins { old: 4 });
    refuse_each(&rt, rt.alloc(), Call::Joins { old: 0 });
}
