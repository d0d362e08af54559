//! Each request for memory of a call fails in turn.
//!
//! `Arc::try_clone` makes no request to the allocator. It fails only if an `Arc` has about 2^63 owners. That the map is unchanged if it
//! fails is known from the contracts alone.

mod change;
mod computed;
mod copies;
mod inserted;
mod lists;
mod quiet;
mod sets;
mod tables;

use super::{Memory, assert_same, assert_same_at, lent, metered, taken};
use flurry_base::hash::{KeyHasher, LowHashBuilder};
use flurry_seq::SeqMap;
use metered_alloc::MeteredAlloc;
use std::alloc::{Allocator, Global};
use std::collections::VecDeque;
use std::process::Abort;

// A map of numbers. Its allocator is a parameter, because a proof over `Memory` unfolds it in each step.
type NumberMap<S, A> = SeqMap<u64, u64, S, A>;

// More requests than any call makes.
const MAX_REQUESTS: u64 = 100;

// A call whose requests fail in turn.
pub(super) trait Refused {
    // Makes the call while the request numbered `k` of this memory fails, checks what it did, and returns whether it made that request.
    fn run_refusing<A: Allocator + Copy>(
        &self,
        rt: &impl Abort,
        metered: &MeteredAlloc<Global>,
        memory: A,
        k: u64,
    ) -> bool;
}

// Makes each request of a call fail in turn. The call makes at least one request, and every block is deallocated.
pub(super) fn refuse_each<C: Refused>(rt: &impl Abort, alloc: Global, call: &C) {
    let memory = metered(rt, alloc);
    for k in 0..MAX_REQUESTS {
        let refused = call.run_refusing(rt, memory, memory, k);
        assert_same_at(rt, k, memory.live_blocks(), 0);
        if !refused {
            assert_same(rt, k > 0, true);
            return;
        }
    }
    panic!(rt; "it makes fewer requests");
}

// Inserts an absent key.
fn adds<S: KeyHasher<u64>, A: Allocator + Copy>(
    rt: &impl Abort,
    map: &mut NumberMap<S, A>,
    key: u64,
    value: u64,
) {
    let old = map.insert(key, value).expect(rt, "memory for the pair");
    assert_same(rt, taken(old), None);
}

// Returns the map of the keys below `count`, each with itself as its value.
fn map_of<A: Allocator + Copy>(
    rt: &impl Abort,
    memory: A,
    count: u64,
) -> NumberMap<LowHashBuilder, A> {
    let mut map = SeqMap::with_hasher(memory, LowHashBuilder);
    for key in 0..count {
        adds(rt, &mut map, key, key);
    }
    map
}

// Returns the number at a key, or `None` if the key is absent.
fn number_at<S: KeyHasher<u64>, A: Allocator + Copy>(
    map: &NumberMap<S, A>,
    key: u64,
) -> Option<u64> {
    lent(map.get(&key))
}

// Adds a call as a value to a queue.
fn push_call<T: Drop, A: Allocator + Copy>(rt: &impl Abort, calls: &mut VecDeque<T, A>, call: T) {
    calls.push_back(call).expect(rt, "memory for the call");
}

// Returns the numbers of bins and pairs.
fn size_of<S: KeyHasher<u64>, A: Allocator + Copy>(map: &NumberMap<S, A>) -> (usize, usize) {
    (map.capacity(), map.len())
}
