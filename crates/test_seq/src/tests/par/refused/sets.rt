//! The requests of sets.

use super::{Call, Refusal, refuse, refuse_each, refused_or_done};
use crate::tests::assert_same;
use flurry_base::hash::LowHashBuilder;
use flurry_seq_par::set;
use flurry_seq_set::SeqSet;
use metered_alloc::MeteredAlloc;
use std::alloc::{Allocator, Global};
use std::process::Abort;
use std::thread::Threads;

type Elements<A> = SeqSet<u64, LowHashBuilder, A>;

// Returns a list of the numbers from `from` to `to`, without `to`.
fn list<A: Allocator>(rt: &impl Abort, memory: A, from: u64, to: u64) -> Vec<u64, A> {
    let mut list = Vec::new(memory);
    for element in from..to {
        list.push(element).expect(rt, "memory for the list");
    }
    list
}

// Asserts that the set has the elements below `old`, and if `new` is `true` also the elements 2 to 7.
fn holds<A: Allocator + Copy>(rt: &impl Abort, set: &Elements<A>, old: u64, new: bool) {
    let mut count = 0usize;
    for element in 0..8u64 {
        let wanted = element < old || new && element >= 2;
        assert_same(rt, (element, set.contains(&element)), (element, wanted));
        if wanted {
            count = count.wrapping_add(1);
        }
    }
    assert_same(rt, set.len(), count);
}

// Makes a set from three pieces of a list.
pub(super) fn build<A: Allocator + Copy + Send + Sync, R: Abort + Threads + Sync>(
    rt: &R,
    metered: &MeteredAlloc<Global>,
    memory: A,
    refusal: Refusal,
) -> bool {
    let list = list(rt, memory, 2, 8);
    refuse(metered, refusal);
    let answer = set::from_par_list(rt, memory, list, LowHashBuilder, 2);
    let refused = metered.was_refused();
    metered.refuse_nothing();
    refused_or_done(rt, refusal.k, refused, answer.is_ok());
    if let Ok(set) = answer {
        holds(rt, &set, 0, true);
    }
    refused
}

#[test]
fn from_par_list(rt: HostRuntime) {
    refuse_each(&rt, rt.alloc(), Call::BuildsSet);
}

// Extends a set of `old` elements by the list. If the call fails, the set is unchanged.
pub(super) fn extend<A: Allocator + Copy + Send + Sync, R: Abort + Threads + Sync>(
    rt: &R,
    metered: &MeteredAlloc<Global>,
    memory: A,
    old: u64,
    refusal: Refusal,
) -> bool {
    let mut set = SeqSet::from_list(memory, list(rt, memory, 0, old), LowHashBuilder).expect(
        rt,
        "memory for the set",
    );
    let list = list(rt, memory, 2, 8);
    refuse(metered, refusal);
    let done = set::par_extend(rt, &mut set, list, 2).is_ok();
    let refused = metered.was_refused();
    metered.refuse_nothing();
    refused_or_done(rt, refusal.k, refused, done);
    holds(rt, &set, old, done);
    refused
}

#[test]
fn par_extend(rt: HostRuntime) {
    refuse_each(&rt, rt.alloc(), Call::ExtendsSet { old: 4 });
    refuse_each(&rt, rt.alloc(), Call::ExtendsSet { old: 0 });
}
