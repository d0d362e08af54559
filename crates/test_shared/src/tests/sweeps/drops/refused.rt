//! The same calls where memory is refused.

use super::super::super::{Memory, metered};
use super::super::assert_same;
use super::deeds::Deed;
use super::{Guest, Meeting, Who, fill, in_two_threads};
use flurry_base::hash::ZeroHashBuilder;
use flurry_shared_locks::Locks;
use flurry_shared_view::HashMapRef;
use metered_alloc::MeteredAlloc;
use std::alloc::{Allocator, Global};
use std::process::Abort;
use std::sync::Wait;
use std::thread::Threads;

// Does the deed while all requests but the first `granted` ones are refused. Returns whether one was, and the drop met the calls of the
// other thread.
fn meets_in<A: Allocator + Copy + Send + Sync, R: Threads + Wait + Sync>(
    rt: &R,
    metered: &MeteredAlloc<Global>,
    locks: &Locks<Guest, Guest, A>,
    deed: Deed,
    granted: u64,
    meeting: &'static Meeting,
) -> bool {
    metered.refuse_from(granted);
    in_two_threads(rt, locks, deed, Who::PassedIn, meeting);
    let was_refused = metered.was_refused();
    metered.refuse_nothing();
    was_refused && meeting.has_met()
}

fn meets<R: Abort + Threads + Wait + Sync>(
    rt: &R,
    alloc: Global,
    deed: Deed,
    granted: u64,
    is_new: bool,
) -> bool {
    let memory = metered(rt, alloc);
    let meeting = Meeting::leak(rt, alloc);
    let locks: &Locks<Guest, Guest, Memory> = &Locks::new(memory);
    if !is_new {
        fill(
            &HashMapRef::new(rt, locks, &ZeroHashBuilder, 1),
            Who::PassedIn,
            meeting,
        );
    }
    meets_in(rt, memory, locks, deed, granted, meeting)
}

// A row for each call that drops what it is given, since it has no memory to keep it. An insertion has its value's `Arc` made before it
// takes a lock. On a map without a table, the table is refused.
#[test]
fn calls_without_memory(rt: HostRuntime) {
    for (deed, granted, is_new) in [
        (Deed::Insert, 0, false),
        (Deed::InsertNew, 1, false),
        (Deed::TryInsertNew, 0, false),
        (Deed::ComputeHere, 0, false),
        (Deed::Compute, 0, false),
        (Deed::Merge, 0, false),
        (Deed::Update, 0, false),
        (Deed::ReplaceIf, 0, false),
        (Deed::InsertNew, 1, true),
        (Deed::TryInsertNew, 0, true),
    ] {
        let met = meets(&rt, rt.alloc(), deed, granted, is_new);
        assert_same(
            &rt,
            (deed, granted, is_new, met),
            (deed, granted, is_new, true),
        );
    }
}
