//! The same calls at a bin that has moved, where no call does its first steps at once.

use super::super::super::locks::stop;
use super::super::assert_same;
use super::deeds::Deed;
use super::{Guest, GuestsRef, Meeting, Who, fill, in_two_threads};
use flurry_base::hash::ZeroHashBuilder;
use flurry_shared_locks::Locks;
use flurry_shared_view::HashMapRef;
use flurry_steps::party::{Event, OwnedCall};
use std::alloc::Global;
use std::process::Abort;
use std::sync::Wait;
use std::thread::Threads;

// The steps of a growth from 16 bins up to the move of the last of them: the call begins the growth and claims the bins in three.
const STEPS: u64 = 19;

// Moves all bins into a larger table, which is never published.
fn move_bins<R: Abort + Wait>(rt: &R, locks: &Locks<Guest, Guest, Global>) {
    let stopped = stop(rt, locks, 0, OwnedCall::Reserve(20), STEPS);
    assert_same(rt, stopped, Some(Event::Moved(4, 0)));
}

fn meets<R: Abort + Threads + Wait + Sync>(rt: &R, alloc: Global, deed: Deed, who: Who) -> bool {
    let meeting = Meeting::leak(rt, alloc);
    let locks: &Locks<Guest, Guest, Global> = &Locks::new(alloc);
    let view: &GuestsRef<'_, R, Global> = &HashMapRef::new(rt, locks, &ZeroHashBuilder, 1);
    fill(view, who, meeting);
    move_bins(rt, locks);
    in_two_threads(rt, locks, deed, who, meeting);
    meeting.has_met()
}

// A row for each call that drops a key, a value or a function.
#[test]
fn calls_at_a_moved_bin(rt: HostRuntime) {
    for (deed, who) in [
        (Deed::Clear, Who::Key),
        (Deed::Replace, Who::Value),
        (Deed::Erase, Who::Key),
        (Deed::Erase, Who::Value),
        (Deed::Compute, Who::PassedIn),
        (Deed::Merge, Who::PassedIn),
        (Deed::UpdateNowhere, Who::PassedIn),
        (Deed::RemoveIf, Who::Key),
        (Deed::ReplaceNothing, Who::PassedIn),
        (Deed::ComputeNowhere, Who::PassedIn),
        (Deed::Remove, Who::Key),
        (Deed::RemoveSeen, Who::Key),
        (Deed::Insert, Who::PassedIn),
        (Deed::TryInsert, Who::PassedIn),
        (Deed::Retain, Who::Key),
        (Deed::RetainForce, Who::Key),
        (Deed::Read, Who::Value),
    ] {
        let met = meets(&rt, rt.alloc(), deed, who);
        assert_same(&rt, (deed, who, met), (deed, who, true));
    }
}
