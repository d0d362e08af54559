//! Pairs that are counted at tallies, in place of the control.

use super::assert_same;
use super::calls::reply_of;
use flurry_bins_slots::NoFn;
use flurry_shared_locks::{LockField, Locks};
use flurry_shared_replies::reply_to;
use flurry_steps::party::{Call, OwnedCall};
use std::alloc::Allocator;
use std::process::Abort;
use std::sync::Wait;

// How the steps of an insertion are done.
#[derive(Clone, Copy, Debug, PartialEq)]
enum Way {
    // The first ones in one go.
    AtOnce,
    // One after another.
    Driven,
}

// Inserts a key, whose hash it is.
fn puts<A: Allocator + Copy, R: Wait>(rt: &R, locks: &Locks<u64, u64, A>, key: u64, way: Way) {
    match way {
        Way::AtOnce => {
            let call: Call<&u64, u64, u64, NoFn, A> = Call::TryInsert(key, 0);
            drop(reply_to(&LockField::new(rt, locks), call, key, 1));
        }
        Way::Driven => {
            let call: OwnedCall<u64, u64, NoFn> = OwnedCall::TryInsert(key, 0);
            drop(reply_of(rt, locks, key, call));
        }
    }
}

// Returns whether so many pairs wait at the tally of a hash, and no more.
fn wait_there<A: Allocator, R: Wait>(
    rt: &R,
    locks: &Locks<u64, u64, A>,
    hash: u64,
    pairs: i64,
) -> bool {
    match LockField::new(rt, locks).tally(hash) {
        Some((tally, _)) => {
            let tally = tally.lock(rt);
            tally.is_at_least(pairs) && !tally.is_at_least(pairs.saturating_add(1))
        }
        None => false,
    }
}

// One pair waits at the tally of its hash, two at that of theirs, and none at another one. So these insertions took no lock of the control,
// which collects them.
fn puts_three<A: Allocator + Copy, R: Abort + Wait>(rt: &R, locks: &Locks<u64, u64, A>, way: Way) {
    for key in [0, 1, 17] {
        puts(rt, locks, key, way);
    }
    let waiting = (
        wait_there(rt, locks, 0, 1),
        wait_there(rt, locks, 1, 2),
        wait_there(rt, locks, 2, 0),
    );
    assert_same(rt, (way, waiting), (way, (true, true, true)));
}

#[test]
fn pairs_wait_at_their_tallies(rt: HostRuntime) {
    for way in [Way::AtOnce, Way::Driven] {
        let locks = Locks::with_table(rt.alloc(), 10).expect(&rt, "memory");
        puts_three(&rt, &locks, way);
        assert_same(&rt, LockField::new(&rt, &locks).len(), 3);
    }
}
