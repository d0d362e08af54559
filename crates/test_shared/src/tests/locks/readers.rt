//! Look-ups in one bin at the same time.
ghost use Rattle.std.proofs.Common.{rules};
ghost use Rattle.std.specs.Cmp.{partial_order_from_own_ties};
ghost use Rattle.std.specs.Cmp.Rules.{comparing};
ghost use Rattle.std.specs.Ordering.{nat_cmp, on, as_partial_cmp};

use super::assert_same;
use super::calls::{is_present, reply_of};
use flurry_bins_slots::NoFn;
use flurry_shared_locks::{LockField, Locks};
use flurry_shared_replies::reply_to;
use flurry_steps::party::{Call, OwnedCall};
use std::alloc::{Allocator, Global};
use std::cmp::Ordering;
use std::process::Abort;
use std::sync::Wait;
use std::sync::atomic::{self, AtomicBool, AtomicU64};
use std::thread;
use std::thread::Threads;

// The most turns that one comparison waits for the other.
const TURNS: u32 = 1_000_000;

// Where two comparisons meet, once it is open: how many have begun since, and whether one waited in vain.
#[derive(Drop)]
struct Meeting {
    is_open: AtomicBool,
    begun: AtomicU64,
    missed: AtomicBool,
}

impl Meeting {
    fn new() -> Self {
        Meeting {
            is_open: AtomicBool::new(false),
            begun: AtomicU64::new(0),
            missed: AtomicBool::new(false),
        }
    }

    fn open(&self) {
        self.is_open.store(true, atomic::Ordering::SeqCst);
    }

    // Says that a comparison has begun, and waits until two have.
    fn begin(&self) {
        if !self.is_open.load(atomic::Ordering::SeqCst) {
            return;
        }
        self.begun.fetch_add(1, atomic::Ordering::SeqCst);
        for _ in 0..TURNS {
            if self.begun.load(atomic::Ordering::SeqCst) >= 2 {
                return;
            }
            thread::yield_now();
        }
        self.missed.store(true, atomic::Ordering::SeqCst);
    }

    fn has_met(&self) -> bool {
        self.begun.load(atomic::Ordering::SeqCst) >= 2
            && !self.missed.load(atomic::Ordering::SeqCst)
    }
}

// A key that is a number, whose comparisons meet.
#[derive(Clone, Copy)]
#[derive_where(PartialEq, Eq)]
struct MeetingKey<'m> {
    number: u64,
    #[derive_where(skip(EqHashOrd))]
    meeting: &'m Meeting,
}

impl<'m> Ord for MeetingKey<'m> {
    ghost cmp = { on (λ k. k.number) nat_cmp };

    ghost total = { Prim.search (comparing, rules) };

    ghost matches_partial_cmp = { Prim.search (comparing, rules) };

    ghost matches_eq = { Prim.search (comparing, rules) };

    fn cmp(&self, other: &MeetingKey<'m>) -> Ordering {
        self.meeting.begin();
        self.number.cmp(&other.number)
    }
}

impl<'m> PartialOrd for MeetingKey<'m> {
    ghost partial_cmp = { as_partial_cmp (on (λ k. k.number) nat_cmp) };

    ghost laws = { partial_order_from_own_ties (Prim.search (comparing, rules)) (Prim.search (comparing, rules)) };

    fn partial_cmp(&self, other: &MeetingKey<'m>) -> Option<Ordering> {
        Some(self.cmp(other))
    }
}

// The hash of each key.
const HASH: u64 = 7;

// How the steps of a look-up are done.
#[derive(Clone, Copy, Debug)]
enum Way {
    // The first ones in one go.
    AtOnce,
    // One after another.
    Driven,
}

// Returns whether a look-up finds the key.
fn finds<K: Ord + Copy + Drop, A: Allocator + Copy, R: Wait>(
    rt: &R,
    locks: &Locks<K, u64, A>,
    key: &K,
    way: Way,
) -> bool {
    let reply = match way {
        Way::AtOnce => {
            let call: Call<&K, K, u64, NoFn, A> = Call::ContainsKey(key);
            reply_to(&LockField::new(rt, locks), call, HASH, 1)
        }
        Way::Driven => {
            let call: OwnedCall<K, u64, NoFn> = OwnedCall::ContainsKey(*key);
            reply_of(rt, locks, HASH, call)
        }
    };
    let found = is_present(&reply);
    drop(reply);
    found
}

// Looks a key up in two threads, and returns whether each found it.
fn find_twice<
    K: Ord + Copy + Drop + Send + Sync,
    A: Allocator + Copy + Send + Sync,
    R: Threads + Wait + Sync,
>(rt: &R, locks: &Locks<K, u64, A>, key: &K, way: Way) -> (bool, bool) {
    thread::join(
        rt,
        move || finds(rt, locks, key, way),
        move || finds(rt, locks, key, way),
    )
}

// Two look-ups of one key compare it at the same time.
fn meets(rt: &(impl Abort + Threads + Wait + Sync), alloc: Global, way: Way) {
    let meeting = Meeting::new();
    let key = MeetingKey {
        number: 7,
        meeting: &meeting,
    };
    let locks: &Locks<MeetingKey<'_>, u64, Global> = &Locks::new(alloc);
    let call: OwnedCall<MeetingKey<'_>, u64, NoFn> = OwnedCall::Insert(key, 1);
    drop(reply_of(rt, locks, HASH, call));
    meeting.open();
    let found = find_twice(rt, locks, &key, way);
    assert_same(rt, (found, meeting.has_met()), ((true, true), true));
}

// A look-up takes its bin's lock to read, so that another one looks there at the same time.
#[test]
fn two_look_ups_in_one_bin(rt: HostRuntime) {
    meets(&rt, rt.alloc(), Way::AtOnce);
    meets(&rt, rt.alloc(), Way::Driven);
}
