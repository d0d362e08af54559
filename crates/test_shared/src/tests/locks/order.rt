//! No step holds the lock of a bin and that of the control, and a move takes that of its bin first.

use super::assert_same;
use super::calls::reply_of;
use flurry_bins_slots::{ComputeFn, NoFn, Verdict};
use flurry_shared_locks::{LockField, Locks};
use flurry_steps::party::OwnedCall;
use std::alloc::Allocator;
use std::sync::Wait;
use std::sync::atomic::{AtomicBool, Ordering};
use std::thread;
use std::thread::Threads;

// The most turns that one thread waits for another. On a machine that is full, a turn of a thread that counts can take as long as many
// thousands of one that waits.
const TURNS: u32 = 100_000_000;

// Waits until a flag is set, and returns whether it was set in time.
fn is_set_in_time(flag: &AtomicBool) -> bool {
    for _ in 0..TURNS {
        if flag.load(Ordering::SeqCst) {
            return true;
        }
        thread::yield_now();
    }
    false
}

// How far three threads are: one holds a bin, one is about to ask for that bin, to insert a pair or to move it, and one has counted the
// pairs.
#[derive(Drop)]
struct Flags {
    moves: bool,
    holds: AtomicBool,
    asks: AtomicBool,
    has_counted: AtomicBool,
    was_in_time: AtomicBool,
}

// A change that lasts until the pairs are counted.
#[derive(Clone, Copy)]
struct Lasting<'m> {
    flags: &'m Flags,
}

impl<'m> ComputeFn<u64, u64> for Lasting<'m> {
    ghost can_change = { λ _. Unit {0} };

    ghost never_keeps = { λ _. Unit {0} };

    ghost changes = { λ _ _ _ _. Unit {0} };

    fn change<'a>(self, _key: &'a u64, value: Option<&'a u64>) -> Verdict<u64> {
        self.flags.holds.store(true, Ordering::SeqCst);
        let was_in_time = is_set_in_time(&self.flags.has_counted);
        self.flags.was_in_time.store(was_in_time, Ordering::SeqCst);
        match value {
            Some(value) => Verdict::Set(*value),
            None => Verdict::Remove,
        }
    }
}

// Holds the bin of the key 1.
fn hold<A: Allocator + Copy, R: Wait>(rt: &R, locks: &Locks<u64, u64, A>, flags: &Flags) {
    drop(reply_of(rt, locks, 1, OwnedCall::Compute(1, Lasting { flags })));
}

// Asks for the bin of the key 1, while it is held.
fn ask<A: Allocator + Copy, R: Wait>(rt: &R, locks: &Locks<u64, u64, A>, flags: &Flags) {
    let _ = is_set_in_time(&flags.holds);
    flags.asks.store(true, Ordering::SeqCst);
    let call: OwnedCall<u64, u64, NoFn> = if flags.moves {
        OwnedCall::Reserve(20)
    } else {
        OwnedCall::Insert(1, 2)
    };
    drop(reply_of(rt, locks, 1, call));
}

// Waits until a bin of the first table has moved.
fn wait_for_move<A: Allocator, R: Wait>(rt: &R, locks: &Locks<u64, u64, A>, index: usize) {
    for _ in 0..TURNS {
        if let Some(slot) = LockField::new(rt, locks).slot(4, index) {
            if !slot.read(rt).is_live() {
                return;
            }
        }
        thread::yield_now();
    }
}

// Takes the lock of a bin that is there.
fn look_at<A: Allocator, R: Wait>(rt: &R, locks: &Locks<u64, u64, A>, table: u8, index: usize) {
    if let Some(slot) = LockField::new(rt, locks).slot(table, index) {
        drop(slot.read(rt));
    }
}

// Gives other threads some turns.
fn give_turns() {
    for _ in 0..1_000u32 {
        thread::yield_now();
    }
}

// Counts the pairs, once the other threads hold the bin and wait for it, and looks at the halves of the bin in a larger table. A thread
// that waits for a lock cannot be seen, so this gives it some turns to come there, once a mover has moved the bin that is next to it.
fn count<A: Allocator + Copy, R: Wait>(rt: &R, locks: &Locks<u64, u64, A>, flags: &Flags) {
    let _ = is_set_in_time(&flags.asks);
    if flags.moves {
        wait_for_move(rt, locks, 2);
    }
    give_turns();
    let _ = LockField::new(rt, locks).len();
    look_at(rt, locks, 5, 1);
    look_at(rt, locks, 5, 17);
    flags.has_counted.store(true, Ordering::SeqCst);
}

// Does all three in threads of their own.
fn in_three_threads<A: Allocator + Copy + Send + Sync, R: Threads + Wait + Sync>(
    rt: &R,
    locks: &Locks<u64, u64, A>,
    flags: &Flags,
) {
    thread::scope(thread::scope_env(), rt, |scope| {
        let holder = scope.spawn(move || hold(rt, locks, flags));
        let asker = scope.spawn(move || ask(rt, locks, flags));
        if holder.is_ok() && asker.is_ok() {
            count(rt, locks, flags);
        }
    });
}

// Does all three, with locks that have the key 1.
fn counts_in_time<A: Allocator + Copy + Send + Sync, R: Threads + Wait + Sync>(
    rt: &R,
    locks: &Locks<u64, u64, A>,
    moves: bool,
) -> bool {
    let flags = Flags {
        moves,
        holds: AtomicBool::new(false),
        asks: AtomicBool::new(false),
        has_counted: AtomicBool::new(false),
        was_in_time: AtomicBool::new(false),
    };
    let call: OwnedCall<u64, u64, NoFn> = OwnedCall::Insert(1, 1);
    drop(reply_of(rt, locks, 1, call));
    in_three_threads(rt, locks, &flags);
    flags.was_in_time.load(Ordering::SeqCst)
}

// A call that waits for a bin holds no lock of the control: the pairs can be counted meanwhile.
#[test]
fn pairs_are_counted_while_a_call_waits_for_a_bin(rt: HostRuntime) {
    let locks = Locks::new(rt.alloc());
    assert_same(&rt, counts_in_time(&rt, &locks, false), true);
}

// A call that waits for a bin to move it holds no lock of the control, and none of the halves.
#[test]
fn pairs_are_counted_while_a_call_waits_to_move_a_bin(rt: HostRuntime) {
    let locks = Locks::new(rt.alloc());
    assert_same(&rt, counts_in_time(&rt, &locks, true), true);
}
