//! The locks of a map, which are moved into a thread, or borrowed by threads that run calls at the same time.

mod calls;
mod growths;
mod order;
mod readers;
mod tallies;
mod threads;

use super::assert_same;
pub(super) use calls::stop;
use calls::{first_step, put_all};
use flurry_bins_slots::NoFn;
use flurry_shared_locks::{LockField, Locks};
use flurry_steps::party::{Event, OwnedCall};
use std::alloc::{Allocator, Global};
use std::process::Abort;
use std::sync::Wait;
use threads::{count_in_thread, put_in_threads};

// Returns the exponent of the table that was published last, as far as it is known.
fn newest_of<A: Allocator, R>(rt: &R, locks: &Locks<u64, u64, A>) -> Option<u8> {
    let lock_field = LockField::new(rt, locks);
    lock_field.newest().map(|start| start.table())
}

// Looks a key up, and inserts it, by one step each.
fn does_first_steps<A: Allocator + Copy, R: Abort + Wait>(rt: &R, locks: &Locks<u64, u64, A>) {
    let look: OwnedCall<u64, u64, NoFn> = OwnedCall::Get(7);
    assert_same(rt, first_step(rt, locks, 7, look), Some(Event::Decide));
    let insertion: OwnedCall<u64, u64, NoFn> = OwnedCall::Insert(7, 0);
    let opened = first_step(rt, locks, 7, insertion);
    assert_same(rt, opened, Some(Event::Opened(4)));
    assert_same(rt, newest_of(rt, locks), Some(4));
}

#[test]
fn first_steps(rt: HostRuntime) {
    let locks = Locks::new(rt.alloc());
    does_first_steps(&rt, &locks);
}

// Asserts how many pairs there are.
fn holds<A: Allocator + Copy, R: Abort + Wait>(rt: &R, locks: &Locks<u64, u64, A>, pairs: u64) {
    assert_same(rt, LockField::new(rt, locks).len() as u64, pairs);
}

// The length includes the pairs that are still counted at tallies, and the table grows by them: 2,000 pairs are more than three for four of
// 2^11 bins.
#[test]
fn four_threads_put_pairs_in(rt: HostRuntime) {
    let locks: Locks<u64, u64, Global> = Locks::new(rt.alloc());

    put_in_threads(&rt, &locks, 500);

    assert_eq!(rt; LockField::new(&rt, &locks).len(), 2000);
    assert_same(&rt, newest_of(&rt, &locks), Some(12));
}

// A call for the length collects what is counted at tallies. The table grows all the same.
fn grows_between_lengths<A: Allocator + Copy, R: Abort + Wait>(rt: &R, locks: &Locks<u64, u64, A>) {
    for number in 0..2000u64 {
        put_all(rt, locks, number, number + 1);
        holds(rt, locks, number + 1);
    }
    assert_same(rt, newest_of(rt, locks), Some(12));
}

#[test]
fn a_table_grows_between_lengths(rt: HostRuntime) {
    let locks = Locks::new(rt.alloc());
    grows_between_lengths(&rt, &locks);
}

#[test]
fn a_thread_owns_locks(rt: HostRuntime) {
    let rt = &rt;
    let locks: Locks<u64, u64, Global> = Locks::new(rt.alloc());
    put_in_threads(rt, &locks, 25);
    assert_same(rt, count_in_thread(rt, locks, 200), Some(100));
}
