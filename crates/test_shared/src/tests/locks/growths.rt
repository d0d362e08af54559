//! Growths that several threads help, and a helper that stops in the middle of one.

use super::calls::{act_often, count_found, put_all, stop};
use super::{assert_same, newest_of};
use flurry_bins_slots::{ComputeFn, NoFn};
use flurry_shared_locks::{CallField, LockField, Locks};
use flurry_steps::Party;
use flurry_steps::party::{Event, OwnedCall};
use std::alloc::{Allocator, Global};
use std::process::Abort;
use std::sync::Wait;
use std::sync::atomic::{AtomicU64, Ordering};
use std::thread;
use std::thread::Threads;

// The exponent of the table that threads help to grow, and of its greatest hash.
const TABLE: u8 = 20;

const LAST_BIN: u64 = (1 << 20) - 1;

// How many calls a thread makes at most until it has seen the growth's end.
const CALLS: u64 = 100_000;

// How many steps were done by all threads, how many of them moved a bin, and how many published a table.
#[derive(Drop)]
struct Work {
    steps: AtomicU64,
    moved: AtomicU64,
    published: AtomicU64,
}

impl Work {
    fn new() -> Self {
        Work {
            steps: AtomicU64::new(0),
            moved: AtomicU64::new(0),
            published: AtomicU64::new(0),
        }
    }

    fn note(&self, event: Event) {
        self.steps.fetch_add(1, Ordering::SeqCst);
        match event {
            Event::Moved(_, _) => {
                self.moved.fetch_add(1, Ordering::SeqCst);
            }
            Event::Published(_) => {
                self.published.fetch_add(1, Ordering::SeqCst);
            }
            _ => {}
        }
    }
}

// Does all steps of a call of numbers, and notes what they are.
fn do_call<A: Allocator + Copy, R: Wait>(
    rt: &R,
    locks: &Locks<u64, u64, A>,
    hash: u64,
    call: OwnedCall<u64, u64, NoFn>,
    work: &Work,
) {
    do_all_steps(rt, locks, hash, call, work);
}

fn do_all_steps<A: Allocator + Copy, F: ComputeFn<u64, u64>, R: Wait>(
    rt: &R,
    locks: &Locks<u64, u64, A>,
    hash: u64,
    call: OwnedCall<u64, u64, F>,
    work: &Work,
)
    requires { (f : F) → F.can_change f × F.never_keeps f }
{
    let mut party = Party::from_owned(call, hash, 4);
    let mut lock_field = CallField::new(&LockField::new(rt, locks));
    act_to_the_end(&mut party, &mut lock_field, work);
    drop(lock_field);
    drop(party);
}

// Does the steps that are left of a call, which is lent, since a proof goes through all that a loop owns.
fn act_to_the_end<A: Allocator + Copy, F: ComputeFn<u64, u64>, R: Wait>(
    party: &mut Party<&u64, u64, u64, F, A>,
    lock_field: &mut CallField<'_, R, u64, u64, A>,
    work: &Work,
) {
    for _ in 0..u64::MAX {
        let Some(event) = lock_field.act(party) else {
            break;
        };
        work.note(event);
    }
}

// Inserts pairs into the last bin, whose growth is the first to be moved, until the larger table is published. Returns how many pairs it
// has inserted; each thread has its own keys.
fn insert_until_it_has_grown<A: Allocator + Copy, R: Wait>(
    rt: &R,
    locks: &Locks<u64, u64, A>,
    thread: u64,
    work: &Work,
) -> u64 {
    for number in 0..CALLS {
        if work.published.load(Ordering::SeqCst) > 0 {
            return number;
        }
        let key = thread.saturating_mul(CALLS).saturating_add(number);
        do_call(rt, locks, LAST_BIN, OwnedCall::Insert(key, key), work);
    }
    CALLS
}

// Makes room in one thread, while `others` threads insert pairs. Returns how many pairs they have inserted.
fn grow_in_threads<A: Allocator + Copy + Send + Sync, R: Threads + Wait + Sync>(
    rt: &R,
    locks: &Locks<u64, u64, A>,
    others: u64,
    work: &Work,
    inserted: &AtomicU64,
) {
    thread::scope(thread::scope_env(), rt, |scope| {
        for thread in 0..others {
            let _ = scope.spawn(move || {
                let count = insert_until_it_has_grown(rt, locks, thread, work);
                inserted.fetch_add(count, Ordering::SeqCst);
            });
        }
        do_call(rt, locks, 0, OwnedCall::Reserve(500_000), work);
    });
}

// Each bin of a table of 2^20 is moved once, whoever helps, one call publishes the next table, and no pair is lost.
fn each_bin_is_moved_once<A: Allocator + Copy + Send + Sync, R: Abort + Threads + Wait + Sync>(
    rt: &R,
    locks: &Locks<u64, u64, A>,
    threads: u64,
) {
    let work = Work::new();
    let inserted = AtomicU64::new(0);
    grow_in_threads(rt, locks, threads.saturating_sub(1), &work, &inserted);
    assert_same(rt, work.moved.load(Ordering::SeqCst), 1 << TABLE);
    assert_same(rt, work.published.load(Ordering::SeqCst), 1);
    assert_same(rt, newest_of(rt, locks), Some(TABLE + 1));
    let pairs = LockField::new(rt, locks).len() as u64;
    assert_same(rt, pairs, inserted.load(Ordering::SeqCst));
}

#[test]
fn four_threads_grow_a_table(rt: HostRuntime) {
    let locks = Locks::with_table(rt.alloc(), TABLE).expect(&rt, "memory");
    each_bin_is_moved_once(&rt, &locks, 4);
}

#[test]
fn eight_threads_grow_a_table(rt: HostRuntime) {
    let locks = Locks::with_table(rt.alloc(), TABLE).expect(&rt, "memory");
    each_bin_is_moved_once(&rt, &locks, 8);
}

// Begins a growth of the table, by a call that stops once it has claimed the topmost range and moved one bin of it.
fn stop_in_a_growth<A: Allocator + Copy, R: Wait>(
    rt: &R,
    locks: &Locks<u64, u64, A>,
    pairs: usize,
) -> Option<Event> {
    stop(rt, locks, 0, OwnedCall::Reserve(pairs), 4)
}

// Does the same in a thread of its own, which then ends.
fn stop_in_a_thread<A: Allocator + Copy + Send + Sync, R: Threads + Wait + Sync>(
    rt: &R,
    locks: &Locks<u64, u64, A>,
    pairs: usize,
) -> Option<Event> {
    thread::scope(thread::scope_env(), rt, |scope| {
        match scope.spawn(move || stop_in_a_growth(rt, locks, pairs)) {
            Ok(child) => child.join(rt),
            Err(_) => stop_in_a_growth(rt, locks, pairs),
        }
    })
}

// A thread claims a range of a table of 64 bins, moves one bin of it, and ends. The growth is never published, and no later one begins; but
// every call is answered, and no pair is lost.
fn goes_on_without_a_helper<A: Allocator + Copy + Send + Sync, R: Abort + Threads + Wait + Sync>(
    rt: &R,
    locks: &Locks<u64, u64, A>,
) {
    put_all(rt, locks, 0, 20);
    assert_same(
        rt,
        stop_in_a_thread(rt, locks, 40),
        Some(Event::Moved(6, 63)),
    );
    put_all(rt, locks, 20, 200);
    let work = Work::new();
    do_call(rt, locks, 0, OwnedCall::Reserve(1000), &work);
    assert_same(rt, newest_of(rt, locks), Some(6));
    assert_same(rt, work.published.load(Ordering::SeqCst), 0);
    assert_same(rt, count_found(rt, locks, 0, 200), 200);
    assert_same(rt, LockField::new(rt, locks).len(), 200);
}

#[test]
fn a_helper_that_stops_for_good(rt: HostRuntime) {
    let locks = Locks::with_table(rt.alloc(), 6).expect(&rt, "memory");
    goes_on_without_a_helper(&rt, &locks);
}

// Returns how many steps a call takes.
fn steps_of<A: Allocator + Copy, R: Wait>(
    rt: &R,
    locks: &Locks<u64, u64, A>,
    hash: u64,
    call: OwnedCall<u64, u64, NoFn>,
) -> u64 {
    let work = Work::new();
    do_call(rt, locks, hash, call, &work);
    work.steps.load(Ordering::SeqCst)
}

// A call gives back its seat, also one that stops while it has it. So each later call has one: it finds a moved bin, a seat, nothing to
// claim, gives the seat back, decides, and counts. With the step that finds the table that is seven steps. The growth is divided: of 64
// bins, the call that stops has claimed 16, and the next one moves the other 48.
fn twenty_calls_have_a_seat<A: Allocator + Copy, R: Abort + Wait>(
    rt: &R,
    locks: &Locks<u64, u64, A>,
) {
    assert_same(
        rt,
        stop_in_a_growth(rt, locks, 40),
        Some(Event::Moved(6, 63)),
    );
    let work = Work::new();
    do_call(rt, locks, 63, OwnedCall::Insert(0, 0), &work);
    assert_same(rt, work.moved.load(Ordering::SeqCst), 48);
    for number in 1..20u64 {
        let stopped = stop(rt, locks, 63, OwnedCall::Insert(number, 0), 3);
        assert_same(rt, stopped, Some(Event::Silent));
        let steps = steps_of(rt, locks, 63, OwnedCall::Insert(number, 0));
        assert_same(rt, steps, 7);
    }
}

#[test]
fn seats_come_back(rt: HostRuntime) {
    let locks = Locks::with_table(rt.alloc(), 6).expect(&rt, "memory");
    twenty_calls_have_a_seat(&rt, &locks);
}

// Returns whether calls count at the control, once it was locked.
fn is_growth_due<A: Allocator + Copy, R: Wait>(rt: &R, locks: &Locks<u64, u64, A>) -> bool {
    let lock_field = LockField::new(rt, locks);
    let _pairs = lock_field.len();
    lock_field.tally(0).is_none()
}

// Calls count at the control while a growth of 1,024 bins is to be helped, and at tallies again once one has found nothing to claim.
fn is_due_until_nothing_is_left<A: Allocator + Copy, R: Abort + Wait>(
    rt: &R,
    locks: &Locks<u64, u64, A>,
) {
    assert_same(rt, is_growth_due(rt, locks), false);
    assert_same(
        rt,
        stop_in_a_growth(rt, locks, 600),
        Some(Event::Moved(10, 1023)),
    );
    assert_same(rt, is_growth_due(rt, locks), true);
    let _moves_the_rest = steps_of(rt, locks, 1023, OwnedCall::Insert(0, 0));
    assert_same(rt, is_growth_due(rt, locks), false);
    assert_same(rt, newest_of(rt, locks), Some(10));
}

// Does the first steps of an insertion up to the one that takes a seat, which never comes back.
fn keep_a_seat<R: Abort + Wait>(rt: &R, alloc: Global, locks: &Locks<u64, u64>, key: u64) {
    let call: OwnedCall<u64, u64, NoFn> = OwnedCall::Insert(key, 0);
    keep_the_seat_of(rt, alloc, locks, call);
}

fn keep_the_seat_of<F: ComputeFn<u64, u64>, R: Abort + Wait>(
    rt: &R,
    alloc: Global,
    locks: &Locks<u64, u64>,
    call: OwnedCall<u64, u64, F>,
)
    requires { (f : F) → F.can_change f × F.never_keeps f }
{
    let mut party = Party::from_owned(call, 1023, 4);
    let lock_field = CallField::new(&LockField::new(rt, locks));
    let lock_field = Box::leak(Box::new(alloc, lock_field).expect(rt, "memory"));
    let last = act_often(&mut party, lock_field, 3);
    drop(party);
    assert_same(rt, last, Some(Event::Silent));
}

// Calls count at the control while there are seats for helpers, and at tallies once a call has found none.
fn is_due_while_seats_are_left<R: Abort + Wait>(rt: &R, alloc: Global, locks: &Locks<u64, u64>) {
    assert_same(
        rt,
        stop_in_a_growth(rt, locks, 600),
        Some(Event::Moved(10, 1023)),
    );
    for key in 0..8u64 {
        keep_a_seat(rt, alloc, locks, key);
        assert_same(rt, (key, is_growth_due(rt, locks)), (key, true));
    }
    keep_a_seat(rt, alloc, locks, 8);
    assert_same(rt, is_growth_due(rt, locks), false);
}

#[test]
fn a_growth_is_due_while_seats_are_left(rt: HostRuntime) {
    let locks = &Locks::with_table(rt.alloc(), 10).expect(&rt, "memory");
    is_due_while_seats_are_left(&rt, rt.alloc(), locks);
}

#[test]
fn a_growth_is_due_until_nothing_is_left(rt: HostRuntime) {
    let locks = Locks::with_table(rt.alloc(), 10).expect(&rt, "memory");
    is_due_until_nothing_is_left(&rt, &locks);
}
