//! Keys and values that a call takes out of a bin, or does not keep, and whose drop waits for another call in that bin.
ghost use Rattle.std.proofs.Common.{rules};
ghost use Rattle.std.specs.Cmp.{partial_order_from_own_ties};
ghost use Rattle.std.specs.Cmp.Rules.{comparing};
ghost use Rattle.std.specs.Ordering.{nat_cmp, on, as_partial_cmp};

mod deeds;
mod moved;
mod refused;

use super::assert_same;
use deeds::{Deed, does};
use flurry_base::hash::ZeroHashBuilder;
use flurry_shared_locks::Locks;
use flurry_shared_set::HashSet;
use flurry_shared_view::HashMapRef;
use std::alloc::{Allocator, Global};
use std::cmp::Ordering;
use std::process::Abort;
use std::sync::Wait;
use std::sync::atomic::{self, AtomicBool};
use std::thread;
use std::thread::Threads;

// The greatest number of turns that one thread waits for another.
const TURNS: u32 = 1_000_000;

// Where a drop in one thread waits for calls of another.
#[derive(Drop)]
struct Meeting {
    drops: AtomicBool,
    is_answered: AtomicBool,
    is_missed: AtomicBool,
    is_over: AtomicBool,
}

fn is_set(flag: &AtomicBool) -> bool {
    flag.load(atomic::Ordering::SeqCst)
}

fn set_flag(flag: &AtomicBool) {
    flag.store(true, atomic::Ordering::SeqCst);
}

impl Meeting {
    // Returns a meeting that lives until the end of the process, so that the guests name no lifetime: what owns a type with one is proved to
    // drop each part of it.
    fn leak(rt: &impl Abort, alloc: Global) -> &'static Meeting {
        let meeting = Meeting {
            drops: AtomicBool::new(false),
            is_answered: AtomicBool::new(false),
            is_missed: AtomicBool::new(false),
            is_over: AtomicBool::new(false),
        };
        Box::leak(Box::new(alloc, meeting).expect(rt, "memory"))
    }

    // Waits until the other thread has done its calls.
    fn drop_one(&self) {
        set_flag(&self.drops);
        for _ in 0..TURNS {
            if is_set(&self.is_answered) {
                return;
            }
            thread::yield_now();
        }
        set_flag(&self.is_missed);
    }

    // Waits until something is dropped, and returns whether it is.
    fn sees_a_drop(&self) -> bool {
        for _ in 0..TURNS {
            if is_set(&self.drops) {
                return true;
            }
            if is_set(&self.is_over) {
                return false;
            }
            thread::yield_now();
        }
        false
    }

    // Whether something was dropped, and the calls of the other thread were done meanwhile.
    fn has_met(&self) -> bool {
        is_set(&self.is_answered) && !is_set(&self.is_missed)
    }
}

// A number, as a key or as a value. Its drop waits if it has a meeting.
#[derive_where(PartialEq, Eq)]
struct Guest {
    number: u64,
    #[derive_where(skip(EqHashOrd))]
    meeting: Option<&'static Meeting>,
}

impl Guest {
    fn new(number: u64) -> Self {
        Guest {
            number,
            meeting: None,
        }
    }
}

impl Drop for Guest {
    fn drop(self) {
        let Guest { number: _, meeting } = self;
        if let Some(meeting) = meeting {
            meeting.drop_one();
        }
    }
}

impl Ord for Guest {
    ghost cmp = { on (λ k. k.number) nat_cmp };

    ghost total = { Prim.search (comparing, rules) };

    ghost matches_partial_cmp = { Prim.search (comparing, rules) };

    ghost matches_eq = { Prim.search (comparing, rules) };

    fn cmp(&self, other: &Guest) -> Ordering {
        self.number.cmp(&other.number)
    }
}

impl PartialOrd for Guest {
    ghost partial_cmp = { as_partial_cmp (on (λ k. k.number) nat_cmp) };

    ghost laws = { partial_order_from_own_ties (Prim.search (comparing, rules)) (Prim.search (comparing, rules)) };

    fn partial_cmp(&self, other: &Guest) -> Option<Ordering> {
        Some(self.cmp(other))
    }
}

// A view of a map in which all keys have one hash.
type GuestsRef<'m, R, A> = HashMapRef<'m, R, Guest, Guest, ZeroHashBuilder, A>;

// Who has the meeting.
#[derive(Clone, Copy, Debug, PartialEq, Eq)]
enum Who {
    Key,
    Value,
    // a key, a value or a function's capture that the call is given
    PassedIn,
}

// Returns the guest of a number, with the meeting if it is for him.
fn guest_of(number: u64, is_asked: bool, meeting: &'static Meeting) -> Guest {
    Guest {
        number,
        meeting: if is_asked { Some(meeting) } else { None },
    }
}

// Does calls in the bin once something is dropped, and then counts the pairs, at the control.
fn answers<A: Allocator + Copy, R: Wait>(view: &GuestsRef<'_, R, A>, meeting: &Meeting) {
    if !meeting.sees_a_drop() {
        return;
    }
    view.contains_key(&Guest::new(2));
    drop(view.remove(&Guest::new(5)));
    let _pairs = view.len();
    set_flag(&meeting.is_answered);
}

// Does the deed beside the calls of another thread.
fn in_two_threads<A: Allocator + Copy + Send + Sync, R: Threads + Wait + Sync>(
    rt: &R,
    locks: &Locks<Guest, Guest, A>,
    deed: Deed,
    who: Who,
    meeting: &'static Meeting,
) {
    thread::join(
        rt,
        move || {
            let view = &HashMapRef::new(rt, locks, &ZeroHashBuilder, 1);
            does(view, deed, guest_of(1, who == Who::PassedIn, meeting));
            set_flag(&meeting.is_over);
        },
        move || answers(&HashMapRef::new(rt, locks, &ZeroHashBuilder, 1), meeting),
    );
}

// Inserts the keys 1 and 2.
fn fill<A: Allocator + Copy, R: Wait>(
    view: &GuestsRef<'_, R, A>,
    who: Who,
    meeting: &'static Meeting,
) {
    let key = guest_of(1, who == Who::Key, meeting);
    let value = guest_of(1, who == Who::Value, meeting);
    drop(view.insert(key, value));
    drop(view.insert(Guest::new(2), Guest::new(2)));
}

fn meets<R: Abort + Threads + Wait + Sync>(
    rt: &R,
    alloc: Global,
    deed: Deed,
    who: Who,
    is_new: bool,
) -> bool {
    let meeting = Meeting::leak(rt, alloc);
    let locks: &Locks<Guest, Guest, Global> = &Locks::new(alloc);
    if !is_new {
        fill(
            &HashMapRef::new(rt, locks, &ZeroHashBuilder, 1),
            who,
            meeting,
        );
    }
    in_two_threads(rt, locks, deed, who, meeting);
    meeting.has_met()
}

// A row for each call that drops a key, a value or a function.
#[test]
fn calls_of_a_map(rt: HostRuntime) {
    for (deed, who) in [
        (Deed::Clear, Who::Key),
        (Deed::Clear, Who::Value),
        (Deed::Replace, Who::Value),
        (Deed::Erase, Who::Key),
        (Deed::Erase, Who::Value),
        (Deed::Compute, Who::PassedIn),
        (Deed::Compute, Who::Value),
        (Deed::Merge, Who::PassedIn),
        (Deed::Merge, Who::Value),
        (Deed::Update, Who::Value),
        (Deed::UpdateNowhere, Who::PassedIn),
        (Deed::RemoveIf, Who::Key),
        (Deed::RemoveIf, Who::Value),
        (Deed::RemoveNowhere, Who::PassedIn),
        (Deed::ReplaceIf, Who::Value),
        (Deed::ReplaceNothing, Who::PassedIn),
        (Deed::ReplaceNowhere, Who::PassedIn),
        (Deed::ComputeNowhere, Who::PassedIn),
        (Deed::Remove, Who::Key),
        (Deed::RemoveSeen, Who::Key),
        (Deed::RemoveSeen, Who::Value),
        (Deed::Insert, Who::PassedIn),
        (Deed::TryInsert, Who::PassedIn),
        (Deed::Retain, Who::Key),
        (Deed::Retain, Who::Value),
        (Deed::RetainForce, Who::Key),
        (Deed::RetainForce, Who::Value),
        (Deed::Read, Who::Value),
    ] {
        let met = meets(&rt, rt.alloc(), deed, who, false);
        assert_same(&rt, (deed, who, met), (deed, who, true));
    }
}

// A map without a table decides at its control.
#[test]
fn a_function_that_a_new_map_drops(rt: HostRuntime) {
    let met = meets(&rt, rt.alloc(), Deed::ComputeNowhere, Who::PassedIn, true);
    assert_same(&rt, met, true);
}

// What is done in a set of the elements 1 and 2.
#[derive(Clone, Copy, Debug, PartialEq, Eq)]
enum SetDeed {
    Clear,
    Remove,
    Insert,
    Retain,
}

// Does the deed. An element that it inserts has a meeting.
fn does_in_set<A: Allocator + Copy, R: Wait>(
    rt: &R,
    set: &HashSet<Guest, ZeroHashBuilder, A>,
    deed: SetDeed,
    meeting: &'static Meeting,
) {
    match deed {
        SetDeed::Clear => set.clear(rt),
        SetDeed::Remove => {
            set.remove(rt, &Guest::new(1));
        }
        SetDeed::Insert => {
            drop(set.insert(rt, guest_of(1, true, meeting)));
        }
        SetDeed::Retain => {
            drop(set.retain(rt, |_| false));
        }
    }
}

// Looks an element of the bin up once another one is dropped.
fn answers_in_set<A: Allocator + Copy, R: Wait>(
    rt: &R,
    set: &HashSet<Guest, ZeroHashBuilder, A>,
    meeting: &Meeting,
) {
    if meeting.sees_a_drop() {
        set.contains(rt, &Guest::new(2));
        set.remove(rt, &Guest::new(5));
        set_flag(&meeting.is_answered);
    }
}

// Does the deed beside the calls of another thread.
fn in_two_threads_in_set<A: Allocator + Copy + Send + Sync, R: Threads + Wait + Sync>(
    rt: &R,
    set: &HashSet<Guest, ZeroHashBuilder, A>,
    deed: SetDeed,
    meeting: &'static Meeting,
) {
    thread::join(
        rt,
        move || {
            does_in_set(rt, set, deed, meeting);
            set_flag(&meeting.is_over);
        },
        move || answers_in_set(rt, set, meeting),
    );
}

fn meets_in_set<R: Abort + Threads + Wait + Sync>(rt: &R, alloc: Global, deed: SetDeed) -> bool {
    let meeting = Meeting::leak(rt, alloc);
    let set: &HashSet<Guest, ZeroHashBuilder> = &HashSet::with_hasher(alloc, ZeroHashBuilder);
    drop(set.insert(rt, guest_of(1, deed != SetDeed::Insert, meeting)));
    drop(set.insert(rt, Guest::new(2)));
    in_two_threads_in_set(rt, set, deed, meeting);
    meeting.has_met()
}

#[test]
fn calls_of_a_set(rt: HostRuntime) {
    for deed in [
        SetDeed::Clear,
        SetDeed::Remove,
        SetDeed::Insert,
        SetDeed::Retain,
    ] {
        let met = meets_in_set(&rt, rt.alloc(), deed);
        assert_same(&rt, (deed, met), (deed, true));
    }
}
