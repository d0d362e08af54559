//! Calls over the locks of a shared map, from their first step to their last.

use flurry_bins_slots::{ComputeFn, NoFn};
use flurry_shared_locks::{CallField, LockField, Locks};
use flurry_steps::Party;
use flurry_steps::party::{Event, OwnedCall, Reply};
use std::alloc::Allocator;
use std::sync::Wait;

// A key or a value with a number.
pub(super) trait Numbered {
    // Returns the key or the value with this number.
    fn of(number: u64) -> Self;
}

impl Numbered for u64 {
    fn of(number: u64) -> Self {
        number
    }
}

// Does the steps of a call until it is done, and returns its reply.
pub(super) fn reply_of<K: Ord + Drop, V: Drop, A: Allocator + Copy, F: ComputeFn<K, V>, R: Wait>(
    rt: &R,
    locks: &Locks<K, V, A>,
    hash: u64,
    call: OwnedCall<K, V, F>,
) -> Reply<K, V, A>
    requires { (f : F) → F.can_change f × F.never_keeps f }
{
    let mut party = Party::from_owned(call, hash, 4);
    let mut lock_field = CallField::new(&LockField::new(rt, locks));
    let reply = lock_field.finish(&mut party);
    drop(lock_field);
    drop(party);
    reply
}

// Does the first step of a call, and returns what it was.
pub(super) fn first_step<K: Ord + Drop, V: Drop, A: Allocator + Copy, F: ComputeFn<K, V>, R: Wait>(
    rt: &R,
    locks: &Locks<K, V, A>,
    hash: u64,
    call: OwnedCall<K, V, F>,
) -> Option<Event>
    requires { (f : F) → F.can_change f × F.never_keeps f }
{
    let mut party = Party::from_owned(call, hash, 4);
    let event = {
        let mut lock_field = CallField::new(&LockField::new(rt, locks));
        lock_field.act(&mut party)
    };
    drop(party);
    event
}

// Does the first steps of a call without a function, `steps` of them, and then stops for good. Returns what the last of them was.
pub(crate) fn stop<K: Ord + Drop, V: Drop, A: Allocator + Copy, R: Wait>(
    rt: &R,
    locks: &Locks<K, V, A>,
    hash: u64,
    call: OwnedCall<K, V, NoFn>,
    steps: u64,
) -> Option<Event> {
    do_steps(rt, locks, hash, call, steps)
}

// Does the first steps of a call, `steps` of them, and then drops it. Returns what the last of them was.
fn do_steps<K: Ord + Drop, V: Drop, A: Allocator + Copy, F: ComputeFn<K, V>, R: Wait>(
    rt: &R,
    locks: &Locks<K, V, A>,
    hash: u64,
    call: OwnedCall<K, V, F>,
    steps: u64,
) -> Option<Event>
    requires { (f : F) → F.can_change f × F.never_keeps f }
{
    let mut party = Party::from_owned(call, hash, 4);
    let mut lock_field = CallField::new(&LockField::new(rt, locks));
    let last = act_often(&mut party, &mut lock_field, steps);
    drop(lock_field);
    drop(party);
    last
}

// Does the next steps of a call, which is lent, since a proof goes through all that a loop owns. Returns what the last of them was.
pub(super) fn act_often<K: Ord + Drop, V: Drop, A: Allocator + Copy, F: ComputeFn<K, V>, R: Wait>(
    party: &mut Party<&K, K, V, F, A>,
    lock_field: &mut CallField<'_, R, K, V, A>,
    steps: u64,
) -> Option<Event> {
    let mut last = None;
    for _ in 0..steps {
        last = lock_field.act(party);
    }
    last
}

// Returns whether a reply says that a key is present.
pub(super) fn is_present<K: Ord + Drop, V: Drop, A: Allocator + Copy>(
    reply: &Reply<K, V, A>,
) -> bool {
    matches!(reply, Reply::Contains(true))
}

// Inserts the pairs of the numbers from `from` to `to`, each with its number as its hash.
pub(super) fn put_all<K: Ord + Drop + Numbered, V: Drop + Numbered, A: Allocator + Copy, R: Wait>(
    rt: &R,
    locks: &Locks<K, V, A>,
    from: u64,
    to: u64,
) {
    for number in from..to {
        let call: OwnedCall<K, V, NoFn> = OwnedCall::Insert(K::of(number), V::of(number));
        drop(reply_of(rt, locks, number, call));
    }
}

// Returns how many of the pairs of the numbers from `from` to `to` are present.
pub(super) fn count_found<K: Ord + Drop + Numbered, V: Drop, A: Allocator + Copy, R: Wait>(
    rt: &R,
    locks: &Locks<K, V, A>,
    from: u64,
    to: u64,
) -> usize {
    let mut found = 0usize;
    for number in from..to {
        let call: OwnedCall<K, V, NoFn> = OwnedCall::ContainsKey(K::of(number));
        let reply = reply_of(rt, locks, number, call);
        if is_present(&reply) {
            found = found.saturating_add(1);
        }
        drop(reply);
    }
    found
}
