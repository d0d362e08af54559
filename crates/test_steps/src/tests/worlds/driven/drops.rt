//! Driven removals of the pair that a driven walk read last.

use super::{Close, assert_same, closes_with, reply_of, without_owners};
use flurry_base::hash::{KeyHasher, LowHashBuilder};
use flurry_bins_slots::{ComputeFn, NoFn};
use flurry_steps::Party;
use flurry_steps::party::{Call, OwnedCall};
use flurry_steps_drive::drive;
use flurry_steps_sweep::Seen;
use flurry_steps_world::Parts;
use std::alloc::Global;
use std::process::Abort;
use std::sync::Wait;

// Drives a walk, and returns what it read last.
fn walked<F: ComputeFn<u64, u64>, R: Wait + Abort>(
    rt: &R,
    parts: &mut Parts<u64, u64>,
) -> Seen<u64, u64>
    requires { (f : F) → F.can_change f × F.never_keeps f }
{
    let mut walk: Party<&u64, u64, u64, F> = Party::from_owned(OwnedCall::Walk, 0, 1);
    drop(drive(rt, &mut walk, parts));
    let seen = seen_by(rt, &walk);
    drop(walk);
    seen
}

fn seen_by<F: ComputeFn<u64, u64>>(
    rt: &impl Abort,
    walk: &Party<&u64, u64, u64, F>,
) -> Seen<u64, u64> {
    walk.seen()
        .expect(rt, "memory for the pair")
        .expect(rt, "the walk has read a pair")
}

// Drives the removal of the pair that a walk has read, and returns the reply.
fn removal<F: ComputeFn<u64, u64>, R: Wait>(
    rt: &R,
    parts: &mut Parts<u64, u64>,
    seen: Seen<u64, u64>,
) -> Close {
    let hash = LowHashBuilder.hash_one(seen.key());
    let mut party: Party<&u64, u64, u64, F> = Party::new(Call::RemoveSeen(seen), hash, 1);
    let reply = drive(rt, &mut party, parts);
    drop(party);
    without_owners(reply)
}

// The pair is as it was read, and is removed. A second removal of it finds nothing.
fn removed<F: ComputeFn<u64, u64>, R: Wait + Abort>(rt: &R, parts: &mut Parts<u64, u64>)
    requires { (f : F) → F.can_change f × F.never_keeps f }
{
    puts::<F, R>(rt, parts, 3, 1, None);
    puts::<F, R>(rt, parts, 5, 2, None);
    let seen = walked::<F, R>(rt, parts);
    let further = seen.try_clone().expect(rt, "memory for the pair");
    assert_same(rt, (*seen.key(), *seen.value()), (5, 2));
    assert_same(rt, removal::<F, R>(rt, parts, seen), closes_with(Some(2)));
    assert_same(rt, removal::<F, R>(rt, parts, further), closes_with(None));
    finds::<F, R>(rt, parts, 5, None);
    finds::<F, R>(rt, parts, 3, Some(1));
}

// The same value was written again after the pair was read, so the pair stays.
fn rewritten<F: ComputeFn<u64, u64>, R: Wait + Abort>(rt: &R, parts: &mut Parts<u64, u64>)
    requires { (f : F) → F.can_change f × F.never_keeps f }
{
    puts::<F, R>(rt, parts, 5, 2, None);
    let seen = walked::<F, R>(rt, parts);
    puts::<F, R>(rt, parts, 5, 2, Some(2));
    assert_same(rt, removal::<F, R>(rt, parts, seen), closes_with(None));
    finds::<F, R>(rt, parts, 5, Some(2));
}

// Inserts a key, and asserts that this was its value.
fn puts<F: ComputeFn<u64, u64>, R: Wait + Abort>(
    rt: &R,
    parts: &mut Parts<u64, u64>,
    key: u64,
    new: u64,
    old: Option<u64>,
)
    requires { (f : F) → F.can_change f × F.never_keeps f }
{
    let put: OwnedCall<u64, u64, F> = OwnedCall::Insert(key, new);
    assert_same(rt, reply_of(rt, parts, put), closes_with(old));
}

// Looks a key up, and asserts that this is its value.
fn finds<F: ComputeFn<u64, u64>, R: Wait + Abort>(
    rt: &R,
    parts: &mut Parts<u64, u64>,
    key: u64,
    wanted: Option<u64>,
)
    requires { (f : F) → F.can_change f × F.never_keeps f }
{
    let look: OwnedCall<u64, u64, F> = OwnedCall::Get(key);
    assert_same(rt, reply_of(rt, parts, look), closes_with(wanted));
}

// What is done with the pair that was read.
#[derive(Clone, Copy)]
enum Pair {
    Removed,
    Rewritten,
}

// Reads a pair and removes what was read. One pair is left.
fn goes_through<F: ComputeFn<u64, u64>, R: Wait + Abort>(rt: &R, alloc: Global, pair: Pair)
    requires { (f : F) → F.can_change f × F.never_keeps f }
{
    let mut parts: Parts<u64, u64> = Parts::new(alloc).expect(rt, "memory for the parts");
    match pair {
        Pair::Removed => removed::<F, R>(rt, &mut parts),
        Pair::Rewritten => rewritten::<F, R>(rt, &mut parts),
    }
    assert_same(rt, parts.control().len(), 1);
}

#[test]
fn removes_what_was_read(rt: HostRuntime) {
    goes_through::<NoFn, _>(&rt, rt.alloc(), Pair::Removed);
}

#[test]
fn keeps_what_was_written_anew(rt: HostRuntime) {
    goes_through::<NoFn, _>(&rt, rt.alloc(), Pair::Rewritten);
}
