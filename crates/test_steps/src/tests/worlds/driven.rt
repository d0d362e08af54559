//! Calls that are driven to their end.

mod drops;
mod each_call;
mod growth;
mod refused;
mod sweeps;

use super::{Close, assert_same, assert_same_at, closes_with, without_owners};
use beside_field::Beside;
use flurry_base::hash::LowHashBuilder;
use flurry_bins_slots::ComputeFn;
use flurry_steps::party::OwnedCall;
use flurry_steps::{Field, Party};
use flurry_steps_drive::drive;
use flurry_steps_world::{Parts, hash_for};
use std::alloc::{Allocator, Global};
use std::process::Abort;
use std::sync::Wait;

// Drives a call whose key is its hash, and returns its reply.
fn reply_of<F: ComputeFn<u64, u64>, A: Allocator + Copy, X: Field<u64, u64, A>, R: Wait>(
    rt: &R,
    field: &mut X,
    call: OwnedCall<u64, u64, F>,
) -> Close
    requires { (f : F) → F.can_change f × F.never_keeps f }
{
    let hash = hash_for(&LowHashBuilder, &call);
    let mut party = Party::from_owned(call, hash, 1);
    let reply = drive(rt, &mut party, field);
    drop(party);
    without_owners(reply)
}

// What is done over a field.
#[derive(Clone, Copy)]
enum Do<F> {
    // A call has this reply.
    Call(OwnedCall<u64, u64, F>, Close),
    // The keys below this number are inserted, each of which is absent, with itself as its value.
    Put(u64),
    // Each key from the first number to the second, without it, has itself as its value.
    Find(u64, u64),
    // Each key from the first number to the second, without it, is absent.
    Miss(u64, u64),
}

// Does what the rows say. A failure reports the place of the row.
fn does_all<
    F: ComputeFn<u64, u64> + Copy,
    A: Allocator + Copy,
    X: Field<u64, u64, A>,
    R: Wait + Abort,
>(rt: &R, field: &mut X, rows: &[Do<F>])
    requires { (f : F) → F.can_change f × F.never_keeps f }
{
    for (at, row) in rows.iter().enumerate() {
        match row {
            Do::Call(call, wanted) => assert_same_at(rt, at, reply_of(rt, field, *call), *wanted),
            Do::Put(end) => puts::<F, A, X, R>(rt, field, at, *end),
            Do::Find(first, end) => finds::<F, A, X, R>(rt, field, at, *first, *end, true),
            Do::Miss(first, end) => finds::<F, A, X, R>(rt, field, at, *first, *end, false),
        }
    }
}

fn puts<F: ComputeFn<u64, u64>, A: Allocator + Copy, X: Field<u64, u64, A>, R: Wait + Abort>(
    rt: &R,
    field: &mut X,
    at: usize,
    end: u64,
)
    requires { (f : F) → F.can_change f × F.never_keeps f }
{
    for key in 0..end {
        let put: OwnedCall<u64, u64, F> = OwnedCall::Insert(key, key);
        assert_same_at(rt, at, reply_of(rt, field, put), closes_with(None));
    }
}

fn finds<F: ComputeFn<u64, u64>, A: Allocator + Copy, X: Field<u64, u64, A>, R: Wait + Abort>(
    rt: &R,
    field: &mut X,
    at: usize,
    first: u64,
    end: u64,
    there: bool,
)
    requires { (f : F) → F.can_change f × F.never_keeps f }
{
    for key in first..end {
        let found = if there { Some(key) } else { None };
        let look: OwnedCall<u64, u64, F> = OwnedCall::Get(key);
        assert_same_at(rt, at, reply_of(rt, field, look), closes_with(found));
    }
}

// Does what the rows say over the parts of a map without a table. Returns how many pairs are there then, and the table.
fn over_own_parts<F: ComputeFn<u64, u64> + Copy, R: Wait + Abort>(
    rt: &R,
    alloc: Global,
    rows: &[Do<F>],
) -> (usize, Option<u8>)
    requires { (f : F) → F.can_change f × F.never_keeps f }
{
    let mut parts: Parts<u64, u64> = Parts::new(alloc).expect(rt, "memory for the parts");
    does_all(rt, &mut parts, rows);
    (parts.control().len(), parts.control().locate())
}

// Does what the rows say over the parts of a map with a table of 16 bins, beside the number of that table. The published table stays that
// one, also if the map leaves it.
fn over_a_published_table<F: ComputeFn<u64, u64> + Copy, R: Wait + Abort>(
    rt: &R,
    alloc: Global,
    rows: &[Do<F>],
)
    requires { (f : F) → F.can_change f × F.never_keeps f }
{
    let mut parts: Parts<u64, u64> = Parts::new(alloc).expect(rt, "memory for the parts");
    parts.open(4).expect(rt, "memory for the table");
    let start = parts.control().start().expect(rt, "a table is published");
    let mut field = Beside::new(parts, start);
    does_all(rt, &mut field, rows);
}
