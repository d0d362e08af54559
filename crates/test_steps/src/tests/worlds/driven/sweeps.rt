//! Walks and clears, driven over both fields, with and without a table.

use super::{Close, Do, assert_same, closes_with, over_a_published_table, over_own_parts};
use flurry_bins_slots::NoFn;
use flurry_steps::party::OwnedCall;

// A walk leaves the pairs of many bins, and a clear removes them all. Then a key is inserted again. By forty keys a table of 16 bins grows.
fn walked_and_cleared() -> [Do<NoFn>; 8] {
    [
        Do::Call(OwnedCall::Walk, Close::End),
        Do::Call(OwnedCall::Clear, Close::End),
        Do::Put(40),
        Do::Call(OwnedCall::Walk, Close::End),
        Do::Find(0, 40),
        Do::Call(OwnedCall::Clear, Close::End),
        Do::Miss(0, 40),
        Do::Call(OwnedCall::Insert(7, 1), closes_with(None)),
    ]
}

#[test]
fn sweeps_over_own_parts(rt: HostRuntime) {
    let seen = over_own_parts(&rt, rt.alloc(), &walked_and_cleared());
    assert_same(&rt, seen.0, 1);
}

#[test]
fn sweeps_beside_a_published_table(rt: HostRuntime) {
    over_a_published_table(&rt, rt.alloc(), &walked_and_cleared());
}
