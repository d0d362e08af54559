//! Many keys, whose calls help the growths that they meet.

use super::{Do, assert_same, closes_with, over_a_published_table, over_own_parts, without_owners};
use flurry_base::hash::LowHashBuilder;
use flurry_bins_slots::{ComputeFn, NoFn};
use flurry_steps::party::OwnedCall;
use flurry_steps_drive::drive_alone;
use flurry_steps_world::Parts;
use std::process::Abort;
use std::sync::Wait;

// Returns the insertions of the keys 0 to 99, after which each of them is found, and the key 100 is not.
fn hundred_keys() -> [Do<NoFn>; 3] {
    [Do::Put(100), Do::Find(0, 100), Do::Miss(100, 101)]
}

#[test]
fn hundred_keys_over_own_parts(rt: HostRuntime) {
    let seen = over_own_parts(&rt, rt.alloc(), &hundred_keys());
    assert_same(&rt, seen, (100, Some(8)));
}

// The map leaves the table of 16 bins long before the end.
#[test]
fn hundred_keys_beside_a_published_table(rt: HostRuntime) {
    over_a_published_table(&rt, rt.alloc(), &hundred_keys());
}

fn twice_alone<F: ComputeFn<u64, u64>, R: Wait + Abort>(rt: &R, parts: &mut Parts<u64, u64>)
    requires { (f : F) → F.can_change f × F.never_keeps f }
{
    let put: OwnedCall<u64, u64, F> = OwnedCall::Insert(7, 1);
    let reply = drive_alone(rt, put, &LowHashBuilder, 1, parts);
    assert_same(rt, without_owners(reply), closes_with(None));
    let look: OwnedCall<u64, u64, F> = OwnedCall::Get(7);
    let reply = drive_alone(rt, look, &LowHashBuilder, 1, parts);
    assert_same(rt, without_owners(reply), closes_with(Some(1)));
}

#[test]
fn driven_alone(rt: HostRuntime) {
    let mut parts: Parts<u64, u64> = Parts::new(rt.alloc()).expect(&rt, "memory");
    twice_alone::<NoFn, _>(&rt, &mut parts);
}
