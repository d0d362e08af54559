//! Each request of a driven call that adds a pair fails in turn.

use super::super::super::metered;
use super::super::Becomes;
use super::{Close, assert_same, assert_same_at, closes_with, reply_of};
use flurry_base::reply::KeptReply;
use flurry_bins_slots::{ComputeFn, NoFn};
use flurry_steps::party::OwnedCall;
use flurry_steps_world::Parts;
use metered_alloc::MeteredAlloc;
use std::alloc::{Allocator, Global};
use std::process::Abort;
use std::sync::Wait;

// Returns the reply of a call on an empty map whose request numbered `k` fails, the reply of a look-up of the key 7 with enough memory, and
// whether that request was made.
fn refused_at<F: ComputeFn<u64, u64>, A: Allocator + Copy, R: Wait + Abort>(
    rt: &R,
    metered: &MeteredAlloc<Global>,
    memory: A,
    call: OwnedCall<u64, u64, F>,
    k: u64,
) -> (Close, Close, bool)
    requires { (f : F) → F.can_change f × F.never_keeps f }
{
    let mut parts: Parts<u64, u64, A> = Parts::new(memory).expect(rt, "memory for the parts");
    let look: OwnedCall<u64, u64, F> = OwnedCall::Get(7);
    metered.refuse_at(k);
    let reply = reply_of(rt, &mut parts, call);
    let refused = metered.was_refused();
    metered.refuse_nothing();
    (reply, reply_of(rt, &mut parts, look), refused)
}

// Makes a call that adds the pair of 7 and 1 once for each of its requests, and once with enough memory, where it has this reply.
fn refuses_each<F: ComputeFn<u64, u64> + Copy, A: Allocator + Copy, R: Wait + Abort>(
    rt: &R,
    metered: &MeteredAlloc<Global>,
    memory: A,
    call: OwnedCall<u64, u64, F>,
    reply: Close,
)
    requires { (f : F) → F.can_change f × F.never_keeps f }
{
    for k in 0..5u64 {
        let wanted = if k < 4 {
            (Close::Refused, closes_with(None), true)
        } else {
            (reply, closes_with(Some(1)), false)
        };
        assert_same_at(rt, k, refused_at(rt, metered, memory, call, k), wanted);
        assert_same(rt, metered.live_blocks(), 0);
    }
}

// The requests are for a table, the key, the value and the node. If one of them fails, the map is empty afterwards.
#[test]
fn refused_insertions(rt: HostRuntime) {
    let memory = metered(&rt, rt.alloc());
    refuses_each::<NoFn, _, _>(
        &rt,
        memory,
        memory,
        OwnedCall::Insert(7, 1),
        closes_with(None),
    );
}

#[test]
fn refused_alterations(rt: HostRuntime) {
    let memory = metered(&rt, rt.alloc());
    let new = Close::Reply(KeptReply::New(1));
    refuses_each(
        &rt,
        memory,
        memory,
        OwnedCall::Alter(7, Becomes(Some(1))),
        new,
    );
}
