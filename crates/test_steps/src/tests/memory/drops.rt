//! Each request of a removal that begins with what a walk has read fails in turn.

use super::super::metered;
use super::assert_same_at;
use super::world::{Numbers, begins, label_count, step_to, world_for};
use flurry_bins_slots::{ComputeFn, NoFn};
use flurry_steps::party::OwnedCall;
use metered_alloc::MeteredAlloc;
use std::alloc::{Allocator, Global};
use std::process::Abort;

// Returns a world of 16 bins, in which party 1 has read the only pair. Three calls have begun, so that there is room for a fourth, and
// there are `more` labels more.
fn has_read<F: ComputeFn<u64, u64> + Copy, A: Allocator + Copy>(
    rt: &impl Abort,
    memory: A,
    more: usize,
) -> Numbers<F, A>
    requires { (f : F) → F.can_change f × F.never_keeps f }
{
    let mut world = world_for(rt, memory, 8);
    let party = begins(rt, &mut world, OwnedCall::Insert(1, 1));
    step_to(rt, &mut world, party, 5);
    let walk = begins(rt, &mut world, OwnedCall::Walk);
    step_to(rt, &mut world, walk, 9);
    let other = begins(rt, &mut world, OwnedCall::Get(9));
    step_to(rt, &mut world, other, 10usize.saturating_add(more));
    world
}

// Begins a removal whose first request fails, and returns whether it made one. If it did, the world is unchanged, and with memory the
// removal is the next party.
fn drops_at<F: ComputeFn<u64, u64> + Copy, A: Allocator + Copy>(
    rt: &impl Abort,
    metered: &MeteredAlloc<Global>,
    memory: A,
    more: u64,
) -> bool
    requires { (f : F) → F.can_change f × F.never_keeps f }
{
    let mut world: Numbers<F, A> = has_read(rt, memory, more as usize);
    let before = label_count(&world);
    metered.refuse_at(0);
    let failed = world.begin_remove_seen(1).is_err();
    let refused = metered.was_refused();
    metered.refuse_nothing();
    assert_same_at(rt, more, failed, refused);
    if refused {
        assert_same_at(rt, more, label_count(&world), before);
        let began = world.begin_remove_seen(1).expect(rt, "memory for the call");
        assert_same_at(rt, more, began, Some(3));
    }
    assert_same_at(rt, more, begins(rt, &mut world, OwnedCall::Get(1)), 4);
    drop(world);
    refused
}

// The list of labels grows now and then, so some of these worlds need room for it.
#[test]
fn removals_of_what_was_read(rt: HostRuntime) {
    let rt = &rt;
    let memory = metered(rt, rt.alloc());
    let mut refused = 0u64;
    for more in 0..16u64 {
        if drops_at::<NoFn, _>(rt, memory, memory, more) {
            refused = refused.saturating_add(1);
        }
        assert_same_at(rt, more, memory.live_blocks(), 0);
    }
    assert_same_at(rt, refused, refused > 0 && refused < 16, true);
}
