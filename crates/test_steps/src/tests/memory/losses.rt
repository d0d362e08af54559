//! A loss whose label is refused.

use super::super::metered;
use super::world::{Numbers, begins, label_count, labels_from, step_to};
use super::{assert_same, assert_same_at};
use flurry_base::hash::LowHashBuilder;
use flurry_bins_slots::{ComputeFn, NoFn};
use flurry_steps::party::OwnedCall;
use flurry_steps_world::World;
use metered_alloc::MeteredAlloc;
use std::alloc::{Allocator, Global};
use std::fmt::Debug;
use std::process::Abort;

// Returns a world in which party 1 is to take a seat at the growth that party 0 has begun, after `further` more labels of a party that never
// began.
fn before_a_seat<F: ComputeFn<u64, u64> + Copy, A: Allocator + Copy>(
    rt: &impl Abort,
    memory: A,
    further: u64,
) -> Numbers<F, A>
    requires { (f : F) → F.can_change f × F.never_keeps f }
{
    let mut world: Numbers<F, A> = World::new(memory, 32, LowHashBuilder, 2).expect(
        rt,
        "memory for the world",
    );
    let _ = begins(rt, &mut world, OwnedCall::Reserve(33));
    step_to(rt, &mut world, 0, 3);
    let _ = begins(rt, &mut world, OwnedCall::Insert(2, 2));
    step_to(rt, &mut world, 1, 7);
    for _ in 0..further {
        world.lose(9).expect(rt, "memory for the label");
    }
    world
}

// Makes party 1 lose its seat while the next request is refused, and returns whether there was one. Then the labels are as before, and the
// party takes a seat, gets a range and moves a bin. Else it does not help, and replies.
fn loses_at<F: ComputeFn<u64, u64> + Copy + Debug, A: Allocator + Copy>(
    rt: &impl Abort,
    alloc: Global,
    metered: &MeteredAlloc<Global>,
    memory: A,
    further: u64,
) -> bool
    requires { (f : F) → F.can_change f × F.never_keeps f }
{
    let mut world: Numbers<F, A> = before_a_seat(rt, memory, further);
    let before = label_count(&world);
    metered.refuse_at(0);
    let failed = world.lose(1).is_err();
    let refused = metered.was_refused();
    metered.refuse_nothing();
    let seen = (failed, label_count(&world) == before);
    assert_same_at(rt, further, seen, (refused, refused));
    step_to(rt, &mut world, 1, before.saturating_add(3));
    let wanted = if refused {
        "[Silent(1), Silent(1), Moved(6, 63)]"
    } else {
        "[Silent(1), Silent(1), Reply(1, Value(None))]"
    };
    let labels = labels_from(rt, alloc, &world, before);
    drop(world);
    assert_same_at(rt, further, labels.as_str(), wanted);
    refused
}

// Of eight labels in a row one makes a request. If it is refused, the party has lost nothing.
#[test]
fn loss_of_a_seat(rt: HostRuntime) {
    let rt = &rt;
    let memory = metered(rt, rt.alloc());
    let mut refusals = 0u64;
    for further in 0..8u64 {
        if loses_at::<NoFn, _>(rt, rt.alloc(), memory, memory, further) {
            refusals = refusals.saturating_add(1);
        }
        assert_same_at(rt, further, memory.live_blocks(), 0);
    }
    assert_same(rt, refusals, 1);
}
