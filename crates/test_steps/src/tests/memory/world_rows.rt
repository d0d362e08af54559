//! Worked schedules in which memory for a table cannot be allocated, label by label.

use super::super::metered;
use super::assert_same;
use super::world::{Numbers, begins, label_count, labels_from, step_to, world_for};
use flurry_bins_slots::{ComputeFn, NoFn};
use flurry_steps::party::OwnedCall;
use metered_alloc::MeteredAlloc;
use std::alloc::{Allocator, Global};
use std::fmt::Debug;
use std::process::Abort;

// Asserts that `labels` are the labels from `first` on.
fn shows<F: ComputeFn<u64, u64> + Copy + Debug, A: Allocator + Copy>(
    rt: &impl Abort,
    alloc: Global,
    world: &Numbers<F, A>,
    first: usize,
    labels: &str,
) {
    assert_same(rt, labels_from(rt, alloc, world, first).as_str(), labels);
}

#[test]
fn first_table_refused(rt: HostRuntime) {
    let memory = metered(&rt, rt.alloc());
    refuses_first_table::<NoFn, _>(&rt, rt.alloc(), memory, memory);
}

fn refuses_first_table<F: ComputeFn<u64, u64> + Copy + Debug, A: Allocator + Copy>(
    rt: &impl Abort,
    alloc: Global,
    metered: &MeteredAlloc<Global>,
    memory: A,
)
    requires { (f : F) → F.can_change f × F.never_keeps f }
{
    let mut world: Numbers<F, A> = world_for(rt, memory, 0);
    let _ = begins(rt, &mut world, OwnedCall::Insert(3, 4));
    metered.refuse_at(0);
    step_to(rt, &mut world, 0, 2);
    metered.refuse_nothing();
    shows(rt, alloc, &world, 1, "[Refused(0)]");
    let _ = begins(rt, &mut world, OwnedCall::Get(3));
    step_to(rt, &mut world, 1, 5);
    let labels = "[Decide(1, Value(None)), Reply(1, Value(None))]";
    shows(rt, alloc, &world, 3, labels);
    let _ = begins(rt, &mut world, OwnedCall::Insert(3, 5));
    step_to(rt, &mut world, 2, 7);
    shows(rt, alloc, &world, 6, "[Opened(4)]");
    drop(world);
}

#[test]
fn larger_table_of_an_insertion_refused(rt: HostRuntime) {
    let memory = metered(&rt, rt.alloc());
    refuses_larger_table::<NoFn, _>(&rt, rt.alloc(), memory, memory);
}

// Returns a world of 16 bins, in which the parties 0 to 10 have inserted their numbers as keys.
fn eleven_keys<F: ComputeFn<u64, u64> + Copy, A: Allocator + Copy>(
    rt: &impl Abort,
    memory: A,
) -> Numbers<F, A>
    requires { (f : F) → F.can_change f × F.never_keeps f }
{
    let mut world = world_for(rt, memory, 8);
    for key in 0..11u64 {
        let party = begins(rt, &mut world, OwnedCall::Insert(key, key));
        let before = label_count(&world);
        step_to(rt, &mut world, party, before.saturating_add(4));
    }
    world
}

fn refuses_larger_table<F: ComputeFn<u64, u64> + Copy + Debug, A: Allocator + Copy>(
    rt: &impl Abort,
    alloc: Global,
    metered: &MeteredAlloc<Global>,
    memory: A,
)
    requires { (f : F) → F.can_change f × F.never_keeps f }
{
    let mut world: Numbers<F, A> = eleven_keys(rt, memory);
    assert_same(rt, begins(rt, &mut world, OwnedCall::Insert(11, 11)), 11);
    metered.refuse_at(3);
    step_to(rt, &mut world, 11, 61);
    assert_same(rt, metered.was_refused(), true);
    metered.refuse_nothing();
    let labels =
        "[Silent(11), Decide(11, Value(None)), Silent(11), Silent(11), Reply(11, Value(None))]";
    shows(rt, alloc, &world, 56, labels);
    assert_same(rt, begins(rt, &mut world, OwnedCall::Insert(12, 12)), 12);
    step_to(rt, &mut world, 12, 66);
    let labels = "[Silent(12), Decide(12, Value(None)), Silent(12), Placed(5)]";
    shows(rt, alloc, &world, 62, labels);
    drop(world);
}

#[test]
fn larger_table_of_a_reserve_refused(rt: HostRuntime) {
    let memory = metered(&rt, rt.alloc());
    refuses_reserve::<NoFn, _>(&rt, rt.alloc(), memory, memory);
}

fn refuses_reserve<F: ComputeFn<u64, u64> + Copy + Debug, A: Allocator + Copy>(
    rt: &impl Abort,
    alloc: Global,
    metered: &MeteredAlloc<Global>,
    memory: A,
)
    requires { (f : F) → F.can_change f × F.never_keeps f }
{
    let mut world: Numbers<F, A> = world_for(rt, memory, 8);
    let _ = begins(rt, &mut world, OwnedCall::Reserve(16));
    metered.refuse_at(0);
    step_to(rt, &mut world, 0, 3);
    assert_same(rt, metered.was_refused(), true);
    metered.refuse_nothing();
    shows(rt, alloc, &world, 1, "[Silent(0), Refused(0)]");
    drop(world);
}
