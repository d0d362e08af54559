//! Removals of a pair that a walk has read, label by label.

use super::{
    Line, Numbers, assert_call, assert_reply, assert_same, assert_steps, begin, label_count,
    last_line, value, world_for,
};
use flurry_bins_slots::{ComputeFn, NoFn};
use flurry_steps::party::OwnedCall;
use std::alloc::Global;
use std::process::Abort;

// Makes a world of 16 bins with the pair of 1 and 1, which party 1, a walk, has read.
fn reads_one<'k, F: ComputeFn<u64, u64> + Copy>(rt: &impl Abort, world: &mut Numbers<'k, F>)
    requires { (f : F) → F.can_change f × F.never_keeps f }
{
    assert_reply(rt, world, OwnedCall::Insert(1, 1), value(None));
    let lines = [Line::Silent(1), Line::Silent(1), Line::Read(1, 1, 1)];
    assert_call(rt, world, 1, OwnedCall::Walk, &lines);
}

// What happened to the pair that was read.
#[derive(Clone, Copy)]
enum Pair {
    Rewritten,
    Stayed,
    NotAskedFor,
}

// Reads the pair in a world of its own, and removes what was read.
fn goes_through<F: ComputeFn<u64, u64> + Copy>(rt: &impl Abort, alloc: Global, pair: Pair)
    requires { (f : F) → F.can_change f × F.never_keeps f }
{
    let mut world: Numbers<'_, F> = world_for(rt, alloc, 8, 1);
    reads_one(rt, &mut world);
    match pair {
        Pair::Rewritten => keeps_what_was_rewritten(rt, &mut world),
        Pair::Stayed => removes_what_stayed(rt, &mut world),
        Pair::NotAskedFor => removes_nothing(rt, &mut world),
    }
    drop(world);
}

// Begins the removal of what party 1 has read last, as the party with the number `party`.
fn drops<'k, F: ComputeFn<u64, u64> + Copy>(
    rt: &impl Abort,
    world: &mut Numbers<'k, F>,
    party: usize,
) {
    let began = world.begin_remove_seen(1).expect(rt, "memory for the call");
    assert_same(rt, began, Some(party));
    assert_same(rt, last_line(rt, world), Line::Begin(party));
}

// Asserts that no removal of what the party has read begins, and that no label is added.
fn drops_nothing<'k, F: ComputeFn<u64, u64> + Copy>(
    rt: &impl Abort,
    world: &mut Numbers<'k, F>,
    party: usize,
) {
    let labels = label_count(world);
    let began = world
        .begin_remove_seen(party)
        .expect(rt, "memory for nothing");
    assert_same(rt, began, None);
    assert_same(rt, label_count(world), labels);
}

#[test]
fn removal_of_a_rewritten_pair(rt: HostRuntime) {
    goes_through::<NoFn>(&rt, rt.alloc(), Pair::Rewritten)
}

fn keeps_what_was_rewritten<'k, F: ComputeFn<u64, u64> + Copy>(
    rt: &impl Abort,
    world: &mut Numbers<'k, F>,
)
    requires { (f : F) → F.can_change f × F.never_keeps f }
{
    assert_reply(rt, world, OwnedCall::Insert(1, 9), value(Some(1)));
    drops(rt, world, 3);
    let lines = [
        Line::Silent(3),
        Line::Decide(3, value(None)),
        Line::Reply(3, value(None)),
        Line::Silent(3),
    ];
    assert_steps(rt, world, 3, &lines);
    assert_reply(rt, world, OwnedCall::Get(1), value(Some(9)));
}

#[test]
fn removal_of_a_pair_that_stayed(rt: HostRuntime) {
    goes_through::<NoFn>(&rt, rt.alloc(), Pair::Stayed)
}

fn removes_what_stayed<'k, F: ComputeFn<u64, u64> + Copy>(
    rt: &impl Abort,
    world: &mut Numbers<'k, F>,
)
    requires { (f : F) → F.can_change f × F.never_keeps f }
{
    assert_reply(rt, world, OwnedCall::Insert(17, 17), value(None));
    drops(rt, world, 3);
    let lines = [
        Line::Silent(3),
        Line::Decide(3, value(Some(1))),
        Line::Silent(3),
        Line::Reply(3, value(Some(1))),
    ];
    assert_steps(rt, world, 3, &lines);
    assert_reply(rt, world, OwnedCall::Get(1), value(None));
    // The pair is absent now, so a second removal of it finds nothing.
    drops(rt, world, 5);
    let lines = [
        Line::Silent(5),
        Line::Decide(5, value(None)),
        Line::Reply(5, value(None)),
    ];
    assert_steps(rt, world, 5, &lines);
}

#[test]
fn removal_of_nothing(rt: HostRuntime) {
    goes_through::<NoFn>(&rt, rt.alloc(), Pair::NotAskedFor)
}

fn removes_nothing<'k, F: ComputeFn<u64, u64> + Copy>(rt: &impl Abort, world: &mut Numbers<'k, F>)
    requires { (f : F) → F.can_change f × F.never_keeps f }
{
    let walk = begin(rt, world, OwnedCall::Walk);
    let clear = begin(rt, world, OwnedCall::Clear);
    drops_nothing(rt, world, walk);
    drops_nothing(rt, world, clear);
    drops_nothing(rt, world, 0);
    drops_nothing(rt, world, 100);
}
