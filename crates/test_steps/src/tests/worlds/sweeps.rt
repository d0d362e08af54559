//! Walks and clears between the steps of other calls, label by label.

use super::{
    Line, Numbers, assert_call, assert_reply, assert_same, assert_steps, begin, end_of, step,
    value, world_for,
};
use flurry_bins_slots::{ComputeFn, NoFn};
use flurry_steps::party::OwnedCall;
use std::alloc::Global;
use std::process::Abort;

// Inserts a number with itself as its value, as a party that meets no growth and runs to its reply.
fn puts<'k, F: ComputeFn<u64, u64> + Copy>(
    rt: &impl Abort,
    world: &mut Numbers<'k, F>,
    party: usize,
    number: u64,
)
    requires { (f : F) → F.can_change f × F.never_keeps f }
{
    let lines = [
        Line::Silent(party),
        Line::Decide(party, value(None)),
        Line::Silent(party),
        Line::Reply(party, value(None)),
    ];
    assert_call(rt, world, party, OwnedCall::Insert(number, number), &lines);
}

// Asserts that `steps` steps of a party are silent.
fn rests<'k, F: ComputeFn<u64, u64> + Copy>(
    rt: &impl Abort,
    world: &mut Numbers<'k, F>,
    party: usize,
    steps: u64,
) {
    for _ in 0..steps {
        assert_same(rt, step(rt, world, party), Line::Silent(party));
    }
}

// Asserts that a party ends at its step with the number `steps`.
fn ends_after<'k, F: ComputeFn<u64, u64> + Copy>(
    rt: &impl Abort,
    world: &mut Numbers<'k, F>,
    party: usize,
    steps: u64,
) {
    for _ in 1..steps {
        let ended = step(rt, world, party) == Line::End(party);
        assert_same(rt, ended, false);
    }
    assert_same(rt, step(rt, world, party), Line::End(party));
}

// In a world of 16 bins, with the keys 1 and 17 in one of them, party 2 walks and has read 1.
fn walks_half_a_bin<'k, F: ComputeFn<u64, u64> + Copy>(rt: &impl Abort, world: &mut Numbers<'k, F>)
    requires { (f : F) → F.can_change f × F.never_keeps f }
{
    puts(rt, world, 0, 1);
    puts(rt, world, 1, 17);
    let lines = [Line::Silent(2), Line::Silent(2), Line::Read(2, 1, 1)];
    assert_call(rt, world, 2, OwnedCall::Walk, &lines);
}

// A worked schedule.
#[derive(Clone, Copy)]
enum Row {
    TwoDoublings,
    KeyComesAgain,
    FiveDoublings,
    GrowthStops,
    NoTable,
}

// Goes through a row in a world of its own, which it passes by reference: where a world is dropped, the proof goes through everything that
// it can hold.
fn goes_through<F: ComputeFn<u64, u64> + Copy>(rt: &impl Abort, alloc: Global, row: Row)
    requires { (f : F) → F.can_change f × F.never_keeps f }
{
    let (capacity, processors) = match row {
        Row::TwoDoublings | Row::KeyComesAgain => (8, 1),
        Row::FiveDoublings => (2, 1),
        Row::GrowthStops => (32, 2),
        Row::NoTable => (0, 1),
    };
    let mut world: Numbers<'_, F> = world_for(rt, alloc, capacity, processors);
    match row {
        Row::TwoDoublings => walks_across_doublings(rt, &mut world),
        Row::KeyComesAgain => walks_past_a_key(rt, &mut world),
        Row::FiveDoublings => walks_across_five(rt, &mut world),
        Row::GrowthStops => clears_while_growing(rt, &mut world),
        Row::NoTable => sweeps_nothing(rt, &mut world),
    }
    drop(world);
}

#[test]
fn walk_beside_two_doublings(rt: HostRuntime) {
    goes_through::<NoFn>(&rt, rt.alloc(), Row::TwoDoublings)
}

fn walks_across_doublings<'k, F: ComputeFn<u64, u64> + Copy>(
    rt: &impl Abort,
    world: &mut Numbers<'k, F>,
)
    requires { (f : F) → F.can_change f × F.never_keeps f }
{
    walks_half_a_bin(rt, world);
    let grower = begin(rt, world, OwnedCall::Reserve(16));
    ends_after(rt, world, grower, 61);
    rests(rt, world, 2, 5);
    assert_steps(rt, world, 2, &[Line::Read(2, 17, 17)]);
    rests(rt, world, 2, 100);
    assert_steps(rt, world, 2, &[Line::End(2), Line::Silent(2)]);
}

#[test]
fn walk_beside_a_key_that_comes_again(rt: HostRuntime) {
    goes_through::<NoFn>(&rt, rt.alloc(), Row::KeyComesAgain)
}

fn walks_past_a_key<'k, F: ComputeFn<u64, u64> + Copy>(rt: &impl Abort, world: &mut Numbers<'k, F>)
    requires { (f : F) → F.can_change f × F.never_keeps f }
{
    walks_half_a_bin(rt, world);
    assert_reply(rt, world, OwnedCall::Remove(1), value(Some(1)));
    assert_reply(rt, world, OwnedCall::Insert(1, 5), value(None));
    assert_steps(rt, world, 2, &[Line::Read(2, 17, 17)]);
    rests(rt, world, 2, 15);
    assert_steps(rt, world, 2, &[Line::End(2)]);
}

#[test]
fn walk_beside_five_doublings(rt: HostRuntime) {
    goes_through::<NoFn>(&rt, rt.alloc(), Row::FiveDoublings)
}

fn walks_across_five<'k, F: ComputeFn<u64, u64> + Copy>(rt: &impl Abort, world: &mut Numbers<'k, F>)
    requires { (f : F) → F.can_change f × F.never_keeps f }
{
    puts(rt, world, 0, 2);
    assert_call(rt, world, 1, OwnedCall::Walk, &[Line::Silent(1)]);
    let grower = begin(rt, world, OwnedCall::Reserve(40));
    ends_after(rt, world, grower, 152);
    rests(rt, world, 1, 131);
    assert_steps(rt, world, 1, &[Line::Read(1, 2, 2)]);
    rests(rt, world, 1, 121);
    assert_steps(rt, world, 1, &[Line::End(1)]);
}

#[test]
fn clear_beside_a_growth_that_stops(rt: HostRuntime) {
    goes_through::<NoFn>(&rt, rt.alloc(), Row::GrowthStops)
}

fn clears_while_growing<'k, F: ComputeFn<u64, u64> + Copy>(
    rt: &impl Abort,
    world: &mut Numbers<'k, F>,
)
    requires { (f : F) → F.can_change f × F.never_keeps f }
{
    puts(rt, world, 0, 50);
    puts(rt, world, 1, 2);
    let lines = [
        Line::Silent(2),
        Line::Placed(7),
        Line::Silent(2),
        Line::Moved(6, 63),
    ];
    assert_call(rt, world, 2, OwnedCall::Reserve(30), &lines);
    assert_call(rt, world, 3, OwnedCall::Clear, &[Line::Silent(3)]);
    for index in 0..63usize {
        assert_same(rt, step(rt, world, 3), Line::Wipe(3, 6, index));
    }
    let lines = [
        Line::Silent(3),
        Line::Wipe(3, 7, 63),
        Line::Wipe(3, 7, 127),
        Line::Silent(3),
        Line::End(3),
    ];
    assert_steps(rt, world, 3, &lines);
    assert_reply(rt, world, OwnedCall::Get(2), value(None));
}

#[test]
fn sweeps_without_a_table(rt: HostRuntime) {
    goes_through::<NoFn>(&rt, rt.alloc(), Row::NoTable)
}

fn sweeps_nothing<'k, F: ComputeFn<u64, u64> + Copy>(rt: &impl Abort, world: &mut Numbers<'k, F>)
    requires { (f : F) → F.can_change f × F.never_keeps f }
{
    let lines = [Line::Silent(0), Line::End(0), Line::Silent(0)];
    assert_call(rt, world, 0, OwnedCall::Walk, &lines);
    let clear = begin(rt, world, OwnedCall::Clear);
    assert_same(rt, end_of(rt, world, clear), Line::End(clear));
}
