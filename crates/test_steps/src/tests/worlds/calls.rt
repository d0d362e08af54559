//! Each call once, a list of steps, and the first table of a new world.

use super::{
    Line, Numbers, assert_call, assert_reply, assert_same, begin, end_of, label_count, line_of,
    value, world_for,
};
use flurry_base::reply::KeptReply;
use flurry_bins_slots::{ComputeFn, NoFn};
use flurry_steps::party::OwnedCall;
use flurry_steps_world::world::Step;
use std::alloc::Global;
use std::process::Abort;

// Adds 2 to a value, or removes the pair if the result would be 10 or more.
fn two_more(value: u64) -> Option<u64> {
    value.checked_add(2).filter(|sum| *sum < 10)
}

// One-key calls, with a function.
#[derive(Clone, Copy)]
enum Row {
    AbsentKey,
    OneKey,
    Rewrites,
}

// Goes through a row in a world of its own, which it passes by reference: where a world is dropped, the proof goes through everything that
// it can hold.
fn goes_through<F: ComputeFn<u64, u64> + Copy>(rt: &impl Abort, alloc: Global, row: Row, change: F)
    requires { (f : F) → F.can_change f × F.never_keeps f }
{
    let capacity = match row {
        Row::AbsentKey | Row::OneKey => 0,
        Row::Rewrites => 5000,
    };
    let mut world = world_for(rt, alloc, capacity, 1);
    match row {
        Row::AbsentKey => absent_key(rt, &mut world, change),
        Row::OneKey => one_key(rt, &mut world, change),
        Row::Rewrites => rewrites(rt, &mut world, change),
    }
    drop(world);
}

// Goes through a row with the function that adds 2.
fn adds_two(rt: &impl Abort, alloc: Global, row: Row) {
    goes_through(rt, alloc, row, |_key: &u64, value: &u64| two_more(*value))
}

#[test]
fn calls_without_a_table(rt: HostRuntime) {
    adds_two(&rt, rt.alloc(), Row::AbsentKey)
}

fn absent_key<'k, F: ComputeFn<u64, u64> + Copy>(
    rt: &impl Abort,
    world: &mut Numbers<'k, F>,
    change: F,
)
    requires { (f : F) → F.can_change f × F.never_keeps f }
{
    let none = value(None);
    let absent = KeptReply::Contains(false);
    assert_reply(rt, world, OwnedCall::Get(3), none);
    assert_reply(rt, world, OwnedCall::GetKeyValue(3), KeptReply::Pair(None));
    assert_reply(rt, world, OwnedCall::ContainsKey(3), absent);
    assert_reply(rt, world, OwnedCall::Remove(3), none);
    assert_reply(rt, world, OwnedCall::RemoveEntry(3), KeptReply::Pair(None));
    assert_reply(rt, world, OwnedCall::Compute(3, change), none);
    let party = begin(rt, world, OwnedCall::Reserve(40));
    assert_same(rt, end_of(rt, world, party), Line::End(party));
}

#[test]
fn calls_of_one_key(rt: HostRuntime) {
    adds_two(&rt, rt.alloc(), Row::OneKey)
}

fn one_key<'k, F: ComputeFn<u64, u64> + Copy>(
    rt: &impl Abort,
    world: &mut Numbers<'k, F>,
    change: F,
)
    requires { (f : F) → F.can_change f × F.never_keeps f }
{
    puts(rt, world);
    assert_reply(rt, world, OwnedCall::Compute(3, change), value(Some(7)));
    assert_reply(rt, world, OwnedCall::Compute(19, change), value(Some(8)));
    assert_reply(rt, world, OwnedCall::Compute(19, change), value(None));
    removes(rt, world);
}

// Sets the value of key 3 to 5, and the value of key 19 to 6.
fn puts<'k, F: ComputeFn<u64, u64> + Copy>(rt: &impl Abort, world: &mut Numbers<'k, F>)
    requires { (f : F) → F.can_change f × F.never_keeps f }
{
    let exists = KeptReply::Exists {
        current: 6,
        not_inserted: 7,
    };
    assert_reply(rt, world, OwnedCall::Insert(3, 4), value(None));
    assert_reply(rt, world, OwnedCall::Insert(3, 5), value(Some(4)));
    assert_reply(rt, world, OwnedCall::TryInsert(19, 6), KeptReply::New(6));
    assert_reply(rt, world, OwnedCall::TryInsert(19, 7), exists);
    assert_reply(rt, world, OwnedCall::Get(3), value(Some(5)))
}

// Removes key 3, whose value is 7, while key 19 is absent.
fn removes<'k, F: ComputeFn<u64, u64> + Copy>(rt: &impl Abort, world: &mut Numbers<'k, F>)
    requires { (f : F) → F.can_change f × F.never_keeps f }
{
    let pair = KeptReply::Pair(Some((3, 7)));
    assert_reply(
        rt,
        world,
        OwnedCall::ContainsKey(19),
        KeptReply::Contains(false),
    );
    assert_reply(
        rt,
        world,
        OwnedCall::ContainsKey(3),
        KeptReply::Contains(true),
    );
    assert_reply(rt, world, OwnedCall::GetKeyValue(3), pair);
    assert_reply(rt, world, OwnedCall::RemoveEntry(3), pair);
    assert_reply(rt, world, OwnedCall::Insert(35, 1), value(None));
    assert_reply(rt, world, OwnedCall::Remove(35), value(Some(1)))
}

// A list of steps and the same steps one by one have the same labels. Party 0 has read nothing, so no removal of what it has read begins.
#[test]
fn list_of_steps(rt: HostRuntime) {
    runs_a_list::<NoFn>(&rt, rt.alloc(), true);
    runs_a_list::<NoFn>(&rt, rt.alloc(), false)
}

// The number of steps of the list.
const STEPS: usize = 16;

// Returns the step of the list at the place `at`.
fn step_at<F>(at: usize) -> Step<u64, u64, F> {
    match at {
        0 => Step::Begin(OwnedCall::TryInsert(3, 4)),
        1 => Step::Begin(OwnedCall::TryInsert(19, 4)),
        2 | 5 | 7 => Step::Step(0),
        3 | 4 => Step::Step(1),
        6 => Step::Step(7),
        8 => Step::Drop(0),
        9 => Step::Begin(OwnedCall::Walk),
        15 => Step::Drop(2),
        _ => Step::Step(2),
    }
}

// Does the steps in a world of its own, as a list or one by one.
fn runs_a_list<F: ComputeFn<u64, u64> + Copy>(rt: &impl Abort, alloc: Global, listed: bool)
    requires { (f : F) → F.can_change f × F.never_keeps f }
{
    let mut world: Numbers<'_, F> = world_for(rt, alloc, 0, 1);
    if listed {
        does_listed(rt, alloc, &mut world);
    } else {
        does_singly(rt, &mut world);
    }
    has_labels_of_the_list(rt, &world);
    drop(world);
}

// Does the steps as a list.
#[tactic(auto, using(flurry_steps_world::proofs::RunLaws::step_ready))]
fn does_listed<'k, F: ComputeFn<u64, u64> + Copy>(
    rt: &impl Abort,
    alloc: Global,
    world: &mut Numbers<'k, F>,
)
    requires { (f : F) → F.can_change f × F.never_keeps f }
{
    let mut list = Vec::new(alloc);
    for at in 0..STEPS {
        list.push(step_at(at)).expect(rt, "memory for the step");
    }
    world.run(list).expect(rt, "memory for the steps");
}

// Does the steps one by one, each by the call that does it.
fn does_singly<'k, F: ComputeFn<u64, u64> + Copy>(rt: &impl Abort, world: &mut Numbers<'k, F>)
    requires { (f : F) → F.can_change f × F.never_keeps f }
{
    for at in 0..STEPS {
        match step_at(at) {
            Step::Begin(call) => {
                let _ = begin(rt, world, call);
            }
            Step::Drop(walk) => {
                let _ = world
                    .begin_remove_seen(walk)
                    .expect(rt, "memory for the call");
            }
            Step::Step(party) => world.step(party).expect(rt, "memory for the step"),
            Step::Lose(party) => world.lose(party).expect(rt, "memory for the label"),
        }
    }
}

// Asserts that the labels of the world are those of the list.
fn has_labels_of_the_list<'k, F: ComputeFn<u64, u64> + Copy>(
    rt: &impl Abort,
    world: &Numbers<'k, F>,
) {
    let lines = [
        Line::Begin(0),
        Line::Begin(1),
        Line::Opened(4),
        Line::Silent(1),
        Line::Decide(1, KeptReply::New(4)),
        Line::Decide(0, KeptReply::New(4)),
        Line::Silent(7),
        Line::Silent(0),
        Line::Begin(2),
        Line::Silent(2),
        Line::Silent(2),
        Line::Silent(2),
        Line::Silent(2),
        Line::Read(2, 3, 4),
        Line::Begin(3),
    ];
    assert_trace(rt, world, &lines);
}

// Asserts that `lines` are the labels of a world.
fn assert_trace<'k, F: ComputeFn<u64, u64> + Copy>(
    rt: &impl Abort,
    world: &Numbers<'k, F>,
    lines: &[Line],
) {
    assert_same(rt, label_count(world), lines.len());
    for (label, line) in world.trace().iter().zip(lines) {
        assert_same(rt, line_of(label), *line);
    }
}

// Without room for pairs, the first table has 16 bins. With room for 1 pair it has 2 bins, for 5 pairs 8, and for 16 pairs 32.
#[test]
fn first_table(rt: HostRuntime) {
    for (capacity, table) in [(0, 4), (1, 1), (5, 3), (16, 5)] {
        has_first_table::<NoFn>(&rt, rt.alloc(), capacity, table);
    }
}

// Asserts that `table` is the first table of a world with room for `capacity` pairs.
fn has_first_table<F: ComputeFn<u64, u64> + Copy>(
    rt: &impl Abort,
    alloc: Global,
    capacity: usize,
    table: u8,
)
    requires { (f : F) → F.can_change f × F.never_keeps f }
{
    let mut world: Numbers<'_, F> = world_for(rt, alloc, capacity, 1);
    if capacity == 0 {
        let lines = [Line::Opened(table)];
        assert_call(rt, &mut world, 0, OwnedCall::Insert(0, 0), &lines);
    } else {
        begins_with(rt, &mut world, table);
    }
    drop(world);
}

// Asserts that the first table is `table`: an insertion decides in it, and the next table that a reserve makes shows which one it is.
fn begins_with<'k, F: ComputeFn<u64, u64> + Copy>(
    rt: &impl Abort,
    world: &mut Numbers<'k, F>,
    table: u8,
)
    requires { (f : F) → F.can_change f × F.never_keeps f }
{
    let lines = [Line::Silent(0), Line::Decide(0, value(None))];
    assert_call(rt, world, 0, OwnedCall::Insert(0, 0), &lines);
    assert_same(rt, end_of(rt, world, 0), Line::Reply(0, value(None)));
    let lines = [Line::Silent(1), Line::Placed(table.saturating_add(1))];
    assert_call(rt, world, 1, OwnedCall::Reserve(64), &lines);
}

#[test]
fn rewritten_value(rt: HostRuntime) {
    adds_two(&rt, rt.alloc(), Row::Rewrites)
}

// With enough memory, no call fails in a table of 8192 bins, for any write number of a value, and the next larger table can be made too. A
// value is written ten times, and looked up in between.
fn rewrites<'k, F: ComputeFn<u64, u64> + Copy>(
    rt: &impl Abort,
    world: &mut Numbers<'k, F>,
    change: F,
)
    requires { (f : F) → F.can_change f × F.never_keeps f }
{
    assert_reply(rt, world, OwnedCall::Insert(8191, 0), value(None));
    for _ in 0..10u8 {
        assert_reply(rt, world, OwnedCall::Insert(8191, 1), value(Some(0)));
        let exists = KeptReply::Exists {
            current: 1,
            not_inserted: 7,
        };
        assert_reply(rt, world, OwnedCall::TryInsert(8191, 7), exists);
        assert_reply(rt, world, OwnedCall::Compute(8191, change), value(Some(3)));
        assert_reply(rt, world, OwnedCall::Insert(8191, 0), value(Some(3)));
        let pair = KeptReply::Pair(Some((8191, 0)));
        assert_reply(rt, world, OwnedCall::GetKeyValue(8191), pair);
        assert_reply(rt, world, OwnedCall::Get(8191), value(Some(0)));
    }
    let lines = [Line::Silent(61), Line::Placed(14)];
    assert_call(rt, world, 61, OwnedCall::Reserve(8192), &lines);
}
