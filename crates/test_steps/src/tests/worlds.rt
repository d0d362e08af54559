//! Worlds of numbers: worked schedules, each call once, random schedules whose labels are checked, and driven calls; and what these share.

mod calls;
mod checker;
mod driven;
mod drops;
mod random;
mod rows;
mod sweeps;

use super::{Becomes, Close, assert_same, assert_same_at, closes_with, without_owners};
use flurry_base::hash::LowHashBuilder;
use flurry_base::reply::KeptReply;
use flurry_bins_slots::ComputeFn;
use flurry_steps::party::OwnedCall;
use flurry_steps_theory::Label;
use flurry_steps_world::world::World;
use std::alloc::Global;
use std::process::Abort;

/// A world in which the hash of each key is the key.
type Numbers<'k, F> = World<'k, u64, u64, F, LowHashBuilder>;

/// A label, which of a call names only the party.
#[derive(Clone, Copy, Debug, PartialEq, Eq)]
enum Line {
    Begin(usize),
    Decide(usize, KeptReply<u64, u64>),
    Reply(usize, KeptReply<u64, u64>),
    Refused(usize),
    End(usize),
    Opened(u8),
    Placed(u8),
    Moved(u8, usize),
    Published(u8),
    Silent(usize),
    Wipe(usize, u8, usize),
    Read(usize, u64, u64),
}

fn line_of<F>(label: &Label<u64, u64, F>) -> Line {
    match label {
        Label::Begin(party, _) => Line::Begin(*party),
        Label::Decide(party, reply) => Line::Decide(*party, *reply),
        Label::Reply(party, reply) => Line::Reply(*party, *reply),
        Label::Refused(party) => Line::Refused(*party),
        Label::End(party) => Line::End(*party),
        Label::Opened(table) => Line::Opened(*table),
        Label::Placed(table) => Line::Placed(*table),
        Label::Moved(table, index) => Line::Moved(*table, *index),
        Label::Published(table) => Line::Published(*table),
        Label::Silent(party) => Line::Silent(*party),
        Label::Wipe(party, table, index) => Line::Wipe(*party, *table, *index),
        Label::Read(party, key, value) => Line::Read(*party, *key, *value),
    }
}

// Returns how many labels a world has. A test asks here, because each `trace` in its own body makes its proof longer.
fn label_count<'k, F: ComputeFn<u64, u64> + Copy>(world: &Numbers<'k, F>) -> usize {
    world.trace().len()
}

// Returns the last label.
fn last_line<'k, F: ComputeFn<u64, u64> + Copy>(rt: &impl Abort, world: &Numbers<'k, F>) -> Line {
    line_of(world.trace().last().expect(rt, "a label was added"))
}

// Returns the reply of a value, or of `None`.
fn value(value: Option<u64>) -> KeptReply<u64, u64> {
    KeptReply::Value(value)
}

// Returns a world with room for `capacity` pairs.
fn world_for<'k, F: ComputeFn<u64, u64> + Copy>(
    rt: &impl Abort,
    alloc: Global,
    capacity: usize,
    processors: usize,
) -> Numbers<'k, F> {
    Numbers::new(alloc, capacity, LowHashBuilder, processors).expect(rt, "memory for the world")
}

// Does the party's next step, and returns its label.
fn step<'k, F: ComputeFn<u64, u64> + Copy>(
    rt: &impl Abort,
    world: &mut Numbers<'k, F>,
    party: usize,
) -> Line {
    world.step(party).expect(rt, "memory for the step");
    last_line(rt, world)
}

// Makes the party lose an attempt, and asserts that the label is silent.
fn lose<'k, F: ComputeFn<u64, u64> + Copy>(
    rt: &impl Abort,
    world: &mut Numbers<'k, F>,
    party: usize,
) {
    world.lose(party).expect(rt, "memory for the label");
    assert_same(rt, last_line(rt, world), Line::Silent(party));
}

// Asserts that `lines` are the labels of the party's next steps.
fn assert_steps<'k, F: ComputeFn<u64, u64> + Copy>(
    rt: &impl Abort,
    world: &mut Numbers<'k, F>,
    party: usize,
    lines: &[Line],
) {
    for line in lines {
        assert_same(rt, step(rt, world, party), *line);
    }
}

// Begins a call, with any function.
fn begin<'k, F: ComputeFn<u64, u64> + Copy>(
    rt: &impl Abort,
    world: &mut Numbers<'k, F>,
    call: OwnedCall<u64, u64, F>,
) -> usize
    requires { (f : F) → F.can_change f × F.never_keeps f }
{
    world.begin(call).expect(rt, "memory for the call")
}

// Begins a call, and asserts that `lines` are its labels from its first step on.
fn assert_call<'k, F: ComputeFn<u64, u64> + Copy>(
    rt: &impl Abort,
    world: &mut Numbers<'k, F>,
    party: usize,
    call: OwnedCall<u64, u64, F>,
    lines: &[Line],
)
    requires { (f : F) → F.can_change f × F.never_keeps f }
{
    assert_same(rt, begin(rt, world, call), party);
    assert_same(rt, last_line(rt, world), Line::Begin(party));
    assert_steps(rt, world, party, lines);
}

// Does the next steps of a party until it replies or ends, and returns that label.
fn end_of<'k, F: ComputeFn<u64, u64> + Copy>(
    rt: &impl Abort,
    world: &mut Numbers<'k, F>,
    party: usize,
) -> Line {
    for _ in 0..1000u64 {
        let line = step(rt, world, party);
        if let Line::Reply(_, _) | Line::End(_) = line {
            return line;
        }
    }
    panic!(rt; "the party ends")
}

// Runs a call to its end, and asserts that its reply is `reply`.
fn assert_reply<'k, F: ComputeFn<u64, u64> + Copy>(
    rt: &impl Abort,
    world: &mut Numbers<'k, F>,
    call: OwnedCall<u64, u64, F>,
    reply: KeptReply<u64, u64>,
)
    requires { (f : F) → F.can_change f × F.never_keeps f }
{
    let party = begin(rt, world, call);
    assert_same(rt, end_of(rt, world, party), Line::Reply(party, reply));
}
