//! The rule of a board's words, and what each atomic step under it tells.
ghost use Rattle.flurry_steps_claims.specs.SeatNotes.{new_notes, joint_notes};
ghost use Rattle.flurry_steps_claims.specs.BoardRule.{BoardRule};
ghost use Rattle.flurry_steps_claims.specs.AtomicSteps.{SitGives, LoadGives, ExchangeGives, AddGives};

use crate::seat_notes::SeatNotes;
use atomic_table::{Join, Play, TableRule};
use std::marker::{Brand, PhantomData};

// The rule is told the number of ranges.
pub struct Rule;

impl TableRule<(), SeatNotes, u64> for Rule {
    ghost holds = { BoardRule };

    ghost first = { λ _. new_notes };
}

// What a step is about: a board of so many ranges, and the range that is reported. Each call chooses it.
pub trait About {
    ghost use Rattle.std.specs.Prelude.{ℕ};

    ghost ranges: { ℕ };

    ghost number: { ℕ };
}

impl About for Brand {
    ghost ranges = { 0 };

    ghost number = { 0 };
}

// A new seat.
pub struct Sit;

impl Play<(), SeatNotes> for Sit {
    ghost then = { SitGives };
}

// A look at the next number.
pub struct Load<B> {
    about: PhantomData<B>,
}

impl<B: About> Play<(), SeatNotes> for Load<B> {
    ghost then = { LoadGives B.ranges };
}

// A claim of the next number.
pub struct Exchange<B> {
    about: PhantomData<B>,
}

impl<B: About> Play<(), SeatNotes> for Exchange<B> {
    ghost then = { ExchangeGives B.ranges };
}

// A report.
pub struct Add<B> {
    about: PhantomData<B>,
}

impl<B: About> Play<(), SeatNotes> for Add<B> {
    ghost then = { AddGives B.ranges B.number };
}

// Two seats become one.
pub struct Both;

impl Join<SeatNotes> for Both {
    ghost both = { joint_notes };

    ghost spent = { new_notes };
}
