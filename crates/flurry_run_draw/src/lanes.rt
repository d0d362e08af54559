//! The positions of the marks of a picture.

use crate::label::{Kind, split_line};
use flurry_run_lines::schedule::{Line, parse_line};
use std::alloc::{AllocError, Global};

// The last place in a row.
const LAST_PLACE: u64 = 17;

/// A mark, which stands for a step: the kind of the step, its lane, its row, and its place in the row.
#[derive(Clone, Copy, Debug)]
pub struct Mark {
    pub kind: Kind,
    pub lane: u64,
    pub row: u64,
    pub place: u64,
}

/// A lane: the first and the last row of its party, and the range of bytes of the schedule that is the line of its call.
#[derive(Clone, Copy, Debug)]
pub struct Lane {
    pub first: u64,
    pub last: u64,
    pub from: usize,
    pub to: usize,
}

/// The marks of a run, in their order, and its lanes.
#[derive(Drop)]
pub struct Plan {
    pub marks: Vec<Mark>,
    pub lanes: Vec<Lane>,
    /// The number of rows that are used.
    pub rows: u64,
}

impl Plan {
    /// Creates the plan of the labels in `text`, which the run of `schedule` has written.
    ///
    /// # Errors
    ///
    /// Returns [`AllocError`] if memory for the plan cannot be allocated.
    pub fn new(alloc: Global, schedule: &[u8], text: &[u8]) -> Result<Self, AllocError> {
        let mut plan = Plan {
            marks: Vec::new(alloc),
            lanes: Vec::new(alloc),
            rows: 0,
        };
        let mut rest = text;
        let mut from = 0usize;
        for line in schedule.split(|byte| *byte == b'\n') {
            let to = from.saturating_add(line.len());
            let (party, steps) = match parse_line(line) {
                Some(Line::World(_, _)) | None => (0, 0),
                Some(Line::Step(party, steps)) => (party, steps),
                Some(Line::Drop(party) | Line::Lose(party)) => (party, 1),
                Some(_) => (0, 1),
            };
            rest = plan.add_labels(rest, party, steps, from, to)?;
            from = to.saturating_add(1);
        }
        Ok(plan)
    }

    // Adds the marks of up to `steps` labels, which one line of the schedule has written, and returns the text after them.
    fn add_labels<'t>(
        &mut self,
        text: &'t [u8],
        party: u64,
        steps: u64,
        from: usize,
        to: usize,
    ) -> Result<&'t [u8], AllocError> {
        let mut rest = text;
        for _ in 0..steps {
            if rest.is_empty() {
                break;
            }
            let (label, after) = split_line(rest);
            match Kind::of_line(label) {
                Kind::Begins => self.begin(from, to)?,
                kind => self.add(party, kind)?,
            }
            rest = after;
        }
        Ok(rest)
    }

    // Adds the lane and the first mark of a call, whose line is the bytes from `from` to `to` of the schedule.
    fn begin(&mut self, from: usize, to: usize) -> Result<(), AllocError> {
        let party = self.lanes.len() as u64;
        self.lanes.push(Lane {
            first: self.rows,
            last: self.rows,
            from,
            to,
        })?;
        self.add(party, Kind::Begins)
    }

    // Adds the mark of a step.
    fn add(&mut self, party: u64, kind: Kind) -> Result<(), AllocError> {
        let lane = party.min(self.lanes.len() as u64);
        let (row, place) = self.next_place(lane, kind);
        self.marks.push(Mark {
            kind,
            lane,
            row,
            place,
        })?;
        self.rows = row.saturating_add(1);
        if let Some(lane) = self.lanes.get_mut(lane as usize) {
            lane.last = row;
        }
        Ok(())
    }

    // Returns the row and the place of the next mark, which is beside the last mark if both are small, and otherwise in a new row.
    fn next_place(&self, lane: u64, kind: Kind) -> (u64, u64) {
        match self.marks.last() {
            Some(last)
                if last.lane == lane
                    && last.kind.is_small()
                    && kind.is_small()
                    && last.place < LAST_PLACE => { (last.row, last.place.saturating_add(1)) }
            _ => (self.rows, 0),
        }
    }
}
