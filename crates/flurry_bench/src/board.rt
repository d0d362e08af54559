//! The samples of a run, and their summaries.

use crate::measures::{Kind, Measure};
use std::alloc::{AllocError, Global};

/// The place in the table to which a sample belongs.
#[derive(Clone, Copy, PartialEq, Eq)]
pub struct Cell {
    pub measure: Measure,
    pub kind: Kind,
    pub keys: u64,
    pub threads: u64,
}

#[derive(Clone, Copy)]
struct Sample {
    cell: Cell,
    value: u64,
}

/// The samples of all rounds.
#[derive(Drop)]
pub struct Board {
    samples: Vec<Sample>,
}

/// The median, the least and the greatest of the samples of one cell, in tenths of a unit.
#[derive(Clone, Copy)]
pub struct Summary {
    pub median: u64,
    pub least: u64,
    pub greatest: u64,
}

impl Board {
    pub fn new(alloc: Global) -> Board {
        Board {
            samples: Vec::new(alloc),
        }
    }

    /// Adds a sample of `cell`, where `value` is in tenths of a unit.
    ///
    /// # Errors
    ///
    /// Returns [`AllocError`] if memory for the sample cannot be allocated.
    pub fn add(&mut self, cell: Cell, value: u64) -> Result<(), AllocError> {
        self.samples.push(Sample { cell, value })?;
        Ok(())
    }

    /// Returns the summary of the samples of `cell`, or `None` if there are none.
    ///
    /// # Errors
    ///
    /// Returns [`AllocError`] if memory for a list of the samples cannot be allocated.
    pub fn summary(&self, alloc: Global, cell: Cell) -> Result<Option<Summary>, AllocError> {
        let mut values: Vec<u64> = Vec::new(alloc);
        for sample in &self.samples {
            if sample.cell == cell {
                values.push(sample.value)?;
            }
        }
        values.sort_unstable();
        Ok(summary_of(&values))
    }
}

// Returns the summary of sorted values. If their number is even, the median is the lower of the two values in the middle.
fn summary_of(values: &[u64]) -> Option<Summary> {
    let least = *values.first()?;
    let greatest = *values.last()?;
    let median = *values.get((values.len() - 1) / 2)?;
    Some(Summary {
        median,
        least,
        greatest,
    })
}
