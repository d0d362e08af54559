//! What the orders of the calls so far have led to.
ghost use Rattle.std.specs.Prelude.{◌<◌};

use crate::calls::Event;
use std::alloc::{AllocError, Global};

// The greatest number of cases that are looked at when a call ends.
const MAX_CASES: u64 = 4096;

/// The number of threads that a history can have.
pub const MAX_THREADS: u64 = 64;

/// What one order of the calls so far has led to: the value of the key, and which of the open calls the order has, by the bits of their
/// threads.
#[derive(Clone, Copy, PartialEq, Eq)]
pub struct Case {
    pub value: Option<u64>,
    pub done: u64,
}

// The bit of a thread.
fn bit(thread: u64) -> u64 {
    1 << (thread % MAX_THREADS)
}

impl Case {
    /// Returns `true` if the order has the open call of `thread`.
    pub fn has(self, thread: u64) -> bool {
        self.done & bit(thread) != 0
    }

    // The case without the open call of the thread, which ends.
    fn without(self, thread: u64) -> Case {
        Case {
            value: self.value,
            done: self.done & !bit(thread),
        }
    }

    // The case after an open call, or `None` if the order has it already, or if its reply would be another.
    fn after(self, event: &Event) -> Option<Case> {
        if self.has(event.thread) {
            return None;
        }
        let value = event.apply(self.value)?;
        Some(Case {
            value,
            done: self.done | bit(event.thread),
        })
    }

    // The case after each open call whose reply fits the value and that leaves the value as it is. To have such a call in the order now
    // excludes no later order.
    fn settled(self, open: &[Event]) -> Case {
        let mut done = self.done;
        for event in open {
            if event.apply(self.value) == Some(self.value) {
                done |= bit(event.thread);
            }
        }
        Case {
            value: self.value,
            done,
        }
    }
}

/// The calls that are open at one moment, and the cases to which the orders of all calls so far have led, each once.
#[derive(Drop)]
pub struct Cases {
    open: Vec<Event>,
    cases: Vec<Case>,
}

// Adds a case unless it is there.
fn add(cases: &mut Vec<Case>, case: Case) -> Result<(), AllocError> {
    if !cases.contains(&case) {
        cases.push(case)?;
    }
    Ok(())
}

impl Cases {
    /// Creates the one case of a key that has the value `first`, and no open call.
    ///
    /// # Errors
    ///
    /// Returns [`AllocError`] if memory for the case cannot be allocated.
    pub fn new(alloc: Global, first: Option<u64>) -> Result<Self, AllocError> {
        let mut cases = Vec::new(alloc);
        cases.push(Case {
            value: first,
            done: 0,
        })?;
        Ok(Cases {
            open: Vec::new(alloc),
            cases,
        })
    }

    /// Returns the number of open calls.
    pub fn open(&self) -> usize {
        self.open.len()
    }

    /// Returns `true` if no order is left.
    pub fn is_empty(&self) -> bool {
        self.cases.is_empty()
    }

    /// Returns the case if there is exactly one.
    pub fn only(&self) -> Option<Case> {
        match self.cases.as_slice() {
            [case] => Some(*case),
            _ => None,
        }
    }

    /// Opens a call. Returns `false` if its thread has an open call already, or if its thread has too great a number; nothing has changed
    /// then.
    ///
    /// # Errors
    ///
    /// Returns [`AllocError`] if memory for the call cannot be allocated.
    pub fn start(&mut self, event: Event) -> Result<bool, AllocError> {
        if event.thread >= MAX_THREADS || self.open.iter().any(|o| o.thread == event.thread) {
            return Ok(false);
        }
        self.open.push(event)?;
        for case in &mut self.cases {
            *case = case.settled(&self.open);
        }
        Ok(true)
    }

    /// Ends an open call: only the orders that have it are left. Returns `false` if there are too many cases to look at them all.
    ///
    /// # Errors
    ///
    /// Returns [`AllocError`] if memory for the cases cannot be allocated.
    pub fn end(&mut self, alloc: Global, thread: u64) -> Result<bool, AllocError> {
        let mut found: Vec<Case> = Vec::new(alloc);
        found.extend_from_slice(&self.cases)?;
        let mut left = Vec::new(alloc);
        for index in 0..MAX_CASES {
            let Some(case) = found.get(index as usize).copied() else {
                self.open.retain(|open| open.thread != thread);
                self.cases = left;
                return Ok(true);
            };
            if case.has(thread) {
                add(&mut left, case.without(thread))?;
            } else {
                self.add_next(case, &mut found)?;
            }
        }
        Ok(false)
    }

    // Adds the cases to which one more open call leads.
    fn add_next(&self, case: Case, found: &mut Vec<Case>) -> Result<(), AllocError> {
        for event in &self.open {
            if let Some(next) = case.after(event) {
                add(found, next.settled(&self.open))?;
            }
        }
        Ok(())
    }
}
