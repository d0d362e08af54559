//! Whether the calls of one key have an order that explains their replies.

use crate::calls::Event;
use crate::cases::{Case, Cases};
use std::alloc::{AllocError, Global};

/// What the judge found.
#[derive(Clone, Copy, PartialEq, Eq)]
pub enum Verdict {
    /// There is an order of all calls, which has a call that ended before another started before it, in which each reply is the one that
    /// a key with one value or none gives.
    Lawful,
    /// There is no such order.
    Unlawful,
    /// Too many orders were possible at one moment, or one thread has two calls at the same time, or too great a number.
    NotJudged,
}

/// A moment after which all orders had led to the same.
#[derive(Clone, Copy)]
pub struct Cut {
    ticket: u64,
    case: Case,
}

impl Cut {
    /// Returns the value of the key at that moment.
    pub fn value(self) -> Option<u64> {
        self.case.value
    }

    /// Returns `true` if the orders at that moment do not have the call.
    pub fn lacks(self, event: &Event) -> bool {
        event.start > self.ticket || (event.end > self.ticket && !self.case.has(event.thread))
    }
}

/// The verdict on the calls of one key, and how it came about.
#[derive(Clone, Copy)]
pub struct Judged {
    pub verdict: Verdict,
    /// The ticket of the last moment at which the judge looked. If the history is unlawful, its calls until then show that.
    pub until: u64,
    /// The last moment at which all orders had led to the same.
    pub cut: Cut,
    /// The greatest number of calls that were open at one moment.
    pub most_open: usize,
}

// A start or an end of a call.
#[derive(Clone, Copy)]
struct Moment {
    ticket: u64,
    is_end: bool,
    event: Event,
}

// Lists the starts and the ends of the calls, in the order of their tickets.
fn moments_of(alloc: Global, events: &[Event]) -> Result<Vec<Moment>, AllocError> {
    let mut moments = Vec::new(alloc);
    for event in events {
        moments.push(Moment {
            ticket: event.start,
            is_end: false,
            event: *event,
        })?;
        moments.push(Moment {
            ticket: event.end,
            is_end: true,
            event: *event,
        })?;
    }
    moments.sort_unstable_by_key(|moment| moment.ticket);
    Ok(moments)
}

// Goes on by a moment, and returns the verdict on the calls until then.
fn pass(alloc: Global, cases: &mut Cases, moment: &Moment) -> Result<Verdict, AllocError> {
    let is_known = if moment.is_end {
        cases.end(alloc, moment.event.thread)?
    } else {
        cases.start(moment.event)?
    };
    Ok(if !is_known {
        Verdict::NotJudged
    } else if cases.is_empty() {
        Verdict::Unlawful
    } else {
        Verdict::Lawful
    })
}

/// Judges the calls of one key, whose value at first is `first`, where `None` means that the key is absent.
///
/// The events may be in any order. Their tickets must differ.
///
/// # Errors
///
/// Returns [`AllocError`] if memory for the orders cannot be allocated.
pub fn judge(alloc: Global, first: Option<u64>, events: &[Event]) -> Result<Judged, AllocError> {
    let moments = moments_of(alloc, events)?;
    let mut cases = Cases::new(alloc, first)?;
    let case = Case {
        value: first,
        done: 0,
    };
    let mut judged = Judged {
        verdict: Verdict::Lawful,
        until: 0,
        cut: Cut { ticket: 0, case },
        most_open: 0,
    };
    for moment in &moments {
        judged.verdict = pass(alloc, &mut cases, moment)?;
        judged.until = moment.ticket;
        judged.most_open = judged.most_open.max(cases.open());
        if judged.verdict != Verdict::Lawful {
            break;
        }
        if let Some(case) = cases.only() {
            judged.cut = Cut {
                ticket: moment.ticket,
                case,
            };
        }
    }
    Ok(judged)
}
