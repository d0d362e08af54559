//! A small part of an unlawful history that is unlawful too.

use crate::calls::{Call, Event};
use crate::judging::{Cut, Judged, Verdict, judge};
use std::alloc::{AllocError, Global};

/// Calls of one key that no order explains.
#[derive(Drop)]
pub struct Fault {
    /// The value of the key before these calls, where `None` means that the key is absent.
    pub first: Option<u64>,
    /// The calls.
    pub events: Vec<Event>,
    /// The ticket after which no order is left. Calls that end later may have taken effect by then or not, and neither explains the
    /// replies.
    pub until: u64,
}

// Whether the calls are unlawful at this ticket or before.
fn is_unlawful(judged: Judged, until: u64) -> bool {
    judged.verdict == Verdict::Unlawful && judged.until <= until
}

// Lists the calls that start before the judge saw the fault and are in no order at the cut, in the order of their tickets.
fn near(alloc: Global, events: &[Event], cut: Cut, until: u64) -> Result<Vec<Event>, AllocError> {
    let mut near = Vec::new(alloc);
    for event in events {
        if event.start < until && cut.lacks(event) {
            near.push(*event)?;
        }
    }
    near.sort_unstable_by_key(|event| event.start);
    Ok(near)
}

// Lists the calls but for the one that starts at this ticket.
fn without(alloc: Global, events: &[Event], start: u64) -> Result<Vec<Event>, AllocError> {
    let mut others = Vec::new(alloc);
    for event in events {
        if event.start != start {
            others.push(*event)?;
        }
    }
    Ok(others)
}

/// Returns a small part of the calls of one key that no order explains. `judged` must be what [`judge`] returned for these calls, of a key
/// that is absent at first, and its verdict [`Verdict::Unlawful`].
///
/// What is left out cannot explain the other calls: calls that start after the fault, calls that every order has before a moment at which
/// all orders had led to the same, and calls that leave the value as it is. So if the part has no order, all calls have none. A call that
/// writes is kept, since without it lawful calls can become unlawful.
///
/// # Errors
///
/// Returns [`AllocError`] if memory for the calls cannot be allocated.
pub fn shrink(alloc: Global, events: &[Event], judged: Judged) -> Result<Fault, AllocError> {
    let (first, until) = (judged.cut.value(), judged.until);
    let mut kept = near(alloc, events, judged.cut, until)?;
    let candidates = near(alloc, events, judged.cut, until)?;
    for event in &candidates {
        if event.is_read() {
            let others = without(alloc, &kept, event.start)?;
            if is_unlawful(judge(alloc, first, &others)?, until) {
                kept = others;
            }
        }
    }
    Ok(Fault {
        first,
        events: kept,
        until,
    })
}

/// Lists the calls among `events` that wrote the value of `fault` at first, or one that its calls returned, and that are not among its
/// calls.
///
/// # Errors
///
/// Returns [`AllocError`] if memory for the list cannot be allocated.
pub fn writers(alloc: Global, events: &[Event], fault: &Fault) -> Result<Vec<Event>, AllocError> {
    let mut writers = Vec::new(alloc);
    for event in events {
        if !event.is_read() && !fault.events.contains(event) && fault.names(event.call.value()) {
            writers.push(*event)?;
        }
    }
    Ok(writers)
}

impl Fault {
    // Whether this is the value at first, or one that a call found.
    fn names(&self, value: Option<u64>) -> bool {
        let found = |event: &Event| -> bool {
            event.call != Call::ContainsKey && event.apply(value).is_some()
        };
        value.is_some() && (self.first == value || self.events.iter().any(found))
    }
}
