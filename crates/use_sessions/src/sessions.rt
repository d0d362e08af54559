//! A registry of sessions, which threads share.

ghost use Rattle.std.specs.Prelude.{◌≤◌, IfOk, IfSome};
ghost use Rattle.std.specs.Ordering.{nat_cmp};
ghost use Rattle.flurry.specs.FiniteMap.{IsFiniteMap};

use flurry::HashMap;
use flurry::pairs::{self, SortedPairs};
use std::alloc::{AllocError, Global};
use std::sync::Wait;

/// A registry of sessions by their numbers, each with the time at which it was last seen.
#[derive(Drop)]
pub struct Sessions {
    seen: HashMap<u64, u64>,
}

// What `open` and `count` return, and what `expire` leaves, depends on other threads, and what `new` returns no thread has seen yet. So
// these promise safety alone.
impl Sessions {
    /// Creates a registry without sessions, for `threads` threads.
    pub fn new(alloc: Global, threads: usize) -> Self {
        Sessions {
            seen: HashMap::new(alloc).with_processors(threads),
        }
    }

    /// Opens the session `id`, which is seen at the time `now`, unless it is open. Returns `true` if it is new.
    ///
    /// # Errors
    ///
    /// Returns [`AllocError`] if memory for the session cannot be allocated.
    pub fn open<R: Wait>(&self, rt: &R, id: u64, now: u64) -> Result<bool, AllocError> {
        Ok(self.seen.try_insert(rt, id, now)?.is_ok())
    }

    /// Notes that the session `id` is seen at the time `now`, and returns the time at which it was last seen, or `None` if it is not open.
    ///
    /// If the session was already seen at a later time, that time stays and is returned.
    ///
    /// # Errors
    ///
    /// Returns [`AllocError`] if memory for the time cannot be allocated.
    pub fn touch<R: Wait>(&self, rt: &R, id: u64, now: u64) -> Result<Option<u64>, AllocError>
        ensures { IfOk result (λ seen. IfSome seen (λ time. now ≤ time)) }
    {
        let time = self.seen.compute_if_present(
            rt,
            &id,
            move |_id: &u64, before: &u64| -> Option<u64>
                ensures { IfSome result (λ time. now ≤ time) }
            { Some((*before).max(now)) },
        )?;
        Ok(time.map(|time| *time))
    }

    /// Closes the sessions that were last seen before `time`. A session that is touched during the call stays open.
    ///
    /// # Errors
    ///
    /// Returns [`AllocError`] if cloning an `Arc` fails. The sessions that were closed before stay closed.
    pub fn expire<R: Wait>(&self, rt: &R, time: u64) -> Result<(), AllocError> {
        self.seen
            .retain(rt, move |_id: &u64, seen: &u64| -> bool { *seen >= time })
    }

    /// Returns the number of open sessions.
    pub fn count<R: Wait>(&self, rt: &R) -> usize {
        self.seen.len(rt)
    }

    /// Returns the sessions that a walk finds, in ascending order of their numbers.
    ///
    /// # Errors
    ///
    /// Returns [`AllocError`] if memory for the list cannot be allocated.
    pub fn list<R: Wait>(&self, rt: &R, alloc: Global) -> Result<SortedPairs<u64, u64>, AllocError>
        ensures { IfOk result (λ list. IsFiniteMap nat_cmp list.0.items) }
    {
        pairs::from_map(rt, alloc, &self.seen)
    }
}
