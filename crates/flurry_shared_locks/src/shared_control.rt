//! The control of a shared map, under its lock, and the tallies where counts of pairs wait for it.

use crossbeam_utils::CachePadded;
use flurry_base::sizes::TABLES;
use flurry_steps_control::{Advice, Control, PublishedTable, Tally};
use std::array;
use std::sync::atomic::{AtomicBool, Ordering};
use std::sync::{Mutex, MutexGuard, Wait};

// The number of tallies.
const TALLIES: usize = 16;

// The number of bins for which one pair may wait at each tally. So a growth starts late by about one pair for 16 bins.
const BINS_PER_PENDING_PAIR: i64 = 256;

/// A control and its tallies, each under a lock of its own. A call counts a pair at the tally of its hash, and so waits for few others.
#[derive(Drop)]
pub(crate) struct SharedControl {
    control: Mutex<Control>,
    tallies: [CachePadded<Mutex<Tally>>; TALLIES],
    // Whether a growth was to be started or helped when the control was locked last.
    is_growth_due: CachePadded<AtomicBool>,
    // Whether a call that came to help the growth from the table of this exponent had nothing to do.
    has_enough: [AtomicBool; TABLES],
}

impl SharedControl {
    // Puts a control under its lock, with tallies where nothing waits.
    pub(crate) fn new(control: Control) -> Self {
        SharedControl {
            control: Mutex::new(control),
            tallies: array::from_fn(|_| CachePadded::new(Mutex::new(Tally::new()))),
            is_growth_due: CachePadded::new(AtomicBool::new(false)),
            has_enough: array::from_fn(|_| AtomicBool::new(false)),
        }
    }

    // Locks the control, which first counts all pairs that wait at tallies. Takes the control's lock, and then the lock of each tally in
    // turn.
    pub(crate) fn lock<R: Wait>(&self, rt: &R) -> MutexGuard<'_, Control> {
        let mut control = self.control.lock(rt);
        for tally in &self.tallies {
            control.drain_tally(&mut *tally.lock(rt));
        }
        let is_due = match control.count(0) {
            Advice::Enough => false,
            Advice::Join(table) => self.wants_helpers(table),
            Advice::Begin => true,
        };
        if self.is_growth_due.load(Ordering::SeqCst) != is_due {
            self.is_growth_due.store(is_due, Ordering::SeqCst);
        }
        control
    }

    // Notes that the growth from `table` wants no further helper: all of its ranges are claimed, or no seat is left at its board.
    pub(crate) fn note_enough(&self, table: u8) {
        if let Some(has_enough) = self.has_enough.get(usize::from(table)) {
            has_enough.store(true, Ordering::SeqCst);
        }
    }

    // Returns `true` if a further call may find something to do for the growth from `table`.
    fn wants_helpers(&self, table: u8) -> bool {
        match self.has_enough.get(usize::from(table)) {
            Some(has_enough) => !has_enough.load(Ordering::SeqCst),
            None => false,
        }
    }

    // Returns the tally of `hash`, and how many pairs may wait there before a call looks at the control's count, in a map whose newest
    // table is `newest`. Returns `None` if calls count at the control: if the table is small, and as long as a growth is due.
    pub(crate) fn tally(
        &self,
        hash: u64,
        newest: Option<&PublishedTable>,
    ) -> Option<(&Mutex<Tally>, i64)> {
        if self.is_growth_due.load(Ordering::SeqCst) {
            return None;
        }
        let bins = 1i64.checked_shl(u32::from(newest?.table()))?;
        let most = bins / BINS_PER_PENDING_PAIR;
        if most > 1 {
            Some((&self.tallies[hash as usize % TALLIES], most))
        } else {
            None
        }
    }
}
