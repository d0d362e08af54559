//! The exponents that a control has published, which calls read without its lock.

use flurry_base::sizes::TABLES;
use flurry_steps_control::PublishedTable;
use std::array;
use std::sync::OnceLock;
use std::sync::atomic::{AtomicUsize, Ordering};

/// A place for each published exponent, and which exponent was added last.
///
/// Exponents are added under the control's lock. A reader may see an older one as the last.
#[derive(Drop)]
pub(crate) struct PublishedTables {
    places: [OnceLock<PublishedTable>; TABLES],
    newest: AtomicUsize,
}

impl PublishedTables {
    // Creates the places, without an exponent.
    pub(crate) fn new() -> Self {
        PublishedTables {
            places: array::from_fn(|_| OnceLock::new()),
            newest: AtomicUsize::new(0),
        }
    }

    // Returns the exponent that was added last, or `None` if there is none.
    pub(crate) fn newest(&self) -> Option<&PublishedTable> {
        self.places.get(self.newest.load(Ordering::SeqCst))?.get()
    }

    // Adds an exponent. If it was added before, the stored one stays.
    pub(crate) fn add(&self, start: PublishedTable) {
        let place = usize::from(start.table());
        let _ = self.places[place].try_set(start);
        self.newest.store(place, Ordering::SeqCst);
    }
}
