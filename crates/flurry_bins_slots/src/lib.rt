//! The slots of a table, each of which is the place of one bin, and the steps that are done at one slot.
//!
//! A shared map keeps each bin behind a lock of its own. What a call does under one bin's lock is one step at its slot. Moving a bin into
//! its two halves in the next larger table is one step at three slots. Each step does what a finite map does; or it changes nothing, since
//! the bin has moved or is not there yet. Contracts see a slot as plain data.
#![tactic(auto)]

pub mod clones;
pub mod compute_fn;
pub(crate) mod live;
pub mod slot;

pub use compute_fn::{ComputeFn, NoFn};
pub use flurry_base::Verdict;
pub use flurry_base::given::{Given, NotInserted, Replaced};
pub use flurry_bins_insertion::table::Inserted;
pub use live::{Added, Altered, Computed};
pub use slot::{Answer, MoveAnswer, Receipt, Slot};
