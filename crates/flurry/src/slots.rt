//! The slots of a table, and the steps that are done at one slot.

pub use flurry_bins_slots::{
    Added, Altered, Answer, ComputeFn, Computed, Given, Inserted, MoveAnswer, NoFn, NotInserted,
    Receipt, Replaced, Slot, Verdict,
};
