//! The pairs of a map and the elements of a set as lists, which `serde` writes and reads.
//!
//! A list that is made from a map is in ascending order, so maps of the same pairs write the same text. A list that is read may be in any
//! order. [`map`] has the calls of the owned map, and [`set`] those of the owned set.
#![tactic(auto)]

mod faults;
mod lists;
pub mod map;
pub mod set;

pub use faults::FromPairsError;
pub use lists::{SortedItems, SortedPairs};
