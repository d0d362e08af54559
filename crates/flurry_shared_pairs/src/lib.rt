//! The pairs of a shared map and the elements of a shared set, as lists that `serde` writes.
//!
//! A list has what one walk gives while other calls run, in ascending order. A shared map is made of such a list by
//! [`flurry_seq_pairs::map::from_pairs`] and `from_seq`, and a shared set by its `from_list`.
#![tactic(auto)]

mod ascending;
pub mod map;
pub mod map_ref;
pub mod set;
pub mod set_ref;
