//! The bins of a hash map: the lists and trees of the entries at one place of a table.
#![tactic(auto)]

pub mod bin;

pub use flurry_base::hash;
