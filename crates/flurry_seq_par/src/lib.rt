//! Owned maps and sets that are built in parallel.
//!
//! A list is cut into pieces, from which `rayon`'s workers build maps; the maps are then joined in the order of the list. The result is
//! what the plain call makes of the same list, for any length of a piece. [`map`] has the calls of the map, and [`set`] those of the set.
#![tactic(auto)]

pub mod map;
mod pieces;
pub mod set;
