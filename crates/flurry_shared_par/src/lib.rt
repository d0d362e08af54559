//! Calls that extend a shared map or a shared set by several threads at once.
//!
//! Workers take pieces of a list, and insert them through the shared map. [`map`] has the call of the map, [`map_ref`] that of its view,
//! and [`set`] and [`set_ref`] those of the set. No contract specifies what is in the map afterwards, since other threads change it
//! meanwhile.
#![tactic(auto)]

pub mod map;
pub mod map_ref;
mod queue;
pub mod set;
pub mod set_ref;
mod workers;

pub use workers::MAX_WORKERS;
