//! Views of the map that threads share.
//!
//! Each call of a [`HashMapRef`] is a [`flurry_steps::Party`] that is run over the locks of the map's parts. Its steps are those that a
//! world runs in any order.
#![tactic(auto)]

mod change;
mod debug;
mod equality;
mod functions;
mod insert_with;
pub mod iter;
pub mod map_ref;
mod retain;
mod visit;

pub use map_ref::HashMapRef;
