//! The parts of a map that threads share, each under a lock of its own: the control, and each slot of each table.
//!
//! [`Locks`] has them. A [`LockField`] takes the locks of the part that a step of a call needs, for that step alone.
#![tactic(auto)]

pub mod call_field;
pub mod lock_field;
pub mod locks;
mod published_tables;
mod shared_control;
mod tables;

pub use call_field::CallField;
pub use lock_field::LockField;
pub use locks::Locks;
