//! Calls that are driven to their end over the parts of a map, wherever the parts are kept.
//!
//! [`drive`] does the steps of a call over a [`flurry_steps::Field`] until the call is done. Over an exclusive field, whose parts
//! nobody else changes, the reply and the map after the call are those of the finite map. [`drive_alone`] does so over the parts of one
//! owner.
#![tactic(auto)]

pub mod driver;

pub use driver::{drive, drive_alone};
