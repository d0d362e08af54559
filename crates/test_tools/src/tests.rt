//! The tests by crate.

mod judge;
mod metered;
