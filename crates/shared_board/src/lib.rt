//! What a caller can prove of two threads at one claim board.
#![tactic(auto)]

pub mod share;

pub use share::{Share, two_shares};
