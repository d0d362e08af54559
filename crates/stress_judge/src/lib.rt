//! Judges what threads recorded of their calls of a map: whether some order of the calls of one key explains each reply.
//!
//! The functions are proved to be safe. That the judge is right is tested, in `test_stress`.
#![tactic(auto)]

pub mod calls;
mod cases;
pub mod judging;
pub mod shrinking;
