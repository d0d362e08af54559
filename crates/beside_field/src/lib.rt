//! A field for the steps of one call: the parts of one owner, beside a published table at which the call begins.
#![tactic(auto)]

pub mod beside;

pub use beside::Beside;
