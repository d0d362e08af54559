//! The reply of a call over the locks of a shared map's parts.
//!
//! [`reply_to`] does the steps of a call, each with the lock of the part that it needs: the first ones in one go if it can, and the others
//! as [`flurry_steps::finish`] does.
#![tactic(auto)]

mod first;

pub use first::reply_to;
