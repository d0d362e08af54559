//! What the calls of a shared map have in common when they are done in steps, and the calls that visit all bins.
//!
//! A call in progress says which part of the map it needs next ([`Want`]), borrows that part, and does one step, which returns what it
//! did ([`Event`]). At its end it has a [`Reply`]. A [`Sweep`] is a call that visits all bins: a walk, which reads the pairs, or a clear,
//! which removes them. Other calls may do any steps in between, and may move bins; the [`Cursor`] of a sweep knows which hashes are still
//! to be visited. Contracts see all of them as plain data.
#![tactic(auto)]

pub mod cursor;
mod frames;
mod reply;
mod seen;
mod stack;
mod step;
pub mod sweep;

pub use cursor::Cursor;
pub use reply::Reply;
pub use seen::Seen;
pub use step::{Event, Want};
pub use sweep::Sweep;
