//! A map that records its calls.
//!
//! [`Recorded`] is an owned map under one lock, with a history of its calls. Each thread calls it through a [`Share`] of its own, which
//! keeps a receipt of each call: the call, its reply, and its place in the history. The history is that of a single owner: its calls, made
//! one after another on an empty map, give the recorded replies and leave the map. So once [`Recorded::close`] has found each receipt in
//! the history, the replies that all threads received are those of one map, and each thread's calls are in the history in the thread's own
//! order.
#![tactic(auto)]

pub mod book;
mod checks;
pub mod closed;
pub mod kept;
pub mod recorded;
mod replies;
pub mod share;

pub use book::Book;
pub use closed::{CloseFault, Closed};
pub use flurry_base::reply::KeptReply;
pub use kept::{KeptCall, KeptEntry};
pub use recorded::Recorded;
pub use share::{Receipt, Share};
