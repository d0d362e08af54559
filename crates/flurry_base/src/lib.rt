//! The terms that all layers of the map share: hashes of keys, what keys are looked up by, sizes of tables, calls and their replies.
//!
//! The definitions in `specs` are the finite map and the finite set, the one-key calls on them, the order of hashes and keys, the hashes
//! of a bin, and when a bin is a list or a tree. They are about plain data and not about code; their laws are in `proofs`.
#![tactic(auto)]

pub mod call;
pub mod change;
pub mod given;
pub mod hash;
pub mod query;
pub mod reply;
pub mod sizes;
pub mod try_insert;
pub mod verdict;

pub use call::{Call, Seen};
pub use change::Change;
pub use given::{Given, NotInserted, Replaced};
pub use query::{HashedQuery, Query};
pub use reply::KeptReply;
pub use try_insert::TryInsertError;
pub use verdict::Verdict;
