//! Values that are computed once for a key, and kept.
//!
//! A [`MemoCore`] has one owner, a [`Memo`] is shared by threads. Both are written over the public calls of a map.
#![tactic(auto)]

mod memo;
mod memo_core;

pub use memo::Memo;
pub use memo_core::MemoCore;
