//! The map that threads share.
//!
//! A [`HashMap`] has the locks of the map's parts and a hasher. Its calls are those of its view, a [`HashMapRef`]. A crate that wants this
//! map alone names this crate alone: the hashers are in [`hash`], what a key is looked up by is in [`query`], and the words of its contracts
//! are in this crate's `specs`.
#![tactic(auto)]

mod bulk;
mod change;
mod debug;
mod insert_with;
pub mod map;
mod owned;
mod visit;

pub use flurry_base::{Change, TryInsertError, hash, query};
pub use flurry_shared_view::{HashMapRef, iter, map_ref};
pub use map::HashMap;
