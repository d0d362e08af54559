//! The owned map: a hash map with one owner.
//!
//! [`SeqMap`] keeps its pairs in a table of bins, each a list or a tree. Its contracts see it as its pairs, which are a finite map,
//! together with the number of bins and the hasher. The finite map has, for each class of equal keys that is present, the key that was
//! stored first, and a value. The table, the hashes and the shapes of bins occur only in the contracts that speak of sizes. [`calls`] has
//! the calls as values, and [`owners`] clones the `Arc`s to which a call returns references. A crate that wants this map alone names this
//! crate alone: the hashers are in [`hash`], and what a key is looked up by is in [`query`].
#![tactic(auto)]

pub mod calls;
mod clone;
mod debug;
mod equality;
pub mod iter;
pub mod owners;
pub mod seq_map;
mod table;

pub use flurry_base::{Change, TryInsertError, hash, query};
pub use iter::{Iter, Keys, Values};
pub use seq_map::SeqMap;
