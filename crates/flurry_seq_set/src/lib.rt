//! The owned set: a hash set with one owner.
//!
//! [`SeqSet`] is built on the public calls of the owned map, [`flurry_seq::SeqMap`], whose keys are its elements. Its contracts see it as a
//! finite set, together with the number of bins and the hasher. The finite set has, of each class of equal elements that is present, the
//! element that was stored first.
#![tactic(auto)]

mod debug;
pub mod seq_set;
pub mod set_calls;

pub use seq_set::SeqSet;
