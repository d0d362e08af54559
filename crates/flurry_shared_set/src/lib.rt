//! The set that threads share.
//!
//! A [`HashSet`] is a [`flurry_shared::HashMap`] whose values are `()`. Its view, a [`HashSetRef`], is written over the public calls of the
//! map's view alone.
#![tactic(auto)]

mod debug;
pub mod set;
pub mod set_ref;

pub use set::HashSet;
pub use set_ref::HashSetRef;
