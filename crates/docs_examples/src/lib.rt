//! The examples in the doc comments of the library that have no assertions: bodies of functions, or impls, without a proof file. Those with
//! assertions are the tests of `docs_comments`; some examples are functions of the crate `docs_callers`, and those of what `flurry` does
//! not re-export are in the crates of tests. `answers` alone has proof files, and is code of the pages.
#![tactic(auto)]

pub mod answers;
pub mod bins;
pub mod calls;
pub mod hashers;
pub mod iterators;
pub mod owned;
pub mod pairs;
pub mod par;
pub mod recorded;
pub mod sets;
pub mod shared;
pub mod steps;
pub mod walks;
pub mod world;
