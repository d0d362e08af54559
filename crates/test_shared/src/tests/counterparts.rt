//! What tests of the Rust crate do in threads and with many keys, at their sizes: docs/RUST_TESTS.md has a row for each of them.

mod kept;
mod many;
mod sets;
mod small;
mod stress;
mod texts;
mod threads;

use super::assert_same;

// An odd number: the products of the numbers below it by this one differ, and are in no order.
const SPREAD: u64 = 0x9E37_79B9_7F4A_7C15;
