//! Look-ups by a `&str` at keys of the type `String`, in each map and set.

mod owned;
mod sets;
mod shared;
mod threads;

use super::{assert_same, taken};
use std::alloc::Global;
use std::process::Abort;

// Texts that are keys, each with its place in the list as its value: an empty one, one that begins another, and some of several bytes a
// character.
const PRESENT: [&str; 6] = ["", "a", "ab", "b", "é", "日本"];

// Texts that are no keys: each differs from one that is in its length, its last byte or its first.
const ABSENT: [&str; 5] = ["aa", "abc", "e", "日", "B"];

// Returns a `String` of the text.
fn string_of(rt: &impl Abort, alloc: Global, text: &str) -> String {
    String::from_str(alloc, text).expect(rt, "memory for a text")
}
