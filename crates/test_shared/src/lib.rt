//! Tests of the shared map: its locks, each call in one thread, calls of several threads at the same time, walks, and calls that visit many
//! pairs; and of what stands over it: the set, look-ups by a `&str` in each map and set, maps and sets that several threads extend at the
//! same time, their pairs and elements as sorted lists, and memos. Last, what tests of the Rust crate do with it, at their sizes.
#![tactic(auto)]

#[cfg(test)]
mod tests;
