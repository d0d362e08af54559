//! Tests of the owned map and set by worked examples, whose values were worked out by hand; of their calls when memory cannot be allocated;
//! and of what stands over them: maps and sets that are built in parallel, sorted lists, and the recorded map.
#![tactic(auto)]

#[cfg(test)]
mod tests;
