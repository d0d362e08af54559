//! The examples with assertions in the doc comments of the maps, the sets and their views, and the first example of README, as tests.
#![tactic(auto)]

#[cfg(test)]
mod tests;
