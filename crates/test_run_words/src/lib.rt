//! Tests of the program's lines: over bytes in memory, over streams that fail, and over readers that give pieces.
#![tactic(auto)]

#[cfg(test)]
mod tests;
