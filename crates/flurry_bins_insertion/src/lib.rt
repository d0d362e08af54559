//! Insertion into a bin of a hash table, where a long list becomes a tree or asks for a larger table; and two `Arc`s of one value.
#![tactic(auto)]

pub mod table;
