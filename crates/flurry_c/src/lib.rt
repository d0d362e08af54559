//! Maps and sets of one owner for C and Rust programs, as a static library.
//!
//! `include/flurry.h` declares the exported functions, and says what each asks of its caller. C holds the address of a map or a set. Each
//! function lends what is there for one call, and its contract says what that call does to the finite map or set.
#![tactic(auto)]

mod byte_made;
mod byte_reads;
mod byte_set_made;
mod byte_set_reads;
mod byte_set_walk;
mod byte_set_writes;
mod byte_walk;
mod byte_writes;
mod statuses;
mod word_made;
mod word_reads;
mod word_set_made;
mod word_set_reads;
mod word_set_walk;
mod word_set_writes;
mod word_walk;
mod word_writes;
