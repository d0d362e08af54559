//! The lines of the program `flurry-run`, from bytes to bytes, over the streams of [`flurry_run_streams`].
//!
//! [`seq_lines`] carries out the lines of an input on one owned map and writes an answer to each. [`world_lines`] does the steps that the
//! lines ask for and writes the label of each.
#![tactic(auto)]

pub mod command;
pub mod ends;
pub mod labels;
pub mod parse;
pub mod schedule;
mod script;
pub mod seq;
pub mod world;

pub use flurry_run_streams::{Input, Output, Sink, Source, buffers, input, streams};
pub use seq::seq_lines;
pub use world::world_lines;
