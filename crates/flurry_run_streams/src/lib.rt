//! Readers of bytes and writers of lines, whose contracts say which bytes they read or write and whether they failed.
//!
//! A program of lines is written over the traits [`Source`] and [`Sink`]. Bytes in memory are a [`Source`]. [`Input`] and [`Output`] are
//! buffers in front of any reader and any writer. [`read_line`] reads a line from a source.
#![tactic(auto)]

pub mod buffers;
pub mod input;
pub mod streams;

pub use buffers::{Input, Output};
pub use input::{LineEnd, read_line};
pub use streams::{Sink, Source};
