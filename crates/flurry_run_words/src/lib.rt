//! The program `flurry-run`: the words that it is run with, over the lines of [`flurry_run_lines`].
//!
//! [`run_words`] runs what the program's words ask for, over any reader and any writer. The word `seq` runs [`flurry_run_lines::seq_lines`],
//! and the word `world` runs [`flurry_run_lines::world_lines`]. The word `threads` runs [`thread_lines`], in which threads insert into one
//! shared map. [`exit_code`] turns a status into the exit code of the program.
#![tactic(auto)]

pub mod exit;
pub mod threads;
pub mod words;

pub use exit::exit_code;
pub use flurry_run_streams::{Input, Output};
pub use threads::thread_lines;
pub use words::run_words;
