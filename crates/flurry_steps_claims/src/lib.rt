//! The board at which the helpers of a growth get their work.
//!
//! A growth moves the bins of a table into the next table. The bins are cut into [`Range`]s, numbered from the topmost one down. A
//! [`ClaimBoard`] hands them out to threads that share it: with a [`Seat`] at the board, a thread claims a range, moves its bins, and
//! reports it. The board is two words in memory. A claim is one load and at most one compare-exchange, a report is one fetch-add, so no
//! thread waits for another, whatever the others do or leave undone.
//!
//! A [`PlainBoard`] does the same without atomics, for one thread. A [`Helper`] is a seat with an owner of its board, and
//! [`Helpers`] keeps those that no thread uses.
#![tactic(auto)]

mod claim_board;
mod helper;
mod helpers;
mod laws;
mod plain_board;
mod range;
mod seat_notes;
mod steps;

pub use claim_board::{ClaimBoard, Seat};
pub use helper::Helper;
pub use helpers::Helpers;
pub use laws::{ranges_cut_the_table, ranges_follow_one_another};
pub use plain_board::PlainBoard;
pub use range::{Attempt, Range};
pub use seat_notes::SeatNotes;

/// The number of seats at the board of a growth.
pub const SEATS: usize = 8;
