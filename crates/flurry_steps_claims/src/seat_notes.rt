//! What is known of a seat.
use std::collections::LinkedList;

/// What contracts know of a seat: the ranges that it has claimed and reported, the next number as far as it knows, and how often a report
/// of its was the last. No value of it is made.
pub struct SeatNotes {
    /// The numbers of the ranges that it has claimed.
    pub claims: LinkedList<u64>,
    /// The numbers of the ranges that it has reported.
    pub reports: LinkedList<u64>,
    /// The number of ranges that are claimed, by all seats together, as far as it knows.
    pub next: u64,
    /// How often it was told that its report was the last.
    pub last_reports: u64,
}
