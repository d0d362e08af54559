//! The boards at which the helpers of a growth get their work.

pub use flurry_steps_claims::{
    Attempt, ClaimBoard, Helper, Helpers, PlainBoard, Range, SEATS, Seat, SeatNotes,
    ranges_cut_the_table, ranges_follow_one_another,
};
