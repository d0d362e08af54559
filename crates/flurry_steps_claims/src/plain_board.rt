//! The board of one thread.
ghost use Rattle.std.specs.Prelude.{◌≡◌, ◌*◌, ◌^◌, ◌<◌, ◌≤◌};
ghost use Rattle.flurry_base.specs.Sizes.{stride_of};
ghost use Rattle.flurry_base.specs.declared.sizes.TheConstants.{MAX_TABLE};
ghost use Rattle.flurry_steps_claims.specs.PlainBoard.{IsPlainBoard, new_plain_board, unclaimed_of, attempt_of, after_attempt, after_report, reports_last, has_seat, board_after_take, after_give};

use crate::SEATS;
use crate::range::{Attempt, Range, stride_of_table};
use std::marker::Model;

/// The ranges of one table that is being moved into the next, for one thread: a [`ClaimBoard`](crate::ClaimBoard) without atomics, and with
/// [`SEATS`] seats that are lent.
///
/// It hands out the same ranges. No attempt is lost, since nobody else makes one at the same time. A seat is no value here: the board
/// counts those that are out.
///
/// ```
/// let mut board = PlainBoard::new(4, 1);
/// let Attempt::Got(range) = board.try_claim() else {
///     panic!(rt; "a range is left")
/// };
/// assert!(rt; board.report(range));
/// ```
#[derive(Drop)]
pub struct PlainBoard {
    table: u8,
    stride: usize,
    // The number of ranges that are claimed, and so that of the next range.
    next: u64,
    // The number of bins in the ranges that are reported.
    reported: usize,
    // The number of seats that are out.
    out: usize,
}

impl Model for PlainBoard {
    ghost use Rattle.flurry_steps_claims.specs.PlainBoard.{PlainBoardState, IsPlainBoard};

    ghost Value = { PlainBoardState };

    ghost view = { λ b. record { table = b.table; stride = b.stride; next = b.next; reported = b.reported; out = b.out } };

    ghost invariant = { λ b. IsPlainBoard (record { table = b.table; stride = b.stride; next = b.next; reported = b.reported; out = b.out }) };
}

impl PlainBoard {
    /// Creates the board of the table of `2^table` bins, of which no range is claimed and no seat is out. A range has as many bins as a
    /// helper moves at once if `processors` processors share the work, or all that are left; `0` processors count as 1.
    ///
    /// Constant time.
    pub fn new(table: u8, processors: usize) -> Self
        requires { table ≤ MAX_TABLE }
        ensures { result ≡ new_plain_board table (stride_of (2 ^ table) processors) }
    {
        PlainBoard {
            table,
            stride: stride_of_table(table, processors),
            next: 0,
            reported: 0,
            out: 0,
        }
    }

    /// Claims the topmost range that is not claimed. Returns [`Attempt::Nothing`] if every range is claimed, and never
    /// [`Attempt::Lost`].
    ///
    /// Constant time.
    pub fn try_claim(&mut self) -> Attempt
        ensures value { result ≡ attempt_of self.old }
        ensures after { self.new ≡ after_attempt self.old }
    {
        if self.unclaimed() == 0 {
            return Attempt::Nothing;
        }
        let range = Range::numbered(self.table, self.stride, self.next);
        self.next += 1;
        Attempt::Got(range)
    }

    /// Reports a range whose bins have moved. Returns whether all bins of the table are reported now.
    ///
    /// If the range is of another table, or has more bins than are claimed and not reported, nothing changes, and `false` is returned.
    /// Such a range was claimed at another board.
    ///
    /// Constant time.
    pub fn report(&mut self, range: Range) -> bool
        ensures value { result ≡ reports_last self.old range }
        ensures after { self.new ≡ after_report self.old range }
    {
        let bins = 1usize << self.table;
        let reported = self.reported + (range.high() - range.low());
        if range.table() != self.table || reported > bins - self.unclaimed() {
            return false;
        }
        self.reported = reported;
        reported == bins
    }

    /// Takes a seat, if one of the [`SEATS`] is not out. Returns whether it did.
    ///
    /// Constant time.
    pub fn take_seat(&mut self) -> bool
        ensures value { result ≡ has_seat self.old }
        ensures after { self.new ≡ board_after_take self.old }
    {
        if self.out < SEATS {
            self.out += 1;
            true
        } else {
            false
        }
    }

    /// Takes a seat back. If none is out, nothing changes.
    ///
    /// Constant time.
    pub fn give_seat(&mut self)
        ensures { self.new ≡ after_give self.old }
    {
        self.out = self.out.saturating_sub(1);
    }

    // The number of bins that are in no range which was claimed.
    fn unclaimed(&self) -> usize
        ensures value { result ≡ unclaimed_of self.now }
        ensures number { 0 < result → self.now.next * self.now.stride < 2 ^ self.now.table }
        ensures within { result ≤ 2 ^ self.now.table }
        ensures board { IsPlainBoard self.now }
    {
        (1usize << self.table).saturating_sub(self.next as usize * self.stride)
    }
}
