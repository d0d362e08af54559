//! A seat with an owner of its board.
ghost use Rattle.std.specs.Prelude.{◌≡◌, true, false, None};
ghost use Rattle.std.specs.Arc.{arc_value};
ghost use Rattle.flurry_steps_claims.specs.ClaimBoard.{IsSeatOf, notes_of, Claims, Reports};
ghost use Rattle.flurry_steps_claims.specs.Helper.{number_after, holds};

use crate::claim_board::{ClaimBoard, Seat};
use crate::range::{Attempt, Range};
use std::alloc::{Allocator, Global};
use std::marker::Model;
use std::sync::Arc;

/// A seat with an owner of its board. It claims one range after another, and reports each.
///
/// Its type keeps that the seat is one of its board, and that the range of the board whose number it holds may be reported by it. So it
/// can wait under a lock between two calls, and nobody has to know of it then what a seat asks for.
///
/// ```
/// match helper.try_claim() {
///     Attempt::Got(range) => helper.report(range),
///     Attempt::Lost | Attempt::Nothing => false,
/// }
/// ```
#[derive(Drop)]
pub struct Helper<A: Allocator = Global> {
    board: Arc<ClaimBoard<A>, A>,
    seat: Seat,
    // The number of the range that it claimed last, if it has not reported it.
    number: Option<u64>,
}

impl<A: Allocator> Model for Helper<A> {
    ghost use Rattle.std.specs.Arc.{arc_value};
    ghost use Rattle.flurry_steps_claims.specs.Helper.{HelperValue, IsHelper};

    ghost Value = { HelperValue };

    ghost view = { λ h. record { board = arc_value h.board; seat = h.seat; number = h.number } };

    ghost invariant = { λ h. IsHelper (record { board = arc_value h.board; seat = h.seat; number = h.number }) };
}

impl<A: Allocator> Helper<A> {
    /// Creates a helper that holds no range. `seat` must be a seat of `board`.
    ///
    /// Constant time.
    pub fn new(board: Arc<ClaimBoard<A>, A>, seat: Seat) -> Self
        requires { IsSeatOf (arc_value board) seat }
        ensures { result ≡ record { board = arc_value board; seat = seat; number = None } }
    {
        Helper {
            board,
            seat,
            number: None,
        }
    }

    /// Tries to claim the next range of its board, as [`ClaimBoard::try_claim`] does. It holds the range then. If it holds one that it has
    /// not reported, it can't report that any more.
    ///
    /// Constant time: one load, and at most one compare-exchange.
    pub fn try_claim(&mut self) -> Attempt
        ensures board { self.new.board ≡ self.old.board }
        ensures claim { Claims self.old.board (notes_of self.old.seat) result (notes_of self.new.seat) }
        ensures number { self.new.number ≡ number_after result self.old.number }
    {
        match self.board.try_claim(&mut self.seat) {
            Attempt::Got(range) => {
                self.number = Some(range.number());
                Attempt::Got(range)
            }
            Attempt::Lost => Attempt::Lost,
            Attempt::Nothing => Attempt::Nothing,
        }
    }

    /// Reports the range that it holds, as [`ClaimBoard::report`] does. If `range` is another one, of another table, number or bins, it
    /// returns `false`, and nothing changes.
    ///
    /// Constant time: one fetch-add.
    pub fn report(&mut self, range: Range) -> bool
        ensures board { self.new.board ≡ self.old.board }
        ensures report { holds self.old.board self.old.number range ≡ true
            → Reports self.old.board (notes_of self.old.seat) range.number result (notes_of self.new.seat)
            × (self.new.number ≡ None) }
        ensures another { holds self.old.board self.old.number range ≡ false
            → (result ≡ false) × (self.new ≡ self.old) }
    {
        match self.number {
            Some(number) if self.board.has(&range, number) => {
                self.number = None;
                self.board.report(&mut self.seat, range)
            }
            _ => false,
        }
    }
}
