//! The helpers of one growth.
ghost use Rattle.std.specs.Prelude.{◌≡◌, ◌≤◌, All, IfOk, length, vec_len};
ghost use Rattle.std.specs.Arc.{arc_value};
ghost use Rattle.flurry_steps_claims.specs.ClaimBoard.{IsBoardFor, IsSeatOf};
ghost use Rattle.flurry_steps_claims.specs.declared.TheConstants.{SEATS};
ghost use Rattle.flurry_base.specs.declared.sizes.TheConstants.{MAX_TABLE};

use crate::SEATS;
use crate::claim_board::{ClaimBoard, Seat};
use crate::helper::Helper;
use arrayvec::ArrayVec;
use std::alloc::{AllocError, Allocator, Global};
use std::marker::Model;
use std::sync::{Arc, Mutex, Wait};

/// The helpers of one growth that no thread uses, and the growth's board. Threads share it.
///
/// ```
/// let helpers = Helpers::new(rt.alloc(), 6, 2)?;
/// let Some(mut helper) = helpers.take(&rt) else {
///     panic!(rt; "a helper is left")
/// };
/// let Attempt::Got(range) = helper.try_claim() else {
///     panic!(rt; "a range is left")
/// };
/// assert!(rt; !helper.report(range));
/// helpers.give(&rt, helper);
/// ```
#[derive(Drop)]
pub struct Helpers<A: Allocator = Global> {
    board: Arc<ClaimBoard<A>, A>,
    waiting: Mutex<ArrayVec<Option<Helper<A>>, SEATS>>,
}

impl<A: Allocator> Model for Helpers<A> {
    ghost use Rattle.std.specs.Arc.{arc_value};
    ghost use Rattle.flurry_steps_claims.specs.ClaimBoard.{BoardValue};

    ghost Value = { BoardValue };

    ghost view = { λ h. arc_value h.board };
}

// A helper for each seat of the board.
fn seated<A: Allocator>(
    board: &Arc<ClaimBoard<A>, A>,
    mut seats: Vec<Seat, A>,
) -> Result<ArrayVec<Option<Helper<A>>, SEATS>, AllocError>
    requires room { vec_len seats ≤ SEATS }
    requires board { All (IsSeatOf (arc_value board.now)) seats.items }
    ensures { IfOk result (λ all. length all.items ≡ vec_len seats) }
{
    let mut all = ArrayVec::new();
    while let Some(seat) = seats.pop() {
        let board = Arc::try_clone(board)?;
        all.push(Some(Helper::new(board, seat)));
    }
    Ok(all)
}

impl<A: Allocator> Helpers<A> {
    /// Creates the board of the table of `2^table` bins, and [`SEATS`] helpers at it, as [`ClaimBoard::new`] does.
    ///
    /// Constant time.
    ///
    /// # Errors
    ///
    /// Returns [`AllocError`] if memory cannot be allocated, or cloning the `Arc` of the board fails. Nothing is left then.
    pub fn new(alloc: A, table: u8, processors: usize) -> Result<Self, AllocError>
    where
        A: Clone,
        requires { table ≤ MAX_TABLE }
        ensures { IfOk result (IsBoardFor table processors) }
    {
        let (board, seats) = ClaimBoard::new(alloc.clone()?, table, processors, SEATS)?;
        let board = Arc::new(alloc, board)?;
        let waiting = Mutex::new(seated(&board, seats)?);
        Ok(Helpers { board, waiting })
    }

    /// Returns the board.
    ///
    /// Constant time.
    pub fn board(&self) -> &ClaimBoard<A>
        ensures { result.now ≡ self.now }
    {
        &self.board
    }

    /// Takes a helper, or returns `None` if all are out.
    ///
    /// Constant time, but it waits for other threads that take or give one.
    // No contract specifies which helper it is, since other threads take and give them.
    pub fn take<R: Wait>(&self, rt: &R) -> Option<Helper<A>> {
        self.waiting.lock(rt).pop()?
    }

    /// Takes a helper back. If there are [`SEATS`] helpers already, it is dropped, after the lock has been given back.
    ///
    /// Constant time, but it waits for other threads that take or give one.
    pub fn give<R: Wait>(&self, rt: &R, helper: Helper<A>) {
        let no_room = self.waiting.lock(rt).try_push(Some(helper));
        drop(no_room);
    }
}
