//! What each of two threads takes and reports at one board.
ghost use Rattle.std.specs.Prelude.{ℕ, ◌+◌, ◌≤◌, true, false, ◌≡◌, IfOk};
ghost use Rattle.flurry_steps_claims.specs.ClaimBoard.{notes_of};
ghost use Rattle.flurry_base.specs.Occurrences.{occurrences};
ghost use Rattle.flurry_steps_claims.specs.ClaimBoard.{IsSeatOf, IsNewSeatOf};
ghost use Rattle.shared_board.specs.Share.{IsShareOf};

use flurry_steps_claims::{Attempt, ClaimBoard, Seat};
use std::alloc::{AllocError, Global};
use std::thread::{Threads, join};

/// The ranges that a thread claimed and reported.
#[derive(Drop)]
pub struct Share {
    /// The numbers, in the order of the claims.
    pub numbers: Vec<u64>,
    /// Whether one of the reports was the last.
    pub was_last: bool,
}

// Claims and reports ranges until every range is claimed.
fn claim_share(
    alloc: Global,
    board: &ClaimBoard,
    mut seat: Seat,
) -> Result<(Seat, Share), AllocError>
    requires { IsNewSeatOf board.now seat }
    ensures { IfOk result (λ r. IsSeatOf board.now r.0 × IsShareOf (notes_of r.0) r.1) }
{
    let mut numbers = Vec::new(alloc);
    let mut was_last = false;
    loop {
        match board.try_claim(&mut seat) {
            Attempt::Got(range) => {
                numbers.push(range.number())?;
                was_last |= board.report(&mut seat, range);
            }
            Attempt::Lost => {}
            Attempt::Nothing => return Ok((seat, Share { numbers, was_last })),
        }
    }
}

/// Two threads claim and report. No range is claimed by both, nor twice by one, and not both have made the last report.
///
/// # Errors
///
/// Returns [`AllocError`] if memory cannot be allocated.
pub fn two_shares<R: Threads + Sync>(
    rt: &R,
    alloc: Global,
    table: u8,
    processors: usize,
) -> Result<(Share, Share), AllocError>
    requires { table ≤ 30 }
    ensures ranges { IfOk result (λ r. (k : ℕ) → occurrences k r.0.numbers.items + occurrences k r.1.numbers.items ≤ 1) }
    ensures last { IfOk result (λ r. r.0.was_last ≡ true → r.1.was_last ≡ false) }
{
    let (board, mut seats) = ClaimBoard::new(alloc, table, processors, 2)?;
    let Some(two) = seats.pop() else {
        unreachable!()
    };
    let Some(one) = seats.pop() else {
        unreachable!()
    };
    let (first, second) = join(
        rt,
        || -> Result<(Seat, Share), AllocError>
            requires { IsNewSeatOf board one }
            ensures { IfOk result (λ r. IsSeatOf board r.0 × IsShareOf (notes_of r.0) r.1) }
        { claim_share(alloc, &board, one) },
        || -> Result<(Seat, Share), AllocError>
            requires { IsNewSeatOf board two }
            ensures { IfOk result (λ r. IsSeatOf board r.0 × IsShareOf (notes_of r.0) r.1) }
        { claim_share(alloc, &board, two) },
    );
    let (mut one, first) = first?;
    let (two, second) = second?;
    board.merge(&mut one, two);
    Ok((first, second))
}
