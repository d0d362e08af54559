//! Claim boards: one that one thread uses, and how tables are cut.
ghost use Rattle.std.specs.Prelude.{◌≤◌};
ghost use Rattle.flurry_steps_claims.specs.ClaimBoard.{IsSeatOf};

mod helpers;
mod memory;
mod plain;
mod threads;

use super::assert_same;
use flurry_steps_claims::{Attempt, ClaimBoard, Seat};
use std::alloc::{AllocError, Global};
use std::process::Abort;
use std::test::Fail;

// The first bin of the next range, the bin after its last one, and whether its report is the last. `None` if every range is claimed.
fn next(rt: &impl Abort, board: &ClaimBoard, seat: &mut Seat) -> Option<(usize, usize, bool)>
    requires { IsSeatOf board.now seat.old }
    ensures { IsSeatOf board.now seat.new }
{
    match board.try_claim(seat) {
        Attempt::Got(range) => {
            let bins = (range.low(), range.high());
            assert_same(rt, range.table(), board.table());
            Some((bins.0, bins.1, board.report(seat, range)))
        }
        Attempt::Lost => panic!(rt; "nobody else claims"),
        Attempt::Nothing => None,
    }
}

// Checks that the board of 64 bins gives out its four ranges from the top down, and then none.
fn gives_four(rt: &impl Abort, board: &ClaimBoard, seat: &mut Seat)
    requires { IsSeatOf board.now seat.old }
{
    for wanted in [
        Some((48, 64, false)),
        Some((32, 48, false)),
        Some((16, 32, false)),
        Some((0, 16, true)),
        None,
        None,
    ] {
        assert_same(rt, next(rt, board, seat), wanted);
    }
}

#[test]
fn four_ranges_of_64_bins(rt: HostRuntime) -> Result<(), Fail> {
    let (board, mut seats) = ClaimBoard::new(rt.alloc(), 6, 2, 8)?;
    assert_eq!(rt; seats.len(), 8);
    let seat = &mut seats[0];
    gives_four(&rt, &board, seat);
    Ok(())
}

// Each seat of the list claims a range before any is reported, and the last report alone is told so.
#[test]
fn two_seats_claim_before_they_report(rt: HostRuntime) -> Result<(), Fail> {
    let (board, mut seats) = ClaimBoard::new(rt.alloc(), 5, 2, 2)?;
    let Attempt::Got(upper) = board.try_claim(&mut seats[0]) else {
        panic!(rt; "a range is left")
    };
    let Attempt::Got(lower) = board.try_claim(&mut seats[1]) else {
        panic!(rt; "a range is left")
    };
    assert!(rt; !board.report(&mut seats[1], lower));
    assert!(rt; board.report(&mut seats[0], upper));
    Ok(())
}

// How a table is cut: how many ranges there are, and how many bins the first one and the last one have.
#[derive(Debug, PartialEq, Eq, Clone, Copy)]
struct Cut {
    ranges: u64,
    first: usize,
    last: usize,
}

// How the table of 2^table bins is cut if so many processors share the work.
fn how_cut(rt: &impl Abort, alloc: Global, table: u8, processors: usize) -> Result<Cut, AllocError>
    requires { table ≤ 10 }
{
    let (board, mut seats) = ClaimBoard::new(alloc, table, processors, 1)?;
    let seat = &mut seats[0];
    let mut cut = Cut {
        ranges: 0,
        first: 0,
        last: 0,
    };
    for number in 0..1025 {
        match next(rt, &board, seat) {
            Some((low, high, _)) => {
                cut.last = high.saturating_sub(low);
                if number == 0 {
                    cut.first = cut.last;
                }
            }
            None => {
                cut.ranges = number;
                break;
            }
        }
    }
    Ok(cut)
}

#[test]
fn tables_are_cut_by_their_strides(rt: HostRuntime) -> Result<(), Fail> {
    for (table, processors, ranges, first, last) in [
        (0, 1, 1, 1, 1),
        (4, 4, 1, 16, 16),
        (5, 0, 1, 32, 32),
        (5, 2, 2, 16, 16),
        (10, 1, 1, 1024, 1024),
        (10, 2, 16, 64, 64),
        (10, 3, 25, 42, 16),
        (10, 4, 32, 32, 32),
        (10, 1000, 64, 16, 16),
    ] {
        let wanted = Cut {
            ranges,
            first,
            last,
        };
        assert_same(&rt, how_cut(&rt, rt.alloc(), table, processors)?, wanted);
    }
    Ok(())
}

#[test]
fn the_largest_table_has_ranges(rt: HostRuntime) -> Result<(), Fail> {
    let rt = &rt;
    let (board, mut seats) = ClaimBoard::new(rt.alloc(), 30, 1, 1)?;
    assert_same(
        rt,
        next(rt, &board, &mut seats[0]),
        Some((0, 1 << 30, true)),
    );
    let (board, mut seats) = ClaimBoard::new(rt.alloc(), 30, 8, 1)?;
    let top = next(rt, &board, &mut seats[0]);
    assert_same(rt, top, Some(((1 << 30) - (1 << 24), 1 << 30, false)));
    Ok(())
}
