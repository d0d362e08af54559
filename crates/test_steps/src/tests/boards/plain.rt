//! The board of one thread, beside that of threads.
ghost use Rattle.std.specs.Prelude.{◌≤◌};
ghost use Rattle.flurry_steps_claims.specs.ClaimBoard.{IsSeatOf};

use super::super::assert_same;
use flurry_steps_claims::{Attempt, ClaimBoard, PlainBoard, Range, SEATS, Seat};
use std::alloc::{AllocError, Global};
use std::process::Abort;
use std::test::Fail;

// The range that the board gives out next.
fn claimed(rt: &impl Abort, board: &mut PlainBoard) -> Range {
    match board.try_claim() {
        Attempt::Got(range) => range,
        Attempt::Lost | Attempt::Nothing => panic!(rt; "a range is left"),
    }
}

// Number and bins of a range.
fn bins_of(range: &Range) -> (u8, u64, usize, usize) {
    (range.table(), range.number(), range.low(), range.high())
}

// Claims a range and reports it. Whether all bins are reported then.
fn moves_one(board: &mut PlainBoard) -> bool {
    match board.try_claim() {
        Attempt::Got(range) => board.report(range),
        Attempt::Lost | Attempt::Nothing => false,
    }
}

#[test]
fn range_tells_its_bins(rt: HostRuntime) {
    let mut board = PlainBoard::new(6, 2);
    let Attempt::Got(range) = board.try_claim() else {
        panic!(rt; "a range is left")
    };
    assert_eq!(rt; (range.table(), range.number()), (6, 0));
    assert_eq!(rt; (range.low(), range.high()), (48, 64));
}

#[test]
fn table_of_one_range(rt: HostRuntime) {
    let mut board = PlainBoard::new(4, 1);
    let Attempt::Got(range) = board.try_claim() else {
        panic!(rt; "a range is left")
    };
    assert!(rt; board.report(range));
    assert_same(&rt, moves_one(&mut board), false);
}

#[test]
fn four_ranges_of_64_bins(rt: HostRuntime) {
    let rt = &rt;
    let mut board = PlainBoard::new(6, 2);
    for (number, low) in [(0, 48), (1, 32), (2, 16), (3, 0)] {
        let range = claimed(rt, &mut board);
        assert_same(rt, bins_of(&range), (6, number, low, low + 16));
        assert_same(rt, board.report(range), low == 0);
    }
    assert_same(rt, matches!(board.try_claim(), Attempt::Nothing), true);
    assert_same(rt, matches!(board.try_claim(), Attempt::Nothing), true);
}

#[test]
fn ranges_that_are_reported_in_another_order(rt: HostRuntime) {
    let rt = &rt;
    let mut board = PlainBoard::new(10, 3);
    let upper = claimed(rt, &mut board);
    let second = claimed(rt, &mut board);
    assert_same(rt, bins_of(&second), (10, 1, 940, 982));
    assert_same(rt, board.report(second), false);
    assert_same(rt, board.report(upper), false);
    for number in 2..25u64 {
        let range = claimed(rt, &mut board);
        assert_same(rt, range.number(), number);
        assert_same(rt, board.report(range), number == 24);
    }
    assert_same(rt, matches!(board.try_claim(), Attempt::Nothing), true);
}

#[test]
fn range_of_another_board_is_not_reported(rt: HostRuntime) {
    let rt = &rt;
    let mut board = PlainBoard::new(5, 1);
    let mut smaller = PlainBoard::new(4, 1);
    let mut same = PlainBoard::new(5, 1);
    assert_same(rt, board.report(claimed(rt, &mut smaller)), false);
    assert_same(rt, board.report(claimed(rt, &mut same)), false);
    let range = claimed(rt, &mut board);
    assert_same(rt, board.report(range), true);
}

#[test]
fn eight_seats_can_be_out(rt: HostRuntime) {
    let rt = &rt;
    let mut board = PlainBoard::new(4, 1);
    board.give_seat();
    for _ in 0..SEATS {
        assert_same(rt, board.take_seat(), true);
    }
    assert_same(rt, board.take_seat(), false);
    board.give_seat();
    assert_same(rt, board.take_seat(), true);
    assert_same(rt, board.take_seat(), false);
}

// Claims a range at both boards and reports it. Whether the ranges and the reports are alike; `None` if neither board has a range.
fn moved_alike(plain: &mut PlainBoard, board: &ClaimBoard, seat: &mut Seat) -> Option<bool>
    requires { IsSeatOf board.now seat.old }
    ensures { IsSeatOf board.now seat.new }
{
    match (plain.try_claim(), board.try_claim(seat)) {
        (Attempt::Got(range), Attempt::Got(other)) => {
            let are_alike = bins_of(&range) == bins_of(&other);
            let is_last = plain.report(range);
            Some(board.report(seat, other) == is_last && are_alike)
        }
        (Attempt::Nothing, Attempt::Nothing) => None,
        _ => Some(false),
    }
}

// Whether both boards cut the table of 2^table bins alike if so many processors share the work.
fn cut_alike(alloc: Global, table: u8, processors: usize) -> Result<bool, AllocError>
    requires { table ≤ 10 }
{
    let mut plain = PlainBoard::new(table, processors);
    let (board, mut seats) = ClaimBoard::new(alloc, table, processors, 1)?;
    let seat = &mut seats[0];
    let mut are_alike = true;
    for _ in 0..1025 {
        match moved_alike(&mut plain, &board, seat) {
            Some(is_alike) => are_alike &= is_alike,
            None => break,
        }
    }
    Ok(are_alike)
}

#[test]
fn both_boards_cut_a_table_alike(rt: HostRuntime) -> Result<(), Fail> {
    for table in 0..11 {
        for processors in 0..6 {
            assert_same(&rt, cut_alike(rt.alloc(), table, processors)?, true);
        }
    }
    Ok(())
}
