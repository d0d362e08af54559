//! Threads that claim and report at one board.
ghost use Rattle.flurry_steps_claims.specs.ClaimBoard.{IsSeatOf};

use super::super::assert_same;
use flurry_steps_claims::{Attempt, ClaimBoard, Seat};
use shared_board::two_shares;
use std::alloc::{AllocError, Global};
use std::process::Abort;
use std::test::Fail;
use std::thread::{self, Threads};

// The first bins of the ranges that a thread got, and how many of its reports were the last.
#[derive(Drop)]
struct Moved {
    lows: Vec<usize>,
    last_reports: u32,
}

// Claims and reports until every range is claimed.
fn move_all(alloc: Global, board: &ClaimBoard, mut seat: Seat) -> Result<Moved, AllocError>
    requires { IsSeatOf board.now seat }
{
    let mut lows = Vec::new(alloc);
    let mut last_reports = 0u32;
    for _ in 0..1000 {
        match board.try_claim(&mut seat) {
            Attempt::Got(range) => {
                lows.push(range.low())?;
                if board.report(&mut seat, range) {
                    last_reports = last_reports.saturating_add(1);
                }
            }
            Attempt::Lost => {}
            Attempt::Nothing => break,
        }
    }
    Ok(Moved { lows, last_reports })
}

// What each of four threads got.
fn moved_by_each<R: Threads + Sync>(
    rt: &R,
    alloc: Global,
    processors: usize,
) -> Result<Vec<Result<Moved, AllocError>>, AllocError> {
    let (board, seats) = ClaimBoard::new(alloc, 10, processors, 4)?;
    thread::map_vec(
        rt,
        seats,
        &|seat: Seat| -> Result<Moved, AllocError>
            requires { IsSeatOf board seat }
        { move_all(alloc, &board, seat) },
    )
}

// What four threads got together, the first bins in ascending order.
fn moved_by_four<R: Abort + Threads + Sync>(rt: &R, alloc: Global, processors: usize) -> Moved {
    let mut lows = Vec::new(alloc);
    let mut last_reports = 0u32;
    for one in moved_by_each(rt, alloc, processors).expect(rt, "memory") {
        let mut one = one.expect(rt, "memory");
        lows.append(&mut one.lows).expect(rt, "memory");
        last_reports = last_reports.saturating_add(one.last_reports);
    }
    lows.sort().expect(rt, "memory");
    Moved { lows, last_reports }
}

// Checks that there are so many ranges, of so many bins each but for the lowest one, and that one report was the last.
fn cuts_the_table(rt: &impl Abort, all: &Moved, ranges: usize, bins: usize) {
    assert_same(rt, (all.lows.len(), all.last_reports), (ranges, 1));
    let mut high = 1024usize;
    for low in all.lows.iter().rev() {
        assert_same(rt, *low, high.saturating_sub(bins));
        high = *low;
    }
}

#[test]
fn four_threads_get_each_range_once(rt: HostRuntime) {
    for _ in 0..1000 {
        cuts_the_table(&rt, &moved_by_four(&rt, rt.alloc(), 4), 32, 32);
    }
}

#[test]
fn four_threads_get_a_short_range_once(rt: HostRuntime) {
    for _ in 0..100 {
        cuts_the_table(&rt, &moved_by_four(&rt, rt.alloc(), 3), 25, 42);
    }
}

#[test]
fn two_threads_share_a_table(rt: HostRuntime) -> Result<(), Fail> {
    let rt = &rt;
    let (one, two) = two_shares(rt, rt.alloc(), 10, 4)?;
    assert_same(rt, one.numbers.len().saturating_add(two.numbers.len()), 32);
    assert_same(rt, one.was_last != two.was_last, true);
    Ok(())
}
