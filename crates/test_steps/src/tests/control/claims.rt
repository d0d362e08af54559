//! The bins of a claim, how a claim goes on, and the range that it gives back.

use super::super::{assert_same, assert_same_at};
use super::{claimed, move_all, receipt_of};
use flurry_steps_claims::{PlainBoard, Range};
use flurry_steps_control::Claim;
use std::process::Abort;

// Returns the ends of the range of a claim, if all its bins have moved, or else the bin to move next.
fn ends_of(claim: Claim) -> Result<(usize, usize), Option<(u8, usize)>> {
    match claim.into_range() {
        Ok(range) => Ok((range.low(), range.high())),
        Err(claim) => Err(claim.next()),
    }
}

// Returns the range of a claim all of whose bins have moved.
fn range_of(rt: &impl Abort, claim: Claim) -> Range {
    match claim.into_range() {
        Ok(range) => range,
        Err(_) => panic!(rt; "all bins have moved"),
    }
}

#[test]
fn claims_go_from_the_top_down(rt: HostRuntime) {
    let rt = &rt;
    let mut board = PlainBoard::new(6, 2);
    for (low, high) in [(48, 64), (32, 48), (16, 32), (0, 16)] {
        let mut claim = claimed(rt, &mut board);
        assert_same_at(rt, low, claim.table(), 6);
        assert_same_at(rt, low, claim.next(), Some((6, high - 1)));
        assert_same(rt, move_all(rt, &mut claim), (low, high));
        assert_same_at(rt, low, board.report(range_of(rt, claim)), low == 0);
    }
}

// A table with fewer bins than a range is claimed as a whole.
#[test]
fn small_table_is_claimed_whole(rt: HostRuntime) {
    let rt = &rt;
    let mut claim = claimed(rt, &mut PlainBoard::new(3, 2));
    assert_same(rt, move_all(rt, &mut claim), (0, 8));
}

// A claim of 16 bins goes on from the last bin down, by the receipt of each bin in turn. It gives its range back once all bins have moved.
#[test]
fn a_claim_goes_on_by_receipts(rt: HostRuntime) {
    let rt = &rt;
    let mut claim = claimed(rt, &mut PlainBoard::new(4, 1));
    for moved in 0..16usize {
        let index = 15 - moved;
        assert_same(rt, claim.next(), Some((4, index)));
        if index > 0 {
            assert_same(rt, !claim.advance(receipt_of(rt, 4, index - 1)), true);
        }
        assert_same(rt, claim.next(), Some((4, index)));
        assert_same(rt, claim.advance(receipt_of(rt, 4, index)), true);
    }
    assert_same(rt, claim.next(), None);
    assert_same(rt, !claim.advance(receipt_of(rt, 4, 0)), true);
    assert_same(rt, ends_of(claim), Ok((0, 16)));
}

#[test]
fn a_range_stays_until_all_bins_have_moved(rt: HostRuntime) {
    let rt = &rt;
    let unmoved = claimed(rt, &mut PlainBoard::new(4, 1));
    assert_same(rt, ends_of(unmoved), Err(Some((4, 15))));
    let mut begun = claimed(rt, &mut PlainBoard::new(4, 1));
    assert_same(rt, begun.advance(receipt_of(rt, 4, 15)), true);
    assert_same(rt, ends_of(begun), Err(Some((4, 14))));
}
