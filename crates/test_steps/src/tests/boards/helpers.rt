//! Helpers that wait under a lock while no thread uses them.
ghost use Rattle.std.specs.Prelude.{◌≤◌};

use super::super::assert_same;
use flurry_steps_claims::{Attempt, Helper, Helpers, Range, SEATS};
use std::alloc::{AllocError, Allocator, Global};
use std::process::Abort;
use std::sync::Wait;
use std::test::Fail;
use std::thread::{self, Threads};

// A helper that is left.
fn taken<A: Allocator, R: Abort + Wait>(rt: &R, helpers: &Helpers<A>) -> Helper<A> {
    helpers.take(rt).expect(rt, "a helper is left")
}

// The range that a helper claims.
fn claimed(rt: &impl Abort, helper: &mut Helper) -> Range {
    match helper.try_claim() {
        Attempt::Got(range) => range,
        Attempt::Lost | Attempt::Nothing => panic!(rt; "a range is left"),
    }
}

// Claims a range and reports it. Whether that was the last report.
fn moves_one(helper: &mut Helper) -> bool {
    match helper.try_claim() {
        Attempt::Got(range) => helper.report(range),
        Attempt::Lost | Attempt::Nothing => false,
    }
}

// The first bins of the ranges that a thread moves. It takes a helper for each range.
fn help<A: Allocator, R: Wait>(
    rt: &R,
    alloc: Global,
    helpers: &Helpers<A>,
) -> Result<Vec<usize>, AllocError> {
    let mut lows = Vec::new(alloc);
    for _ in 0..1000 {
        let Some(mut helper) = helpers.take(rt) else {
            return Ok(lows);
        };
        match helper.try_claim() {
            Attempt::Got(range) => {
                lows.push(range.low())?;
                helper.report(range);
            }
            Attempt::Lost => {}
            Attempt::Nothing => return Ok(lows),
        }
        helpers.give(rt, helper);
    }
    Ok(lows)
}

// The same, by four threads together, over any allocator that may be lent to threads.
fn help_by_four<A: Allocator + Clone + Send + Sync, R: Threads + Wait + Sync>(
    rt: &R,
    alloc: Global,
    helpers: &Helpers<A>,
) -> Result<Vec<usize>, AllocError> {
    let each = thread::map_indices(rt, alloc, 4, &|_| help(rt, alloc, helpers))?;
    let mut all = Vec::new(alloc);
    for one in each {
        all.append(&mut one?)?;
    }
    all.sort()?;
    Ok(all)
}

#[test]
fn four_threads_share_the_helpers(rt: HostRuntime) {
    let rt = &rt;
    let helpers = Helpers::new(rt.alloc(), 10, 4).expect(rt, "memory");
    let all = help_by_four(rt, rt.alloc(), &helpers).expect(rt, "memory");
    assert_same(rt, all.len(), 32);
    for (place, low) in all.iter().enumerate() {
        assert_same(rt, *low, place.saturating_mul(32));
    }
}

// Takes each helper.
fn take_all<A: Allocator, R: Abort + Wait>(
    rt: &R,
    alloc: Global,
    helpers: &Helpers<A>,
) -> Vec<Helper<A>> {
    let mut out = Vec::new(alloc);
    for _ in 0..SEATS {
        out.push(taken(rt, helpers)).expect(rt, "memory");
    }
    out
}

// Gives helpers back.
fn give_all<A: Allocator, R: Wait>(rt: &R, helpers: &Helpers<A>, out: Vec<Helper<A>>) {
    for helper in out {
        helpers.give(rt, helper);
    }
}

#[test]
fn eight_helpers_can_be_out(rt: HostRuntime) {
    let rt = &rt;
    let helpers = &Helpers::new(rt.alloc(), 6, 2).expect(rt, "memory");
    assert_same(rt, helpers.board().table(), 6);
    let out = take_all(rt, rt.alloc(), helpers);
    assert_same(rt, helpers.take(rt).is_none(), true);
    give_all(rt, helpers, out);
    assert_same(rt, helpers.take(rt).is_some(), true);
}

// Two helpers claim a range each, and one of them reports both.
fn reports_its_own(rt: &impl Abort, one: &mut Helper, two: &mut Helper) {
    let upper = claimed(rt, one);
    let lower = claimed(rt, two);
    assert_same(rt, (upper.low(), lower.low()), (16, 0));
    assert_same(rt, two.report(upper), false);
    assert_same(rt, two.report(lower), false);
}

#[test]
fn helper_reports_its_range_alone(rt: HostRuntime) {
    let rt = &rt;
    let helpers = &Helpers::new(rt.alloc(), 5, 2).expect(rt, "memory");
    let mut one = taken(rt, helpers);
    let mut two = taken(rt, helpers);
    reports_its_own(rt, &mut one, &mut two);
}

// Moves the three ranges that are left.
fn moves_three(rt: &impl Abort, helper: &mut Helper) {
    for is_last in [false, false, true] {
        assert_same(rt, moves_one(helper), is_last);
    }
    let is_done = matches!(helper.try_claim(), Attempt::Nothing);
    assert_same(rt, is_done, true);
}

#[test]
fn helper_goes_on_where_it_was(rt: HostRuntime) -> Result<(), Fail> {
    let helpers = Helpers::new(rt.alloc(), 6, 2)?;
    let Some(mut helper) = helpers.take(&rt) else {
        panic!(rt; "a helper is left")
    };
    let Attempt::Got(range) = helper.try_claim() else {
        panic!(rt; "a range is left")
    };
    assert!(rt; !helper.report(range));
    helpers.give(&rt, helper);
    moves_three(&rt, &mut taken(&rt, &helpers));
    Ok(())
}

#[test]
fn ninth_helper_is_dropped(rt: HostRuntime) {
    let rt = &rt;
    let helpers = Helpers::new(rt.alloc(), 5, 2).expect(rt, "memory");
    let others = Helpers::new(rt.alloc(), 6, 2).expect(rt, "memory");
    helpers.give(rt, taken(rt, &others));
    let range = claimed(rt, &mut taken(rt, &helpers));
    assert_same(rt, range.table(), 5);
}
