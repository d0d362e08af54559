//! Pairs that calls count at a tally.
ghost use Rattle.flurry_steps_stages.specs.CallView.{CallIsReady};

use super::super::{assert_same, assert_same_at};
use super::{Asked, Close, Map, NONE, Row, call_of, closes_with, empty_map, end, go_on, step};
use flurry_base::reply::KeptReply;
use flurry_bins_slots::ComputeFn;
use flurry_steps::party::{Call, Event, OwnedCall, Party, Want};
use flurry_steps_control::Tally;
use std::process::Abort;

// Does the steps of a call that counts at the tally. Returns what the call needs after that, and its reply.
fn counts_at<'k, F: ComputeFn<u64, u64>>(
    rt: &(impl Abort + AllocGlobal),
    party: &mut Party<&'k u64, u64, u64, F>,
    map: &mut Map,
    tally: &mut Tally,
) -> (Want, Close) {
    for _ in 0..3u8 {
        if party.is_counting() {
            break;
        }
        step(rt, party, map);
    }
    assert!(rt; party.is_counting(), "the call put or removed a pair");
    assert_same(rt, party.on_tally(tally, 2), Event::Silent);
    assert_same(rt, party.is_counting(), false);
    let wanted = party.want();
    let (_, reply) = end(rt, party, map);
    (wanted, reply)
}

// Runs a call of the hash 3, which counts at the tally, and checks its hash.
fn counted<'k, F: ComputeFn<u64, u64>>(
    rt: &(impl Abort + AllocGlobal),
    map: &mut Map,
    tally: &mut Tally,
    call: Call<&'k u64, u64, u64, F>,
) -> (Want, Close)
    requires { CallIsReady F.can_change F.never_keeps call }
{
    let mut party = Party::new(call, 3, 1);
    assert_same(rt, party.hash(), 3);
    let seen = counts_at(rt, &mut party, map, tally);
    drop(party);
    seen
}

// Runs the call of a row, which counts at the tally. Returns what it needs after that, and its reply.
fn is_counting(
    rt: &(impl Abort + AllocGlobal),
    map: &mut Map,
    tally: &mut Tally,
    asked: Asked,
) -> (Want, Close) {
    counted(rt, map, tally, call_of(rt, &asked))
}

// An insertion looks at the control's count if two pairs are counted at the tally. A removal never does.
#[test]
fn pairs_wait_at_a_tally(rt: HostRuntime) {
    let rt = &rt;
    let mut map = empty_map(rt.alloc(), 1, 0);
    let mut tally = Tally::new();
    let (looks, ends) = (Want::Control, Want::Done);
    let new = Close::Reply(KeptReply::New(40));
    let rows: [(Asked, (Want, Close)); 6] = [
        (OwnedCall::Insert(1, 10), (ends, NONE)),
        (OwnedCall::Insert(2, 20), (looks, NONE)),
        (OwnedCall::Insert(3, 30), (looks, NONE)),
        (OwnedCall::Remove(1), (ends, closes_with(Some(10)))),
        (OwnedCall::Remove(2), (ends, closes_with(Some(20)))),
        (OwnedCall::TryInsert(4, 40), (looks, new)),
    ];
    for (at, (asked, wanted)) in rows.into_iter().enumerate() {
        assert_same_at(rt, at, is_counting(rt, &mut map, &mut tally, asked), wanted);
        // The control has counted nothing yet.
        go_on(rt, &mut map, &[Row::Pairs(0)]);
    }
    map.control.drain_tally(&mut tally);
    go_on(rt, &mut map, &[Row::Pairs(2)]);
    map.control.drain_tally(&mut tally);
    go_on(rt, &mut map, &[Row::Pairs(2)]);
    drop(map);
}

// A tally may count fewer pairs than none.
#[test]
fn removals_wait_at_a_tally(rt: HostRuntime) {
    let rt = &rt;
    let mut map = empty_map(rt.alloc(), 1, 0);
    let _advice = map.control.count(5);
    let mut first = Tally::new();
    let seen = is_counting(rt, &mut map, &mut first, OwnedCall::Insert(1, 10));
    assert_same(rt, seen, (Want::Done, NONE));
    let mut second = Tally::new();
    let seen = is_counting(rt, &mut map, &mut second, OwnedCall::Remove(1));
    assert_same(rt, seen, (Want::Done, closes_with(Some(10))));
    map.control.drain_tally(&mut second);
    go_on(rt, &mut map, &[Row::Pairs(4)]);
    map.control.drain_tally(&mut first);
    go_on(rt, &mut map, &[Row::Pairs(5)]);
    drop(map);
}
