//! One-key calls, in a table that does not grow.

use super::super::assert_same;
use super::{
    Act, Becomes, Close, INSERTS_THREE, Map, NONE, Row, closes_with, empty_map, follows, go_on,
    goes_through, run,
};
use flurry_base::reply::KeptReply;
use flurry_steps::party::{Call, Event, OwnedCall, Want};
use std::cell::Cell;
use std::process::Abort;

#[test]
fn calls_without_a_table(rt: HostRuntime) {
    let no_pair = Close::Reply(KeptReply::Pair(None));
    let absent = Close::Reply(KeptReply::Contains(false));
    let becomes_one = OwnedCall::Compute(3, Becomes(Some(1)));
    let decides = &[Event::Decide];
    let rows = [
        Row::Answers(3, OwnedCall::Get(3), decides, NONE),
        Row::Answers(3, OwnedCall::GetKeyValue(3), decides, no_pair),
        Row::Answers(3, OwnedCall::ContainsKey(3), decides, absent),
        Row::Answers(3, OwnedCall::Remove(3), decides, NONE),
        Row::Answers(3, OwnedCall::RemoveEntry(3), decides, no_pair),
        Row::Table(None),
        Row::Requests(0),
        Row::Answers(3, becomes_one, decides, NONE),
        Row::Table(None),
        Row::Requests(0),
    ];
    goes_through(&rt, 0, &rows);
}

// Goes through the rows in a map whose only pair is the key 3 with the value 4.
fn with_three(rt: &(impl Abort + AllocGlobal), rows: &[Row<'_>]) {
    let mut map = empty_map(rt.alloc(), 1, 0);
    let opens = [Event::Opened(4), Event::Decide, Event::Silent];
    let first = [
        Row::Answers(3, OwnedCall::Insert(3, 4), &opens, NONE),
        Row::Pairs(1),
    ];
    go_on(rt, &mut map, &first);
    go_on(rt, &mut map, rows);
    drop(map);
}

#[test]
fn look_ups(rt: HostRuntime) {
    let pair = Close::Reply(KeptReply::Pair(Some((3, 4))));
    let present = Close::Reply(KeptReply::Contains(true));
    let absent = Close::Reply(KeptReply::Contains(false));
    let rows = [
        Row::Takes(3, OwnedCall::Get(3), 2, closes_with(Some(4))),
        Row::Pairs(1),
        Row::Takes(3, OwnedCall::Get(19), 2, NONE),
        Row::Pairs(1),
        Row::Takes(3, OwnedCall::GetKeyValue(3), 2, pair),
        Row::Pairs(1),
        Row::Takes(3, OwnedCall::ContainsKey(3), 2, present),
        Row::Pairs(1),
        Row::Takes(3, OwnedCall::ContainsKey(19), 2, absent),
        Row::Pairs(1),
    ];
    with_three(&rt, &rows);
}

#[test]
fn writes(rt: HostRuntime) {
    let new = Close::Reply(KeptReply::New(6));
    let exists = Close::Reply(KeptReply::Exists {
        current: 6,
        not_inserted: 7,
    });
    let no_pair = Close::Reply(KeptReply::Pair(None));
    let pair = Close::Reply(KeptReply::Pair(Some((19, 6))));
    let rows = [
        Row::Takes(3, OwnedCall::Insert(3, 5), 2, closes_with(Some(4))),
        Row::Pairs(1),
        Row::Takes(3, OwnedCall::TryInsert(19, 6), 3, new),
        Row::Pairs(2),
        Row::Takes(3, OwnedCall::TryInsert(19, 7), 2, exists),
        Row::Pairs(2),
        Row::Takes(3, OwnedCall::Remove(35), 2, NONE),
        Row::Pairs(2),
        Row::Takes(3, OwnedCall::Remove(3), 3, closes_with(Some(5))),
        Row::Pairs(1),
        Row::Takes(3, OwnedCall::RemoveEntry(3), 2, no_pair),
        Row::Pairs(1),
        Row::Takes(3, OwnedCall::RemoveEntry(19), 3, pair),
        Row::Pairs(0),
    ];
    with_three(&rt, &rows);
}

// Of a call that may add a pair, also on a map without a table, which it makes first.
#[test]
fn alterations(rt: HostRuntime) {
    let absent = Close::Reply(KeptReply::Contains(false));
    let one = Becomes(Some(1));
    let two = Becomes(Some(2));
    let new = Close::Reply(KeptReply::New(1));
    let changed = Close::Reply(KeptReply::Changed { new: 2, old: 1 });
    let pair = Close::Reply(KeptReply::Pair(Some((19, 2))));
    let opens = [Event::Opened(4), Event::Decide];
    let rows = [
        Row::Answers(
            3,
            OwnedCall::AlterPresent(19, one),
            &[Event::Decide],
            absent,
        ),
        Row::Table(None),
        Row::Answers(3, OwnedCall::Alter(19, Becomes(None)), &opens, absent),
        Row::Pairs(0),
        Row::Takes(3, OwnedCall::AlterPresent(19, one), 2, absent),
        Row::Pairs(0),
        Row::Takes(3, OwnedCall::Alter(19, one), 3, new),
        Row::Pairs(1),
        Row::Takes(3, OwnedCall::Alter(19, two), 2, changed),
        Row::Pairs(1),
        Row::Takes(3, OwnedCall::AlterPresent(19, Becomes(None)), 3, pair),
        Row::Pairs(0),
    ];
    goes_through(&rt, 0, &rows);
}

#[test]
fn computations(rt: HostRuntime) {
    let one = Becomes(Some(1));
    let eight = Becomes(Some(8));
    let rows = [
        INSERTS_THREE,
        Row::Takes(3, OwnedCall::Compute(4, one), 2, NONE),
        Row::Pairs(1),
        Row::Takes(3, OwnedCall::Compute(3, eight), 2, closes_with(Some(8))),
        Row::Pairs(1),
        Row::Takes(3, OwnedCall::Compute(3, Becomes(None)), 3, NONE),
        Row::Pairs(0),
        Row::Takes(3, OwnedCall::Compute(3, one), 2, NONE),
        Row::Pairs(0),
        INSERTS_THREE,
    ];
    goes_through(&rt, 0, &rows);
}

// Runs a computation that adds the key to the value, at a key of the hash 3. Returns how often it calls its function, and its reply.
fn adds(rt: &(impl Abort + AllocGlobal), map: &mut Map, key: u64) -> (u64, Close) {
    let calls = Cell::new(0u64);
    let (_events, told) = run(
        rt,
        map,
        3,
        Call::Compute(&key, |key: &u64, old: &u64| {
            calls.set(calls.get().saturating_add(1));
            key.checked_add(*old)
        }),
    );
    (calls.get(), told)
}

#[test]
fn function_is_called_for_a_present_key_alone(rt: HostRuntime) {
    let rt = &rt;
    let mut map = empty_map(rt.alloc(), 1, 0);
    assert_same(rt, adds(rt, &mut map, 3), (0, NONE));
    go_on(rt, &mut map, &[INSERTS_THREE]);
    assert_same(rt, adds(rt, &mut map, 19), (0, NONE));
    assert_same(rt, adds(rt, &mut map, 3), (1, closes_with(Some(3))));
    drop(map);
}

#[test]
fn call_begins_at_a_start(rt: HostRuntime) {
    let mut map = empty_map(rt.alloc(), 1, 0);
    go_on(&rt, &mut map, &[INSERTS_THREE]);
    let acts = [
        Act::Starts,
        Act::Wants(Want::Look(4, 3)),
        Act::Step(Event::Decide),
        Act::Replies(closes_with(Some(0))),
    ];
    follows(&rt, &mut map, 3, OwnedCall::Get(3), &acts);
    drop(map);
}
