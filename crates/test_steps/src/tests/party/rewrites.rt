//! A key that is written again and again: while there is memory, no call fails at any write number.

use super::{Asked, Becomes, Close, INSERTS_THREE, Map, Row, closes_with, empty_map, go_on};
use flurry_base::reply::KeptReply;
use flurry_steps::party::{Event, OwnedCall};
use std::process::Abort;

// Runs the calls that leave the key 3, which has the value `there`, unchanged.
fn stays(rt: &(impl Abort + AllocGlobal), map: &mut Map, there: u64) {
    let pair = Close::Reply(KeptReply::Pair(Some((3, there))));
    let present = Close::Reply(KeptReply::Contains(true));
    let exists = Close::Reply(KeptReply::Exists {
        current: there,
        not_inserted: 0,
    });
    let no_pair = Close::Reply(KeptReply::Pair(None));
    let silent = [Event::Silent, Event::Silent];
    let rows = [
        Row::Replies(3, OwnedCall::Get(3), closes_with(Some(there))),
        Row::Replies(3, OwnedCall::GetKeyValue(3), pair),
        Row::Replies(3, OwnedCall::ContainsKey(3), present),
        Row::Replies(3, OwnedCall::TryInsert(3, 0), exists),
        Row::Replies(3, OwnedCall::Remove(19), closes_with(None)),
        Row::Replies(3, OwnedCall::RemoveEntry(19), no_pair),
        Row::Answers(0, OwnedCall::Reserve(1), &silent, Close::End),
    ];
    go_on(rt, map, &rows);
}

// Runs a call that writes the key 3, and then those that leave it unchanged. Checks that the call replies `before`, and that the key has the
// value `after` then.
fn writes(rt: &(impl Abort + AllocGlobal), map: &mut Map, asked: Asked, before: u64, after: u64) {
    go_on(
        rt,
        map,
        &[Row::Replies(3, asked, closes_with(Some(before)))],
    );
    stays(rt, map, after);
}

#[test]
fn a_key_is_written_twenty_times(rt: HostRuntime) {
    let rt = &rt;
    let mut map = empty_map(rt.alloc(), 1, 0);
    go_on(rt, &mut map, &[INSERTS_THREE]);
    for round in 0..10u64 {
        let (before, then, after) = (2 * round, 2 * round + 1, 2 * round + 2);
        writes(rt, &mut map, OwnedCall::Insert(3, then), before, then);
        let becomes = Becomes(Some(after));
        writes(rt, &mut map, OwnedCall::Compute(3, becomes), after, after);
    }
    drop(map);
}

// The pair is removed and inserted again, and its write number goes on.
#[test]
fn a_key_comes_and_goes_ten_times(rt: HostRuntime) {
    let mut map = empty_map(rt.alloc(), 1, 0);
    go_on(&rt, &mut map, &[INSERTS_THREE]);
    for round in 0..10u64 {
        let pair = Close::Reply(KeptReply::Pair(Some((3, round))));
        let new = Close::Reply(KeptReply::New(round + 1));
        let rows = [
            Row::Replies(3, OwnedCall::RemoveEntry(3), pair),
            Row::Replies(3, OwnedCall::TryInsert(3, round + 1), new),
        ];
        go_on(&rt, &mut map, &rows);
    }
    drop(map);
}
