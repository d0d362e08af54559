//! Calls that make the table larger, and calls that meet the growth of another call.

use super::super::assert_same;
use super::{Act, Close, Map, NONE, Row, closes_with, empty_map, follows, go_on, goes_through};
use flurry_base::reply::KeptReply;
use flurry_steps::party::{Event, OwnedCall, Want};
use std::process::Abort;

// Runs the insertion of a twelfth key. Before the larger table is published, a look-up follows a bin that has moved.
fn twelfth_key(rt: &(impl Abort + AllocGlobal), map: &mut Map) {
    let looks_on = [Event::Silent, Event::Silent, Event::Decide];
    let acts = [
        Act::Step(Event::Silent),
        Act::Step(Event::Decide),
        Act::Step(Event::Silent),
        Act::Step(Event::Placed(5)),
        Act::Step(Event::Silent),
        Act::KeepsReply,
        Act::Moves(4, 16),
        Act::Map(Row::Table(Some(4))),
        Act::Map(Row::Answers(7, OwnedCall::Get(7), &looks_on, closes_with(Some(0)))),
        Act::Step(Event::Silent),
        Act::Step(Event::Published(5)),
        Act::Step(Event::Silent),
        Act::Step(Event::Silent),
        Act::Wants(Want::Done),
        Act::Map(Row::Table(Some(5))),
    ];
    follows(rt, map, 11, OwnedCall::Insert(11, 0), &acts);
}

#[test]
fn twelfth_key_doubles_the_table(rt: HostRuntime) {
    let rt = &rt;
    let mut map = empty_map(rt.alloc(), 1, 0);
    go_on(rt, &mut map, &[Row::InsertsEach(11, 3)]);
    twelfth_key(rt, &mut map);
    let rows = [Row::Pairs(12), Row::RemovesEach(12), Row::Pairs(0)];
    go_on(rt, &mut map, &rows);
    drop(map);
}

#[test]
fn reserve_of_nothing_opens_one_bin(rt: HostRuntime) {
    let opens = [Event::Opened(0), Event::Silent];
    goes_through(
        &rt,
        0,
        &[Row::Answers(0, OwnedCall::Reserve(0), &opens, Close::End)],
    );
}

// Runs a reserve for 32 pairs. Their table has 64 bins, whose threshold is below 64, so it is doubled once.
fn reserves_thirty_two(rt: &(impl Abort + AllocGlobal), map: &mut Map) {
    let acts = [
        Act::Step(Event::Opened(6)),
        Act::Step(Event::Placed(7)),
        Act::Step(Event::Silent),
        Act::GoesOnTo(64, Event::Moved(6, 0)),
        Act::Step(Event::Silent),
        Act::Step(Event::Published(7)),
        Act::Step(Event::Silent),
        Act::Step(Event::Silent),
        Act::Wants(Want::Done),
        Act::Replies(Close::End),
        Act::Map(Row::Table(Some(7))),
    ];
    follows(rt, map, 0, OwnedCall::Reserve(32), &acts);
}

#[test]
fn reserves(rt: HostRuntime) {
    let mut map = empty_map(rt.alloc(), 1, 0);
    reserves_thirty_two(&rt, &mut map);
    // There is enough room already.
    let silent = [Event::Silent, Event::Silent];
    let row = Row::Answers(0, OwnedCall::Reserve(40), &silent, Close::End);
    go_on(&rt, &mut map, &[row]);
    drop(map);
}

#[test]
fn list_of_eight_grows_before_the_count(rt: HostRuntime) {
    let mut map = empty_map(rt.alloc(), 1, 0);
    go_on(&rt, &mut map, &[Row::InsertsAtOneHash(8, 3)]);
    let acts = [
        Act::Step(Event::Silent),
        Act::Step(Event::Decide),
        Act::Step(Event::Placed(5)),
        Act::Map(Row::Pairs(8)),
        Act::GoesOnTo(1000, Event::Silent),
        Act::Map(Row::Table(Some(7))),
        Act::Map(Row::Pairs(9)),
        Act::Replies(Close::Reply(KeptReply::New(1))),
    ];
    follows(&rt, &mut map, 0, OwnedCall::TryInsert(8, 1), &acts);
    drop(map);
}

// Opens a table of 64 bins.
fn opens_sixty_four(rt: &impl Abort, map: &mut Map) {
    let table = map.control.open(6, &mut map.tables);
    assert_same(rt, table.expect(rt, "memory for the table"), 6);
}

// Runs a reserve that moves one bin of a table of 64, where others then meet its growth.
fn others_meet_a_growth(rt: &(impl Abort + AllocGlobal), map: &mut Map) {
    let finds_nothing = [
        Event::Silent,
        Event::Silent,
        Event::Silent,
        Event::Silent,
        Event::Silent,
        Event::Decide,
    ];
    let acts = [
        Act::Step(Event::Silent),
        Act::Step(Event::Placed(7)),
        Act::Step(Event::Silent),
        Act::Step(Event::Moved(6, 63)),
        // The bin of this call has not moved: the call decides, counts, and then moves the three lower ranges.
        Act::Map(Row::Takes(2, OwnedCall::Insert(2, 0), 61, NONE)),
        Act::Map(Row::Table(Some(6))),
        // The bin of this call has moved: the call finds nothing to help with, and continues in the next table.
        Act::Map(Row::Answers(63, OwnedCall::Remove(63), &finds_nothing, NONE)),
        Act::Ends(19),
        Act::Map(Row::Table(Some(7))),
        Act::Map(Row::Replies(2, OwnedCall::Get(2), closes_with(Some(0)))),
    ];
    follows(rt, map, 0, OwnedCall::Reserve(31), &acts);
}

#[test]
fn insertion_helps(rt: HostRuntime) {
    let mut map = empty_map(rt.alloc(), 2, 0);
    opens_sixty_four(&rt, &mut map);
    others_meet_a_growth(&rt, &mut map);
    drop(map);
}
