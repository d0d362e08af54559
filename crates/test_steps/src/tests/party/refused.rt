//! Calls for whose tables memory cannot be allocated.

use super::{Close, NONE, Row, goes_through};
use flurry_steps::party::{Event, OwnedCall};

#[test]
fn refused_first_table_refuses_an_insertion(rt: HostRuntime) {
    let events = [Event::Refused];
    let rows = [
        Row::Answers(1, OwnedCall::Insert(1, 1), &events, Close::Refused),
        Row::Table(None),
        Row::Takes(1, OwnedCall::Insert(1, 0), 3, NONE),
    ];
    goes_through(&rt, 1, &rows);
}

#[test]
fn refused_table_refuses_a_reserve(rt: HostRuntime) {
    let first = [Event::Refused];
    let rows = [Row::Answers(0, OwnedCall::Reserve(9), &first, Close::Refused)];
    goes_through(&rt, 1, &rows);
    let larger = [Event::Opened(6), Event::Refused];
    let rows = [
        Row::Answers(0, OwnedCall::Reserve(32), &larger, Close::Refused),
        Row::Table(Some(6)),
    ];
    goes_through(&rt, 2, &rows);
}

// The twelfth pair stays, although memory for its larger table cannot be allocated. The thirteenth pair doubles the table.
#[test]
fn refused_larger_table_leaves_the_pair(rt: HostRuntime) {
    let rows = [
        Row::InsertsEach(11, 3),
        Row::Takes(11, OwnedCall::Insert(11, 0), 4, NONE),
        Row::Pairs(12),
        Row::Table(Some(4)),
        Row::Takes(12, OwnedCall::Insert(12, 0), 25, NONE),
        Row::Table(Some(5)),
    ];
    goes_through(&rt, 2, &rows);
}

// Memory for the larger table of a list of eight cannot be allocated. The pair stays and is counted.
#[test]
fn refused_larger_table_leaves_the_list(rt: HostRuntime) {
    let rows = [
        Row::InsertsAtOneHash(8, 3),
        Row::Takes(0, OwnedCall::Insert(8, 0), 4, NONE),
        Row::Pairs(9),
        Row::Table(Some(4)),
    ];
    goes_through(&rt, 2, &rows);
}
