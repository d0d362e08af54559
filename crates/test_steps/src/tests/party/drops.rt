//! Removals of a pair that a walk has read.

use super::super::assert_same;
use super::{
    Close, Map, NONE, ONE_AND_SEVENTEEN, Row, closes_with, empty_map, go_on, run, seen_by, steps,
};
use flurry_bins_slots::{ComputeFn, NoFn};
use flurry_steps::party::{Call, Event, OwnedCall, Party};
use flurry_steps_sweep::Seen;
use std::process::Abort;

// Makes the map of one and seventeen, and returns what a walk of it reads first, which is key 1.
fn first_read<F: ComputeFn<u64, u64>>(
    rt: &(impl Abort + AllocGlobal),
    map: &mut Map,
) -> Seen<u64, u64> {
    go_on(rt, map, &ONE_AND_SEVENTEEN);
    let mut walk: Party<&u64, u64, u64, F> = Party::new(Call::Walk, 0, 1);
    let events = steps(rt, &mut walk, map, 3);
    assert_same(
        rt,
        events.as_slice(),
        &[Event::Silent, Event::Silent, Event::Read],
    );
    let seen = seen_by(rt, &walk);
    drop(walk);
    assert_same(rt, (seen.key(), seen.value(), seen.number()), (&1, &0, 1));
    seen
}

// Removes what was read of the key 1, and returns the events and the reply.
fn removes(
    rt: &(impl Abort + AllocGlobal),
    map: &mut Map,
    seen: Seen<u64, u64>,
) -> (Vec<Event>, Close) {
    let call: Call<&u64, u64, u64, NoFn> = Call::RemoveSeen(seen);
    run(rt, map, 1, call)
}

// Reads the key 1, goes through the rows `before`, removes what was read, and goes through the rows `after`. Checks the events of the
// removal, unless there are none, and its reply.
fn reads_and_removes(
    rt: &(impl Abort + AllocGlobal),
    before: &[Row<'_>],
    events: &[Event],
    reply: Close,
    after: &[Row<'_>],
) {
    let mut map = empty_map(rt.alloc(), 1, 0);
    let seen = first_read::<NoFn>(rt, &mut map);
    go_on(rt, &mut map, before);
    let (seen_events, told) = removes(rt, &mut map, seen);
    if !events.is_empty() {
        assert_same(rt, seen_events.as_slice(), events);
    }
    assert_same(rt, told, reply);
    go_on(rt, &mut map, after);
    drop(map);
}

#[test]
fn a_pair_is_removed_as_it_was_read(rt: HostRuntime) {
    let events = [Event::Silent, Event::Decide, Event::Silent];
    let after = [
        Row::Replies(1, OwnedCall::Get(1), NONE),
        Row::Replies(17, OwnedCall::Get(17), closes_with(Some(0))),
        Row::Pairs(1),
    ];
    reads_and_removes(&rt, &[], &events, closes_with(Some(0)), &after);
}

// The value was written again after it was read, so the pair stays.
#[test]
fn a_pair_that_was_rewritten_stays(rt: HostRuntime) {
    let before = [Row::Replies(1, OwnedCall::Insert(1, 0), closes_with(Some(0)))];
    let events = [Event::Silent, Event::Decide];
    let after = [Row::Replies(1, OwnedCall::Get(1), closes_with(Some(0)))];
    reads_and_removes(&rt, &before, &events, NONE, &after);
}

// The key was removed and inserted again, so the new pair stays.
#[test]
fn a_pair_that_came_again_stays(rt: HostRuntime) {
    let rt = &rt;
    let mut map = empty_map(rt.alloc(), 1, 0);
    let seen = first_read::<NoFn>(rt, &mut map);
    let removed = Row::Replies(1, OwnedCall::Remove(1), closes_with(Some(0)));
    go_on(rt, &mut map, &[removed]);
    let further = seen.try_clone().expect(rt, "a further owner");
    assert_same(rt, removes(rt, &mut map, further).1, NONE);
    let inserted = Row::Replies(1, OwnedCall::Insert(1, 0), NONE);
    go_on(rt, &mut map, &[inserted]);
    assert_same(rt, removes(rt, &mut map, seen).1, NONE);
    go_on(rt, &mut map, &[Row::Pairs(2)]);
    drop(map);
}

// Between the read and the removal, the table is doubled twice, and the bin moves each time.
#[test]
fn a_pair_that_moved_is_removed(rt: HostRuntime) {
    let before = [Row::Takes(0, OwnedCall::Reserve(16), 60, Close::End)];
    reads_and_removes(&rt, &before, &[], closes_with(Some(0)), &[Row::Pairs(1)]);
}

#[test]
fn a_map_without_a_table_has_no_such_pair(rt: HostRuntime) {
    let rt = &rt;
    let mut read = empty_map(rt.alloc(), 1, 0);
    let seen = first_read::<NoFn>(rt, &mut read);
    drop(read);
    let mut map = empty_map(rt.alloc(), 1, 0);
    let (events, told) = removes(rt, &mut map, seen);
    assert_same(rt, (events.as_slice(), told), (&[Event::Decide], NONE));
    go_on(rt, &mut map, &[Row::Table(None)]);
    drop(map);
}
