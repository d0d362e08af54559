//! Walks and clears, between the steps of other calls. Each of them is dropped explicitly, as calls in progress are.
ghost use Rattle.std.specs.Prelude.{◌≡◌};
ghost use Rattle.flurry_steps_sweep.specs.Part.{LookPart, BinPart};
ghost use Rattle.flurry_steps_sweep.specs.Sweep.{swept_part};

use super::super::{assert_same, assert_same_at};
use super::{
    Act, Close, Map, NONE, ONE_AND_SEVENTEEN, Row, closes_with, does, empty_map, follows, go_on,
    goes_through, lent, without_owners,
};
use flurry_bins_slots::Slot;
use flurry_steps::party::{Event, OwnedCall, Want};
use flurry_steps_sweep::{Seen, Sweep};
use std::process::Abort;

// Does the step of a walk that needs to read a slot.
fn look(
    rt: &impl Abort,
    walk: &mut Sweep<u64, u64>,
    map: &mut Map,
    table: u8,
    index: usize,
) -> Event
    requires { swept_part walk.old ≡ LookPart table index }
{
    let slot = lent(rt, map, table, index);
    let event = walk.on_look(&slot);
    map.tables.put_back(rt, slot);
    event
}

// Does the step of a clear that needs to write a slot.
fn wipe(
    rt: &impl Abort,
    clear: &mut Sweep<u64, u64>,
    map: &mut Map,
    table: u8,
    index: usize,
) -> Event
    requires { swept_part clear.old ≡ BinPart table index }
{
    let mut slot = lent(rt, map, table, index);
    let event = clear.on_bin(&mut slot);
    map.tables.put_back(rt, slot);
    event
}

// Does the next step of a call, at the part that it needs.
fn step(rt: &impl Abort, sweep: &mut Sweep<u64, u64>, map: &mut Map) -> Event {
    match sweep.want() {
        Want::Control => sweep.on_control(&mut map.control),
        Want::Look(table, index) => look(rt, sweep, map, table, index),
        Want::Bin(table, index) => wipe(rt, sweep, map, table, index),
        _ => panic!(rt; "the call has not ended"),
    }
}

// Does `count` steps, in which nothing is read or wiped.
fn silent(rt: &impl Abort, sweep: &mut Sweep<u64, u64>, map: &mut Map, count: u64) {
    for at in 0..count {
        assert_same_at(rt, at, step(rt, sweep, map), Event::Silent);
    }
}

// Does a step that reads the pair of `key` and `value`.
fn reads(rt: &impl Abort, walk: &mut Sweep<u64, u64>, map: &mut Map, key: u64, value: u64) {
    assert_same(rt, step(rt, walk, map), Event::Read);
    assert_same(rt, walk.last_read(), Some((&key, &value)));
}

// Does the step that starts at a table that is known to have been published.
fn starts(rt: &impl Abort, sweep: &mut Sweep<u64, u64>, map: &Map) {
    let start = map.control.start().expect(rt, "there is a table");
    assert!(rt; sweep.is_at_start());
    assert_same(rt, sweep.on_published(&start), Event::Silent);
    assert_same(rt, sweep.is_at_start(), false);
}

// Asserts that the call has ended, and that its reply can be taken only once.
fn has_ended(rt: &impl Abort, sweep: &mut Sweep<u64, u64>) {
    let seen = (sweep.want(), sweep.reply().is_some());
    assert_same(rt, seen, (Want::Done, true));
    let reply = sweep.take_reply().expect(rt, "the call has ended");
    let seen = (without_owners(reply), sweep.want());
    assert_same(rt, seen, (Close::End, Want::Done));
    assert_same(
        rt,
        sweep.reply().is_some() || sweep.take_reply().is_some(),
        false,
    );
}

// What a test does with a walk or a clear, and what it sees.
#[derive(Clone, Copy)]
enum Stride<'r> {
    // As many steps as the number, in which nothing is read or wiped.
    Silent(u64),
    // A step that reads the pair of a key and a value.
    Reads(u64, u64),
    // A step for each bin of the table from the first number on and below the second one, which wipes it.
    Wipes(u8, usize, usize),
    // The first step, at a table that is known to have been published.
    Starts,
    // The part that the next step needs.
    Wants(Want),
    // There is no reply yet.
    HasNoReply,
    // The call has ended, and its reply can be taken only once.
    HasEnded,
    // The pair that the call read last.
    LastRead(Option<(u64, u64)>),
    // The first bin of the table of 16 is unborn from now on.
    FirstIsUnborn,
    // What the test does with the map in between.
    Map(Row<'r>),
}

// Wipes the bins of a table from `first` on and below `end`, in their order.
fn wipes(
    rt: &impl Abort,
    clear: &mut Sweep<u64, u64>,
    map: &mut Map,
    table: u8,
    first: usize,
    end: usize,
) {
    for index in first..end {
        assert_same_at(rt, index, step(rt, clear, map), Event::Wipe(table, index));
    }
}

// Takes the first slot of the table of 16 bins out of the tables, and puts an unborn one in its place.
fn first_is_unborn(rt: &impl Abort, map: &mut Map) {
    drop(map.tables.take(rt, 4, 0));
    map.tables.put_back(rt, Slot::unborn(4, 0));
}

// Makes the stride numbered `at`, and checks what it sees.
fn makes(
    rt: &(impl Abort + AllocGlobal),
    sweep: &mut Sweep<u64, u64>,
    map: &mut Map,
    at: usize,
    stride: Stride<'_>,
) {
    match stride {
        Stride::Silent(count) => silent(rt, sweep, map, count),
        Stride::Reads(key, value) => reads(rt, sweep, map, key, value),
        Stride::Wipes(table, first, end) => wipes(rt, sweep, map, table, first, end),
        Stride::Starts => starts(rt, sweep, map),
        Stride::Wants(want) => assert_same_at(rt, at, sweep.want(), want),
        Stride::HasNoReply => {
            let has_reply = sweep.reply().is_some() || sweep.take_reply().is_some();
            assert_same_at(rt, at, has_reply, false);
        }
        Stride::HasEnded => has_ended(rt, sweep),
        Stride::LastRead(Some((key, value))) => {
            assert_same_at(rt, at, sweep.last_read(), Some((&key, &value)))
        }
        Stride::LastRead(None) => assert_same_at(rt, at, sweep.last_read().is_none(), true),
        Stride::FirstIsUnborn => first_is_unborn(rt, map),
        Stride::Map(row) => does(rt, map, at, row),
    }
}

// Makes the strides, in their order.
fn walks(
    rt: &(impl Abort + AllocGlobal),
    sweep: &mut Sweep<u64, u64>,
    map: &mut Map,
    strides: &[Stride<'_>],
) {
    for at in 0..strides.len() {
        makes(rt, sweep, map, at, strides[at]);
    }
}

// The strides of a walk over one and seventeen that reads the key 1.
const READS_ONE: [Stride<'static>; 4] = [
    Stride::LastRead(None),
    Stride::Silent(2),
    Stride::Reads(1, 0),
    Stride::HasNoReply,
];

// Makes the strides with a walk over one and seventeen that has read key 1.
fn reads_one_and(rt: &(impl Abort + AllocGlobal), strides: &[Stride<'_>]) {
    let mut map = empty_map(rt.alloc(), 1, 0);
    go_on(rt, &mut map, &ONE_AND_SEVENTEEN);
    let mut walk = Sweep::walk();
    walks(rt, &mut walk, &mut map, &READS_ONE);
    walks(rt, &mut walk, &mut map, strides);
    drop(walk);
    drop(map);
}

#[test]
fn a_walk_reads_each_pair_once(rt: HostRuntime) {
    let strides = [
        Stride::Reads(17, 0),
        Stride::Silent(15),
        Stride::HasEnded,
        Stride::LastRead(Some((17, 0))),
    ];
    reads_one_and(&rt, &strides);
}

// Between the walk's reads, the table is doubled twice. The walk follows bin 1 to its four parts, and every other bin too.
#[test]
fn a_walk_follows_bins_that_move(rt: HostRuntime) {
    let strides = [
        Stride::Map(Row::Takes(0, OwnedCall::Reserve(16), 60, Close::End)),
        Stride::Silent(5),
        Stride::Reads(17, 0),
        Stride::Silent(100),
        Stride::HasEnded,
    ];
    reads_one_and(&rt, &strides);
}

// The key that was read is removed, and inserted again with another value. It is not read again.
#[test]
fn a_walk_reads_no_key_twice(rt: HostRuntime) {
    let strides = [
        Stride::Map(Row::Replies(1, OwnedCall::Remove(1), closes_with(Some(0)))),
        Stride::Map(Row::Replies(1, OwnedCall::Insert(1, 5), NONE)),
        Stride::Reads(17, 0),
        Stride::Silent(15),
        Stride::HasEnded,
    ];
    reads_one_and(&rt, &strides);
}

// Walks over one and seventeen until key 1 is read, which is then written. Returns what the walk has read last, after the walk's end.
fn seen_before_a_write(rt: &(impl Abort + AllocGlobal), map: &mut Map) -> Seen<u64, u64> {
    let mut walk = Sweep::walk();
    walks(rt, &mut walk, map, &READS_ONE);
    let strides = [
        Stride::Map(Row::Replies(1, OwnedCall::Insert(1, 5), closes_with(Some(0)))),
        Stride::LastRead(Some((1, 0))),
    ];
    walks(rt, &mut walk, map, &strides);
    let seen = walk.seen().expect(rt, "a further owner");
    drop(walk);
    seen.expect(rt, "a pair was read")
}

// What was read last stays as it was read, even if another call writes its key.
#[test]
fn what_was_read_stays(rt: HostRuntime) {
    let rt = &rt;
    let mut map = empty_map(rt.alloc(), 1, 0);
    go_on(rt, &mut map, &ONE_AND_SEVENTEEN);
    let seen = seen_before_a_write(rt, &mut map);
    let further = seen.try_clone().expect(rt, "a further owner");
    drop(seen);
    assert_same(rt, (further.key(), further.value()), (&1, &0));
    drop(further);
    drop(map);
}

#[test]
fn a_map_without_a_table_has_nothing_to_go_over(rt: HostRuntime) {
    let mut map = empty_map(rt.alloc(), 1, 0);
    let ends_at_once = &[
        Stride::Silent(1),
        Stride::HasEnded,
        Stride::LastRead(None),
        Stride::Map(Row::Table(None)),
    ];
    let mut walk = Sweep::walk();
    walks(&rt, &mut walk, &mut map, ends_at_once);
    drop(walk);
    let mut clear = Sweep::clear();
    walks(&rt, &mut clear, &mut map, ends_at_once);
    drop(clear);
    drop(map);
}

// The first step may also be done at a table that is known to have been published.
#[test]
fn a_walk_sets_out_from_a_published_table(rt: HostRuntime) {
    let mut map = empty_map(rt.alloc(), 1, 0);
    go_on(&rt, &mut map, &ONE_AND_SEVENTEEN);
    let mut walk = Sweep::walk();
    let strides = [
        Stride::Starts,
        Stride::Wants(Want::Look(4, 0)),
        Stride::Silent(1),
        Stride::Reads(1, 0),
    ];
    walks(&rt, &mut walk, &mut map, &strides);
    drop(walk);
    drop(map);
}

// At an unborn bin, a walk and a clear stay.
#[test]
fn an_unborn_bin_is_met_again(rt: HostRuntime) {
    let rt = &rt;
    let mut map = empty_map(rt.alloc(), 1, 0);
    go_on(rt, &mut map, &ONE_AND_SEVENTEEN);
    let mut walk = Sweep::walk();
    let mut clear = Sweep::clear();
    walks(rt, &mut walk, &mut map, &[Stride::Silent(1)]);
    walks(
        rt,
        &mut clear,
        &mut map,
        &[Stride::Silent(1), Stride::FirstIsUnborn],
    );
    let strides = [Stride::Silent(2), Stride::Wants(Want::Look(4, 0))];
    walks(rt, &mut walk, &mut map, &strides);
    drop(walk);
    let strides = [Stride::Silent(2), Stride::Wants(Want::Bin(4, 0))];
    walks(rt, &mut clear, &mut map, &strides);
    drop(clear);
    drop(map);
}

// While the growth has stopped, the clear wipes the 63 bins that have not moved, and the halves of the one that has.
#[test]
fn a_clear_beside_a_growth_wipes_every_bin(rt: HostRuntime) {
    let rt = &rt;
    let mut map = empty_map(rt.alloc(), 2, 0);
    let rows = [
        Row::Replies(0, OwnedCall::Reserve(20), Close::End),
        Row::Takes(50, OwnedCall::Insert(50, 0), 3, NONE),
        Row::Takes(2, OwnedCall::Insert(2, 0), 3, NONE),
    ];
    go_on(rt, &mut map, &rows);
    let stops = [
        Act::Step(Event::Silent),
        Act::Step(Event::Placed(7)),
        Act::Step(Event::Silent),
        Act::Step(Event::Moved(6, 63)),
    ];
    follows(rt, &mut map, 0, OwnedCall::Reserve(30), &stops);
    let mut clear = Sweep::clear();
    let strides = [
        Stride::Silent(1),
        Stride::Wipes(6, 0, 63),
        Stride::Silent(1),
        Stride::Wipes(7, 63, 64),
        Stride::Wipes(7, 127, 128),
        Stride::Map(Row::Pairs(2)),
        Stride::Silent(1),
        Stride::HasEnded,
    ];
    walks(rt, &mut clear, &mut map, &strides);
    drop(clear);
    let rows = [Row::Pairs(0), Row::Replies(2, OwnedCall::Get(2), NONE)];
    go_on(rt, &mut map, &rows);
    drop(map);
}

// A walk may be a party too. It keeps what it read last.
#[test]
fn a_walk_is_a_party(rt: HostRuntime) {
    let mut map = empty_map(rt.alloc(), 1, 0);
    go_on(&rt, &mut map, &ONE_AND_SEVENTEEN);
    let acts = [
        Act::LastRead(None),
        Act::Step(Event::Silent),
        Act::Step(Event::Silent),
        Act::Step(Event::Read),
        Act::LastRead(Some((1, 0))),
        Act::Seen(1, 0, 1),
        Act::Ends(16),
        Act::Replies(Close::End),
        Act::LastRead(Some((17, 0))),
    ];
    follows(&rt, &mut map, 0, OwnedCall::Walk, &acts);
    drop(map);
}

#[test]
fn a_clear_is_a_party(rt: HostRuntime) {
    let [one, seventeen] = ONE_AND_SEVENTEEN;
    let rows = [
        one,
        seventeen,
        Row::Takes(0, OwnedCall::Clear, 18, Close::End),
        Row::Pairs(0),
        Row::Replies(17, OwnedCall::Get(17), NONE),
    ];
    goes_through(&rt, 0, &rows);
}
