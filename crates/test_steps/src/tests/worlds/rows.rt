//! Worked schedules, label by label.

use super::{
    Line, Numbers, assert_call, assert_reply, assert_same, assert_steps, begin, end_of,
    label_count, line_of, lose, step, value, world_for,
};
use flurry_bins_slots::{ComputeFn, NoFn};
use flurry_steps::party::OwnedCall;
use std::alloc::Global;
use std::process::Abort;

// Returns the labels of the insertion of an absent key that meets no growth. The first label is that of the step that finds a table.
fn inserted(party: usize, first: Line) -> [Line; 5] {
    [
        first,
        Line::Decide(party, value(None)),
        Line::Silent(party),
        Line::Reply(party, value(None)),
        Line::Silent(party),
    ]
}

// Returns the labels of a look-up that finds a number in the published table.
fn found(party: usize, number: u64) -> [Line; 4] {
    [
        Line::Silent(party),
        Line::Decide(party, value(Some(number))),
        Line::Reply(party, value(Some(number))),
        Line::Silent(party),
    ]
}

// Returns the labels of a look-up that finds a number in the next table.
fn found_further_on(party: usize, number: u64) -> [Line; 5] {
    [
        Line::Silent(party),
        Line::Silent(party),
        Line::Decide(party, value(Some(number))),
        Line::Reply(party, value(Some(number))),
        Line::Silent(party),
    ]
}

// A worked schedule.
#[derive(Clone, Copy)]
enum Row {
    LookUp,
    ReserveOfNothing,
    StopsAndGoesOn,
    StopsForGood,
    UnknownParties,
    Losses,
    NineHelpers,
    LateHelper,
}

// Goes through a row in a world of its own, which it passes by reference: where a world is dropped, the proof goes through everything that
// it can hold.
fn goes_through<F: ComputeFn<u64, u64> + Copy>(rt: &impl Abort, alloc: Global, row: Row)
    requires { (f : F) → F.can_change f × F.never_keeps f }
{
    let (capacity, processors) = match row {
        Row::StopsAndGoesOn
        | Row::StopsForGood
        | Row::Losses
        | Row::NineHelpers
        | Row::LateHelper => (32, 2),
        _ => (0, 1),
    };
    let mut world: Numbers<'_, F> = world_for(rt, alloc, capacity, processors);
    match row {
        Row::LookUp => insertion_and_look_up(rt, &mut world),
        Row::ReserveOfNothing => reserves_nothing(rt, &mut world),
        Row::StopsAndGoesOn => stops_and_goes_on(rt, &mut world),
        Row::StopsForGood => stops_for_good(rt, &mut world),
        Row::UnknownParties => does_nothing(rt, &mut world),
        Row::Losses => loses(rt, &mut world),
        Row::NineHelpers => nine_help(rt, &mut world),
        Row::LateHelper => helps_late(rt, &mut world),
    }
    drop(world);
}

#[test]
fn look_up_after_an_insertion(rt: HostRuntime) {
    goes_through::<NoFn>(&rt, rt.alloc(), Row::LookUp)
}

fn insertion_and_look_up<'k, F: ComputeFn<u64, u64> + Copy>(
    rt: &impl Abort,
    world: &mut Numbers<'k, F>,
)
    requires { (f : F) → F.can_change f × F.never_keeps f }
{
    let lines = inserted(0, Line::Opened(4));
    assert_call(rt, world, 0, OwnedCall::Insert(3, 4), &lines);
    assert_call(rt, world, 1, OwnedCall::Get(3), &found(1, 4));
    assert_same(rt, label_count(world), 11);
}

#[test]
fn reserve_of_nothing(rt: HostRuntime) {
    goes_through::<NoFn>(&rt, rt.alloc(), Row::ReserveOfNothing)
}

fn reserves_nothing<'k, F: ComputeFn<u64, u64> + Copy>(rt: &impl Abort, world: &mut Numbers<'k, F>)
    requires { (f : F) → F.can_change f × F.never_keeps f }
{
    let lines = [Line::Opened(0), Line::Silent(0), Line::End(0)];
    assert_call(rt, world, 0, OwnedCall::Reserve(0), &lines);
}

// In a world of two processors, a table of 64 bins grows. Party 0 has inserted key 50. Party 1 has started the growth, holds the bins 48 to
// 63 and has moved none of them. Party 2 has inserted key 2, and has moved all other bins.
fn half_grows<'k, F: ComputeFn<u64, u64> + Copy>(rt: &impl Abort, world: &mut Numbers<'k, F>)
    requires { (f : F) → F.can_change f × F.never_keeps f }
{
    let lines = inserted(0, Line::Silent(0));
    assert_call(rt, world, 0, OwnedCall::Insert(50, 50), &lines);
    let lines = [Line::Silent(1), Line::Placed(7), Line::Silent(1)];
    assert_call(rt, world, 1, OwnedCall::Reserve(30), &lines);
    puts_two_and_helps(rt, world);
}

// Does the 62 steps of party 2.
fn puts_two_and_helps<'k, F: ComputeFn<u64, u64> + Copy>(
    rt: &impl Abort,
    world: &mut Numbers<'k, F>,
)
    requires { (f : F) → F.can_change f × F.never_keeps f }
{
    let lines = [
        Line::Silent(2),
        Line::Decide(2, value(None)),
        Line::Silent(2),
    ];
    assert_call(rt, world, 2, OwnedCall::Insert(2, 2), &lines);
    assert_steps(rt, world, 2, &[Line::Silent(2)]);
    for low in [32, 16, 0] {
        assert_steps(rt, world, 2, &[Line::Silent(2)]);
        moves_range(rt, world, 2, low);
        assert_steps(rt, world, 2, &[Line::Silent(2)]);
    }
    let lines = [
        Line::Silent(2),
        Line::Silent(2),
        Line::Silent(2),
        Line::Reply(2, value(None)),
    ];
    assert_steps(rt, world, 2, &lines)
}

// Does sixteen steps of a party, which move the bins of a table of 64 from `low` on, the last of them first.
fn moves_range<'k, F: ComputeFn<u64, u64> + Copy>(
    rt: &impl Abort,
    world: &mut Numbers<'k, F>,
    party: usize,
    low: usize,
) {
    for index in (0..16usize).rev() {
        let moved = Line::Moved(6, low.saturating_add(index));
        assert_same(rt, step(rt, world, party), moved);
    }
}

// Asserts that no growth was published.
fn nothing_published<'k, F: ComputeFn<u64, u64> + Copy>(rt: &impl Abort, world: &Numbers<'k, F>) {
    for label in world.trace() {
        let published = matches!(&line_of(label), Line::Published(_));
        assert_same(rt, published, false);
    }
}

#[test]
fn helper_that_stops_and_goes_on(rt: HostRuntime) {
    goes_through::<NoFn>(&rt, rt.alloc(), Row::StopsAndGoesOn)
}

fn stops_and_goes_on<'k, F: ComputeFn<u64, u64> + Copy>(rt: &impl Abort, world: &mut Numbers<'k, F>)
    requires { (f : F) → F.can_change f × F.never_keeps f }
{
    half_grows(rt, world);
    nothing_published(rt, world);
    assert_call(rt, world, 3, OwnedCall::Get(50), &found(3, 50));
    assert_call(rt, world, 4, OwnedCall::Get(2), &found_further_on(4, 2));
    moves_range(rt, world, 1, 48);
    let lines = [
        Line::Silent(1),
        Line::Published(7),
        Line::Silent(1),
        Line::Silent(1),
        Line::End(1),
    ];
    assert_steps(rt, world, 1, &lines);
}

#[test]
fn helper_that_stops_for_good(rt: HostRuntime) {
    goes_through::<NoFn>(&rt, rt.alloc(), Row::StopsForGood)
}

// Bin 50 of 64, which is also the bin of key 114, has not moved, so the insertion of key 114 decides there.
fn stops_for_good<'k, F: ComputeFn<u64, u64> + Copy>(rt: &impl Abort, world: &mut Numbers<'k, F>)
    requires { (f : F) → F.can_change f × F.never_keeps f }
{
    half_grows(rt, world);
    assert_call(rt, world, 3, OwnedCall::Get(50), &found(3, 50));
    assert_call(rt, world, 4, OwnedCall::Get(2), &found_further_on(4, 2));
    let lines = [Line::Silent(5), Line::Decide(5, value(None))];
    assert_call(rt, world, 5, OwnedCall::Insert(114, 1), &lines);
    assert_same(rt, end_of(rt, world, 5), Line::Reply(5, value(None)));
    others_end(rt, world);
    nothing_published(rt, world);
}

// Makes further calls, while party 1 does no step.
fn others_end<'k, F: ComputeFn<u64, u64> + Copy>(rt: &impl Abort, world: &mut Numbers<'k, F>)
    requires { (f : F) → F.can_change f × F.never_keeps f }
{
    assert_reply(rt, world, OwnedCall::Insert(3, 3), value(None));
    assert_reply(rt, world, OwnedCall::Remove(2), value(Some(2)));
    assert_reply(rt, world, OwnedCall::Get(114), value(Some(1)));
    assert_reply(rt, world, OwnedCall::Get(3), value(Some(3)));
    ends(rt, world, OwnedCall::Reserve(60));
    ends(rt, world, OwnedCall::Walk);
    ends(rt, world, OwnedCall::Clear);
}

// Asserts that a call without a key ends.
fn ends<'k, F: ComputeFn<u64, u64> + Copy>(
    rt: &impl Abort,
    world: &mut Numbers<'k, F>,
    call: OwnedCall<u64, u64, F>,
)
    requires { (f : F) → F.can_change f × F.never_keeps f }
{
    let party = begin(rt, world, call);
    assert_same(rt, end_of(rt, world, party), Line::End(party));
}

#[test]
fn unknown_and_finished_parties(rt: HostRuntime) {
    goes_through::<NoFn>(&rt, rt.alloc(), Row::UnknownParties)
}

fn does_nothing<'k, F: ComputeFn<u64, u64> + Copy>(rt: &impl Abort, world: &mut Numbers<'k, F>)
    requires { (f : F) → F.can_change f × F.never_keeps f }
{
    assert_steps(rt, world, 7, &[Line::Silent(7)]);
    assert_steps(rt, world, 0, &[Line::Silent(0)]);
    let lines = [
        Line::Decide(0, value(None)),
        Line::Reply(0, value(None)),
        Line::Silent(0),
        Line::Silent(0),
    ];
    assert_call(rt, world, 0, OwnedCall::Get(1), &lines);
    assert_steps(rt, world, usize::MAX, &[Line::Silent(usize::MAX)]);
    assert_same(rt, label_count(world), 8);
}

#[test]
fn attempts_that_are_lost(rt: HostRuntime) {
    goes_through::<NoFn>(&rt, rt.alloc(), Row::Losses)
}

// Party 0, which is to claim a range, loses, and claims one at its next step. Party 1, which is to take a seat, loses, and does not help.
fn loses<'k, F: ComputeFn<u64, u64> + Copy>(rt: &impl Abort, world: &mut Numbers<'k, F>)
    requires { (f : F) → F.can_change f × F.never_keeps f }
{
    let lines = [Line::Silent(0), Line::Placed(7)];
    assert_call(rt, world, 0, OwnedCall::Reserve(33), &lines);
    lose(rt, world, 0);
    assert_steps(rt, world, 0, &[Line::Silent(0), Line::Moved(6, 63)]);
    puts_a_pair(rt, world, 1);
    lose(rt, world, 1);
    let lines = [Line::Silent(1), Line::Reply(1, value(None))];
    assert_steps(rt, world, 1, &lines);
    for party in [0, 1, 7, usize::MAX] {
        lose(rt, world, party);
    }
    assert_steps(rt, world, 0, &[Line::Moved(6, 62)]);
}

// Does the first three steps of an insertion, after which the party helps the growth.
fn puts_a_pair<'k, F: ComputeFn<u64, u64> + Copy>(
    rt: &impl Abort,
    world: &mut Numbers<'k, F>,
    party: usize,
)
    requires { (f : F) → F.can_change f × F.never_keeps f }
{
    let lines = [
        Line::Silent(party),
        Line::Decide(party, value(None)),
        Line::Silent(party),
    ];
    assert_call(rt, world, party, OwnedCall::Insert(party as u64, 5), &lines);
}

#[test]
fn helpers_without_a_seat(rt: HostRuntime) {
    goes_through::<NoFn>(&rt, rt.alloc(), Row::NineHelpers)
}

// Party 0 begins a growth, and has the first seat. Parties 1 to 7 take the others. Party 8 finds none, and does not help. Party 7 moves all
// bins and publishes. Party 1, whose growth is then over, finds nothing to claim.
fn nine_help<'k, F: ComputeFn<u64, u64> + Copy>(rt: &impl Abort, world: &mut Numbers<'k, F>)
    requires { (f : F) → F.can_change f × F.never_keeps f }
{
    let lines = [Line::Silent(0), Line::Placed(7)];
    assert_call(rt, world, 0, OwnedCall::Reserve(33), &lines);
    for party in 1..8usize {
        puts_a_pair(rt, world, party);
        assert_steps(rt, world, party, &[Line::Silent(party)]);
    }
    puts_a_pair(rt, world, 8);
    let lines = [
        Line::Silent(8),
        Line::Silent(8),
        Line::Reply(8, value(None)),
    ];
    assert_steps(rt, world, 8, &lines);
    moves_all(rt, world, 7);
    let lines = [Line::Silent(7), Line::Reply(7, value(None))];
    assert_steps(rt, world, 7, &lines);
    let lines = [Line::Silent(1), Line::Silent(1), Line::Silent(1)];
    assert_steps(rt, world, 1, &lines);
    assert_steps(rt, world, 1, &[Line::Reply(1, value(None))]);
}

// Does the steps of a party that claims, moves and reports each range of a table of 64 bins, publishes, and gives its seat back.
fn moves_all<'k, F: ComputeFn<u64, u64> + Copy>(
    rt: &impl Abort,
    world: &mut Numbers<'k, F>,
    party: usize,
)
    requires { (f : F) → F.can_change f × F.never_keeps f }
{
    for low in [48, 32, 16, 0] {
        assert_steps(rt, world, party, &[Line::Silent(party)]);
        moves_range(rt, world, party, low);
        assert_steps(rt, world, party, &[Line::Silent(party)]);
    }
    assert_steps(rt, world, party, &[Line::Published(7), Line::Silent(party)]);
}

#[test]
fn helper_of_a_growth_that_is_over(rt: HostRuntime) {
    goes_through::<NoFn>(&rt, rt.alloc(), Row::LateHelper)
}

// Party 0 has found table 6. Party 1 then grows it into table 7, all alone. Party 0 meets a bin that has moved: it takes a seat at the board
// of that growth, finds nothing to claim, gives the seat back, and decides in table 7.
fn helps_late<'k, F: ComputeFn<u64, u64> + Copy>(rt: &impl Abort, world: &mut Numbers<'k, F>)
    requires { (f : F) → F.can_change f × F.never_keeps f }
{
    assert_call(rt, world, 0, OwnedCall::Insert(2, 2), &[Line::Silent(0)]);
    let lines = [Line::Silent(1), Line::Placed(7)];
    assert_call(rt, world, 1, OwnedCall::Reserve(33), &lines);
    moves_all(rt, world, 1);
    assert_steps(rt, world, 1, &[Line::Silent(1), Line::End(1)]);
    assert_steps(rt, world, 0, &[Line::Silent(0); 4]);
    let lines = [
        Line::Decide(0, value(None)),
        Line::Silent(0),
        Line::Reply(0, value(None)),
    ];
    assert_steps(rt, world, 0, &lines);
}
