//! The first table, and how growths start.

use super::super::assert_same;
use super::{empty_room, growing, opened};
use flurry_steps_control::{Advice, BeginOutcome, Control};

#[test]
fn no_table_at_first(rt: HostRuntime) {
    let rt = &rt;
    let mut room = empty_room(rt.alloc(), 1);
    let mut control = Control::new();
    assert_same(rt, control.locate(), None);
    assert_same(rt, control.start().is_none(), true);
    assert_same(rt, control.begin(4, 2, &mut room), BeginOutcome::Busy);
    assert_same(rt, room.requests, 0);
}

#[test]
fn refused_first_table_is_opened_later(rt: HostRuntime) {
    let rt = &rt;
    let mut room = empty_room(rt.alloc(), 1);
    let mut control = Control::new();
    assert_same(rt, control.open(4, &mut room).is_err(), true);
    assert_same(rt, control.locate(), None);
    assert_same(rt, room.placed.is_empty(), true);
    assert_same(rt, control.open(4, &mut room).expect(rt, "memory"), 4);
    assert_same(rt, control.locate(), Some(4));
    assert_same(rt, room.placed.as_slice(), [(4, None)].as_slice());
}

#[test]
fn first_table_is_opened_once(rt: HostRuntime) {
    let rt = &rt;
    let (mut control, mut room) = opened(rt, 4, 0);
    let start = control.start().expect(rt, "a table is published");
    assert_same(rt, start.table(), 4);
    assert_same(rt, control.open(7, &mut room).expect(rt, "memory"), 4);
    assert_same(rt, control.locate(), Some(4));
    assert_same(rt, room.placed.as_slice(), [(4, None)].as_slice());
}

#[test]
fn no_growth_begins_from_another_table(rt: HostRuntime) {
    let rt = &rt;
    let (mut control, mut room) = opened(rt, 4, 2);
    assert_same(rt, control.begin(3, 2, &mut room), BeginOutcome::Busy);
    assert_same(rt, control.begin(5, 2, &mut room), BeginOutcome::Busy);
    assert_same(rt, room.requests, 1);
}

#[test]
fn refused_growth_begins_later(rt: HostRuntime) {
    let rt = &rt;
    let (mut control, mut room) = opened(rt, 4, 2);
    assert_same(rt, control.begin(4, 2, &mut room), BeginOutcome::Refused);
    assert_same(rt, control.count(0), Advice::Enough);
    assert_same(rt, control.begin(4, 2, &mut room), BeginOutcome::Begun);
    assert_same(rt, control.locate(), Some(4));
    assert_same(
        rt,
        room.placed.as_slice(),
        [(4, None), (5, Some(2))].as_slice(),
    );
}

#[test]
fn growth_begins_once(rt: HostRuntime) {
    let rt = &rt;
    let (mut control, mut room) = growing(rt, 4);
    assert_same(rt, control.locate(), Some(4));
    assert_same(rt, control.count(0), Advice::Join(4));
    assert_same(rt, control.begin(4, 2, &mut room), BeginOutcome::Busy);
    assert_same(rt, control.begin(5, 2, &mut room), BeginOutcome::Busy);
    assert_same(rt, control.open(5, &mut room).expect(rt, "memory"), 4);
    assert_same(
        rt,
        room.placed.as_slice(),
        [(4, None), (5, Some(2))].as_slice(),
    );
}

#[test]
fn greatest_table_stays(rt: HostRuntime) {
    let rt = &rt;
    let (mut control, mut room) = opened(rt, 30, 0);
    assert_same(rt, control.begin(30, 2, &mut room), BeginOutcome::Busy);
    assert_same(rt, control.count(i64::MAX), Advice::Enough);
    assert_same(rt, control.grows_from(30), None);
    assert_same(rt, room.placed.as_slice(), [(30, None)].as_slice());
}

#[test]
fn growth_to_a_size(rt: HostRuntime) {
    let rt = &rt;
    assert_same(rt, Control::new().grows_from(30), None);
    let (mut control, mut room) = opened(rt, 4, 0);
    assert_same(rt, control.grows_from(3), None);
    assert_same(rt, control.grows_from(4), Some(4));
    assert_same(rt, control.begin(4, 2, &mut room), BeginOutcome::Begun);
    assert_same(rt, control.grows_from(4), None);
}
