//! The end of a growth, and publications that change nothing.

use super::super::{assert_same, assert_same_at};
use super::{growing, opened};
use flurry_steps_control::{Advice, BeginOutcome, Control};

#[test]
fn publication_ends_the_growth(rt: HostRuntime) {
    let rt = &rt;
    let (mut control, mut room) = growing(rt, 6);
    assert_same(rt, control.count(0), Advice::Join(6));
    assert_same(rt, control.publish(6), true);
    assert_same(rt, control.locate(), Some(7));
    assert_same(rt, control.count(0), Advice::Enough);
    assert_same(rt, control.publish(6), false);
    assert_same(rt, control.begin(6, 2, &mut room), BeginOutcome::Busy);
}

#[test]
fn published_table_grows_next(rt: HostRuntime) {
    let rt = &rt;
    let (mut control, mut room) = growing(rt, 6);
    assert_same(rt, control.publish(6), true);
    assert_same(rt, control.begin(7, 1, &mut room), BeginOutcome::Begun);
    assert_same(rt, control.count(0), Advice::Join(7));
    assert_same(
        rt,
        room.placed.as_slice(),
        [(6, None), (7, Some(2)), (8, Some(1))].as_slice(),
    );
}

#[test]
fn another_table_is_not_published(rt: HostRuntime) {
    let rt = &rt;
    let (mut control, _room) = growing(rt, 6);
    for table in [0, 5, 7, 30] {
        assert_same_at(rt, table, control.publish(table), false);
        assert_same_at(rt, table, control.locate(), Some(6));
        assert_same_at(rt, table, control.count(0), Advice::Join(6));
    }
}

#[test]
fn nothing_is_published_without_a_growth(rt: HostRuntime) {
    let rt = &rt;
    let mut empty = Control::new();
    assert_same(rt, empty.publish(4), false);
    assert_same(rt, empty.locate(), None);
    let (mut idle, _room) = opened(rt, 4, 0);
    assert_same(rt, idle.publish(4), false);
    assert_same(rt, idle.locate(), Some(4));
}
