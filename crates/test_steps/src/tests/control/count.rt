//! The count of pairs, what it advises, and sizes.

use super::super::{assert_same, assert_same_at};
use super::empty_room;
use flurry_base::sizes::stride;
use flurry_steps_control::{Advice, Control, wanted_table};

#[test]
fn count_advises_at_the_threshold(rt: HostRuntime) {
    let rt = &rt;
    let mut room = empty_room(rt.alloc(), 0);
    let mut control = Control::new();
    assert_same(rt, control.count(20), Advice::Enough);
    assert_same(rt, control.open(4, &mut room).expect(rt, "memory"), 4);
    for (delta, advice, len) in [
        (-9, Advice::Enough, 11),
        (1, Advice::Begin, 12),
        (0, Advice::Begin, 12),
        (-1, Advice::Enough, 11),
        (2, Advice::Begin, 13),
        (-14, Advice::Enough, 0),
        (1, Advice::Enough, 0),
        (12, Advice::Begin, 12),
    ] {
        assert_same_at(rt, delta, control.count(delta), advice);
        assert_same_at(rt, delta, control.len(), len);
    }
}

#[test]
fn count_stays_in_its_range(rt: HostRuntime) {
    let rt = &rt;
    let mut control = Control::new();
    assert_same(rt, control.len(), 0);
    let _advice = control.count(i64::MAX);
    let _advice = control.count(1);
    assert_same(rt, control.len(), i64::MAX as usize);
    let _advice = control.count(i64::MIN);
    assert_same(rt, control.len(), 0);
    let _advice = control.count(i64::MIN);
    let _advice = control.count(i64::MAX);
    let _advice = control.count(2);
    assert_same(rt, control.len(), 1);
}

#[test]
fn sizes(rt: HostRuntime) {
    for (pairs, table) in [
        (0, 0),
        (1, 1),
        (10, 4),
        (11, 5),
        (42, 6),
        (43, 7),
        ((1 << 29) - 1, 30),
        (usize::MAX, 30),
    ] {
        assert_same_at(&rt, pairs, wanted_table(pairs), table);
    }
}

#[test]
fn strides(rt: HostRuntime) {
    for (bins, processors, range) in [
        (1024, 4, 32),
        (1024, 1, 1024),
        (1024, 0, 1024),
        (8, 1, 16),
        (64, 2, 16),
    ] {
        let seen = (bins, processors, stride(bins, processors));
        assert_same(&rt, seen, (bins, processors, range));
    }
}
