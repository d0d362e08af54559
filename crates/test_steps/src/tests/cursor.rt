//! Cursors over all bins.

use super::{assert_same, assert_same_at};
use flurry_base::sizes::MAX_TABLE;
use flurry_steps_sweep::Cursor;
use std::process::Abort;
use std::sync::Arc;

// Asserts which bins a cursor meets from its place to its end.
fn rest_of(rt: &impl Abort, cursor: &mut Cursor<u64>, bins: &[(u8, usize)]) {
    for at in 0..bins.len() {
        assert_same_at(rt, at, cursor.at(), bins[at]);
        assert_same_at(rt, at, cursor.leave(), at + 1 < bins.len());
    }
}

#[test]
fn a_cursor_goes_over_each_bin_of_its_table(rt: HostRuntime) {
    let rt = &rt;
    let mut cursor = Cursor::new(2);
    rest_of(rt, &mut cursor, &[(2, 0), (2, 1), (2, 2), (2, 3)]);
    assert_same(rt, cursor.at(), (2, 3));
    assert_same(rt, cursor.leave(), false);
    drop(cursor);
}

// Bin 1 of two has moved, and so has its high half: their entries are in bin 1 of four, and in bins 3 and 7 of eight.
#[test]
fn a_bin_that_has_moved_is_followed_to_its_halves(rt: HostRuntime) {
    let rt = &rt;
    let mut cursor: Cursor<u64> = Cursor::new(1);
    assert_same(rt, cursor.leave(), true);
    assert_same(rt, cursor.at(), (1, 1));
    assert_same(rt, cursor.split().is_ok(), true);
    assert_same(rt, cursor.at(), (2, 1));
    assert_same(rt, cursor.leave(), true);
    assert_same(rt, cursor.at(), (2, 3));
    assert_same(rt, cursor.split().is_ok(), true);
    rest_of(rt, &mut cursor, &[(3, 3), (3, 7)]);
    drop(cursor);
}

// Each half of a bin starts at the bound that the bin had.
#[test]
fn both_halves_begin_at_the_bound(rt: HostRuntime) {
    let rt = &rt;
    let mut cursor = Cursor::new(0);
    assert_same(rt, cursor.bound().is_none(), true);
    let key: Arc<u64> = Arc::new(rt.alloc(), 7).expect(rt, "memory for the key");
    cursor.pass(9, key);
    assert_same(rt, cursor.bound(), Some((9, &7)));
    assert_same(rt, cursor.split().is_ok(), true);
    assert_same(rt, cursor.bound(), Some((9, &7)));
    assert_same(rt, cursor.leave(), true);
    assert_same(rt, cursor.at(), (1, 1));
    assert_same(rt, cursor.bound(), Some((9, &7)));
    assert_same(rt, cursor.leave(), false);
    drop(cursor);
}

// Follows the bin to its halves, if there is a next table.
fn split(rt: &impl Abort, cursor: &mut Cursor<u64>) {
    let (table, _) = cursor.at();
    if table < MAX_TABLE {
        assert_same_at(rt, table, cursor.split().is_ok(), true);
    }
}

// After the last split there is a frame of each table except the first, and one more of the greatest.
#[test]
fn a_cursor_follows_a_bin_through_all_tables(rt: HostRuntime) {
    let rt = &rt;
    let mut cursor: Cursor<u64> = Cursor::new(0);
    for table in 0..30u8 {
        assert_same_at(rt, table, cursor.at(), (table, 0));
        split(rt, &mut cursor);
    }
    assert_same(rt, cursor.at(), (30, 0));
    for left in 0..30u8 {
        let table = 30 - left;
        assert_same_at(rt, table, cursor.leave(), true);
        assert_same_at(rt, table, cursor.at(), (table, 1 << (table - 1)));
    }
    assert_same(rt, cursor.leave(), false);
    drop(cursor);
}
