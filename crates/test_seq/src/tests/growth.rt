//! The number of bins.

use super::assert_same_at;
use super::steps::{Step, on_map_for, on_map_with, on_new_map};
use flurry_base::hash::{LowHashBuilder, ZeroHashBuilder};
use flurry_base::sizes::{threshold, wanted};
use flurry_bins::bin::Shape;

// The twelfth pair, with the key 10, fills three quarters of 16 bins.
#[test]
fn row_03(rt: HostRuntime) {
    let steps = [
        Step::Insert(42, 0, None),
        Step::Bins(16),
        Step::InsertEach(0, 10, 42, 16),
        Step::InsertEach(10, 16, 42, 32),
        Step::Holds(32, 17),
    ];
    on_map_with::<u64, _>(&rt, LowHashBuilder, &steps);
}

// The number of bins for a capacity, and after room is made in a new map: 32 more pairs ask for 64 bins, and the table is doubled because
// 64 bins hold only 48 pairs.
#[test]
fn row_04(rt: HostRuntime) {
    let rt = &rt;
    on_map_for(rt, 0, &[Step::Bins(0)]);
    on_map_for(rt, 1, &[Step::Bins(2)]);
    on_map_for(rt, 5, &[Step::Bins(8)]);
    on_map_for(rt, 16, &[Step::Bins(32)]);
    on_new_map::<u64>(rt, &[Step::Reserve(0), Step::Bins(1)]);
    on_new_map::<u64>(rt, &[Step::Reserve(32), Step::Bins(128)]);
}

// A table that is full is doubled.
#[test]
fn row_05(rt: HostRuntime) {
    let steps = [
        Step::Reserve(0),
        Step::Bins(1),
        Step::InsertNew(0, 1),
        Step::Bins(2),
        Step::InsertNew(1, 2),
        Step::Bins(4),
    ];
    on_map_with::<u64, _>(&rt, LowHashBuilder, &steps);
}

// The sizes of tables.
#[test]
fn row_19(rt: HostRuntime) {
    let most = 1 << 30;
    for (pairs, bins) in [
        (0, 1),
        (10, 16),
        (11, 32),
        ((1 << 29) - 1, most),
        (usize::MAX, most),
    ] {
        assert_same_at(&rt, pairs, wanted(pairs), bins);
    }
    for (bins, pairs) in [
        (1, 1),
        (2, 2),
        (4, 3),
        (8, 6),
        (16, 12),
        (most, 805_306_368),
    ] {
        assert_same_at(&rt, bins, threshold(bins), pairs);
    }
}

// The ninth key of one bin asks for room for 64 pairs, and the tenth makes its list a tree.
#[test]
fn owned_growth_table(rt: HostRuntime) {
    let steps = [
        Step::InsertNew(0, 8),
        Step::Stands(16, Shape::List(8)),
        Step::InsertNew(8, 9),
        Step::Stands(128, Shape::List(9)),
        Step::InsertNew(9, 10),
        Step::Stands(128, Shape::Tree(10)),
    ];
    on_map_with::<u64, _>(&rt, ZeroHashBuilder, &steps);
}

// A table for six pairs has 16 bins, and the twelfth pair doubles it.
#[test]
fn owned_growth_table_by_the_count(rt: HostRuntime) {
    let steps = [
        Step::InsertNew(0, 11),
        Step::Bins(16),
        Step::InsertNew(11, 12),
        Step::Bins(32),
    ];
    on_map_for(&rt, 6, &steps);
}
