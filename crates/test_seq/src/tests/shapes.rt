//! Lists and trees of keys in one bin.

use super::keys::{Backward, Number, Tagged};
use super::steps::{Step, on_map_for, run};
use flurry_base::hash::ZeroHashBuilder;
use flurry_bins::bin::Shape;
use flurry_seq::SeqMap;
use std::process::Abort;

// Makes the calls after those of row 6.
fn after_row_06<K: Number>(rt: &(impl Abort + AllocGlobal), steps: &[Step]) {
    let mut map: SeqMap<K, u64, ZeroHashBuilder> = SeqMap::with_hasher(rt.alloc(), ZeroHashBuilder);
    let row_06 = [
        Step::InsertNew(0, 8),
        Step::Stands(16, Shape::List(8)),
        Step::InsertNew(8, 9),
        Step::Stands(128, Shape::List(9)),
        Step::InsertNew(9, 10),
        Step::Stands(128, Shape::Tree(10)),
    ];
    run(rt, &mut map, &row_06);
    run(rt, &mut map, steps);
}

// Makes the calls after those of row 6, on maps with each type of keys.
fn after_each_row_06(rt: &(impl Abort + AllocGlobal), steps: &[Step]) {
    after_row_06::<u64>(rt, steps);
    after_row_06::<Backward>(rt, steps);
    after_row_06::<Tagged>(rt, steps)
}

// Ten keys of one hash are in a tree at the end.
#[test]
fn row_06(rt: HostRuntime) {
    after_each_row_06(&rt, &[Step::Len(10)]);
}

// A tree that is left with six nodes becomes a list.
#[test]
fn row_07_by_remove(rt: HostRuntime) {
    let steps = [
        Step::RemoveEach(0, 3),
        Step::Shape(Shape::Tree(7)),
        Step::RemoveEach(3, 4),
        Step::Shape(Shape::List(6)),
        Step::RemoveEach(4, 9),
        Step::Holds(128, 1),
        Step::Get(9, Some(9)),
    ];
    after_each_row_06(&rt, &steps);
}

// A tree that is left with six nodes by a function that returns `None` becomes a list.
#[test]
fn row_07_by_compute(rt: HostRuntime) {
    let steps = [
        Step::ComputeNone(0, 3),
        Step::Shape(Shape::Tree(7)),
        Step::ComputeNone(3, 4),
        Step::Shape(Shape::List(6)),
        Step::ComputeNone(4, 9),
        Step::Holds(128, 1),
        Step::Get(9, Some(9)),
    ];
    after_each_row_06(&rt, &steps);
}

// In 64 bins, the ninth key of one bin makes a tree. In 256 bins, the list of that bin has the keys 0, 256 and 512.
#[test]
fn shapes_row(rt: HostRuntime) {
    let steps = [
        Step::Stands(64, Shape::Empty),
        Step::Insert(0, 0, None),
        Step::Stands(64, Shape::List(1)),
        Step::Insert(64, 1, None),
        Step::Stands(64, Shape::List(2)),
        Step::Insert(128, 2, None),
        Step::Stands(64, Shape::List(3)),
        Step::Insert(192, 3, None),
        Step::Stands(64, Shape::List(4)),
        Step::Insert(256, 4, None),
        Step::Stands(64, Shape::List(5)),
        Step::Insert(320, 5, None),
        Step::Stands(64, Shape::List(6)),
        Step::Insert(384, 6, None),
        Step::Stands(64, Shape::List(7)),
        Step::Insert(448, 7, None),
        Step::Stands(64, Shape::List(8)),
        Step::Insert(512, 8, None),
        Step::Stands(64, Shape::Tree(9)),
        Step::Reserve(65),
        Step::Stands(256, Shape::List(3)),
    ];
    on_map_for(&rt, 32, &steps);
}
