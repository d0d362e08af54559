//! The results of one-key calls, and the map after them.

use super::keys::{Backward, Number, Tagged};
use super::steps::{Step, list_of, on_map_with, on_new_map, run, three_pairs};
use super::{assert_same, lent, taken};
use flurry_base::hash::{KeyHasher, LowHashBuilder, ZeroHashBuilder};
use flurry_base::try_insert::TryInsertError;
use flurry_seq::SeqMap;
use std::process::Abort;

fn row_01_with<K: Number>(rt: &(impl Abort + AllocGlobal)) {
    let steps = [
        Step::Insert(1, 0, None),
        Step::Insert(1, 1, Some(0)),
        Step::Get(1, Some(1)),
        Step::Len(1),
    ];
    on_new_map::<K>(rt, &steps);
}

// A present key takes the new value, and the old value is returned.
#[test]
fn row_01(rt: HostRuntime) {
    row_01_with::<&'static str>(&rt)
}

#[test]
fn row_01_backward_and_tagged(rt: HostRuntime) {
    row_01_with::<Backward>(&rt);
    row_01_with::<Tagged>(&rt)
}

// A new map has no key and no table.
#[test]
fn row_02(rt: HostRuntime) {
    let steps = [Step::Get(1, None), Step::Remove(1, None), Step::Bins(0)];
    on_new_map::<&'static str>(&rt, &steps);
}

// A node is inserted under the hash that the map gives its key. If the key is present, only the node's value is inserted.
#[test]
fn nodes_of_pairs(rt: HostRuntime) {
    let mut map: SeqMap<u64, u64, LowHashBuilder> = SeqMap::with_hasher(rt.alloc(), LowHashBuilder);
    let steps = [
        Step::InsertNode(3, 10, None),
        Step::InsertNode(3, 20, Some(10)),
        Step::Get(3, Some(20)),
        Step::Len(1),
    ];
    run(&rt, &mut map, &steps);
    assert_same(&rt, map.hasher().hash_one(&3), 3);
}

// If the function returns `None`, the pair is removed, and the table stays.
#[test]
fn row_16(rt: HostRuntime) {
    let steps = [
        Step::InsertNew(0, 11),
        Step::ComputeNone(0, 1),
        Step::Holds(16, 10),
    ];
    on_map_with::<u64, _>(&rt, LowHashBuilder, &steps);
}

// The function is called once if the key is present, and on no pair if it is absent.
#[test]
fn calls_at_a_present_key_alone(rt: HostRuntime) {
    let steps = [
        Step::InsertNew(0, 20),
        Step::ComputeSame(19, Some(19), 1),
        Step::ComputeSame(20, None, 0),
        Step::ComputeSame(35, None, 0),
        Step::ComputeSame(3, Some(3), 1),
        Step::ComputeSame(u64::MAX, None, 0),
        Step::Holds(32, 20),
    ];
    on_map_with::<u64, _>(&rt, LowHashBuilder, &steps);
}

// The text of the error of `try_insert` for a present key.
#[test]
fn row_16_text(rt: HostRuntime) {
    let rt = &rt;
    let mut map: SeqMap<u64, u64> = SeqMap::new(rt.alloc());
    run(rt, &mut map, &[Step::Insert(7, 0, None)]);
    let answer = map.try_insert(7, 1).expect(rt, "memory");
    let error = answer.expect_err(rt, "the key is present");
    let text = format!(in rt.alloc(); "{error}").expect(rt, "memory");
    let want = "Insert of \"1\" failed as key was already present with value \"0\"";
    assert_same(rt, text.as_str(), want);
    assert_same(rt, lent(map.get(&7)), Some(0));
}

// Returns the error of `try_insert` of the value 1 at key 7, which has the value `stands`.
fn failed(rt: &(impl Abort + AllocGlobal), stands: u64) -> TryInsertError<u64> {
    let mut map: SeqMap<u64, u64> = SeqMap::new(rt.alloc());
    run(rt, &mut map, &[Step::Insert(7, stands, None)]);
    let answer = map.try_insert(7, 1).expect(rt, "memory");
    answer.expect_err(rt, "the key is present")
}

// Two errors that differ only in the value that is present are not equal.
#[test]
fn errors_that_differ_in_the_value_that_stands(rt: HostRuntime) {
    let rt = &rt;
    let first = failed(rt, 0);
    assert_same(rt, first == failed(rt, 0), true);
    assert_same(rt, first != failed(rt, 2), true);
}

#[test]
fn debug_text_of_an_error(rt: HostRuntime) {
    let rt = &rt;
    for (stands, wanted) in [
        (0, "TryInsertError { current: 0, not_inserted: 1 }"),
        (2, "TryInsertError { current: 2, not_inserted: 1 }"),
    ] {
        let error = failed(rt, stands);
        let text = format!(in rt.alloc(); "{error:?}").expect(rt, "memory");
        assert_same(rt, text.as_str(), wanted);
    }
}

// The key that was stored first stays.
#[test]
fn whole_owned_table(rt: HostRuntime) {
    let rt = &rt;
    let mut map: SeqMap<Tagged, u64, ZeroHashBuilder> = SeqMap::with_hasher(
        rt.alloc(),
        ZeroHashBuilder,
    );
    let first = Tagged { id: 1, tag: 10 };
    let second = Tagged { id: 1, tag: 20 };
    assert_same(rt, taken(map.insert(first, 0).expect(rt, "memory")), None);
    assert_same(
        rt,
        taken(map.insert(second, 5).expect(rt, "memory")),
        Some(0),
    );
    let (key, value) = map.get_key_value(&second).expect(rt, "the key is present");
    assert_same(rt, (key.tag, **value), (10, 5));
    let (key, value) = map.remove_entry(&second).expect(rt, "the key is present");
    assert_same(rt, (key.tag, *value), (10, 5));
    assert_same(rt, map.is_empty(), true);
}

// A map without pairs makes room for each pair of the list, and at least one bin.
#[test]
fn whole_owned_table_of_no_pairs(rt: HostRuntime) {
    on_new_map::<u64>(&rt, &[Step::Extend(0, 0, 1), Step::Holds(1, 0)]);
}

// If the map has pairs, room is made for half as many as the list has.
#[test]
fn whole_owned_table_of_more_pairs(rt: HostRuntime) {
    let steps = [
        Step::InsertNew(1, 2),
        Step::Extend(2, 5, 10),
        Step::Holds(16, 4),
        Step::Get(3, Some(30)),
    ];
    on_new_map::<u64>(&rt, &steps);
}

// Half of an odd number of pairs is rounded up. In a map of one pair, room for 4 more needs 8 bins. Room for 5 more needs 16 bins, and
// their threshold, 12, is then too low.
#[test]
fn whole_owned_table_of_half_rounded_up(rt: HostRuntime) {
    on_new_map::<u64>(
        &rt,
        &[Step::InsertNew(0, 1), Step::Extend(1, 9, 1), Step::Bins(16)],
    );
    on_new_map::<u64>(
        &rt,
        &[
            Step::InsertNew(0, 1),
            Step::Extend(1, 10, 1),
            Step::Bins(32),
        ],
    );
}

// A map that is made from a list has room for each pair.
#[test]
fn whole_owned_table_of_lists(rt: HostRuntime) {
    let steps = [Step::Holds(8, 3), Step::Get(2, Some(20))];
    run(&rt, &mut three_pairs(&rt, rt.alloc()), &steps);
}

// A map that is made from a list has room for no more pairs than it has: the threshold of 16 bins, 12, is too low for 12 pairs, and 32 bins
// are enough. A clone of the map has the same room.
#[test]
fn whole_owned_table_of_a_longer_list(rt: HostRuntime) {
    let rt = &rt;
    let list: Vec<(u64, u64)> = list_of(rt, rt.alloc(), 0, 12, 1);
    let mut map = SeqMap::from_list(rt.alloc(), list, LowHashBuilder).expect(rt, "memory");
    let steps = [Step::Holds(32, 12), Step::Clone(32, 12, 2, Some(2))];
    run(rt, &mut map, &steps);
}

// A clone of a map without pairs has no table.
#[test]
fn whole_owned_table_of_clones(rt: HostRuntime) {
    let rt = &rt;
    let steps = [
        Step::InsertNew(0, 1),
        Step::Remove(0, Some(0)),
        Step::Bins(16),
        Step::Clone(0, 0, 0, None),
    ];
    on_new_map::<u64>(rt, &steps);
    let map: SeqMap<u64, u64> = SeqMap::with_capacity(rt.alloc(), 5).expect(rt, "memory");
    assert_same(rt, (map.capacity(), map.len()), (8, 0));
}

// A clone starts with room for its pairs alone.
#[test]
fn whole_owned_table_of_a_clone_of_one_pair(rt: HostRuntime) {
    let steps = [
        Step::InsertNew(0, 1),
        Step::Holds(16, 1),
        Step::Clone(2, 1, 0, Some(0)),
    ];
    on_new_map::<u64>(&rt, &steps);
}
