//! Lists as texts of `serde_json`.

use super::{assert_same, five, map_of};
use flurry_base::hash::LowHashBuilder;
use flurry_seq::SeqMap;
use flurry_seq_pairs::map::{from_pairs, to_sorted_pairs};
use flurry_seq_pairs::set::{from_items, to_sorted_items};
use flurry_seq_pairs::{FromPairsError, SortedItems, SortedPairs};
use flurry_seq_set::SeqSet;
use std::alloc::Global;
use std::process::Abort;

// Whether a text is not a list of pairs of numbers.
fn is_no_list(alloc: Global, text: &str) -> bool {
    serde_json::from_str::<SortedPairs<u64, u64>>(alloc, text).is_err()
}

// Returns the list of a map's pairs.
fn listed(rt: &impl Abort, map: &SeqMap<u64, u64, LowHashBuilder>) -> SortedPairs<u64, u64> {
    to_sorted_pairs(map).expect(rt, "memory for the list")
}

// Returns the text of a list.
fn text_of(rt: &impl Abort, alloc: Global, list: &SortedPairs<u64, u64>) -> String {
    serde_json::to_string(alloc, list).expect(rt, "a text")
}

// Returns the list that a text gives.
fn read(rt: &impl Abort, alloc: Global, text: &str) -> SortedPairs<u64, u64> {
    serde_json::from_str(alloc, text).expect(rt, "a list")
}

#[test]
fn the_text_of_a_map_ascends(rt: HostRuntime) {
    let rt = &rt;
    let list = listed(rt, &map_of(rt, [(1, 3), (0, 4)]));
    let text = text_of(rt, rt.alloc(), &list);
    assert_same(rt, text.as_str(), "[[0,4],[1,3]]");
}

#[test]
fn a_map_through_text(rt: HostRuntime) {
    let rt = &rt;
    let map = five(rt);
    let list = &listed(rt, &map);
    let text = text_of(rt, rt.alloc(), list);
    let again = read(rt, rt.alloc(), text.as_str());
    assert_same(rt, &again, list);
    let back = from_pairs(again, LowHashBuilder).expect(rt, "memory for the map");
    assert_same(rt, back == map, true);
}

#[test]
fn a_text_with_a_key_twice(rt: HostRuntime) {
    let list = read(&rt, rt.alloc(), "[[1,2],[1,3]]");
    let fault = from_pairs(list, LowHashBuilder).err();
    assert_same(&rt, fault, Some(FromPairsError::DoubledKey(1)));
}

#[test]
fn malformed_texts(rt: HostRuntime) {
    let rt = &rt;
    assert_same(rt, is_no_list(rt.alloc(), "[[0,4],[1,3]]"), false);
    assert_same(rt, is_no_list(rt.alloc(), "[[0,4],[1,3]"), true);
    assert_same(rt, is_no_list(rt.alloc(), "[[0,4],[1]]"), true);
    assert_same(rt, is_no_list(rt.alloc(), "[[0,\"4\"]]"), true);
    assert_same(rt, is_no_list(rt.alloc(), "{\"0\":4}"), true);
}

// Returns the set that a text gives.
fn read_set(rt: &impl Abort, alloc: Global, text: &str) -> SeqSet<u64, LowHashBuilder> {
    let read: SortedItems<u64> = serde_json::from_str(alloc, text).expect(rt, "a list");
    from_items(read, LowHashBuilder).expect(rt, "memory for the set")
}

#[test]
fn a_set_through_text(rt: HostRuntime) {
    let rt = &rt;
    let set = read_set(rt, rt.alloc(), "[2,1,2,3]");
    let list = to_sorted_items(&set).expect(rt, "memory for the list");
    let text = serde_json::to_string(rt.alloc(), &list).expect(rt, "a text");
    assert_same(rt, text.as_str(), "[1,2,3]");
}

// Lists that are read from values instead of texts.
#[test]
fn lists_from_values(rt: HostRuntime) {
    let rt = &rt;
    let value = serde_json::from_str(rt.alloc(), "[[2,1],[0,0]]").expect(rt, "a value");
    let pairs: SortedPairs<u64, u64> = serde_json::from_value(rt.alloc(), value).expect(
        rt, "a list",
    );
    assert_same(rt, pairs.0.as_slice(), [(2u64, 1u64), (0, 0)].as_slice());
    let value = serde_json::from_str(rt.alloc(), "[2,1,2]").expect(rt, "a value");
    let items: SortedItems<u64> = serde_json::from_value(rt.alloc(), value).expect(rt, "a list");
    assert_same(rt, items.0.as_slice(), [2u64, 1, 2].as_slice());
}
