//! The `Debug` forms of an owned map and an owned set.

use super::assert_same;
use flurry_seq::SeqMap;
use flurry_seq_set::SeqSet;
use std::alloc::Global;
use std::fmt::Debug;
use std::process::Abort;

// Returns the `Debug` form of a value.
fn debug_of<T: Debug>(rt: &impl Abort, alloc: Global, value: &T) -> String {
    format!(in alloc; "{value:?}").expect(rt, "memory for a text")
}

#[test]
fn a_map_prints_how_many_pairs_it_has(rt: HostRuntime) {
    let rt = &rt;
    let mut map: SeqMap<u64, u64> = SeqMap::new(rt.alloc());
    let text = debug_of(rt, rt.alloc(), &map);
    assert_same(rt, text.as_str(), "SeqMap { len: 0, .. }");
    assert_same(rt, map.insert(37, 1).is_ok(), true);
    let text = debug_of(rt, rt.alloc(), &map);
    assert_same(rt, text.as_str(), "SeqMap { len: 1, .. }");
}

#[test]
fn a_set_prints_how_many_elements_it_has(rt: HostRuntime) {
    let set: SeqSet<u64> = SeqSet::new(rt.alloc());
    let text = debug_of(&rt, rt.alloc(), &set);
    assert_same(&rt, text.as_str(), "SeqSet { len: 0, .. }");
}
