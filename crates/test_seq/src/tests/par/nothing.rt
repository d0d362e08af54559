//! Empty lists.

use crate::tests::assert_same;
use flurry_base::hash::LowHashBuilder;
use flurry_seq::SeqMap;
use flurry_seq_par::{map, set};
use flurry_seq_set::SeqSet;

// An empty list makes an empty map and an empty set, and adds nothing to a set.
#[test]
fn empty_lists(rt: HostRuntime) {
    let rt = &rt;
    let none: Vec<(u64, u64)> = Vec::new(rt.alloc());
    let built: SeqMap<u64, u64, LowHashBuilder> = map::from_par_list(
        rt,
        rt.alloc(),
        none,
        LowHashBuilder,
        7,
    ).expect(rt, "memory");
    assert_same(rt, built.len(), 0);
    let none: Vec<u64> = Vec::new(rt.alloc());
    let mut elements: SeqSet<u64, LowHashBuilder> = set::from_par_list(
        rt,
        rt.alloc(),
        none,
        LowHashBuilder,
        7,
    ).expect(rt, "memory");
    assert_same(rt, elements.len(), 0);
    assert_same(rt, elements.insert(1).expect(rt, "memory"), true);
    set::par_extend(rt, &mut elements, Vec::new(rt.alloc()), 7).expect(rt, "memory");
    assert_same(rt, (elements.len(), elements.contains(&1)), (1, true));
}
