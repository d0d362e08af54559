//! Elements that several threads insert.

use super::{assert_same, pairs_from_100};
use flurry_base::hash::KeyHasher;
use flurry_shared_par::{set, set_ref};
use flurry_shared_set::HashSet;
use std::process::Abort;
use std::sync::Wait;
use std::thread::Threads;

// Asserts that a set has the hundred pairs as elements, and no others.
fn has_a_hundred<S: KeyHasher<(u64, u64)>, R: Abort + Wait>(rt: &R, set: &HashSet<(u64, u64), S>) {
    assert_same(rt, set.len(rt), 100);
    assert_same(rt, set.contains(rt, &(100, 0)), true);
    assert_same(rt, set.contains(rt, &(199, 990)), true);
    assert_same(rt, set.contains(rt, &(100, 10)), false);
}

// Extends a set by no elements, by a hundred, and by half of these again.
fn extends<R: Abort + AllocGlobal + Threads + Wait + Sync>(rt: &R, set: &HashSet<(u64, u64)>) {
    set::par_extend(set, rt, Vec::new(rt.alloc()), 7).expect(rt, "memory");
    assert_same(rt, set.is_empty(rt), true);
    for (count, part) in [(100, 7), (50, 1)] {
        let list = pairs_from_100(rt, rt.alloc(), count);
        set::par_extend(set, rt, list, part).expect(rt, "memory");
        has_a_hundred(rt, set);
    }
}

#[test]
fn a_hundred_elements(rt: HostRuntime) {
    extends(&rt, &HashSet::new(rt.alloc()).with_processors(4));
}

// Extends a set by a view, by no elements, by a hundred, and by half of these again.
fn extends_by_a_view<R: Abort + AllocGlobal + Threads + Wait + Sync>(
    rt: &R,
    set: &HashSet<(u64, u64)>,
) {
    set_ref::par_extend(&set.pin(rt), Vec::new(rt.alloc()), 7).expect(rt, "memory");
    assert_same(rt, set.is_empty(rt), true);
    for (count, part) in [(100, 7), (50, 1)] {
        let list = pairs_from_100(rt, rt.alloc(), count);
        set_ref::par_extend(&set.pin(rt), list, part).expect(rt, "memory");
        has_a_hundred(rt, set);
    }
}

#[test]
fn a_hundred_elements_by_a_view(rt: HostRuntime) {
    extends_by_a_view(&rt, &HashSet::new(rt.alloc()).with_processors(4));
}
