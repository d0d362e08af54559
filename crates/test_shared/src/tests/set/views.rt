//! The calls of a view.

use super::{assert_same, has_sums, read_all, set_of};
use flurry_base::hash::LowHashBuilder;
use flurry_shared_set::{HashSet, HashSetRef};
use std::alloc::Allocator;
use std::process::Abort;
use std::sync::Wait;

// Inserts a third number by another view of the same set.
fn puts_by_another<A: Allocator + Copy, R: Abort + Wait>(
    rt: &R,
    view: &HashSetRef<'_, R, u64, LowHashBuilder, A>,
) {
    let other = view.reborrow();
    assert_same(rt, view.insert(2).expect(rt, "memory"), false);
    assert_same(rt, other.insert(3).expect(rt, "memory"), true);
    assert_same(rt, view.len(), 3);
    assert_same(rt, view.is_empty(), false);
    assert_same(rt, view.contains(&3), true);
    assert_same(rt, view.get(&4).expect(rt, "memory").is_none(), true);
}

// Keeps the numbers other than 1, in a table with room for more.
fn keeps_two<A: Allocator + Copy, R: Abort + Wait>(
    rt: &R,
    view: &HashSetRef<'_, R, u64, LowHashBuilder, A>,
) {
    view.reserve(100).expect(rt, "memory");
    view.retain(|element| *element != 1).expect(rt, "memory");
    assert_same(rt, read_all(view.iter()).expect(rt, "memory"), (2, 5));
}

// Removes a number, which is then absent, and then all numbers that are left.
fn takes_out<A: Allocator + Copy, R: Abort + Wait>(
    rt: &R,
    view: &HashSetRef<'_, R, u64, LowHashBuilder, A>,
) {
    assert_same(rt, view.remove(&2), true);
    assert_same(rt, view.take(&2).is_none(), true);
    assert_same(rt, view.take(&3).map(|element| *element), Some(3));
    view.clear();
}

// Changes a set by its view, and checks that the set has the changes.
fn changes_the_set<A: Allocator + Copy, R: Abort + Wait>(
    rt: &R,
    set: &HashSet<u64, LowHashBuilder, A>,
    view: &HashSetRef<'_, R, u64, LowHashBuilder, A>,
) {
    puts_by_another(rt, view);
    keeps_two(rt, view);
    has_sums(rt, set, (2, 5));
    takes_out(rt, view);
    has_sums(rt, set, (0, 0))
}

#[test]
fn calls_of_a_view(rt: HostRuntime) {
    let rt = &rt;
    let set = set_of(rt, rt.alloc(), &[1, 2]);
    changes_the_set(rt, &set, &set.pin(rt))
}

// A set of one element is not empty, nor is its view.
#[test]
fn a_set_of_one_element(rt: HostRuntime) {
    let rt = &rt;
    let set = set_of(rt, rt.alloc(), &[7]);
    let view = set.pin(rt);
    assert_same(rt, (set.is_empty(rt), view.is_empty()), (false, false));
    assert_same(rt, (set.len(rt), view.len()), (1, 1));
}
