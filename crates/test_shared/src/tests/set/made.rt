//! The ways in which sets are created.

use super::{assert_same, has_sums, list, set_of};
use flurry_base::hash::{KeyHasher, LowHashBuilder, ZeroHashBuilder};
use flurry_shared_set::HashSet;
use std::alloc::{AllocError, Allocator, Global};
use std::process::Abort;
use std::sync::Wait;

// Inserts a number into an empty set, and finds it there.
fn takes_one<A: Allocator + Copy, R: Abort + Wait>(rt: &R, set: &HashSet<u64, LowHashBuilder, A>) {
    has_sums(rt, set, (0, 0));
    set.insert(rt, 5).expect(rt, "memory");
    has_sums(rt, set, (1, 5))
}

// Makes a set with room, into which it inserts a number.
fn has_room<R: Abort + Wait>(rt: &R, alloc: Global, capacity: usize) {
    let set = HashSet::with_capacity_and_hasher(alloc, capacity, LowHashBuilder);
    takes_one(rt, &set.expect(rt, "memory"));
}

#[test]
fn sets_with_room(rt: HostRuntime) {
    let rt = &rt;
    has_room(rt, rt.alloc(), 100);
    has_room(rt, rt.alloc(), 0);
    takes_one(
        rt,
        &HashSet::from_list(rt, Vec::new(rt.alloc()), LowHashBuilder).expect(rt, "memory"),
    )
}

// A set is empty until a number is inserted.
fn is_empty_at_first<S: KeyHasher<u64>, A: Allocator + Copy, R: Abort + Wait>(
    rt: &R,
    set: &HashSet<u64, S, A>,
) {
    assert_same(rt, set.is_empty(rt), true);
    assert_same(rt, set.insert(rt, 1).expect(rt, "memory"), true);
    assert_same(rt, set.is_empty(rt), false);
}

#[test]
fn sets_of_other_hashers(rt: HostRuntime) {
    let rt = &rt;
    let plain: HashSet<u64> = HashSet::new(rt.alloc());
    is_empty_at_first(rt, &plain);
    drop(plain);
    let sized: HashSet<u64> = HashSet::with_capacity(rt.alloc(), 100).expect(rt, "memory");
    is_empty_at_first(rt, &sized);
    drop(sized);
    is_empty_at_first(rt, &HashSet::with_hasher(rt.alloc(), ZeroHashBuilder));
}

#[test]
fn a_set_of_four_processors(rt: HostRuntime) {
    let rt = &rt;
    let set = set_of(rt, rt.alloc(), &[1, 2]).with_processors(4);
    set.reserve(rt, 1000).expect(rt, "memory");
    has_sums(rt, &set, (2, 3))
}

// Of a class, the element that was stored first stays.
#[test]
fn a_set_of_a_list(rt: HostRuntime) {
    let rt = &rt;
    let mut numbers = list(rt, rt.alloc(), 1, 4);
    numbers.push(2).expect(rt, "memory");
    let set = HashSet::from_list(rt, numbers, LowHashBuilder).expect(rt, "memory");
    has_sums(rt, &set, (3, 6))
}

// Inserts an element into the clone of a set of two elements, and removes an element from the set. Neither changes the other.
fn are_apart<A: Allocator + Copy, R: Abort + Wait>(
    rt: &R,
    set: &HashSet<u64, LowHashBuilder, A>,
    copy: &HashSet<u64, LowHashBuilder, A>,
) {
    copy.insert(rt, 3).expect(rt, "memory");
    set.remove(rt, &1);
    has_sums(rt, copy, (3, 6));
    has_sums(rt, set, (1, 2))
}

// A clone of a set has the set's elements, and is a set of its own.
#[test]
fn a_further_set(rt: HostRuntime) {
    let rt = &rt;
    let set = set_of(rt, rt.alloc(), &[1, 2]);
    are_apart(rt, &set, &set.try_clone(rt).expect(rt, "memory"))
}

// An element that compares, equals and hashes by its `id` alone.
#[derive(Clone, Copy)]
#[derive_where(Debug, PartialEq, Eq, PartialOrd, Ord, Hash)]
struct Tagged {
    id: u64,
    #[derive_where(skip(EqHashOrd))]
    tag: u64,
}

// The tag of the stored element of a number.
fn tag_of<R: Wait>(
    rt: &R,
    set: &HashSet<Tagged, ZeroHashBuilder>,
    id: u64,
) -> Result<Option<u64>, AllocError> {
    Ok(
        set.get(rt, &Tagged { id, tag: 0 })?
            .map(|element| element.tag),
    )
}

// Of equal elements of a list the first stays, also where the set is extended.
#[test]
fn equal_elements_of_a_list(rt: HostRuntime) {
    let rt = &rt;
    let first = [Tagged { id: 1, tag: 10 }, Tagged { id: 1, tag: 20 }];
    let list = Vec::from_array(rt.alloc(), first).expect(rt, "memory");
    let set = &HashSet::from_list(rt, list, ZeroHashBuilder).expect(rt, "memory");
    let more = [
        Tagged { id: 1, tag: 30 },
        Tagged { id: 2, tag: 40 },
        Tagged { id: 2, tag: 50 },
    ];
    set.extend(rt, Vec::from_array(rt.alloc(), more).expect(rt, "memory"))
        .expect(rt, "memory");
    assert_same(rt, tag_of(rt, set, 1).expect(rt, "memory"), Some(10));
    assert_same(rt, tag_of(rt, set, 2).expect(rt, "memory"), Some(40));
}
