//! Relations of two sets, and of their views.

use super::{assert_same, has_sums, set_of};
use flurry_base::hash::LowHashBuilder;
use flurry_shared_set::{HashSet, HashSetRef};
use std::alloc::{AllocError, Allocator, Global};
use std::process::Abort;
use std::sync::Wait;

// The relations of one set to another.
#[derive(Clone, Copy, Debug, PartialEq)]
struct Relations {
    equals: bool,
    is_subset: bool,
    is_superset: bool,
    is_disjoint: bool,
}

const EQUAL: Relations = Relations {
    equals: true,
    is_subset: true,
    is_superset: true,
    is_disjoint: false,
};

const LESS: Relations = Relations {
    equals: false,
    is_subset: true,
    is_superset: false,
    is_disjoint: false,
};

const MORE: Relations = Relations {
    equals: false,
    is_subset: false,
    is_superset: true,
    is_disjoint: false,
};

const APART: Relations = Relations {
    equals: false,
    is_subset: false,
    is_superset: false,
    is_disjoint: true,
};

fn of_sets<A: Allocator + Copy, R: Wait>(
    rt: &R,
    left: &HashSet<u64, LowHashBuilder, A>,
    right: &HashSet<u64, LowHashBuilder, A>,
) -> Result<Relations, AllocError> {
    Ok(Relations {
        equals: left.equals(rt, right)?,
        is_subset: left.is_subset(rt, right)?,
        is_superset: left.is_superset(rt, right)?,
        is_disjoint: left.is_disjoint(rt, right)?,
    })
}

fn of_views<A: Allocator + Copy, R: Wait>(
    left: &HashSetRef<'_, R, u64, LowHashBuilder, A>,
    right: &HashSetRef<'_, R, u64, LowHashBuilder, A>,
) -> Result<Relations, AllocError> {
    Ok(Relations {
        equals: left.equals(right)?,
        is_subset: left.is_subset(right)?,
        is_superset: left.is_superset(right)?,
        is_disjoint: left.is_disjoint(right)?,
    })
}

// Asserts that `wanted` are the relations of two sets, and of their views.
fn stand_so<A: Allocator + Copy, R: Abort + Wait>(
    rt: &R,
    left: &HashSet<u64, LowHashBuilder, A>,
    right: &HashSet<u64, LowHashBuilder, A>,
    wanted: Relations,
) {
    assert_same(rt, of_sets(rt, left, right).expect(rt, "memory"), wanted);
    let seen = of_views(&left.pin(rt), &right.pin(rt)).expect(rt, "memory");
    assert_same(rt, seen, wanted);
}

// Asserts that `wanted` are the relations of the sets of these numbers, and of their views.
fn related<R: Abort + Wait>(rt: &R, alloc: Global, left: &[u64], right: &[u64], wanted: Relations) {
    let (left, right) = (set_of(rt, alloc, left), set_of(rt, alloc, right));
    stand_so(rt, &left, &right, wanted);
}

// Inserts 1, which is present, and takes it: of 1 and 2, 2 is left.
fn leaves_two<A: Allocator + Copy, R: Abort + Wait>(rt: &R, set: &HashSet<u64, LowHashBuilder, A>) {
    assert_same(rt, set.insert(rt, 1).expect(rt, "memory"), false);
    assert_same(rt, set.take(rt, &1).map(|element| *element), Some(1));
    has_sums(rt, set, (1, 2))
}

#[test]
fn row_21(rt: HostRuntime) {
    let rt = &rt;
    related(rt, rt.alloc(), &[1, 2], &[1, 2, 3], LESS);
    related(rt, rt.alloc(), &[1, 2, 3], &[1, 2], MORE);
    related(rt, rt.alloc(), &[1, 2], &[4], APART);
    leaves_two(rt, &set_of(rt, rt.alloc(), &[1, 2]))
}

#[test]
fn other_sets(rt: HostRuntime) {
    related(&rt, rt.alloc(), &[1, 2], &[2, 1], EQUAL);
    let beside = Relations {
        is_disjoint: false,
        ..APART
    };
    related(&rt, rt.alloc(), &[1, 2], &[2, 3], beside);
}

// The empty set is a subset of every set, and is disjoint from every set, including itself.
#[test]
fn the_empty_set(rt: HostRuntime) {
    let rt = &rt;
    let less = Relations {
        is_disjoint: true,
        ..LESS
    };
    related(rt, rt.alloc(), &[], &[1], less);
    let more = Relations {
        is_disjoint: true,
        ..MORE
    };
    related(rt, rt.alloc(), &[1], &[], more);
    let equal = Relations {
        is_disjoint: true,
        ..EQUAL
    };
    related(rt, rt.alloc(), &[], &[], equal);
}
