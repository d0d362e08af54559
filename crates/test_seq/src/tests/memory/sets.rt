//! The calls of a set that take memory.

use super::{Refused, assert_same, assert_same_at, metered, push_call, refuse_each};
use flurry_base::hash::{DefaultHashBuilder, LowHashBuilder};
use flurry_bins::bin::Node;
use flurry_seq_set::SeqSet;
use flurry_seq_set::set_calls::SetCall;
use metered_alloc::MeteredAlloc;
use std::alloc::{AllocError, Allocator, Global};
use std::collections::VecDeque;
use std::process::Abort;

type Set<A> = SeqSet<u64, LowHashBuilder, A>;

// Returns the set of the elements below `count`.
fn set_of<A: Allocator + Copy>(rt: &impl Abort, memory: A, count: u64) -> Set<A> {
    let mut set = SeqSet::with_hasher(memory, LowHashBuilder);
    for element in 0..count {
        let _ = set.insert(element).expect(rt, "memory for the element");
    }
    set
}

fn three_elements<A: Allocator + Copy>(rt: &impl Abort, memory: A) -> Vec<u64, A> {
    Vec::from_array(memory, [5, 6, 7]).expect(rt, "memory for the list")
}

// Asserts that the set has a front of the elements from 5 on, and as many of them as it has elements beside its `first` ones.
fn has_a_front<A: Allocator + Copy>(rt: &impl Abort, set: &Set<A>, first: usize) {
    let mut count = first;
    for element in 5..8u64 {
        let is_in_front = count < set.len();
        assert_same(rt, set.contains(&element), is_in_front);
        if is_in_front {
            count += 1;
        }
    }
    assert_same(rt, count, set.len());
}

// An insertion into a new set. A second insertion, and taking the element, request no memory.
struct InsertsOne;

impl Refused for InsertsOne {
    fn run_refusing<A: Allocator + Copy>(
        &self,
        rt: &impl Abort,
        metered: &MeteredAlloc<Global>,
        memory: A,
        k: u64,
    ) -> bool {
        let mut set = set_of(rt, memory, 0);
        metered.refuse_at(k);
        let failed = set.insert(1).is_err();
        let refused = metered.was_refused();
        metered.refuse_from(0);
        assert_same_at(rt, k, (failed, set.contains(&1)), (refused, !refused));
        if !refused {
            assert_same(rt, set.insert(1), Ok(false));
            assert_same(rt, set.take(&1).is_some(), true);
            assert_same(rt, metered.requests(), 0);
        }
        metered.refuse_nothing();
        refused
    }
}

#[test]
fn set_insert(rt: HostRuntime) {
    refuse_each(&rt, rt.alloc(), &InsertsOne);
}

// Inserts a node of the element 1 into a set. Returns whether its class is new, or `None` if memory for the node or for a table cannot be
// allocated.
fn put_node<A: Allocator + Copy>(set: &mut Set<A>) -> Option<bool> {
    match Node::of_pair(*set.allocator(), 77, 1u64, (), 0) {
        Ok(node) => set.insert_node(node).ok(),
        Err(_) => None,
    }
}

// The insertion of a node into a new set, which is repeated if it fails.
struct InsertsNode;

impl Refused for InsertsNode {
    fn run_refusing<A: Allocator + Copy>(
        &self,
        rt: &impl Abort,
        metered: &MeteredAlloc<Global>,
        memory: A,
        k: u64,
    ) -> bool {
        let mut set = set_of(rt, memory, 0);
        metered.refuse_at(k);
        let mut new = put_node(&mut set);
        let refused = metered.was_refused();
        metered.refuse_nothing();
        if refused {
            assert_same_at(rt, k, (new, set.len(), metered.live_blocks()), (None, 0, 0));
            new = put_node(&mut set);
        }
        assert_same_at(rt, k, (new, set.contains(&1)), (Some(true), true));
        assert_same_at(rt, k, (put_node(&mut set), set.len()), (Some(false), 1));
        refused
    }
}

#[test]
fn set_insert_node(rt: HostRuntime) {
    refuse_each(&rt, rt.alloc(), &InsertsNode);
}

// A call of `get_or_insert` for a class that is new. A second one requests no memory.
struct GetsOrInserts;

impl Refused for GetsOrInserts {
    fn run_refusing<A: Allocator + Copy>(
        &self,
        rt: &impl Abort,
        metered: &MeteredAlloc<Global>,
        memory: A,
        k: u64,
    ) -> bool {
        let mut set = set_of(rt, memory, 0);
        metered.refuse_at(k);
        let failed = set.get_or_insert(1).is_err();
        let refused = metered.was_refused();
        metered.refuse_from(0);
        assert_same_at(rt, k, (failed, set.contains(&1)), (refused, !refused));
        if !refused {
            assert_same(rt, set.get_or_insert(1).map(|stored| *stored), Ok(1));
            assert_same(rt, metered.requests(), 0);
        }
        metered.refuse_nothing();
        refused
    }
}

#[test]
fn set_get_or_insert(rt: HostRuntime) {
    refuse_each(&rt, rt.alloc(), &GetsOrInserts);
}

// Creates a set with room for `capacity` elements, and returns whether it is empty, or `None` if this fails.
fn is_empty_for<A: Allocator + Copy>(memory: A, capacity: usize) -> Option<bool> {
    let set: Result<Set<A>, _> = SeqSet::with_capacity_and_hasher(memory, capacity, LowHashBuilder);
    match set {
        Ok(set) => Some(set.is_empty()),
        Err(_) => None,
    }
}

// Creates a set with room for five elements and the default hasher, and returns whether this fails.
fn default_is_refused<A: Allocator + Copy>(memory: A) -> bool {
    let set: Result<SeqSet<u64, DefaultHashBuilder, A>, AllocError> = SeqSet::with_capacity(
        memory, 5,
    );
    set.is_err()
}

#[test]
fn set_with_capacity(rt: HostRuntime) {
    let rt = &rt;
    let memory = metered(rt, rt.alloc());
    memory.refuse_from(0);
    assert_same(rt, is_empty_for(memory, 0), Some(true));
    assert_same(rt, memory.requests(), 0);
    assert_same(rt, is_empty_for(memory, 5), None);
    assert_same(rt, default_is_refused(memory), true);
    assert_same(rt, memory.live_blocks(), 0);
}

// A call of `reserve` for 32 more elements in a set of one. It requests one table, of 128 bins.
struct Reserves;

impl Refused for Reserves {
    fn run_refusing<A: Allocator + Copy>(
        &self,
        rt: &impl Abort,
        metered: &MeteredAlloc<Global>,
        memory: A,
        k: u64,
    ) -> bool {
        let mut set = set_of(rt, memory, 1);
        metered.refuse_at(k);
        let failed = set.reserve(32).is_err();
        let refused = metered.was_refused();
        metered.refuse_nothing();
        assert_same_at(rt, k, (failed, refused), (k == 0, k == 0));
        assert_same_at(rt, k, (set.len(), set.contains(&0)), (1, true));
        refused
    }
}

#[test]
fn set_reserve(rt: HostRuntime) {
    refuse_each(&rt, rt.alloc(), &Reserves);
}

// The extension of a set of two elements by the list of three elements.
struct Extends;

impl Refused for Extends {
    fn run_refusing<A: Allocator + Copy>(
        &self,
        rt: &impl Abort,
        metered: &MeteredAlloc<Global>,
        memory: A,
        k: u64,
    ) -> bool {
        let mut set = set_of(rt, memory, 2);
        let list = three_elements(rt, memory);
        metered.refuse_at(k);
        let failed = set.extend(list).is_err();
        let refused = metered.was_refused();
        metered.refuse_nothing();
        assert_same_at(rt, k, failed, refused);
        has_a_front(rt, &set, 2);
        assert_same_at(rt, k, set.contains(&0) && set.contains(&1), true);
        refused
    }
}

#[test]
fn set_extend(rt: HostRuntime) {
    refuse_each(&rt, rt.alloc(), &Extends);
}

// The making of a set from the list of three elements.
struct MakesOfList;

impl Refused for MakesOfList {
    fn run_refusing<A: Allocator + Copy>(
        &self,
        rt: &impl Abort,
        metered: &MeteredAlloc<Global>,
        memory: A,
        k: u64,
    ) -> bool {
        let list = three_elements(rt, memory);
        metered.refuse_at(k);
        let answer = SeqSet::from_list(memory, list, LowHashBuilder);
        let refused = metered.was_refused();
        metered.refuse_nothing();
        assert_same_at(rt, k, answer.is_err(), refused);
        match answer {
            Ok(set) => {
                has_a_front(rt, &set, 0);
                assert_same(rt, set.len(), 3);
            }
            Err(_) => assert_same_at(rt, k, metered.live_blocks(), 0),
        }
        refused
    }
}

#[test]
fn set_from_list(rt: HostRuntime) {
    refuse_each(&rt, rt.alloc(), &MakesOfList);
}

// The cloning of a set of three elements.
struct Copies;

impl Refused for Copies {
    fn run_refusing<A: Allocator + Copy>(
        &self,
        rt: &impl Abort,
        metered: &MeteredAlloc<Global>,
        memory: A,
        k: u64,
    ) -> bool {
        let set = set_of(rt, memory, 3);
        let before = metered.live_blocks();
        metered.refuse_at(k);
        let answer = set.try_clone();
        let refused = metered.was_refused();
        metered.refuse_nothing();
        let is_equal = match answer {
            Ok(copy) => Some(copy == set),
            Err(_) => None,
        };
        let wanted = if refused { None } else { Some(true) };
        assert_same_at(rt, k, (is_equal, metered.live_blocks()), (wanted, before));
        refused
    }
}

#[test]
fn set_try_clone(rt: HostRuntime) {
    refuse_each(&rt, rt.alloc(), &Copies);
}

// The function that the calls pass to `retain`.
fn is_below_nine(element: &u64) -> bool {
    *element < 9
}

// The run of calls as values on a new set.
struct Runs;

impl Refused for Runs {
    fn run_refusing<A: Allocator + Copy>(
        &self,
        rt: &impl Abort,
        metered: &MeteredAlloc<Global>,
        memory: A,
        k: u64,
    ) -> bool {
        let mut set = set_of(rt, memory, 0);
        let mut calls = VecDeque::new(memory);
        push_call(rt, &mut calls, SetCall::Insert(5));
        push_call(rt, &mut calls, SetCall::Get(5));
        push_call(rt, &mut calls, SetCall::Insert(6));
        push_call(rt, &mut calls, SetCall::Retain(is_below_nine));
        push_call(rt, &mut calls, SetCall::Insert(7));
        push_call(rt, &mut calls, SetCall::Elements);
        push_call(rt, &mut calls, SetCall::TryClone);
        metered.refuse_at(k);
        let failed = set.run(memory, calls).is_err();
        let refused = metered.was_refused();
        metered.refuse_nothing();
        has_a_front(rt, &set, 0);
        assert_same_at(rt, k, failed, refused);
        assert_same_at(rt, k, refused || set.len() == 3, true);
        refused
    }
}

#[test]
fn set_calls_in_their_order(rt: HostRuntime) {
    refuse_each(&rt, rt.alloc(), &Runs);
}
