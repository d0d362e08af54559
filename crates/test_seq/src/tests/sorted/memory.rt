//! Each request for memory fails in turn. A call that fails deallocates all that it has allocated.

use super::super::memory::{Refused, refuse_each};
use super::assert_same;
use flurry_base::hash::LowHashBuilder;
use flurry_seq::SeqMap;
use flurry_seq_pairs::map::{from_pairs, to_sorted_pairs};
use flurry_seq_pairs::set::{from_items, to_sorted_items};
use flurry_seq_pairs::{FromPairsError, SortedItems, SortedPairs};
use flurry_seq_set::SeqSet;
use metered_alloc::MeteredAlloc;
use std::alloc::{Allocator, Global};
use std::process::Abort;

// A map of numbers to lists, whose clones take memory. Its allocator is a parameter, because a proof over `&'static MeteredAlloc<Global>`
// unfolds it in each step.
type ListMap<A> = SeqMap<u64, Vec<u64, A>, LowHashBuilder, A>;

type NumberSet<A> = SeqSet<u64, LowHashBuilder, A>;

// Returns a map of three pairs, in which each value is a list of its key.
fn lists<A: Allocator + Copy>(rt: &impl Abort, memory: A) -> ListMap<A> {
    let mut map = SeqMap::with_hasher(memory, LowHashBuilder);
    for key in 0..3u64 {
        let list = Vec::from_array(memory, [key]).expect(rt, "memory for the list");
        map.insert(key, list).expect(rt, "memory for the pair");
    }
    map
}

// The making of the list of a map of three pairs.
struct ListsPairs;

impl Refused for ListsPairs {
    fn run_refusing<A: Allocator + Copy>(
        &self,
        rt: &impl Abort,
        metered: &MeteredAlloc<Global>,
        memory: A,
        k: u64,
    ) -> bool {
        let map = lists(rt, memory);
        metered.refuse_at(k);
        let count = to_sorted_pairs(&map).ok().map(|list| list.0.len());
        let refused = metered.was_refused();
        metered.refuse_nothing();
        assert_same(rt, count, if refused { None } else { Some(3) });
        refused
    }
}

#[test]
fn pairs_of_a_map(rt: HostRuntime) {
    refuse_each(&rt, rt.alloc(), &ListsPairs);
}

// The making of a map of three pairs.
struct MakesMap;

impl Refused for MakesMap {
    fn run_refusing<A: Allocator + Copy>(
        &self,
        rt: &impl Abort,
        metered: &MeteredAlloc<Global>,
        memory: A,
        k: u64,
    ) -> bool {
        let list = Vec::from_array(memory, [(2u64, 0u64), (1, 1), (0, 2)]).expect(
            rt,
            "memory for the list",
        );
        metered.refuse_at(k);
        let answer = from_pairs(SortedPairs(list), LowHashBuilder);
        let refused = metered.was_refused();
        metered.refuse_nothing();
        let wanted = if refused {
            Some(FromPairsError::NoMemory)
        } else {
            None
        };
        assert_same(rt, answer.err(), wanted);
        refused
    }
}

#[test]
fn a_map_of_pairs(rt: HostRuntime) {
    refuse_each(&rt, rt.alloc(), &MakesMap);
}

// The making of the list of a set of three elements.
struct ListsElements;

impl Refused for ListsElements {
    fn run_refusing<A: Allocator + Copy>(
        &self,
        rt: &impl Abort,
        metered: &MeteredAlloc<Global>,
        memory: A,
        k: u64,
    ) -> bool {
        let mut set: NumberSet<A> = SeqSet::with_hasher(memory, LowHashBuilder);
        for element in 0..3u64 {
            assert_same(rt, set.insert(element), Ok(true));
        }
        metered.refuse_at(k);
        let count = to_sorted_items(&set).ok().map(|list| list.0.len());
        let refused = metered.was_refused();
        metered.refuse_nothing();
        assert_same(rt, count, if refused { None } else { Some(3) });
        refused
    }
}

#[test]
fn elements_of_a_set(rt: HostRuntime) {
    refuse_each(&rt, rt.alloc(), &ListsElements);
}

// The making of a set of two elements, one of which comes twice.
struct MakesSet;

impl Refused for MakesSet {
    fn run_refusing<A: Allocator + Copy>(
        &self,
        rt: &impl Abort,
        metered: &MeteredAlloc<Global>,
        memory: A,
        k: u64,
    ) -> bool {
        let list = Vec::from_array(memory, [2u64, 1, 2]).expect(rt, "memory for the list");
        metered.refuse_at(k);
        let count = from_items(SortedItems(list), LowHashBuilder)
            .ok()
            .map(|set| set.len());
        let refused = metered.was_refused();
        metered.refuse_nothing();
        assert_same(rt, count, if refused { None } else { Some(2) });
        refused
    }
}

#[test]
fn a_set_of_elements(rt: HostRuntime) {
    refuse_each(&rt, rt.alloc(), &MakesSet);
}
