//! The calls of a map of numbers as rows of a table.

use super::keys::Number;
use super::{assert_same_at, lent, taken};
use flurry_base::hash::{KeyHasher, LowHashBuilder};
use flurry_bins::bin::{Node, Shape};
use flurry_seq::SeqMap;
use std::alloc::Global;
use std::process::Abort;

/// A call, and what it has to give. The number of a key stands for the key that is made from it.
#[derive(Clone, Copy)]
pub(super) enum Step {
    /// The insertion of a key and a value, and the old value.
    Insert(u64, u64, Option<u64>),
    /// The insertion of a node of a key and a value, which is made under another hash, and the old value.
    InsertNode(u64, u64, Option<u64>),
    /// The insertion of the absent keys from the first number to the second, without it, each with its number as its value.
    InsertNew(u64, u64),
    /// The insertion of the absent keys from the first number to the second, without it, each with the third as its value. The fourth is
    /// the number of bins after each of them.
    InsertEach(u64, u64, u64, usize),
    /// A call of `try_insert` for a key and a value, and the value that the key has already.
    TryInsert(u64, u64, Option<u64>),
    /// The extension by the keys from the first number to the second, without it. The value of a key is its number times the third.
    Extend(u64, u64, u64),
    /// The removal of a key, and its value.
    Remove(u64, Option<u64>),
    /// The removal of a key with its pair, and whether it was present.
    RemovePair(u64, bool),
    /// The removal of the keys from the first number to the second, without it. Each gives its number.
    RemoveEach(u64, u64),
    /// The computation of the value that a key has already, the value that is returned, and how often the function is called.
    ComputeSame(u64, Option<u64>, u64),
    /// The computation of `None` at the keys from the first number to the second, without it. Each is removed.
    ComputeNone(u64, u64),
    /// Room for more pairs.
    Reserve(usize),
    /// The removal of all pairs.
    Clear,
    /// A key and its value.
    Get(u64, Option<u64>),
    /// A key, and whether it is present.
    Contains(u64, bool),
    /// A key, and whether it is found with its pair.
    HasPair(u64, bool),
    /// Whether there is no pair.
    IsEmpty(bool),
    /// The number of pairs.
    Len(usize),
    /// The number of bins.
    Bins(usize),
    /// The numbers of bins and pairs.
    Holds(usize, usize),
    /// The shape of the bin of the hash 0.
    Shape(Shape),
    /// The number of bins, and the shape of the bin of the hash 0.
    Stands(usize, Shape),
    /// A clone, which is equal: the numbers of its bins and pairs, and a key with its value.
    Clone(usize, usize, u64, Option<u64>),
}

/// Makes the calls in their order, and checks what each gives. A failure reports the place of the row.
pub(super) fn run<K: Number, S: KeyHasher<K> + Copy + Drop>(
    rt: &impl Abort,
    map: &mut SeqMap<K, u64, S>,
    steps: &[Step],
) {
    for (at, step) in steps.iter().enumerate() {
        write(rt, map, at, *step);
    }
}

/// Makes the calls on a new map.
pub(super) fn on_new_map<K: Number>(rt: &(impl Abort + AllocGlobal), steps: &[Step]) {
    let mut map: SeqMap<K, u64> = SeqMap::new(rt.alloc());
    run(rt, &mut map, steps);
}

/// Makes the calls on a new map with the hasher.
pub(super) fn on_map_with<K: Number, S: KeyHasher<K> + Copy + Drop>(
    rt: &(impl Abort + AllocGlobal),
    hasher: S,
    steps: &[Step],
) {
    let mut map: SeqMap<K, u64, S> = SeqMap::with_hasher(rt.alloc(), hasher);
    run(rt, &mut map, steps);
}

/// Makes the calls on a map with room for `capacity` pairs, in which the hash of each key is the key.
pub(super) fn on_map_for(rt: &(impl Abort + AllocGlobal), capacity: usize, steps: &[Step]) {
    let made: Result<SeqMap<u64, u64, LowHashBuilder>, _> = SeqMap::with_capacity_and_hasher(
        rt.alloc(),
        capacity,
        LowHashBuilder,
    );
    let mut map = made.expect(rt, "memory for the table");
    run(rt, &mut map, steps);
}

/// Returns the map of the keys 1, 2 and 3, each with its tenfold as its value.
pub(super) fn three_pairs(rt: &impl Abort, alloc: Global) -> SeqMap<u64, u64, LowHashBuilder> {
    let list = Vec::from_array(alloc, [(1, 10), (2, 20), (3, 30)]).expect(rt, "memory");
    SeqMap::from_list(alloc, list, LowHashBuilder).expect(rt, "memory")
}

// Makes the call of one row, which inserts, or changes the map otherwise, or reads it.
fn write<K: Number, S: KeyHasher<K> + Copy + Drop>(
    rt: &impl Abort,
    map: &mut SeqMap<K, u64, S>,
    at: usize,
    step: Step,
) {
    match step {
        Step::Insert(key, value, old) => assert_same_at(rt, at, insert(rt, map, key, value), old),
        Step::InsertNode(key, value, old) => assert_same_at(
            rt,
            at,
            insert_node(rt, map, key, value),
            old,
        ),
        Step::InsertNew(first, end) => assert_same_at(
            rt,
            at,
            insert_new(rt, map, first, end),
            None,
        ),
        Step::InsertEach(first, end, value, bins) => {
            assert_same_at(rt, at, insert_each(rt, map, first, end, value, bins), None)
        }
        Step::TryInsert(key, value, Some(current)) => {
            assert_same_at(
                rt,
                at,
                try_insert(rt, map, key, value),
                Err((current, value)),
            )
        }
        Step::TryInsert(key, value, None) => {
            assert_same_at(rt, at, try_insert(rt, map, key, value), Ok(value))
        }
        Step::Extend(first, end, times) => extend(rt, map, first, end, times),
        _ => rewrite(rt, map, at, step),
    }
}

// Makes the call of one row that changes the map by no insertion, or reads it.
fn rewrite<K: Number, S: KeyHasher<K> + Copy + Drop>(
    rt: &impl Abort,
    map: &mut SeqMap<K, u64, S>,
    at: usize,
    step: Step,
) {
    match step {
        Step::Remove(key, value) => assert_same_at(rt, at, taken(map.remove(&K::of(key))), value),
        Step::RemovePair(key, wanted) => {
            assert_same_at(rt, at, map.remove_entry(&K::of(key)).is_some(), wanted)
        }
        Step::RemoveEach(first, end) => assert_same_at(rt, at, remove_each(map, first, end), None),
        Step::ComputeSame(key, value, calls) => {
            assert_same_at(rt, at, compute_same(rt, map, key), (value, calls))
        }
        Step::ComputeNone(first, end) => assert_same_at(
            rt,
            at,
            compute_none(rt, map, first, end),
            None,
        ),
        Step::Reserve(pairs) => map.reserve(pairs).expect(rt, "memory"),
        Step::Clear => map.clear(),
        _ => read(rt, map, at, step),
    }
}

// Makes the call of one row that reads the map.
fn read<K: Number, S: KeyHasher<K> + Copy + Drop>(
    rt: &impl Abort,
    map: &SeqMap<K, u64, S>,
    at: usize,
    step: Step,
) {
    match step {
        Step::Get(key, value) => assert_same_at(rt, at, lent(map.get(&K::of(key))), value),
        Step::Contains(key, wanted) => assert_same_at(
            rt,
            at,
            map.contains_key(&K::of(key)),
            wanted,
        ),
        Step::HasPair(key, wanted) => {
            assert_same_at(rt, at, map.get_key_value(&K::of(key)).is_some(), wanted)
        }
        Step::IsEmpty(wanted) => assert_same_at(rt, at, map.is_empty(), wanted),
        Step::Len(pairs) => assert_same_at(rt, at, map.len(), pairs),
        Step::Bins(bins) => assert_same_at(rt, at, map.capacity(), bins),
        Step::Holds(bins, pairs) => assert_same_at(
            rt,
            at,
            (map.capacity(), map.len()),
            (bins, pairs),
        ),
        Step::Shape(shape) => assert_same_at(rt, at, map.shape_of(0), shape),
        Step::Stands(bins, shape) => {
            assert_same_at(rt, at, (map.capacity(), map.shape_of(0)), (bins, shape))
        }
        Step::Clone(bins, pairs, key, value) => {
            assert_same_at(rt, at, clone(rt, map, key), (true, bins, pairs, value))
        }
        _ => panic!(rt; "the row at {at} is for no call"),
    }
}

// Inserts a key, and returns its old value.
fn insert<K: Number, S: KeyHasher<K>>(
    rt: &impl Abort,
    map: &mut SeqMap<K, u64, S>,
    key: u64,
    value: u64,
) -> Option<u64> {
    taken(map.insert(K::of(key), value).expect(rt, "memory"))
}

// Inserts a node, and returns the old value of its key.
fn insert_node<K: Number, S: KeyHasher<K>>(
    rt: &impl Abort,
    map: &mut SeqMap<K, u64, S>,
    key: u64,
    value: u64,
) -> Option<u64> {
    let node = Node::of_pair(*map.allocator(), 77, K::of(key), value, 0).expect(rt, "memory");
    taken(map.insert_node(node).expect(rt, "memory"))
}

// Inserts absent keys, and returns the first one that was not absent.
fn insert_new<K: Number, S: KeyHasher<K>>(
    rt: &impl Abort,
    map: &mut SeqMap<K, u64, S>,
    first: u64,
    end: u64,
) -> Option<u64> {
    for number in first..end {
        if insert(rt, map, number, number).is_some() {
            return Some(number);
        }
    }
    None
}

// Inserts absent keys, and returns the first one that was not absent, or after which the map does not have `bins` bins.
fn insert_each<K: Number, S: KeyHasher<K>>(
    rt: &impl Abort,
    map: &mut SeqMap<K, u64, S>,
    first: u64,
    end: u64,
    value: u64,
    bins: usize,
) -> Option<u64> {
    for number in first..end {
        if insert(rt, map, number, value).is_some() || map.capacity() != bins {
            return Some(number);
        }
    }
    None
}

// Inserts an absent key and returns its new value, or returns the value that it has and the one that was not inserted.
fn try_insert<K: Number, S: KeyHasher<K>>(
    rt: &impl Abort,
    map: &mut SeqMap<K, u64, S>,
    key: u64,
    value: u64,
) -> Result<u64, (u64, u64)> {
    match map.try_insert(K::of(key), value).expect(rt, "memory") {
        Ok(new) => Ok(*new),
        Err(error) => Err((*error.current, error.not_inserted)),
    }
}

/// Returns the list of the keys from `first` to `end`, without it. The value of a key is its number times `times`.
pub(super) fn list_of<K: Number>(
    rt: &impl Abort,
    alloc: Global,
    first: u64,
    end: u64,
    times: u64,
) -> Vec<(K, u64)> {
    let mut list = Vec::new(alloc);
    for number in first..end {
        let pair = (K::of(number), number.wrapping_mul(times));
        list.push(pair).expect(rt, "memory");
    }
    list
}

// Extends the map by a list.
fn extend<K: Number, S: KeyHasher<K>>(
    rt: &impl Abort,
    map: &mut SeqMap<K, u64, S>,
    first: u64,
    end: u64,
    times: u64,
) {
    let list = list_of(rt, *map.allocator(), first, end, times);
    map.extend(list).expect(rt, "memory");
}

// Removes keys, and returns the first one that did not give its number.
fn remove_each<K: Number, S: KeyHasher<K>>(
    map: &mut SeqMap<K, u64, S>,
    first: u64,
    end: u64,
) -> Option<u64> {
    for number in first..end {
        if taken(map.remove(&K::of(number))) != Some(number) {
            return Some(number);
        }
    }
    None
}

// Computes the value that a key has. Returns the new value, and how often the function was called.
fn compute_same<K: Number, S: KeyHasher<K>>(
    rt: &impl Abort,
    map: &mut SeqMap<K, u64, S>,
    key: u64,
) -> (Option<u64>, u64) {
    let mut calls = 0u64;
    let answer = map.compute_if_present(&K::of(key), |_, value| {
        calls = calls.wrapping_add(1);
        Some(*value)
    });
    (taken(answer.expect(rt, "memory")), calls)
}

// Removes keys by a function that returns `None`. Returns the first one that gave a value or did not leave fewer pairs.
fn compute_none<K: Number, S: KeyHasher<K>>(
    rt: &impl Abort,
    map: &mut SeqMap<K, u64, S>,
    first: u64,
    end: u64,
) -> Option<u64> {
    for number in first..end {
        let before = map.len();
        let answer = map.compute_if_present(&K::of(number), |_, _| None);
        if taken(answer.expect(rt, "memory")).is_some() || map.len() >= before {
            return Some(number);
        }
    }
    None
}

// Clones the map. Returns whether the clone is equal, the numbers of its bins and pairs, and the value of a key in it.
fn clone<K: Number, S: KeyHasher<K> + Copy + Drop>(
    rt: &impl Abort,
    map: &SeqMap<K, u64, S>,
    key: u64,
) -> (bool, usize, usize, Option<u64>) {
    let copy = map.try_clone().expect(rt, "memory");
    let value = lent(copy.get(&K::of(key)));
    (copy == *map, copy.capacity(), copy.len(), value)
}
