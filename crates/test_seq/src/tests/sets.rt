//! The results of the calls of an owned set, and the set after them.

use super::calls::{line, text_of_numbers};
use super::keys::Tagged;
use super::{assert_same, queue_of};
use flurry_base::hash::{KeyHasher, LowHashBuilder, ZeroHashBuilder};
use flurry_bins::bin::Node;
use flurry_seq::SeqMap;
use flurry_seq_set::SeqSet;
use flurry_seq_set::set_calls::{SetCall, SetReply};
use std::alloc::Global;
use std::process::Abort;

// Returns the set of the numbers from `first` to `end`, without `end`.
fn set_of(rt: &impl Abort, alloc: Global, first: u64, end: u64) -> SeqSet<u64> {
    let mut set = SeqSet::new(alloc);
    insert_all(rt, &mut set, first, end);
    set
}

fn insert_all(rt: &impl Abort, set: &mut SeqSet<u64>, first: u64, end: u64) {
    for element in first..end {
        let _ = set.insert(element).expect(rt, "memory");
    }
}

// Returns whether the first set is a subset of the second one, whether it is a superset of it, and whether they are disjoint.
fn relations(first: &SeqSet<u64>, second: &SeqSet<u64>) -> (bool, bool, bool) {
    (
        first.is_subset(second),
        first.is_superset(second),
        first.is_disjoint(second),
    )
}

#[test]
fn row_21(rt: HostRuntime) {
    let rt = &rt;
    let mut small = set_of(rt, rt.alloc(), 1, 3);
    let large = &set_of(rt, rt.alloc(), 1, 4);
    let other = set_of(rt, rt.alloc(), 4, 5);
    assert_same(rt, relations(&small, large), (true, false, false));
    assert_same(rt, relations(large, &small), (false, true, false));
    assert_same(rt, relations(&small, &other), (false, false, true));
    assert_same(rt, small.insert(1).expect(rt, "memory"), false);
    assert_same(rt, small.take(&1).map(|element| *element), Some(1));
    assert_same(rt, small.len(), 1);
    assert_same(rt, small.contains(&2), true);
}

// The element that was stored first stays.
#[test]
fn stored_elements_stay(rt: HostRuntime) {
    let rt = &rt;
    let mut set: SeqSet<Tagged, ZeroHashBuilder> = SeqSet::with_hasher(rt.alloc(), ZeroHashBuilder);
    let second = &Tagged { id: 1, tag: 20 };
    assert_same(
        rt,
        set.insert(Tagged { id: 1, tag: 10 }).expect(rt, "memory"),
        true,
    );
    assert_same(
        rt,
        !set.insert(Tagged { id: 1, tag: 20 }).expect(rt, "memory"),
        true,
    );
    assert_same(rt, set.get(second).map(|element| element.tag), Some(10));
    assert_same(rt, set.remove(second), true);
    assert_same(rt, set.is_empty(), true);
}

// Inserts a node of an element, which is made under another hash. Returns whether its class is new.
fn insert_node(
    rt: &impl Abort,
    alloc: Global,
    set: &mut SeqSet<u64, LowHashBuilder>,
    element: u64,
) -> bool {
    let node = Node::of_pair(alloc, 77, element, (), 0).expect(rt, "memory");
    set.insert_node(node).expect(rt, "memory")
}

// The set of a map's keys takes elements that are passed as nodes.
#[test]
fn elements_of_maps_and_nodes(rt: HostRuntime) {
    let rt = &rt;
    let pairs = Vec::from_array(rt.alloc(), [(1u64, ()), (2, ())]).expect(rt, "memory");
    let map = SeqMap::from_list(rt.alloc(), pairs, LowHashBuilder).expect(rt, "memory");
    let mut set = SeqSet::from_map(map);
    assert_same(rt, insert_node(rt, rt.alloc(), &mut set, 3), true);
    assert_same(rt, insert_node(rt, rt.alloc(), &mut set, 3), false);
    assert_same(rt, (set.len(), sum_of(&set)), (3, 6));
}

// Returns the id and the tag of the element that is stored after a call of `get_or_insert`.
fn stored(rt: &impl Abort, set: &mut SeqSet<Tagged>, id: u64, tag: u64) -> (u64, u64) {
    let element = set.get_or_insert(Tagged { id, tag }).expect(rt, "memory");
    (element.id, element.tag)
}

// Of equal elements, the one that was stored first is returned each time.
#[test]
fn one_element_for_equal_ones(rt: HostRuntime) {
    let rt = &rt;
    let mut set: SeqSet<Tagged> = SeqSet::new(rt.alloc());
    assert_same(rt, stored(rt, &mut set, 1, 10), (1, 10));
    assert_same(rt, stored(rt, &mut set, 1, 20), (1, 10));
    assert_same(rt, stored(rt, &mut set, 2, 30), (2, 30));
    assert_same(rt, set.len(), 2);
}

#[test]
fn copies_and_what_is_kept(rt: HostRuntime) {
    let rt = &rt;
    let mut set = low_set_of(rt, rt.alloc(), [1, 2, 1, 3]);
    assert_same(rt, set.len(), 3);
    let copy = set.try_clone().expect(rt, "memory");
    assert_same(rt, copy == set, true);
    set.extend(Vec::from_array(rt.alloc(), [3, 4, 5]).expect(rt, "memory"))
        .expect(rt, "memory");
    assert_same(rt, copy != set, true);
    assert_same(rt, sum_of(&set), 15);
    set.retain(|element: &u64| *element < 4);
    assert_same(rt, copy == set, true);
    set.clear();
    assert_same(rt, set.is_empty(), true);
}

// Returns the sum of the elements.
fn sum_of(set: &SeqSet<u64, LowHashBuilder>) -> u64 {
    let mut sum = 0u64;
    for element in set.iter() {
        sum = sum.wrapping_add(**element);
    }
    sum
}

#[test]
fn room_for_elements(rt: HostRuntime) {
    let rt = &rt;
    let mut roomy: SeqSet<u64> = SeqSet::with_capacity(rt.alloc(), 5).expect(rt, "memory");
    roomy.reserve(100).expect(rt, "memory");
    assert_same(rt, roomy.len(), 0);
}

// The function that the calls as values pass to `retain`.
fn is_even(element: &u64) -> bool {
    *element % 2 == 0
}

// Returns the line of one reply.
fn line_of<S: KeyHasher<u64>>(rt: &impl Abort, alloc: Global, reply: &SetReply<u64, S>) -> String {
    match reply {
        SetReply::Element(Some(element)) => line(rt, alloc, "element ", **element),
        SetReply::Element(None) => line(rt, alloc, "no element", ""),
        SetReply::Truth(truth) => line(rt, alloc, "", *truth),
        SetReply::Number(number) => line(rt, alloc, "", *number),
        SetReply::Elements(elements) => {
            let numbers = text_of_numbers(rt, alloc, elements.as_slice());
            line(rt, alloc, "elements", numbers)
        }
        SetReply::Set(set) => line(rt, alloc, "set of ", set.len()),
        SetReply::Done => line(rt, alloc, "done", ""),
    }
}

// Checks the lines of the replies.
fn read_as<S: KeyHasher<u64>>(
    rt: &(impl Abort + AllocGlobal),
    replies: &[SetReply<u64, S>],
    lines: &str,
) {
    let mut text = String::new(rt.alloc());
    for reply in replies {
        text.push_str(line_of(rt, rt.alloc(), reply).as_str())
            .expect(rt, "memory");
    }
    assert_same(rt, text.as_str(), lines);
}

#[test]
fn set_calls_as_values(rt: HostRuntime) {
    let rt = &rt;
    let more = Vec::from_array(rt.alloc(), [2, 3, 4]).expect(rt, "memory");
    let calls = queue_of(
        rt,
        rt.alloc(),
        [
            SetCall::IsEmpty,
            SetCall::Reserve(3),
            SetCall::Insert(1),
            SetCall::Insert(1),
            SetCall::Extend(more),
            SetCall::Contains(3),
            SetCall::Get(5),
            SetCall::Retain(is_even),
            SetCall::Len,
            SetCall::Take(4),
            SetCall::Remove(4),
            SetCall::Clear,
            SetCall::Len,
        ],
    );
    let mut set: SeqSet<u64> = SeqSet::new(rt.alloc());
    let replies = set.run(rt.alloc(), calls).expect(rt, "memory");
    let want =
        "true\ndone\ntrue\nfalse\ndone\ntrue\nno element\ndone\n2\nelement 4\nfalse\ndone\n0\n";
    read_as(rt, replies.as_slice(), want);
}

// Returns the set of the numbers, each in a bin of its own.
fn low_set_of<const N: usize>(
    rt: &impl Abort,
    alloc: Global,
    numbers: [u64; N],
) -> SeqSet<u64, LowHashBuilder> {
    let list = Vec::from_array(alloc, numbers).expect(rt, "memory");
    SeqSet::from_list(alloc, list, LowHashBuilder).expect(rt, "memory")
}

#[test]
fn relations_and_copies_as_values(rt: HostRuntime) {
    let rt = &rt;
    let calls = queue_of(
        rt,
        rt.alloc(),
        [
            SetCall::IsDisjoint(low_set_of(rt, rt.alloc(), [4, 5])),
            SetCall::IsDisjoint(low_set_of(rt, rt.alloc(), [3, 5])),
            SetCall::IsSubset(low_set_of(rt, rt.alloc(), [1, 2, 3, 4])),
            SetCall::IsSuperset(low_set_of(rt, rt.alloc(), [3, 4])),
            SetCall::Elements,
            SetCall::IsSubset(low_set_of(rt, rt.alloc(), [1, 2, 4])),
            SetCall::IsSuperset(low_set_of(rt, rt.alloc(), [3, 1])),
            SetCall::TryClone,
            SetCall::Equals(low_set_of(rt, rt.alloc(), [3, 2, 1])),
            SetCall::Equals(low_set_of(rt, rt.alloc(), [1, 2, 4])),
            SetCall::Retain(is_even),
            SetCall::Len,
        ],
    );
    let mut set = low_set_of(rt, rt.alloc(), [1, 2, 3]);
    let replies = set.run(rt.alloc(), calls).expect(rt, "memory");
    let want =
        "true\nfalse\ntrue\nfalse\nelements 1 2 3\nfalse\ntrue\nset of 3\ntrue\nfalse\ndone\n1\n";
    read_as(rt, replies.as_slice(), want);
}
