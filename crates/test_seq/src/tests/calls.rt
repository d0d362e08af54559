//! The calls that no row names, and calls as values.

use super::steps::{Step, run, three_pairs};
use super::{assert_same, assert_same_at, lent, queue_of, taken};
use flurry_base::hash::LowHashBuilder;
use flurry_bins::bin::{Ordered, Shape};
use flurry_seq::SeqMap;
use flurry_seq::calls::{Call, Reply};
use std::alloc::Global;
use std::cell::Cell;
use std::fmt::Display;
use std::process::Abort;
use std::sync::Arc;

#[test]
fn insertions_at_an_absent_and_a_present_key(rt: HostRuntime) {
    let steps = [
        Step::TryInsert(4, 40, None),
        Step::TryInsert(4, 41, Some(40)),
        Step::Len(4),
    ];
    run(&rt, &mut three_pairs(&rt, rt.alloc()), &steps);
}

#[test]
fn calls_of_a_present_and_an_absent_key(rt: HostRuntime) {
    let rt = &rt;
    let mut map = three_pairs(rt, rt.alloc());
    let steps = [
        Step::Contains(2, true),
        Step::Contains(4, false),
        Step::HasPair(4, false),
        Step::Insert(4, 40, None),
    ];
    run(rt, &mut map, &steps);
    let present = map.compute_if_present(&4, |key, value| Some(*value % 7 + *key % 7));
    assert_same(rt, taken(present.expect(rt, "memory")), Some(9));
    let steps = [
        Step::ComputeSame(5, None, 0),
        Step::Remove(4, Some(9)),
        Step::RemovePair(4, false),
        Step::Len(3),
    ];
    run(rt, &mut map, &steps);
}

// Returns the values of the keys below 4, where 0 stands for no value.
fn values_of(map: &SeqMap<u64, u64, LowHashBuilder>) -> [u64; 4] {
    let mut values = [0; 4];
    for (key, value) in map.iter() {
        values[(**key % 4) as usize] = **value;
    }
    values
}

#[test]
fn pairs_keys_and_values(rt: HostRuntime) {
    let rt = &rt;
    let map = &three_pairs(rt, rt.alloc());
    assert_same(rt, values_of(map), [0, 10, 20, 30]);
    assert_same(rt, lent(map.keys().max()), Some(3));
    assert_same(rt, lent(map.values().min()), Some(10));
}

#[test]
fn equality(rt: HostRuntime) {
    let rt = &rt;
    let map = three_pairs(rt, rt.alloc());
    let made = SeqMap::with_capacity_and_hasher(rt.alloc(), 100, LowHashBuilder);
    let mut other = made.expect(rt, "memory");
    assert_same(rt, map != other, true);
    let list = Vec::from_array(rt.alloc(), [(3, 30), (1, 11), (2, 20)]).expect(rt, "memory");
    other.extend(list).expect(rt, "memory");
    assert_same(rt, map != other, true);
    run(rt, &mut other, &[Step::Insert(1, 10, Some(11))]);
    assert_same(rt, map == other, true);
}

#[test]
fn clear_and_into_bins(rt: HostRuntime) {
    let rt = &rt;
    let mut map = three_pairs(rt, rt.alloc());
    let steps = [
        Step::Clear,
        Step::IsEmpty(true),
        Step::Bins(8),
        Step::InsertNew(0, 2),
    ];
    run(rt, &mut map, &steps);
    let (bins, _) = map.into_bins();
    assert_eq!(rt; bins.len(), 8);
    assert_same(rt, bins[1].shape(), Shape::List(1));
    assert_same(rt, bins[2].len(), 0);
}

// The function that the calls as values pass to `compute_if_present`.
fn up_to_nine(_key: &u64, value: &u64) -> Option<u64> {
    if *value < 9 { Some(*value + 1) } else { None }
}

// The function that the calls as values pass to `retain` and `retain_force`.
fn is_nine_or_more(_key: &u64, value: &u64) -> bool {
    *value >= 9
}

// Returns the text of the pairs, in their order.
fn text_of_pairs(rt: &impl Abort, alloc: Global, pairs: &[(Arc<u64>, Arc<u64>)]) -> String {
    let mut text = String::new(alloc);
    for (key, value) in pairs {
        let pair = format!(in alloc; " {} {}", **key, **value).expect(rt, "memory");
        text.push_str(pair.as_str()).expect(rt, "memory");
    }
    text
}

// Returns the text of the numbers, in their order.
pub(super) fn text_of_numbers(rt: &impl Abort, alloc: Global, numbers: &[Arc<u64>]) -> String {
    let mut text = String::new(alloc);
    for number in numbers {
        let word = format!(in alloc; " {}", **number).expect(rt, "memory");
        text.push_str(word.as_str()).expect(rt, "memory");
    }
    text
}

// Returns a line of two parts.
pub(super) fn line(
    rt: &impl Abort,
    alloc: Global,
    name: &str,
    reply_for: impl Display + Drop,
) -> String {
    format!(in alloc; "{name}{reply_for}\n").expect(rt, "memory")
}

// Returns the line of one reply.
fn line_of(rt: &impl Abort, alloc: Global, reply: &Reply<u64, u64, LowHashBuilder>) -> String {
    match reply {
        Reply::Value(Some(value)) => line(rt, alloc, "value ", **value),
        Reply::Value(None) => line(rt, alloc, "no value", ""),
        Reply::Pair(Some((key, value))) => {
            format!(in alloc; "pair {} {}\n", **key, **value).expect(rt, "memory")
        }
        Reply::Pair(None) => line(rt, alloc, "no pair", ""),
        Reply::Truth(truth) => line(rt, alloc, "", *truth),
        Reply::New(value) => line(rt, alloc, "new ", **value),
        Reply::Exists(error) => line(rt, alloc, "", error),
        Reply::Number(number) => line(rt, alloc, "", *number),
        Reply::Shape(shape) => format!(in alloc; "{shape:?}\n").expect(rt, "memory"),
        Reply::Pairs(pairs) => {
            let pairs = text_of_pairs(rt, alloc, pairs.as_slice());
            line(rt, alloc, "pairs", pairs)
        }
        Reply::Keys(keys) => {
            let keys = text_of_numbers(rt, alloc, keys.as_slice());
            line(rt, alloc, "keys", keys)
        }
        Reply::Values(values) => {
            let values = text_of_numbers(rt, alloc, values.as_slice());
            line(rt, alloc, "values", values)
        }
        Reply::Map(map) => line(rt, alloc, "map of ", map.len()),
        Reply::Done => line(rt, alloc, "done", ""),
    }
}

// Returns one line for each reply.
fn text_of(rt: &impl Abort, alloc: Global, replies: &[Reply<u64, u64, LowHashBuilder>]) -> String {
    let mut text = String::new(alloc);
    for reply in replies {
        let line = line_of(rt, alloc, reply);
        text.push_str(line.as_str()).expect(rt, "memory");
    }
    text
}

// Checks the lines of the replies.
fn read_as(
    rt: &(impl Abort + AllocGlobal),
    replies: &[Reply<u64, u64, LowHashBuilder>],
    lines: &str,
) {
    assert_same(rt, text_of(rt, rt.alloc(), replies).as_str(), lines);
}

#[test]
fn calls_as_values(rt: HostRuntime) {
    let rt = &rt;
    let calls = queue_of(
        rt,
        rt.alloc(),
        [
            Call::IsEmpty,
            Call::Insert(7, 8),
            Call::TryInsert(7, 1),
            Call::TryInsert(8, 2),
            Call::ComputeIfPresent(7, up_to_nine),
            Call::ComputeIfPresent(7, up_to_nine),
            Call::Get(7),
            Call::Get(8),
            Call::GetKeyValue(8),
            Call::ContainsKey(8),
            Call::Len,
            Call::Capacity,
            Call::Retain(is_nine_or_more),
            Call::Len,
        ],
    );
    let mut map: SeqMap<u64, u64, LowHashBuilder> = SeqMap::with_hasher(rt.alloc(), LowHashBuilder);
    let replies = map.run(rt.alloc(), calls).expect(rt, "memory");
    let want =
        "true\nno value\nInsert of \"1\" failed as key was already present with value \"8\"\nnew 2\nvalue 9\nno value\n\
        no value\nvalue 2\npair 8 2\ntrue\n1\n16\ndone\n0\n";
    read_as(rt, replies.as_slice(), want);
}

// Makes a call as a value that computes the value that a key has, and returns how often the function is called.
fn times_computed(rt: &impl Abort, map: &mut SeqMap<u64, u64, LowHashBuilder>, key: u64) -> u64 {
    let times = Cell::new(0u64);
    let keep = |_: &u64, value: &u64| {
        times.set(times.get().wrapping_add(1));
        Some(*value)
    };
    for call in [
        Call::ComputeIfPresent(key, keep),
        Call::RetainForce(is_nine_or_more),
    ] {
        let _ = map.call(call).expect(rt, "memory");
    }
    times.get()
}

// A call as a value that computes calls its function once if the key is present, and on no pair if it is absent.
#[test]
fn computes_at_a_present_key_alone(rt: HostRuntime) {
    let rt = &rt;
    let mut map = three_pairs(rt, rt.alloc());
    assert_same_at(rt, 3, times_computed(rt, &mut map, 3), 1);
    assert_same_at(rt, 4, times_computed(rt, &mut map, 4), 0);
    assert_same(rt, map.len(), 3);
}

// Makes a call as a value that computes by a function, and one that keeps pairs by a function.
fn call_by_functions(rt: &impl Abort, map: &mut SeqMap<u64, u64, LowHashBuilder>, key: u64) {
    for call in [
        Call::ComputeIfPresent(key, up_to_nine),
        Call::RetainForce(is_nine_or_more),
    ] {
        let _ = map.call(call).expect(rt, "memory");
    }
}

#[test]
fn one_call_as_a_value(rt: HostRuntime) {
    let rt = &rt;
    let mut map = three_pairs(rt, rt.alloc());
    run(rt, &mut map, &[Step::Insert(3, 8, Some(30))]);
    call_by_functions(rt, &mut map, 3);
    run(rt, &mut map, &[Step::Get(3, Some(9)), Step::Len(3)]);
}

#[test]
fn removing_calls_as_values(rt: HostRuntime) {
    let rt = &rt;
    let more = Vec::from_array(rt.alloc(), [(5, 50)]).expect(rt, "memory");
    let calls = queue_of(
        rt,
        rt.alloc(),
        [
            Call::Remove(1),
            Call::RemoveEntry(2),
            Call::RemoveEntry(2),
            Call::Clear,
            Call::Len,
            Call::Reserve(32),
            Call::Capacity,
            Call::Extend(more),
            Call::Get(5),
            Call::RetainForce(is_nine_or_more),
            Call::ComputeIfPresent(6, up_to_nine),
        ],
    );
    let mut map = three_pairs(rt, rt.alloc());
    let replies = map.run(rt.alloc(), calls).expect(rt, "memory");
    let want = "value 10\npair 2 20\nno pair\ndone\n0\ndone\n128\ndone\nvalue 50\ndone\nno value\n";
    read_as(rt, replies.as_slice(), want);
    assert_same(rt, lent(map.get(&5)), Some(50));
}

// Returns the map of three pairs, in which the key 3 has another value.
fn three_other_pairs(rt: &(impl Abort + AllocGlobal)) -> SeqMap<u64, u64, LowHashBuilder> {
    let mut map = three_pairs(rt, rt.alloc());
    run(rt, &mut map, &[Step::Insert(3, 8, Some(30))]);
    map
}

// Asserts that a reply is a map of the three pairs.
fn is_three_pairs(
    rt: &(impl Abort + AllocGlobal),
    reply: Option<&Reply<u64, u64, LowHashBuilder>>,
) {
    let Some(Reply::Map(copy)) = reply else {
        panic!(rt; "the reply is a map");
    };
    assert_same(rt, *copy == three_pairs(rt, rt.alloc()), true);
}

#[test]
fn reading_calls_as_values(rt: HostRuntime) {
    let rt = &rt;
    let calls = queue_of(
        rt,
        rt.alloc(),
        [
            Call::ShapeOf(9),
            Call::ShapeOf(4),
            Call::Pairs,
            Call::Keys,
            Call::Values,
            Call::Equals(three_pairs(rt, rt.alloc())),
            Call::Equals(three_other_pairs(rt)),
            Call::TryClone,
            Call::Remove(2),
            Call::Len,
            Call::Retain(is_nine_or_more),
            Call::ComputeIfPresent(4, up_to_nine),
        ],
    );
    let mut map = three_pairs(rt, rt.alloc());
    let replies = map.run(rt.alloc(), calls).expect(rt, "memory");
    let want =
        "List(1)\nEmpty\npairs 1 10 2 20 3 30\nkeys 1 2 3\nvalues 10 20 30\ntrue\nfalse\nmap of 3\nvalue 20\n2\ndone\nno value\n";
    read_as(rt, replies.as_slice(), want);
    is_three_pairs(rt, replies.get(7));
}
