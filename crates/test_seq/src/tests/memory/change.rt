//! Calls that change a pair by a function. By the bound on it, a function is called at most once.

use super::{
    NumberMap, Refused, adds, assert_same, assert_same_at, map_of, metered, number_at, refuse_each,
    size_of, taken,
};
use flurry_base::Change;
use flurry_base::hash::LowHashBuilder;
use metered_alloc::MeteredAlloc;
use std::alloc::{Allocator, Global};
use std::process::Abort;
use std::sync::Arc;

// A call at the key 7, with what its function returns. A value that is passed in is 9.
#[derive(Clone, Copy)]
enum Write {
    Compute(Option<u64>),
    Merge(Option<u64>),
    Update(u64),
    GetOrInsertWith(u64),
    RemoveIf(bool),
    ReplaceIf(bool),
}

// Notes that a function was called, and returns what the function is to return.
fn note<T>(called: &mut bool, answer: T) -> T {
    *called = true;
    answer
}

// Returns the number in a change.
fn changed<A: Allocator>(change: Change<u64, A>) -> Option<u64> {
    match change {
        Change::Absent => None,
        Change::Added(number) | Change::Changed(number) | Change::Removed(number) => Some(*number),
    }
}

// Returns the number that was replaced, or the one that came back.
fn replaced<A: Allocator>(answer: Result<Arc<u64, A>, u64>) -> Option<u64> {
    match answer {
        Ok(old) => Some(*old),
        Err(value) => Some(value),
    }
}

// Makes a call. Returns whether its function was called, and the number that was returned, or `None` if the call failed.
fn reply_of<A: Allocator + Copy>(
    map: &mut NumberMap<LowHashBuilder, A>,
    call: Write,
) -> (bool, Option<Option<u64>>) {
    let mut called = false;
    let answer = match call {
        Write::Compute(answer) => {
            let change = map.compute(7, |_, _| note(&mut called, answer));
            change.map(changed).ok()
        }
        Write::Merge(answer) => {
            let change = map.merge(7, 9, |_, _| note(&mut called, answer));
            change.map(changed).ok()
        }
        Write::Update(answer) => {
            let new = map.update(&7, |_, _| note(&mut called, answer));
            new.map(taken).ok()
        }
        Write::GetOrInsertWith(answer) => {
            let value = map.get_or_insert_with(7, |_| note(&mut called, answer));
            value.map(|value| Some(*value)).ok()
        }
        Write::RemoveIf(answer) => {
            let old = map.remove_if(&7, |_, _| note(&mut called, answer));
            Some(taken(old))
        }
        Write::ReplaceIf(answer) => {
            let reply = map.replace_if(&7, |_, _| note(&mut called, answer), 9);
            reply.map(replaced).ok()
        }
    };
    (called, answer)
}

// A call, and the value of its key before it. Then whether its function is called, what the call returns, and the value after it.
#[derive(Clone, Copy)]
struct Row(Write, Option<u64>, bool, Option<u64>, Option<u64>);

// Returns the map of the key 7, or of none.
fn map_before<A: Allocator + Copy>(
    rt: &impl Abort,
    memory: A,
    value: Option<u64>,
) -> NumberMap<LowHashBuilder, A> {
    let mut map = map_of(rt, memory, 0);
    if let Some(value) = value {
        adds(rt, &mut map, 7, value);
    }
    map
}

impl Refused for Row {
    fn run_refusing<A: Allocator + Copy>(
        &self,
        rt: &impl Abort,
        metered: &MeteredAlloc<Global>,
        memory: A,
        k: u64,
    ) -> bool {
        let Row(call, value, called, answer, after) = *self;
        let mut map = map_before(rt, memory, value);
        let before = (size_of(&map), metered.live_blocks());
        metered.refuse_at(k);
        let seen = reply_of(&mut map, call);
        let refused = metered.was_refused();
        metered.refuse_nothing();
        if refused {
            assert_same_at(rt, k, (seen, number_at(&map, 7)), ((called, None), value));
            assert_same_at(rt, k, (size_of(&map), metered.live_blocks()), before);
        } else {
            let wanted = ((called, Some(answer)), after);
            assert_same_at(rt, k, (seen, number_at(&map, 7)), wanted);
        }
        refused
    }
}

#[test]
fn each_request_of_a_call(rt: HostRuntime) {
    for row in [
        Row(Write::Compute(Some(8)), None, true, Some(8), Some(8)),
        Row(Write::Compute(Some(8)), Some(0), true, Some(8), Some(8)),
        Row(Write::Merge(Some(8)), None, false, Some(9), Some(9)),
        Row(Write::Merge(Some(8)), Some(0), true, Some(8), Some(8)),
        Row(Write::Update(8), Some(0), true, Some(8), Some(8)),
        Row(Write::GetOrInsertWith(8), None, true, Some(8), Some(8)),
        Row(Write::ReplaceIf(true), Some(0), true, Some(0), Some(9)),
    ] {
        refuse_each(&rt, rt.alloc(), &row);
    }
}

// Makes the call of a row, which requests nothing.
fn requests_nothing<A: Allocator + Copy>(
    rt: &impl Abort,
    metered: &MeteredAlloc<Global>,
    memory: A,
    row: Row,
) {
    let Row(call, value, called, answer, after) = row;
    let mut map = map_before(rt, memory, value);
    metered.refuse_from(0);
    let seen = reply_of(&mut map, call);
    let asked = metered.requests();
    metered.refuse_nothing();
    let wanted = (0, (called, Some(answer)), after);
    assert_same(rt, (asked, seen, number_at(&map, 7)), wanted);
}

#[test]
fn calls_that_request_nothing(rt: HostRuntime) {
    let memory = metered(&rt, rt.alloc());
    for row in [
        Row(Write::Compute(None), None, true, None, None),
        Row(Write::Compute(None), Some(0), true, Some(0), None),
        Row(Write::Merge(None), Some(0), true, Some(0), None),
        Row(Write::Update(8), None, false, None, None),
        Row(Write::GetOrInsertWith(8), Some(0), false, Some(0), Some(0)),
        Row(Write::RemoveIf(true), None, false, None, None),
        Row(Write::RemoveIf(true), Some(0), true, Some(0), None),
        Row(Write::RemoveIf(false), Some(0), true, None, Some(0)),
        Row(Write::ReplaceIf(true), None, false, Some(9), None),
        Row(Write::ReplaceIf(false), Some(0), true, Some(9), Some(0)),
    ] {
        requests_nothing(&rt, memory, memory, row);
    }
}
