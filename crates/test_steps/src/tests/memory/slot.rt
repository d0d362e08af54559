//! Each request of a slot's steps fails in turn.

use super::super::slot::lies_in;
use super::super::{Becomes, metered};
use super::{assert_same, assert_same_at};
use flurry_bins::bin::Bin;
use flurry_bins_slots::{Answer, Computed, Given, Slot};
use metered_alloc::MeteredAlloc;
use std::alloc::{Allocator, Global};
use std::process::Abort;

// A slot of numbers. Its allocator is a parameter, because a proof over `Memory` unfolds it in each step.
type NumberSlot<A> = Slot<u64, u64, A>;

// What happened when one request failed: whether the call made that request, whether the call failed, and the value and the write number at
// the key of the tests afterwards.
type Seen = (bool, bool, Option<(u64, u64)>);

// Returns a live slot of an empty bin, to which the key of the tests belongs.
fn empty_slot<A: Allocator>() -> NumberSlot<A> {
    Slot::live(4, 3, Bin::new())
}

// Returns the value of the key of the tests and its write number, if the bin is live.
fn found<A: Allocator>(rt: &impl Abort, slot: &NumberSlot<A>) -> Option<(u64, u64)> {
    lies_in(rt, slot);
    match slot.find(3, &3) {
        Answer::Here(entry) => entry.map(|entry| (*entry.value, entry.number)),
        _ => None,
    }
}

// A step that sets the value of the key of the tests, whether or not it is present.
#[derive(Clone, Copy)]
enum Write {
    Put(u64),
    Alter(u64),
}

// Does a step that sets the value of the key of the tests while one request fails, and returns what happened.
fn write_at<A: Allocator + Copy>(
    rt: &impl Abort,
    metered: &MeteredAlloc<Global>,
    memory: A,
    slot: &mut NumberSlot<A>,
    k: u64,
    write: Write,
) -> Seen {
    lies_in(rt, slot);
    metered.refuse_at(k);
    let failed = match write {
        Write::Put(value) => slot.put(memory, 3, 3, Given::Plain(value)).is_err(),
        Write::Alter(value) => slot.alter(memory, 3, 3, Becomes(Some(value))).is_err(),
    };
    let refused = metered.was_refused();
    metered.refuse_nothing();
    (refused, failed, found(rt, slot))
}

// Returns a slot in which the key of the tests has the value 10.
fn slot_of_ten<A: Allocator + Copy>(
    rt: &impl Abort,
    metered: &MeteredAlloc<Global>,
    memory: A,
) -> NumberSlot<A> {
    let mut slot = empty_slot();
    let seen = write_at(rt, metered, memory, &mut slot, u64::MAX, Write::Put(10));
    assert_same(rt, seen, (false, false, Some((10, 1))));
    slot
}

// Does a step that sets the value 10 of a new key once for each of its requests: for the key, the value and the node.
fn writes_a_new_key<A: Allocator + Copy>(
    rt: &impl Abort,
    metered: &MeteredAlloc<Global>,
    memory: A,
    write: Write,
) {
    for k in 0..4u64 {
        let refused = k < 3;
        let stands = if refused { None } else { Some((10, 1)) };
        let seen = write_at(rt, metered, memory, &mut empty_slot(), k, write);
        assert_same_at(rt, k, seen, (refused, refused, stands));
        assert_same_at(rt, k, metered.live_blocks(), 0);
    }
}

#[test]
fn writes_of_a_new_key(rt: HostRuntime) {
    let memory = metered(&rt, rt.alloc());
    for write in [Write::Put(10), Write::Alter(10)] {
        writes_a_new_key(&rt, memory, memory, write);
    }
}

// Does a step that sets the value 11 of a present key once for each of its requests: for the value alone.
fn writes_a_present_key<A: Allocator + Copy>(
    rt: &impl Abort,
    metered: &MeteredAlloc<Global>,
    memory: A,
    write: Write,
) {
    for k in 0..2u64 {
        let refused = k < 1;
        let stands = if refused { (10, 1) } else { (11, 2) };
        let mut slot = slot_of_ten(rt, metered, memory);
        let seen = write_at(rt, metered, memory, &mut slot, k, write);
        assert_same_at(rt, k, seen, (refused, refused, Some(stands)));
        drop(slot);
        assert_same_at(rt, k, metered.live_blocks(), 0);
    }
}

#[test]
fn writes_of_a_present_key(rt: HostRuntime) {
    let memory = metered(&rt, rt.alloc());
    for write in [Write::Put(11), Write::Alter(11)] {
        writes_a_present_key(&rt, memory, memory, write);
    }
}

// Adds a value at the key of the tests while one request fails, and returns what happened.
fn add_at<A: Allocator + Copy>(
    rt: &impl Abort,
    metered: &MeteredAlloc<Global>,
    memory: A,
    slot: &mut NumberSlot<A>,
    (k, value): (u64, u64),
) -> Seen {
    lies_in(rt, slot);
    metered.refuse_at(k);
    let failed = slot.put_absent(memory, 3, 3, value).is_err();
    let refused = metered.was_refused();
    metered.refuse_nothing();
    (refused, failed, found(rt, slot))
}

// Adds the value 10 at a new key while one request fails, and where it is added, another one.
fn adds_at<A: Allocator + Copy>(
    rt: &impl Abort,
    metered: &MeteredAlloc<Global>,
    memory: A,
    k: u64,
) {
    let mut slot = empty_slot();
    let refused = k < 3;
    let stands = if refused { None } else { Some((10, 1)) };
    let seen = add_at(rt, metered, memory, &mut slot, (k, 10));
    assert_same_at(rt, k, seen, (refused, refused, stands));
    if !refused {
        // Not even a first request is made.
        let seen = add_at(rt, metered, memory, &mut slot, (0, 11));
        assert_same_at(rt, k, seen, (false, false, stands));
    }
}

// At a present key, an addition makes no request to the allocator: cloning the value's `Arc` fails only at a count of about 2^63.
#[test]
fn put_absent(rt: HostRuntime) {
    let rt = &rt;
    let memory = metered(rt, rt.alloc());
    for k in 0..4u64 {
        adds_at(rt, memory, memory, k);
        assert_same_at(rt, k, memory.live_blocks(), 0);
    }
}

// Halves the value of the key of the tests while one request fails, and returns what happened.
fn halve_at<A: Allocator + Copy>(
    rt: &impl Abort,
    metered: &MeteredAlloc<Global>,
    memory: A,
    slot: &mut NumberSlot<A>,
    k: u64,
) -> Seen {
    lies_in(rt, slot);
    metered.refuse_at(k);
    let answer = slot.compute(memory, 3, &3, |_: &u64, value: &u64| Some(*value / 2));
    let failed = answer.is_err();
    drop(answer);
    let refused = metered.was_refused();
    metered.refuse_nothing();
    (refused, failed, found(rt, slot))
}

// Returns whether a function that returns `None` removed the key of the tests while every request fails.
fn is_removed<A: Allocator + Copy>(
    rt: &impl Abort,
    metered: &MeteredAlloc<Global>,
    memory: A,
    slot: &mut NumberSlot<A>,
) -> bool {
    lies_in(rt, slot);
    metered.refuse_from(0);
    let answer = slot.compute(memory, 3, &3, |_: &u64, _: &u64| None);
    metered.refuse_nothing();
    let is_removed = matches!(&answer, Ok(Answer::Here(Computed::Removed(_))));
    drop(answer);
    is_removed
}

// Returns whether a function was not called because the key of the tests is absent, while every request fails.
fn is_absent<A: Allocator + Copy>(
    rt: &impl Abort,
    metered: &MeteredAlloc<Global>,
    memory: A,
    slot: &mut NumberSlot<A>,
) -> bool {
    lies_in(rt, slot);
    metered.refuse_from(0);
    let answer = slot.compute(memory, 3, &3, |_: &u64, _: &u64| Some(0));
    metered.refuse_nothing();
    let is_absent = matches!(&answer, Ok(Answer::Here(Computed::Absent(_))));
    drop(answer);
    is_absent
}

// Halves the value 10 while one request fails, removes the pair, and computes at the key once more.
fn computes_at<A: Allocator + Copy>(
    rt: &impl Abort,
    metered: &MeteredAlloc<Global>,
    memory: A,
    k: u64,
) {
    let mut slot = slot_of_ten(rt, metered, memory);
    let refused = k < 1;
    let stands = if refused { (10, 1) } else { (5, 2) };
    let seen = halve_at(rt, metered, memory, &mut slot, k);
    assert_same_at(rt, k, seen, (refused, refused, Some(stands)));
    assert_same_at(rt, k, is_removed(rt, metered, memory, &mut slot), true);
    assert_same_at(rt, k, is_absent(rt, metered, memory, &mut slot), true)
}

// A computed value makes a request for its memory. A function that returns `None` makes none, and for an absent key the function is not
// called.
#[test]
fn compute(rt: HostRuntime) {
    let rt = &rt;
    let memory = metered(rt, rt.alloc());
    for k in 0..2u64 {
        computes_at(rt, memory, memory, k);
        assert_same_at(rt, k, memory.live_blocks(), 0);
    }
}

// Does the steps of a slot that are not those above.
fn does_other_steps<A: Allocator + Copy>(
    rt: &impl Abort,
    metered: &MeteredAlloc<Global>,
    memory: A,
) {
    let mut slot: NumberSlot<A> = Slot::live(4, 3, Bin::new());
    let first = slot.put(memory, 3, 3, Given::Plain(10));
    drop(first.ok().expect(rt, "memory"));
    let second = slot.put(memory, 19, 19, Given::Plain(11));
    drop(second.ok().expect(rt, "memory"));
    metered.refuse_from(0);
    let mut low: NumberSlot<A> = Slot::unborn(5, 3);
    let mut high: NumberSlot<A> = Slot::unborn(5, 19);
    drop(slot.take_if(19, &19, 1));
    drop(slot.next_after(None));
    drop(slot.move_into(&mut low, &mut high));
    drop(low.take(3, &3));
    drop(high.wipe());
    drop(slot);
    drop(low);
    drop(high);
}

#[test]
fn the_other_steps_ask_for_nothing(rt: HostRuntime) {
    let rt = &rt;
    let memory = metered(rt, rt.alloc());
    does_other_steps(rt, memory, memory);
    assert_same(rt, (memory.requests(), memory.live_blocks()), (0, 0));
}
