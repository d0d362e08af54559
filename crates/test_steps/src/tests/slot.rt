//! Slots: how often a computation calls its function, and bins that have one owner again.
ghost use Rattle.flurry_bins_slots.specs.Slot.{LiesInBin};

use super::assert_same;
use flurry_base::sizes::bin_index;
use flurry_bins::bin::{Bin, Ordered};
use flurry_bins_slots::{Answer, Given, MoveAnswer, Slot};
use std::alloc::Allocator;
use std::cell::Cell;
use std::process::Abort;

// Asserts that the hash of the tests lies in the region of the slot.
pub(super) fn lies_in<A: Allocator>(rt: &impl Abort, slot: &Slot<u64, u64, A>)
    ensures { LiesInBin 3 slot.now }
{
    let (table, index) = slot.at();
    assert!(rt; bin_index(3, table) == index);
}

// Writes the value of a key, if the bin is live.
fn put(rt: &(impl Abort + AllocGlobal), slot: &mut Slot<u64, u64>, key: u64, value: u64) {
    lies_in(rt, slot);
    let answer = slot
        .put(rt.alloc(), 3, key, Given::Plain(value))
        .ok()
        .expect(rt, "memory for the pair");
    assert_same(rt, matches!(&answer, Answer::Here(_)), true);
}

// Returns the value of a key and its write number, if the bin is live.
fn find(rt: &impl Abort, slot: &Slot<u64, u64>, key: u64) -> Option<(u64, u64)> {
    lies_in(rt, slot);
    match slot.find(3, &key) {
        Answer::Here(entry) => entry.map(|entry| (*entry.value, entry.number)),
        _ => panic!(rt; "the bin is live"),
    }
}

// Returns how often a computation at a key calls its function.
fn calls_at(rt: &(impl Abort + AllocGlobal), slot: &mut Slot<u64, u64>, key: u64) -> u64 {
    let calls = Cell::new(0u64);
    lies_in(rt, slot);
    let answer = slot.compute(rt.alloc(), 3, &key, |_: &u64, value: &u64| {
        calls.set(calls.get().saturating_add(1));
        Some(*value)
    });
    drop(answer);
    calls.get()
}

#[test]
fn function_is_called_at_a_present_key_alone(rt: HostRuntime) {
    let rt = &rt;
    let mut slot: Slot<u64, u64> = Slot::live(4, 3, Bin::new());
    assert_same(rt, calls_at(rt, &mut slot, 3), 0);
    put(rt, &mut slot, 19, 10);
    assert_same(rt, calls_at(rt, &mut slot, 3), 0);
    assert_same(rt, calls_at(rt, &mut slot, 19), 1);
}

#[test]
fn function_is_not_called_where_no_bin_is(rt: HostRuntime) {
    let mut slot: Slot<u64, u64> = Slot::unborn(4, 3);
    assert_same(&rt, calls_at(&rt, &mut slot, 3), 0);
}

// Takes the bin out of a slot, and puts it into another slot at the same place.
fn owned_again(slot: Slot<u64, u64>) -> Option<Slot<u64, u64>> {
    let (table, index) = slot.at();
    let bin = slot.into_bin()?;
    Some(Slot::live(table, index, bin))
}

#[test]
fn a_live_bin_is_owned_again(rt: HostRuntime) {
    let rt = &rt;
    let mut slot: Slot<u64, u64> = Slot::live(4, 3, Bin::new());
    put(rt, &mut slot, 3, 10);
    put(rt, &mut slot, 19, 11);
    put(rt, &mut slot, 3, 12);
    let mut slot = owned_again(slot).expect(rt, "the bin is live");
    assert_same(rt, find(rt, &slot, 3), Some((12, 3)));
    assert_same(rt, find(rt, &slot, 19), Some((11, 2)));
    put(rt, &mut slot, 19, 13);
    assert_same(rt, find(rt, &slot, 19), Some((13, 4)));
}

#[test]
fn other_slots_have_no_bin_to_give(rt: HostRuntime) {
    let rt = &rt;
    let mut slot: Slot<u64, u64> = Slot::live(4, 3, Bin::new());
    let mut low: Slot<u64, u64> = Slot::unborn(5, 3);
    let mut high: Slot<u64, u64> = Slot::unborn(5, 19);
    let done = matches!(slot.move_into(&mut low, &mut high), MoveAnswer::Done(_));
    assert_same(rt, done, true);
    assert_same(rt, slot.into_bin().is_none(), true);
    assert_same(rt, low.into_bin().map(|bin| bin.len()), Some(0));
    let other: Slot<u64, u64> = Slot::unborn(4, 3);
    assert_same(rt, other.into_bin().is_none(), true);
}
