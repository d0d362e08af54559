//! Each kind of call, driven over both fields, with its reply and the map after it.

use super::super::Becomes;
use super::{Close, Do, assert_same, closes_with, over_a_published_table, over_own_parts};
use flurry_base::reply::KeptReply;
use flurry_bins_slots::ComputeFn;
use flurry_steps::party::OwnedCall;

// Adds 2 to a value, or removes the pair if the result would be 10 or more.
fn two_more(value: u64) -> Option<u64> {
    value.checked_add(2).filter(|sum| *sum < 10)
}

#[test]
fn each_call_over_own_parts(rt: HostRuntime) {
    let rows = each_call(|_key: &u64, value: &u64| two_more(*value));
    assert_same(&rt, over_own_parts(&rt, rt.alloc(), &rows).0, 0);
}

#[test]
fn each_call_beside_a_published_table(rt: HostRuntime) {
    let rows = each_call(|_key: &u64, value: &u64| two_more(*value));
    over_a_published_table(&rt, rt.alloc(), &rows);
}

#[test]
fn each_alteration_over_own_parts(rt: HostRuntime) {
    assert_same(
        &rt,
        over_own_parts(&rt, rt.alloc(), &each_alteration()).0,
        0,
    );
}

#[test]
fn each_alteration_beside_a_published_table(rt: HostRuntime) {
    over_a_published_table(&rt, rt.alloc(), &each_alteration());
}

// Returns both kinds of alteration, at absent and at present keys, on an empty map.
fn each_alteration() -> [Do<Becomes>; 11] {
    let absent = Close::Reply(KeptReply::Contains(false));
    let new = Close::Reply(KeptReply::New(5));
    let six = Close::Reply(KeptReply::Changed { new: 6, old: 5 });
    let seven = Close::Reply(KeptReply::Changed { new: 7, old: 6 });
    let had_seven = Close::Reply(KeptReply::Pair(Some((3, 7))));
    let had_five = Close::Reply(KeptReply::Pair(Some((3, 5))));
    [
        Do::Call(OwnedCall::AlterPresent(3, Becomes(Some(5))), absent),
        Do::Call(OwnedCall::Alter(3, Becomes(None)), absent),
        Do::Call(OwnedCall::Alter(3, Becomes(Some(5))), new),
        Do::Call(OwnedCall::Alter(3, Becomes(Some(6))), six),
        Do::Call(OwnedCall::AlterPresent(3, Becomes(Some(7))), seven),
        Do::Call(OwnedCall::AlterPresent(19, Becomes(Some(7))), absent),
        Do::Call(OwnedCall::Get(3), closes_with(Some(7))),
        Do::Call(OwnedCall::AlterPresent(3, Becomes(None)), had_seven),
        Do::Call(OwnedCall::Alter(3, Becomes(Some(5))), new),
        Do::Call(OwnedCall::Alter(3, Becomes(None)), had_five),
        Do::Call(OwnedCall::Get(3), closes_with(None)),
    ]
}

// Returns each of the other kinds of call, on an empty map.
fn each_call<F: ComputeFn<u64, u64> + Copy>(change: F) -> [Do<F>; 22] {
    let no_pair = Close::Reply(KeptReply::Pair(None));
    let absent = Close::Reply(KeptReply::Contains(false));
    let present = Close::Reply(KeptReply::Contains(true));
    let exists = Close::Reply(KeptReply::Exists {
        current: 6,
        not_inserted: 9,
    });
    let new = Close::Reply(KeptReply::New(7));
    let three = Close::Reply(KeptReply::Pair(Some((3, 8))));
    let nineteen = Close::Reply(KeptReply::Pair(Some((19, 7))));
    [
        // No call finds the key 3, and none of these calls inserts it.
        Do::Call(OwnedCall::Compute(3, change), closes_with(None)),
        Do::Call(OwnedCall::Remove(3), closes_with(None)),
        Do::Call(OwnedCall::RemoveEntry(3), no_pair),
        Do::Call(OwnedCall::ContainsKey(3), absent),
        Do::Call(OwnedCall::GetKeyValue(3), no_pair),
        Do::Call(OwnedCall::Get(3), closes_with(None)),
        // Afterwards, the keys 3 and 19, which share a bin of 16, have the values 8 and 7.
        Do::Call(OwnedCall::Insert(3, 5), closes_with(None)),
        Do::Call(OwnedCall::Insert(3, 6), closes_with(Some(5))),
        Do::Call(OwnedCall::TryInsert(3, 9), exists),
        Do::Call(OwnedCall::TryInsert(19, 7), new),
        Do::Call(OwnedCall::Compute(3, change), closes_with(Some(8))),
        Do::Call(OwnedCall::Reserve(40), Close::End),
        Do::Call(OwnedCall::GetKeyValue(3), three),
        Do::Call(OwnedCall::Get(19), closes_with(Some(7))),
        // Both keys are removed again, one of them by its function.
        Do::Call(OwnedCall::Compute(3, change), closes_with(None)),
        Do::Call(OwnedCall::ContainsKey(3), absent),
        Do::Call(OwnedCall::ContainsKey(19), present),
        Do::Call(OwnedCall::RemoveEntry(19), nineteen),
        Do::Call(OwnedCall::Get(19), closes_with(None)),
        Do::Call(OwnedCall::Insert(19, 1), closes_with(None)),
        Do::Call(OwnedCall::Remove(19), closes_with(Some(1))),
        Do::Call(OwnedCall::Get(19), closes_with(None)),
    ]
}
