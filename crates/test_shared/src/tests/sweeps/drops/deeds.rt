//! Calls of a view that drop a key, a value or a function.

use super::{Guest, GuestsRef};
use flurry_shared::iter::Iter;
use std::alloc::Allocator;
use std::sync::Wait;

// What is done while a key or a value has a meeting.
#[derive(Clone, Copy, Debug, PartialEq, Eq)]
pub(super) enum Deed {
    Clear,
    Replace,
    Erase,
    Compute,
    ComputeHere,
    Merge,
    Update,
    UpdateNowhere,
    RemoveIf,
    RemoveNowhere,
    ReplaceIf,
    ReplaceNothing,
    ReplaceNowhere,
    ComputeNowhere,
    Remove,
    RemoveSeen,
    Insert,
    InsertNew,
    TryInsert,
    TryInsertNew,
    Retain,
    RetainForce,
    Read,
}

// Replaces the value at the key 1.
fn replaces<A: Allocator + Copy, R: Wait>(view: &GuestsRef<'_, R, A>) {
    drop(view.compute_if_present(&Guest::new(1), |_, _| Some(Guest::new(3))));
}

// Removes the pair at the key 1 by a computation.
fn erases<A: Allocator + Copy, R: Wait>(view: &GuestsRef<'_, R, A>) {
    drop(view.compute_if_present(&Guest::new(1), |_, _| None));
}

// Computes the value at a key, by a function that owns it.
fn computes_at<A: Allocator + Copy, R: Wait>(view: &GuestsRef<'_, R, A>, key: u64, kept: Guest) {
    drop(view.compute_if_present(&Guest::new(key), move |_, _| Some(kept)));
}

// Changes the value at the key 1, which is passed in.
fn computes<A: Allocator + Copy, R: Wait>(view: &GuestsRef<'_, R, A>, one: Guest) {
    drop(view.compute(one, |_, _| Some(Guest::new(3))));
}

// Changes the value at the key 1, which is passed in, by one that is passed in.
fn merges<A: Allocator + Copy, R: Wait>(view: &GuestsRef<'_, R, A>, one: Guest) {
    drop(view.merge(one, Guest::new(3), |_, new| Some(new)));
}

// Updates the value at a key, by a function that owns the new one.
fn updates<A: Allocator + Copy, R: Wait>(view: &GuestsRef<'_, R, A>, key: u64, new: Guest) {
    drop(view.update(&Guest::new(key), move |_, _| new));
}

// Whether a guest has another number than 0.
fn has_number(guest: &Guest) -> bool {
    guest.number > 0
}

// Removes the pair at a key, by a function that owns a guest.
fn removes_if<A: Allocator + Copy, R: Wait>(view: &GuestsRef<'_, R, A>, key: u64, kept: Guest) {
    drop(view.remove_if(&Guest::new(key), move |_, _| has_number(&kept)));
}

// Replaces the value at the key 1, or drops the new one.
fn replaces_if<A: Allocator + Copy, R: Wait>(view: &GuestsRef<'_, R, A>, passes: bool, new: Guest) {
    drop(view.replace_if(&Guest::new(1), move |_, _| passes, new));
}

// Replaces nothing at an absent key, by a function that owns a guest.
fn replaces_nowhere<A: Allocator + Copy, R: Wait>(view: &GuestsRef<'_, R, A>, kept: Guest) {
    drop(view.replace_if(&Guest::new(3), move |_, _| has_number(&kept), Guest::new(4)));
}

// Inserts the key 1, which is present.
fn inserts<A: Allocator + Copy, R: Wait>(view: &GuestsRef<'_, R, A>, one: Guest) {
    drop(view.insert(one, Guest::new(3)));
}

fn inserts_once<A: Allocator + Copy, R: Wait>(view: &GuestsRef<'_, R, A>, one: Guest) {
    drop(view.try_insert(one, Guest::new(3)));
}

// Inserts the key 3, which is absent.
fn inserts_new<A: Allocator + Copy, R: Wait>(view: &GuestsRef<'_, R, A>, value: Guest) {
    drop(view.insert(Guest::new(3), value));
}

fn inserts_new_once<A: Allocator + Copy, R: Wait>(view: &GuestsRef<'_, R, A>, value: Guest) {
    drop(view.try_insert(Guest::new(3), value));
}

fn removes<A: Allocator + Copy, R: Wait>(view: &GuestsRef<'_, R, A>) {
    drop(view.remove(&Guest::new(1)));
}

fn retains_none<A: Allocator + Copy, R: Wait>(view: &GuestsRef<'_, R, A>) {
    drop(view.retain(|_, _| false));
}

fn retains_none_by_force<A: Allocator + Copy, R: Wait>(view: &GuestsRef<'_, R, A>) {
    drop(view.retain_force(|_, _| false));
}

// Reads the next pair, and drops it. It borrows the iterator, because a body that owns it has a proof of its drop at each way out.
fn reads_one<A: Allocator + Copy, R: Wait>(pairs: &mut Iter<'_, R, Guest, Guest, A>) {
    drop(pairs.next());
}

// Walks past the first pair, which is removed meanwhile.
fn reads<A: Allocator + Copy, R: Wait>(view: &GuestsRef<'_, R, A>) {
    let mut pairs = view.iter();
    reads_one(&mut pairs);
    removes(view);
    reads_one(&mut pairs);
    drop(pairs)
}

// Reads the first pair, removes it, and removes it as it was read: what was read is then the last owner.
fn removes_as_read<A: Allocator + Copy, R: Wait>(view: &GuestsRef<'_, R, A>) {
    let mut pairs = view.iter();
    let seen = pairs.next_seen();
    drop(pairs);
    if let Ok(Some(seen)) = seen {
        removes(view);
        drop(view.remove_seen(seen));
    }
}

// Does the deed in a map of the keys 1 and 2, or in a new one. A deed that is refused although there is memory meets nobody, and its row
// fails.
pub(super) fn does<A: Allocator + Copy, R: Wait>(
    view: &GuestsRef<'_, R, A>,
    deed: Deed,
    passed: Guest,
) {
    match deed {
        Deed::Clear => view.clear(),
        Deed::Replace => replaces(view),
        Deed::Erase => erases(view),
        Deed::Compute => computes(view, passed),
        Deed::ComputeHere => computes_at(view, 1, passed),
        Deed::Merge => merges(view, passed),
        Deed::Update => updates(view, 1, passed),
        Deed::UpdateNowhere => updates(view, 3, passed),
        Deed::RemoveIf => removes_if(view, 1, passed),
        Deed::RemoveNowhere => removes_if(view, 3, passed),
        Deed::ReplaceIf => replaces_if(view, true, passed),
        Deed::ReplaceNothing => replaces_if(view, false, passed),
        Deed::ReplaceNowhere => replaces_nowhere(view, passed),
        Deed::ComputeNowhere => computes_at(view, 3, passed),
        Deed::Remove => removes(view),
        Deed::RemoveSeen => removes_as_read(view),
        Deed::Insert => inserts(view, passed),
        Deed::InsertNew => inserts_new(view, passed),
        Deed::TryInsert => inserts_once(view, passed),
        Deed::TryInsertNew => inserts_new_once(view, passed),
        Deed::Retain => retains_none(view),
        Deed::RetainForce => retains_none_by_force(view),
        Deed::Read => reads(view),
    }
}
