//! Callers of calls as values, and of the results of calls.
ghost use Rattle.std.specs.Prelude.{◌≡◌, ℕ, [], Some, IfOk, IfSome};
ghost use Rattle.std.specs.Ordering.{nat_cmp};
ghost use Rattle.flurry.specs.FiniteMap.{value_at};

use flurry::bin::Shape;
use flurry::calls::{Call, Reply};
use flurry::recorded::KeptReply;
use flurry::set_calls::{SetCall, SetReply};
use flurry::{SeqMap, SeqSet};
use std::alloc::{AllocError, Global};
use std::collections::VecDeque;

type Map = SeqMap<u64, u64>;

/// Returns the value that is present and the value that was not inserted, if the key is present.
pub fn standing_and_new(
    map: &mut Map,
    key: u64,
    value: u64,
) -> Result<Option<(u64, u64)>, AllocError>
    ensures { IfOk result (λ r. IfSome r (λ p. (value_at nat_cmp map.old.pairs key ≡ Some p.0) × (p.1 ≡ value))) }
{
    match map.try_insert(key, value)? {
        Ok(_) => Ok(None),
        Err(error) => Ok(Some((*error.current, error.not_inserted))),
    }
}

/// Returns the value that a kept reply contains, if it contains one.
pub fn value_in(reply: KeptReply<u64, u64>) -> Option<u64>
    ensures { (v : ℕ) → reply ≡ KeptReply.New v → result ≡ Some v }
{
    match reply {
        KeptReply::Value(value) => value,
        KeptReply::Pair(pair) => pair.map(|(_, value)| value),
        KeptReply::Contains(_) => None,
        KeptReply::New(value) => Some(value),
        KeptReply::Changed { new, .. } => Some(new),
        KeptReply::Exists { current, .. } => Some(current),
    }
}

/// Returns the number of pairs in the bin of a hash, by its shape.
pub fn pairs_in_bin(map: &Map, hash: u64) -> usize
    ensures { map.now.pairs ≡ [] → result ≡ 0 }
{
    match map.shape_of(hash) {
        Shape::Empty => 0,
        Shape::List(count) => count,
        Shape::Tree(count) => count,
    }
}

// Adds one to a value, or returns `None` if the result does not fit.
fn one_more(_key: &u64, value: &u64) -> Option<u64> {
    value.checked_add(1)
}

// Whether a value is even.
fn is_even(_key: &u64, value: &u64) -> bool {
    *value % 2 == 0
}

/// Runs a list of calls, and returns the number of replies. Each call has one.
pub fn run_calls(alloc: Global, map: &mut Map, key: u64, value: u64) -> Result<usize, AllocError>
    ensures { IfOk result (λ n. n ≡ 3) }
{
    let mut calls = VecDeque::new(alloc);
    calls.push_back(Call::Insert(key, value))?;
    calls.push_back(Call::ComputeIfPresent(key, one_more))?;
    calls.push_back(Call::Retain(is_even))?;
    let replies = map.run(alloc, calls)?;
    Ok(replies.len())
}

/// Returns the value that a reply has, if it has one. This is an example only.
pub fn value_of(reply: &Reply<u64, u64>) -> Option<u64> {
    match reply {
        Reply::Value(Some(value)) => Some(**value),
        Reply::New(value) => Some(**value),
        Reply::Exists(error) => Some(*error.current),
        _ => None,
    }
}

// Whether an element is below a hundred.
fn is_small(element: &u64) -> bool {
    *element < 100
}

/// Runs a list of calls, and returns the number of replies. Each call has one.
pub fn run_set_calls(alloc: Global, set: &mut SeqSet<u64>, x: u64) -> Result<usize, AllocError>
    ensures { IfOk result (λ n. n ≡ 3) }
{
    let mut calls = VecDeque::new(alloc);
    calls.push_back(SetCall::Insert(x))?;
    calls.push_back(SetCall::Contains(x))?;
    calls.push_back(SetCall::Retain(is_small))?;
    let replies = set.run(alloc, calls)?;
    Ok(replies.len())
}

/// Returns `true` if a reply says yes, or has an element. This is an example only.
pub fn says_yes(reply: &SetReply<u64>) -> bool {
    match reply {
        SetReply::Truth(truth) => *truth,
        SetReply::Element(element) => element.is_some(),
        _ => false,
    }
}
