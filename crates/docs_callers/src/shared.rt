//! Callers of the map that threads share.
ghost use Rattle.std.specs.Prelude.{◌≡◌, ◌≤◌, IfOk, IfSome, leb};

use flurry::{Change, HashMap};
use std::alloc::AllocError;
use std::sync::Wait;

type Shared = HashMap<u64, u64>;

/// Inserts a pair, and returns the number of pairs that were inserted, which is 0 if memory cannot be allocated.
pub fn put_one<R: Wait>(rt: &R, map: &Shared, key: u64) -> u64
    ensures { result ≤ 1 }
{
    match map.insert(rt, key, key) {
        Ok(_) => 1,
        Err(_) => 0,
    }
}

/// Inserts a pair if the key is absent. The returned value is the one that was inserted, or the one that was not: it is `value` in each
/// case.
pub fn offer<R: Wait>(rt: &R, map: &Shared, key: u64, value: u64) -> Result<u64, AllocError>
    ensures { IfOk result (λ r. r ≡ value) }
{
    match map.try_insert(rt, key, value)? {
        Ok(put) => Ok(*put),
        Err(e) => Ok(e.not_inserted),
    }
}

/// Lowers a value to at most `limit`. A value that is returned is one that the function returned.
pub fn lower<R: Wait>(rt: &R, map: &Shared, key: u64, limit: u64) -> Result<Option<u64>, AllocError>
    ensures { IfOk result (λ r. IfSome r (λ v. v ≤ limit)) }
{
    let answer = map.compute_if_present(
        rt,
        &key,
        move |_key: &u64, old: &u64| -> Option<u64>
            ensures { IfSome result (λ v. v ≤ limit) }
        { Some((*old).min(limit)) },
    )?;
    Ok(answer.map(|value| *value))
}

/// Raises a value to at least `limit`, and returns the new value, or `None` if the key is absent.
pub fn raise<R: Wait>(rt: &R, map: &Shared, key: u64, limit: u64) -> Result<Option<u64>, AllocError>
    ensures { IfOk result (λ r. IfSome r (λ v. limit ≤ v)) }
{
    let new = map.update(
        rt,
        &key,
        move |_key: &u64, old: &u64| -> u64
            ensures { limit ≤ result }
        { (*old).max(limit) },
    )?;
    Ok(new.map(|value| *value))
}

/// Counts a key, up to `limit`, and returns the new count.
pub fn count<R: Wait>(rt: &R, map: &Shared, key: u64, limit: u64) -> Result<u64, AllocError>
    ensures { IfOk result (λ r. r ≤ limit) }
{
    let change = map.compute(
        rt,
        key,
        move |_key: &u64, old: Option<&u64>| -> Option<u64>
            ensures { IfSome result (λ v. v ≤ limit) }
        {
            match old {
                Some(count) => Some((*count).saturating_add(1).min(limit)),
                None => Some(limit.min(1)),
            }
        },
    )?;
    match change {
        Change::Added(new) | Change::Changed(new) => Ok(*new),
        Change::Absent | Change::Removed(_) => Ok(0),
    }
}

/// Removes a pair whose value is at most `limit`, and returns that value.
pub fn take_small<R: Wait>(rt: &R, map: &Shared, key: u64, limit: u64) -> Option<u64>
    ensures { IfSome result (λ v. v ≤ limit) }
{
    let removed = map.remove_if(
        rt,
        &key,
        move |_key: &u64, value: &u64| -> bool
            ensures { result ≡ leb value.now limit }
        { *value <= limit },
    );
    removed.map(|value| *value)
}
