//! The maps that are stressed.

use flurry_base::Change;
use flurry_base::hash::KeyHasher;
use flurry_shared::HashMap;
use std::alloc::{AllocError, Global};
use std::sync::{Arc, Wait};
use stress_judge::calls::{Call, Outcome, Reply, is_even, merged};

/// A map that threads share.
pub trait Subject: Sized {
    /// Creates a map without a table, whose growths are divided among `threads` threads.
    fn make(alloc: Global, threads: usize) -> Self;

    /// Makes a call of one key, and returns what it returned.
    ///
    /// # Errors
    ///
    /// Returns [`AllocError`] if memory cannot be allocated.
    fn call<R: Wait>(&self, rt: &R, key: u64, call: Call) -> Result<Reply, AllocError>;

    /// Grows the table so that `additional` more pairs fit, unless another thread grows it.
    ///
    /// # Errors
    ///
    /// Returns [`AllocError`] if memory cannot be allocated.
    fn grow<R: Wait>(&self, rt: &R, additional: usize) -> Result<(), AllocError>;
}

impl<S: KeyHasher<u64> + Default> Subject for HashMap<u64, u64, S> {
    fn make(alloc: Global, threads: usize) -> Self {
        HashMap::with_hasher(alloc, S::default()).with_processors(threads)
    }

    fn call<R: Wait>(&self, rt: &R, key: u64, call: Call) -> Result<Reply, AllocError> {
        Ok(match call {
            Call::Get => Reply::Value(number(self.get(rt, &key)?)),
            Call::GetKeyValue => Reply::Pair(pair(self.get_key_value(rt, &key)?)),
            Call::ContainsKey => Reply::Presence(self.contains_key(rt, &key)),
            Call::Insert(value) => Reply::Value(number(self.insert(rt, key, value)?)),
            Call::TryInsert(value) => try_insert(rt, self, key, value)?,
            Call::Remove => Reply::Value(number(self.remove(rt, &key))),
            Call::RemoveEntry => Reply::Pair(pair(self.remove_entry(rt, &key))),
            Call::ComputeIfPresent(new) => compute_if_present(rt, self, key, new)?,
            Call::Compute(new) => compute(rt, self, key, new)?,
            Call::Merge(value) => merge(rt, self, key, value)?,
            Call::Update(value) => update(rt, self, key, value)?,
            Call::RemoveEven => remove_even(rt, self, key),
            Call::ReplaceEven(value) => replace_even(rt, self, key, value)?,
        })
    }

    fn grow<R: Wait>(&self, rt: &R, additional: usize) -> Result<(), AllocError> {
        self.reserve(rt, additional)
    }
}

// The number in an `Arc`.
fn number(owner: Option<Arc<u64>>) -> Option<u64> {
    owner.map(|number| *number)
}

// The numbers in two `Arc`s.
fn pair(owners: Option<(Arc<u64>, Arc<u64>)>) -> Option<(u64, u64)> {
    match owners {
        Some((key, value)) => Some((*key, *value)),
        None => None,
    }
}

fn try_insert<S: KeyHasher<u64>, R: Wait>(
    rt: &R,
    map: &HashMap<u64, u64, S>,
    key: u64,
    value: u64,
) -> Result<Reply, AllocError> {
    Ok(match map.try_insert(rt, key, value)? {
        Ok(added) => Reply::Added(*added),
        Err(error) => Reply::Kept {
            current: *error.current,
            not_inserted: error.not_inserted,
        },
    })
}

// Makes `new` of a present value, and records of which.
fn compute_if_present<S: KeyHasher<u64>, R: Wait>(
    rt: &R,
    map: &HashMap<u64, u64, S>,
    key: u64,
    new: Option<u64>,
) -> Result<Reply, AllocError> {
    let mut seen = None;
    let place = &mut seen;
    let returned = map.compute_if_present(
        rt,
        &key,
        move |_key: &u64, value: &u64| -> Option<u64> {
            *place = Some(*value);
            new
        },
    )?;
    Ok(Reply::Computed {
        seen,
        returned: number(returned),
    })
}

// What a call did, with numbers.
fn outcome_of(change: Change<u64>) -> Outcome {
    match change {
        Change::Absent => Outcome::Absent,
        Change::Added(value) => Outcome::Added(*value),
        Change::Changed(value) => Outcome::Changed(*value),
        Change::Removed(value) => Outcome::Removed(*value),
    }
}

// Makes `new` of a present value or of none, and records of which.
fn compute<S: KeyHasher<u64>, R: Wait>(
    rt: &R,
    map: &HashMap<u64, u64, S>,
    key: u64,
    new: Option<u64>,
) -> Result<Reply, AllocError> {
    let mut seen = None;
    let place = &mut seen;
    let change = map.compute(
        rt,
        key,
        move |_key: &u64, value: Option<&u64>| -> Option<u64> {
            *place = value.copied();
            new
        },
    )?;
    Ok(Reply::Altered {
        seen,
        outcome: outcome_of(change),
    })
}

// Merges `value` with a present value, and records with which.
fn merge<S: KeyHasher<u64>, R: Wait>(
    rt: &R,
    map: &HashMap<u64, u64, S>,
    key: u64,
    value: u64,
) -> Result<Reply, AllocError> {
    let mut seen = None;
    let place = &mut seen;
    let change = map.merge(rt, key, value, move |old: &u64, new: u64| -> Option<u64> {
        *place = Some(*old);
        merged(Some(*old), new)
    })?;
    Ok(Reply::Altered {
        seen,
        outcome: outcome_of(change),
    })
}

// Updates a present value to `new`, and records which it was.
fn update<S: KeyHasher<u64>, R: Wait>(
    rt: &R,
    map: &HashMap<u64, u64, S>,
    key: u64,
    new: u64,
) -> Result<Reply, AllocError> {
    let mut seen = None;
    let place = &mut seen;
    let returned = map.update(rt, &key, move |_key: &u64, value: &u64| -> u64 {
        *place = Some(*value);
        new
    })?;
    Ok(Reply::Computed {
        seen,
        returned: number(returned),
    })
}

fn remove_even<S: KeyHasher<u64>, R: Wait>(rt: &R, map: &HashMap<u64, u64, S>, key: u64) -> Reply {
    let removed = map.remove_if(rt, &key, |_key: &u64, value: &u64| -> bool {
        is_even(*value)
    });
    Reply::Value(number(removed))
}

fn replace_even<S: KeyHasher<u64>, R: Wait>(
    rt: &R,
    map: &HashMap<u64, u64, S>,
    key: u64,
    value: u64,
) -> Result<Reply, AllocError> {
    let replaced = map.replace_if(
        rt,
        &key,
        |_key: &u64, old: &u64| -> bool { is_even(*old) },
        value,
    )?;
    Ok(Reply::Value(number(replaced)))
}
