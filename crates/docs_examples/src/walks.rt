//! Callers of walks of a map that threads share. What a walk gives depends on other threads.
ghost use Rattle.std.specs.Prelude.{◌≡◌, true, false, Ok, None};

use flurry::HashMapRef;
use flurry::iter::{Iter, Keys, Values};
use std::alloc::AllocError;
use std::sync::Wait;

/// Removes the next pair of a walk if it is still as it was read, and returns `true` if it was removed.
pub fn take_next<R: Wait>(
    view: &HashMapRef<'_, R, u64, u64>,
    pairs: &mut Iter<'_, R, u64, u64>,
) -> Result<bool, AllocError>
    ensures { pairs.old.has_ended ≡ true → result ≡ Ok false }
{
    match pairs.next_seen()? {
        Some(seen) => Ok(view.remove_seen(seen).is_some()),
        None => Ok(false),
    }
}

/// Returns the next key of a walk, or `None` once it has ended.
pub fn next_key<R: Wait>(keys: &mut Keys<'_, R, u64, u64>) -> Result<Option<u64>, AllocError>
    ensures { keys.old.has_ended ≡ true → result ≡ Ok None }
{
    let key = keys.next()?;
    Ok(key.map(|key| *key))
}

/// Returns the next value of a walk, or `None` once it has ended.
pub fn next_value<R: Wait>(values: &mut Values<'_, R, u64, u64>) -> Result<Option<u64>, AllocError>
    ensures { values.old.has_ended ≡ true → result ≡ Ok None }
{
    let value = values.next()?;
    Ok(value.map(|value| *value))
}
