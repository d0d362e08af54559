//! Clones of the `Arc`s to which a map or a set returns references. The clones outlive the borrow.
ghost use Rattle.std.specs.Prelude.{◌≡◌, map, IfOk};
ghost use Rattle.std.specs.Option.{option_map};
ghost use Rattle.std.specs.Arc.{arc_value};
ghost use Rattle.flurry_seq.specs.Calls.{plain_pair};
ghost use Rattle.flurry_seq.specs.Iter.{pair_of_item, value_of_item};

use crate::iter::{Iter, Keys, Values};
use std::alloc::{AllocError, Allocator};
use std::sync::Arc;

/// Returns a clone of the `Arc` in `lent`, or `None` if `lent` is `None`.
///
/// # Errors
///
/// Returns [`AllocError`] if the `Arc` has as many owners as can be counted.
pub fn clone_arc<T, A: Allocator + Copy>(
    lent: Option<&Arc<T, A>>,
) -> Result<Option<Arc<T, A>>, AllocError>
    ensures { IfOk result (λ owner. option_map arc_value owner ≡ option_map value_of_item lent.entry) }
{
    match lent {
        Some(value) => Ok(Some(Arc::try_clone(value)?)),
        None => Ok(None),
    }
}

/// Returns clones of the `Arc`s of the key and the value in `lent`, or `None` if `lent` is `None`.
///
/// # Errors
///
/// Returns [`AllocError`] if the `Arc` of the key or of the value has as many owners as can be counted.
pub fn clone_pair<K: Drop, V: Drop, A: Allocator + Copy>(
    lent: Option<(&Arc<K, A>, &Arc<V, A>)>,
) -> Result<Option<(Arc<K, A>, Arc<V, A>)>, AllocError>
    ensures { IfOk result (λ owners. option_map plain_pair owners ≡ option_map pair_of_item lent.entry) }
{
    match lent {
        Some((key, value)) => Ok(Some((Arc::try_clone(key)?, Arc::try_clone(value)?))),
        None => Ok(None),
    }
}

/// Returns a list of clones of the `Arc`s of the pairs that the iterator `pairs` has left, in its order. One clone for each key and each
/// value.
///
/// # Errors
///
/// Returns [`AllocError`] if memory for the list cannot be allocated, or if the `Arc` of a key or of a value has as many owners as can be
/// counted.
pub fn clone_pairs<K: Ord + Drop, V: Drop, A: Allocator + Copy>(
    alloc: A,
    pairs: Iter<'_, K, V, A>,
) -> Result<Vec<(Arc<K, A>, Arc<V, A>), A>, AllocError>
    ensures { IfOk result (λ list. map plain_pair list.items ≡ pairs.entry) }
{
    let mut list = Vec::with_capacity(alloc, pairs.len())?;
    for (key, value) in pairs {
        list.push_reserved((Arc::try_clone(key)?, Arc::try_clone(value)?));
    }
    Ok(list)
}

/// Returns a list of clones of the `Arc`s of the keys that the iterator `keys` has left, in its order. One clone for each key.
///
/// # Errors
///
/// Returns [`AllocError`] if memory for the list cannot be allocated, or if the `Arc` of a key has as many owners as can be counted.
pub fn clone_keys<K: Ord + Drop, V: Drop, A: Allocator + Copy>(
    alloc: A,
    keys: Keys<'_, K, V, A>,
) -> Result<Vec<Arc<K, A>, A>, AllocError>
    ensures { IfOk result (λ list. map arc_value list.items ≡ keys.entry) }
{
    let mut list = Vec::with_capacity(alloc, keys.len())?;
    for key in keys {
        list.push_reserved(Arc::try_clone(key)?);
    }
    Ok(list)
}

/// Returns a list of clones of the `Arc`s of the values that the iterator `values` has left, in its order. One clone for each value.
///
/// # Errors
///
/// Returns [`AllocError`] if memory for the list cannot be allocated, or if the `Arc` of a value has as many owners as can be counted.
pub fn clone_values<K: Ord + Drop, V: Drop, A: Allocator + Copy>(
    alloc: A,
    values: Values<'_, K, V, A>,
) -> Result<Vec<Arc<V, A>, A>, AllocError>
    ensures { IfOk result (λ list. map arc_value list.items ≡ values.entry) }
{
    let mut list = Vec::with_capacity(alloc, values.len())?;
    for value in values {
        list.push_reserved(Arc::try_clone(value)?);
    }
    Ok(list)
}
