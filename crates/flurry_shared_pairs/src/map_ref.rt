//! The pairs of a shared map, by its view.
ghost use Rattle.std.specs.Prelude.{IfOk, OnOk};
ghost use Rattle.flurry_shared_view.specs.Walks.{Begins, HasEnded};
ghost use Rattle.flurry_base.specs.FiniteMap.{IsFiniteMap};

use crate::ascending::ascending_pairs;
use flurry_base::hash::KeyHasher;
use flurry_seq_pairs::SortedPairs;
use flurry_shared_view::HashMapRef;
use flurry_shared_view::iter::Iter;
use std::alloc::{AllocError, Allocator};
use std::sync::Wait;

/// Returns clones of the keys and the values of the pairs that one walk gives, in ascending order of the keys. The walk is that of
/// [`HashMapRef::iter`]. The list is in memory of the allocator `alloc`.
///
/// A whole walk, which holds no lock while a key or a value is cloned, and one sort.
///
/// # Errors
///
/// Returns [`AllocError`] if memory for the list cannot be allocated, or if cloning an `Arc`, a key or a value fails. The clones that were
/// made are dropped.
// No contract specifies which pairs it has, since other threads change them meanwhile.
pub fn to_sorted_pairs<
    R: Wait,
    K: Ord + Clone,
    V: Clone,
    S: KeyHasher<K>,
    A: Allocator + Copy,
    B: Allocator,
>(alloc: B, map: &HashMapRef<'_, R, K, V, S, A>) -> Result<SortedPairs<K, V, B>, AllocError>
    ensures ascend { IfOk result (λ list. IsFiniteMap K.cmp list.0.items) }
{
    let mut pairs = map.iter();
    let list = clones_of_rest(alloc, &mut pairs);
    drop(pairs);
    Ok(SortedPairs(ascending_pairs(list?)))
}

// Clones the pairs that are left. It borrows the iterator, since a body that owns it needs a proof of its drop at each way out.
fn clones_of_rest<R: Wait, K: Ord + Clone, V: Clone, A: Allocator + Copy, B: Allocator>(
    alloc: B,
    pairs: &mut Iter<'_, R, K, V, A>,
) -> Result<Vec<(K, V), B>, AllocError>
    requires { Begins K.cmp pairs.old }
    ensures { OnOk result (HasEnded K.cmp pairs.new) }
{
    let mut list = Vec::new(alloc);
    while let Some((key, value)) = pairs.next()? {
        list.push((key.as_ref().clone()?, value.as_ref().clone()?))?;
    }
    Ok(list)
}
