//! The pairs of a shared map.
ghost use Rattle.std.specs.Prelude.{IfOk};
ghost use Rattle.flurry_base.specs.FiniteMap.{IsFiniteMap};

use crate::map_ref;
use flurry_base::hash::KeyHasher;
use flurry_seq_pairs::SortedPairs;
use flurry_shared::HashMap;
use std::alloc::{AllocError, Allocator};
use std::sync::Wait;

/// Returns the pairs that one walk gives, in ascending order of the keys. See [`map_ref::to_sorted_pairs`].
///
/// # Errors
///
/// Returns [`AllocError`] if memory for the list cannot be allocated, or if cloning an `Arc`, a key or a value fails. The clones that were
/// made are dropped.
pub fn to_sorted_pairs<
    R: Wait,
    K: Ord + Clone,
    V: Clone,
    S: KeyHasher<K>,
    A: Allocator + Copy,
    B: Allocator,
>(rt: &R, alloc: B, map: &HashMap<K, V, S, A>) -> Result<SortedPairs<K, V, B>, AllocError>
    ensures ascend { IfOk result (λ list. IsFiniteMap K.cmp list.0.items) }
{
    map_ref::to_sorted_pairs(alloc, &map.pin(rt))
}
