//! The elements of a shared set.
ghost use Rattle.std.specs.Prelude.{IfOk};
ghost use Rattle.flurry_base.specs.FiniteSet.{IsFiniteSet};

use crate::set_ref;
use flurry_base::hash::KeyHasher;
use flurry_seq_pairs::SortedItems;
use flurry_shared_set::HashSet;
use std::alloc::{AllocError, Allocator};
use std::sync::Wait;

/// Returns the elements that one walk gives, in ascending order. See [`set_ref::to_sorted_items`].
///
/// # Errors
///
/// Returns [`AllocError`] if memory for the list cannot be allocated, or if cloning an `Arc` or an element fails. The clones that were made
/// are dropped.
pub fn to_sorted_items<R: Wait, T: Ord + Clone, S: KeyHasher<T>, A: Allocator + Copy, B: Allocator>(
    rt: &R,
    alloc: B,
    set: &HashSet<T, S, A>,
) -> Result<SortedItems<T, B>, AllocError>
    ensures ascend { IfOk result (λ list. IsFiniteSet T.cmp list.0.items) }
{
    set_ref::to_sorted_items(alloc, &set.pin(rt))
}
