//! The elements of a shared set, by its view.
ghost use Rattle.std.specs.Prelude.{IfOk, OnOk};
ghost use Rattle.flurry_shared_view.specs.Walks.{Begins, HasEnded};
ghost use Rattle.flurry_base.specs.FiniteSet.{IsFiniteSet};

use crate::ascending::ascending_elements;
use flurry_base::hash::KeyHasher;
use flurry_seq_pairs::SortedItems;
use flurry_shared_set::HashSetRef;
use flurry_shared_view::iter::Keys;
use std::alloc::{AllocError, Allocator};
use std::sync::Wait;

/// Returns clones of the elements that one walk gives, in ascending order. The walk is that of [`HashSetRef::iter`]. The list is in memory
/// of the allocator `alloc`.
///
/// A whole walk, which holds no lock while an element is cloned, and one sort.
///
/// # Errors
///
/// Returns [`AllocError`] if memory for the list cannot be allocated, or if cloning an `Arc` or an element fails. The clones that were made
/// are dropped.
// No contract specifies which elements it has, since other threads change them meanwhile.
pub fn to_sorted_items<R: Wait, T: Ord + Clone, S: KeyHasher<T>, A: Allocator + Copy, B: Allocator>(
    alloc: B,
    set: &HashSetRef<'_, R, T, S, A>,
) -> Result<SortedItems<T, B>, AllocError>
    ensures ascend { IfOk result (λ list. IsFiniteSet T.cmp list.0.items) }
{
    let mut elements = set.iter();
    let list = clones_of_rest(alloc, &mut elements);
    drop(elements);
    Ok(SortedItems(ascending_elements(list?)))
}

// Clones the elements that are left. It borrows the iterator, since a body that owns it needs a proof of its drop at each way out.
fn clones_of_rest<R: Wait, T: Ord + Clone, A: Allocator + Copy, B: Allocator>(
    alloc: B,
    elements: &mut Keys<'_, R, T, (), A>,
) -> Result<Vec<T, B>, AllocError>
    requires { Begins T.cmp elements.old }
    ensures { OnOk result (HasEnded T.cmp elements.new) }
{
    let mut list = Vec::new(alloc);
    while let Some(element) = elements.next()? {
        list.push(element.as_ref().clone()?)?;
    }
    Ok(list)
}
