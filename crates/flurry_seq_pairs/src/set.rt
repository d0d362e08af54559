//! The elements of an owned set as a list.
ghost use Rattle.std.specs.Prelude.{◌≡◌, [], length, IfOk};
ghost use Rattle.std.specs.List.{AllZip};
ghost use Rattle.std.specs.List.Sorted.{IsSorted};
ghost use Rattle.flurry_base.specs.FiniteSet.{IsFiniteSet, with_elements};
ghost use Rattle.flurry_seq.specs.Growth.{bins_for, IsTableFrom};
ghost use Rattle.flurry_seq_pairs.specs.Clones.{AreEqualClones, HasClonesOf};

use crate::lists::SortedItems;
use flurry_base::hash::KeyHasher;
use flurry_seq::Keys;
use flurry_seq_set::SeqSet;
use std::alloc::{AllocError, Allocator};

/// Returns clones of the elements of a set, in ascending order.
///
/// Costs a whole run of [`SeqSet::iter`], a clone of each element, and one sort.
///
/// # Errors
///
/// Returns [`AllocError`] if memory for the list cannot be allocated, or if a clone fails. The clones that were made are dropped.
pub fn to_sorted_items<T: Ord + Clone, S: KeyHasher<T>, A: Allocator + Copy>(
    set: &SeqSet<T, S, A>,
) -> Result<SortedItems<T, A>, AllocError>
    ensures clones { IfOk result (λ s. HasClonesOf T.is_clone set.now.elements s.0.items) }
    ensures sorted { IfOk result (λ s. IsSorted T.cmp s.0.items) }
    ensures elements { IfOk result (λ s. AreEqualClones T.is_clone → s.0.items ≡ set.now.elements) }
    ensures ascend { IsFiniteSet T.cmp set.now.elements }
{
    let mut items = clones(*set.allocator(), set.iter())?;
    items.sort_unstable();
    Ok(SortedItems(items))
}

// The clones of the elements that the iterator `elements` has left, in its order.
fn clones<T: Ord + Clone, A: Allocator + Copy>(
    alloc: A,
    elements: Keys<'_, T, (), A>,
) -> Result<Vec<T, A>, AllocError>
    ensures { IfOk result (λ list. AllZip T.is_clone elements.entry list.items) }
{
    let mut list = Vec::with_capacity(alloc, elements.len())?;
    for element in elements {
        list.push_reserved(element.as_ref().clone()?);
    }
    Ok(list)
}

/// Creates a set that uses `hasher` from elements in any order, in memory of their list's allocator. Of equal elements, the first stays.
/// The set starts with room for as many elements as there are.
///
/// One insertion for each element.
///
/// # Errors
///
/// Returns [`AllocError`] if memory for the table or for an element cannot be allocated, or if there are more than
/// [`flurry_seq::seq_map::MAX_LEN`] classes of equal elements. The list is dropped.
pub fn from_items<T: Ord + Drop, S: KeyHasher<T> + Drop, A: Allocator + Copy>(
    items: SortedItems<T, A>,
    hasher: S,
) -> Result<SeqSet<T, S, A>, AllocError>
    ensures made { IfOk result (λ s. (s.elements ≡ with_elements T.cmp [] items.0.items) × (s.hasher ≡ hasher)) }
    ensures ascend { IfOk result (λ s. IsFiniteSet T.cmp s.elements) }
    ensures bins { IfOk result (λ s. IsTableFrom (bins_for (length items.0.items)) (length s.elements) s.bins) }
{
    let SortedItems(list) = items;
    SeqSet::from_list(*list.allocator(), list, hasher)
}
