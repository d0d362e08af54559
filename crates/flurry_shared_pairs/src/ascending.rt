//! Lists in ascending order.
ghost use Rattle.flurry_base.specs.FiniteMap.{IsFiniteMap};
ghost use Rattle.flurry_base.specs.FiniteSet.{IsFiniteSet};

use std::alloc::Allocator;

// Sorts the pairs of `list` in ascending order of their keys, and keeps one of each class of equal keys.
pub(crate) fn ascending_pairs<K: Ord + Drop, V: Drop, A: Allocator>(
    list: Vec<(K, V), A>,
) -> Vec<(K, V), A>
    ensures { IsFiniteMap K.cmp result.items }
{
    let mut list = list;
    list.sort_unstable_by(|first, second| first.0.cmp(&second.0));
    list.dedup_by(|next, first| next.0.cmp(&first.0).is_eq());
    list
}

// Sorts the elements of `list` in ascending order, and keeps one of each class of equal elements.
pub(crate) fn ascending_elements<T: Ord + Drop, A: Allocator>(list: Vec<T, A>) -> Vec<T, A>
    ensures { IsFiniteSet T.cmp result.items }
{
    let mut list = list;
    list.sort_unstable();
    list.dedup();
    list
}
