//! The pairs of an owned map as a list.
ghost use Rattle.std.specs.Prelude.{◌≡◌, [], ℕ, length, IfOk, IfErr, IsPermutation};
ghost use Rattle.std.specs.List.{AllZip};
ghost use Rattle.std.specs.List.Sorted.{IsSortedByKey};
ghost use Rattle.flurry_base.specs.FiniteMap.{IsFiniteMap, with_all};
ghost use Rattle.flurry_seq.specs.Apart.{AreApart};
ghost use Rattle.flurry_seq.specs.Growth.{bins_for, IsTableFrom};
ghost use Rattle.flurry_seq_pairs.specs.Clones.{AreEqualClones, IsClonedPair, HasClonesOf};
ghost use Rattle.flurry_seq_pairs.specs.Doubles.{IsFirstDouble};

use crate::faults::FromPairsError;
use crate::lists::SortedPairs;
use flurry_base::hash::KeyHasher;
use flurry_seq::{Iter, SeqMap};
use std::alloc::{AllocError, Allocator};

/// Returns the pairs of a map, with clones of the keys and the values, in ascending order of the keys.
///
/// Costs a whole run of [`SeqMap::iter`], a clone of each key and each value, and one sort.
///
/// # Errors
///
/// Returns [`AllocError`] if memory for the list cannot be allocated, or if a clone fails. The clones that were made are dropped.
pub fn to_sorted_pairs<K: Ord + Clone, V: Clone, S: KeyHasher<K>, A: Allocator + Copy>(
    map: &SeqMap<K, V, S, A>,
) -> Result<SortedPairs<K, V, A>, AllocError>
    ensures clones { IfOk result (λ s. HasClonesOf (IsClonedPair K.is_clone V.is_clone) map.now.pairs s.0.items) }
    ensures sorted { IfOk result (λ s. IsSortedByKey (λ p. p.0) K.cmp s.0.items) }
    ensures pairs { IfOk result
        (λ s. AreEqualClones K.is_clone → AreEqualClones V.is_clone → s.0.items ≡ map.now.pairs) }
    ensures ascend { IsFiniteMap K.cmp map.now.pairs }
{
    let mut pairs = clones(*map.allocator(), map.iter())?;
    pairs.sort_unstable_by(|first, second| first.0.cmp(&second.0));
    Ok(SortedPairs(pairs))
}

// The clones of the pairs that the iterator `pairs` has left, in its order.
fn clones<K: Ord + Clone, V: Clone, A: Allocator + Copy>(
    alloc: A,
    pairs: Iter<'_, K, V, A>,
) -> Result<Vec<(K, V), A>, AllocError>
    ensures { IfOk result (λ list. AllZip (IsClonedPair K.is_clone V.is_clone) pairs.entry list.items) }
{
    let mut list = Vec::with_capacity(alloc, pairs.len())?;
    for (key, value) in pairs {
        list.push_reserved((key.as_ref().clone()?, value.as_ref().clone()?));
    }
    Ok(list)
}

/// Creates a map that uses `hasher` from pairs in any order, in memory of their list's allocator. It starts with room for as many pairs as
/// there are.
///
/// One insertion for each pair.
///
/// # Errors
///
/// 1. Returns [`FromPairsError::NoMemory`] if memory for the table or for a pair cannot be allocated, or if there are more than
///    [`flurry_seq::seq_map::MAX_LEN`] pairs.
/// 2. Returns [`FromPairsError::DoubledKey`] with the first position whose key is equal to an earlier one.
///
/// The list is dropped.
pub fn from_pairs<K: Ord + Drop, V: Drop, S: KeyHasher<K> + Drop, A: Allocator + Copy>(
    pairs: SortedPairs<K, V, A>,
    hasher: S,
) -> Result<SeqMap<K, V, S, A>, FromPairsError>
    ensures made { IfOk result (λ m. (m.pairs ≡ with_all K.cmp [] pairs.0.items) × (m.hasher ≡ hasher)) }
    ensures apart { IfOk result (λ m. AreApart K.cmp pairs.0.items) }
    ensures pairs { IfOk result (λ m. IsPermutation pairs.0.items m.pairs) }
    ensures ascend { IfOk result (λ m. IsFiniteMap K.cmp m.pairs) }
    ensures bins { IfOk result (λ m. IsTableFrom (bins_for (length pairs.0.items)) (length m.pairs) m.bins) }
    ensures doubled { IfErr result
        (λ e. (position : ℕ) → e ≡ FromPairsError.DoubledKey position → IsFirstDouble K.cmp pairs.0.items position) }
{
    let SortedPairs(list) = pairs;
    let mut map = SeqMap::with_capacity_and_hasher(*list.allocator(), list.len(), hasher)?;
    for (position, (key, value)) in list.into_iter().enumerate() {
        if map.insert(key, value)?.is_some() {
            return Err(FromPairsError::DoubledKey(position));
        }
    }
    Ok(map)
}
