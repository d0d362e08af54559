//! Callers of sorted pairs.
ghost use Rattle.std.specs.Prelude.{◌≡◌, IfOk, IfSome, IsPermutation};
ghost use Rattle.std.specs.Ordering.{nat_cmp};
ghost use Rattle.flurry.specs.Apart.{AreApart};
ghost use Rattle.flurry.specs.Doubles.{IsFirstDouble};
ghost use Rattle.flurry.specs.FiniteMap.{IsFiniteMap};

use flurry::hash::DefaultHashBuilder;
use flurry::pairs::{self, FromPairsError, SortedItems, SortedPairs};
use flurry::{SeqMap, SeqSet};
use std::alloc::AllocError;

type Map = SeqMap<u64, u64>;

/// Returns the list of a map's pairs, which has exactly these pairs.
pub fn save(map: &Map) -> Result<SortedPairs<u64, u64>, AllocError>
    ensures pairs { IfOk result (λ s. s.0.items ≡ map.now.pairs) }
    ensures ascend { IfOk result (λ s. IsFiniteMap nat_cmp s.0.items) }
{
    pairs::from_seq_map(map)
}

/// Creates a map from a list in which no key occurs twice. The map has the list's pairs.
pub fn load(list: SortedPairs<u64, u64>) -> Result<Map, FromPairsError>
    ensures pairs { IfOk result (λ m. IsPermutation list.0.items m.pairs) }
    ensures apart { IfOk result (λ m. AreApart nat_cmp list.0.items) }
{
    pairs::into_seq_map(list, DefaultHashBuilder::default())
}

/// Returns the list of a set's elements, which has exactly these elements.
pub fn save_set(set: &SeqSet<u64>) -> Result<SortedItems<u64>, AllocError>
    ensures { IfOk result (λ s. s.0.items ≡ set.now.elements) }
{
    pairs::from_seq_set(set)
}

/// Copies a map by a list of its pairs. The copy has the same pairs.
pub fn copy(map: &Map) -> Result<Map, FromPairsError>
    ensures { IfOk result (λ m. IsPermutation map.now.pairs m.pairs) }
{
    load(save(map)?)
}

/// Returns the first position whose key occurs at an earlier position, if this is why no map can be made from the list.
pub fn first_doubled(list: SortedPairs<u64, u64>) -> Option<usize>
    ensures { IfSome result (λ position. IsFirstDouble nat_cmp list.0.items position) }
{
    match pairs::into_seq_map(list, DefaultHashBuilder::default()) {
        Err(FromPairsError::DoubledKey(position)) => Some(position),
        _ => None,
    }
}
