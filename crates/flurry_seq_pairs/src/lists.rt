//! Lists that `serde` writes and reads.

use serde::{
    Described, Deserialize, DeserializeOwned, Deserializer, Format, Serialize, Serializer,
};
use std::alloc::{Allocator, Global};

/// A list of pairs of keys and values, in ascending order of the keys if it was made from a map.
///
/// It is written as a sequence of pairs. A list that is read may be in any order.
///
/// ```
/// pairs::from_seq_map(map)
/// ```
#[derive(Drop)]
#[derive_where(Debug, PartialEq, Eq; K, V)]
pub struct SortedPairs<K, V, A: Allocator = Global>(pub Vec<(K, V), A>);

impl<K: Described, V: Described, A: Allocator> Described for SortedPairs<K, V, A> {
    ghost writes = { λ pairs. ⟦<Vec<(K, V), A> as Described>⟧.writes pairs.0 };
}

impl<K: Serialize, V: Serialize, A: Allocator> Serialize for SortedPairs<K, V, A> {
    fn serialize<S: Serializer>(&self, out: &mut S) -> Result<(), S::Error> {
        self.0.serialize(out)
    }
}

impl<'de, K: Deserialize<'de>, V: Deserialize<'de>> Deserialize<'de> for SortedPairs<K, V> {
    fn deserialize<F: Format>(
        alloc: Global,
        from: &mut Deserializer<'de, '_, F>,
    ) -> Result<SortedPairs<K, V>, F::Error> {
        Ok(SortedPairs(Vec::deserialize(alloc, from)?))
    }
}

impl<K: DeserializeOwned, V: DeserializeOwned> DeserializeOwned for SortedPairs<K, V> {
    fn deserialize_owned<F: Format>(
        alloc: Global,
        from: &mut Deserializer<'_, '_, F>,
    ) -> Result<SortedPairs<K, V>, F::Error> {
        Ok(SortedPairs(Vec::deserialize_owned(alloc, from)?))
    }
}

/// A list of elements, in ascending order if it was made from a set.
///
/// It is written as a sequence. A list that is read may be in any order, and may have an element twice.
///
/// ```
/// pairs::from_seq_set(set)
/// ```
#[derive(Drop)]
#[derive_where(Debug, PartialEq, Eq; T)]
pub struct SortedItems<T, A: Allocator = Global>(pub Vec<T, A>);

impl<T: Described, A: Allocator> Described for SortedItems<T, A> {
    ghost writes = { λ items. ⟦<Vec<T, A> as Described>⟧.writes items.0 };
}

impl<T: Serialize, A: Allocator> Serialize for SortedItems<T, A> {
    fn serialize<S: Serializer>(&self, out: &mut S) -> Result<(), S::Error> {
        self.0.serialize(out)
    }
}

impl<'de, T: Deserialize<'de>> Deserialize<'de> for SortedItems<T> {
    fn deserialize<F: Format>(
        alloc: Global,
        from: &mut Deserializer<'de, '_, F>,
    ) -> Result<SortedItems<T>, F::Error> {
        Ok(SortedItems(Vec::deserialize(alloc, from)?))
    }
}

impl<T: DeserializeOwned> DeserializeOwned for SortedItems<T> {
    fn deserialize_owned<F: Format>(
        alloc: Global,
        from: &mut Deserializer<'_, '_, F>,
    ) -> Result<SortedItems<T>, F::Error> {
        Ok(SortedItems(Vec::deserialize_owned(alloc, from)?))
    }
}
