//! Equality of owned maps.
ghost use Rattle.std.specs.Prelude.{◌≡◌, ◌↔◌, IsTrue};
ghost use Rattle.std.specs.Option.{option_eq};
ghost use Rattle.flurry_base.specs.FiniteMap.{IsFiniteMap, value_at};
ghost use Rattle.flurry_seq.specs.Equality.{maps_eq, maps_eq_per, maps_eq_equiv, has_pair};

use crate::seq_map::SeqMap;
use flurry_base::hash::KeyHasher;
use std::alloc::Allocator;

// Whether the map has an equal value at the key.
fn has<K: Ord + Drop, V: PartialEq + Drop, S: KeyHasher<K>, A: Allocator>(
    map: &SeqMap<K, V, S, A>,
    key: &K,
    value: &V,
) -> bool
    ensures { result ≡ has_pair K.cmp V.eq map.now.pairs (key.now, value.now) }
{
    match map.get(key) {
        Some(found) => *value == *found.as_ref(),
        None => false,
    }
}

/// Two maps are equal if they have the same classes of keys, with equal values. Which key of a class is stored, the order in which the
/// pairs were inserted, the tables and the hashers make no difference.
///
/// At most one look-up for each pair, and none if the maps have different numbers of pairs.
impl<K: Ord + Drop, V: PartialEq + Drop, S: KeyHasher<K>, A: Allocator> PartialEq
    for SeqMap<K, V, S, A> {
    ghost eq = { maps_eq K.cmp V.eq };

    ghost laws = { maps_eq_per K.total V.laws };

    fn eq(&self, other: &Self) -> bool
        ensures value { result ≡ maps_eq K.cmp V.eq self.now other.now }
        ensures keys { IsTrue result
            ↔ ((k : K) → IsTrue (option_eq V.eq (value_at K.cmp self.now.pairs k) (value_at K.cmp other.now.pairs k))) }
        ensures ascend { IsFiniteMap K.cmp self.now.pairs × IsFiniteMap K.cmp other.now.pairs }
    {
        if self.len() != other.len() {
            return false;
        }
        for (key, value) in self.iter() {
            if !has(other, key.as_ref(), value.as_ref()) {
                return false;
            }
        }
        true
    }
}

impl<K: Ord + Drop, V: Eq + Drop, S: KeyHasher<K>, A: Allocator> Eq for SeqMap<K, V, S, A> {
    ghost laws = { maps_eq_equiv K.total V.Eq.laws };
}
