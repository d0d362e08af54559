//! Callers of the iterators.
ghost use Rattle.std.specs.Prelude.{◌≡◌, ◌-◌, length};

use flurry::SeqMap;
use flurry::seq_iter::{Iter, Keys, Values};

type Map = SeqMap<u64, u64>;

/// Returns the number of pairs that are left after an iterator has given one.
pub fn after_one(map: &Map) -> usize
    ensures { result ≡ length map.now.pairs - 1 }
{
    let mut pairs: Iter<'_, u64, u64> = map.iter();
    let _ = pairs.next();
    pairs.len()
}

/// Returns the number of keys.
pub fn count_keys(map: &Map) -> usize
    ensures { result ≡ length map.now.pairs }
{
    let keys: Keys<'_, u64, u64> = map.keys();
    keys.len()
}

/// Returns the sum of the values, up to the greatest number. This is an example only.
pub fn sum_values(map: &Map) -> u64 {
    let mut sum = 0u64;
    let values: Values<'_, u64, u64> = map.values();
    for value in values {
        sum = sum.saturating_add(**value);
    }
    sum
}
