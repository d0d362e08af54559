//! Callers whose proofs need answers: `retain` with a function that is a test of the key and the value, where one answer names the test,
//! and loops over all pairs.
ghost use Rattle.std.specs.Prelude.{◌≡◌, ◌≤◌, ◌<◌, ◌^◌, All, false, ltb, sum_by};
ghost use Rattle.std.specs.List.{filter};

use flurry::SeqMap;

/// Keeps the pairs whose value is below `bound`.
pub fn keep_below(map: &mut SeqMap<u64, u64>, bound: u64)
    ensures { map.new.pairs ≡ filter (λ p. ltb p.1 bound) map.old.pairs }
{
    map.retain(|_key: &u64, value: &u64| -> bool { *value < bound });
}

/// Returns `true` if a value is above `bound`.
pub fn any_above(map: &SeqMap<u64, u64>, bound: u64) -> bool
    ensures { result ≡ false → All (λ p. p.1 ≤ bound) map.now.pairs }
{
    for (_, value) in map.iter() {
        if **value > bound {
            return true;
        }
    }
    false
}

/// Returns the sum of the values.
pub fn sum_of(map: &SeqMap<u64, u64>) -> u64
    requires { sum_by (λ p. p.1) map.now.pairs < 2 ^ 64 }
    ensures { result ≡ sum_by (λ p. p.1) map.now.pairs }
{
    let mut sum: u64 = 0;
    for value in map.values() {
        sum += **value;
    }
    sum
}
