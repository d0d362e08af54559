//! Walks, and calls that visit many pairs.

mod beside;
mod bulk;
mod clones;
mod drops;
mod kept;
mod refused;
mod views;
mod visits;
mod walks;

use super::{assert_same, taken};
use flurry_base::hash::{KeyHasher, LowHashBuilder};
use flurry_shared::HashMap;
use flurry_shared::iter::Iter;
use std::alloc::{AllocError, Allocator};
use std::process::Abort;
use std::sync::Wait;

// The greatest number of pairs that a walk of a test gives.
const MAX_READ: u32 = 100_000;

// A map of numbers, in which the hash of each key is the key.
type Numbers = HashMap<u64, u64, LowHashBuilder>;

// Inserts the keys from `from` to `to`, without `to`, each with itself as its value. Returns for how many of them memory could not be
// allocated.
fn insert_all<S: KeyHasher<u64>, A: Allocator + Copy, R: Wait>(
    rt: &R,
    map: &HashMap<u64, u64, S, A>,
    from: u64,
    to: u64,
) -> u64 {
    let mut refused = 0u64;
    for key in from..to {
        if map.insert(rt, key, key).is_err() {
            refused = refused.saturating_add(1);
        }
    }
    refused
}

// Returns a map of the keys below `count`, each with itself as its value and its hash.
fn numbers<A: Allocator + Copy, R: Wait>(
    rt: &R,
    alloc: A,
    count: u64,
) -> HashMap<u64, u64, LowHashBuilder, A> {
    let map = HashMap::with_hasher(alloc, LowHashBuilder);
    insert_all(rt, &map, 0, count);
    map
}

// Returns the number of pairs that an iterator gives up to its end, and the sums of their keys and of their values.
pub(super) fn read_all<A: Allocator + Copy, R: Wait>(
    pairs: Iter<'_, R, u64, u64, A>,
) -> Result<(u64, u64, u64), AllocError> {
    let mut pairs = pairs;
    let sums = read_rest(&mut pairs);
    drop(pairs);
    sums
}

// Returns the number of pairs that are left in an iterator, and the sums of their keys and of their values. It borrows the iterator,
// because a body that owns it has a proof of its drop at each way out.
fn read_rest<A: Allocator + Copy, R: Wait>(
    pairs: &mut Iter<'_, R, u64, u64, A>,
) -> Result<(u64, u64, u64), AllocError> {
    let mut count = 0u64;
    let mut keys = 0u64;
    let mut values = 0u64;
    for _ in 0..MAX_READ {
        let Some((key, value)) = pairs.next()? else {
            break;
        };
        count = count.saturating_add(1);
        keys = keys.saturating_add(*key);
        values = values.saturating_add(*value);
    }
    Ok((count, keys, values))
}

// Asserts that `wanted` is the number of pairs of a map, and the sums of their keys and of their values.
pub(super) fn has_sums<S: KeyHasher<u64>, A: Allocator + Copy, R: Abort + Wait>(
    rt: &R,
    map: &HashMap<u64, u64, S, A>,
    wanted: (u64, u64, u64),
) {
    assert_same(rt, read_all(map.iter(rt)).expect(rt, "memory"), wanted);
    assert_same(rt, map.len(rt) as u64, wanted.0);
}
