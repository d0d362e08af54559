//! The call that extends a shared map by several threads at once.

use crate::map_ref;
use flurry_base::hash::KeyHasher;
use flurry_shared::HashMap;
use std::alloc::{AllocError, Allocator};
use std::sync::Wait;
use std::thread::Threads;

/// Inserts the pairs of `list` by several threads at once. It starts as many threads as the map has processors, but at least 1 and at most
/// [`crate::MAX_WORKERS`]; [`HashMap::with_processors`] sets that number. The threads take pieces of `list`, of `part` pairs each, until
/// none is left; a `part` of `0` means 1. If a key comes twice, any one of its values stays. All threads have ended when the call returns.
///
/// One insertion for each pair. Takes the locks of [`HashMap::insert`] for each pair, and memory for each piece besides.
///
/// # Errors
///
/// Returns [`AllocError`] if memory for a piece cannot be allocated, if an insertion fails, or if a thread cannot be started. No further
/// piece is taken then; the other threads insert the rest of the pieces that they have. The pairs that were inserted stay, and all others
/// are dropped.
// No contract specifies what other threads leave in the map.
pub fn par_extend<
    K: Ord + Drop + Send + Sync,
    V: Drop + Send + Sync,
    S: KeyHasher<K> + Sync,
    A: Allocator + Copy + Send + Sync,
    R: Threads + Wait + Sync,
>(map: &HashMap<K, V, S, A>, rt: &R, list: Vec<(K, V), A>, part: usize) -> Result<(), AllocError> {
    map_ref::par_extend(&map.pin(rt), list, part)
}
