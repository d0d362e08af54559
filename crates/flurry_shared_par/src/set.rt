//! The call that extends a shared set by several threads at once.

use crate::set_ref;
use flurry_base::hash::KeyHasher;
use flurry_shared_set::HashSet;
use std::alloc::{AllocError, Allocator};
use std::sync::Wait;
use std::thread::Threads;

/// Inserts the elements of `list` by several threads at once, as [`crate::map::par_extend`] inserts pairs. Of equal elements any one stays;
/// but if the set has an equal element already, that one stays.
///
/// # Errors
///
/// Returns [`AllocError`] if memory for a piece cannot be allocated, if an insertion fails, or if a thread cannot be started. No further
/// piece is taken then; the other threads insert the rest of the pieces that they have. The elements that were inserted stay, and all
/// others are dropped.
// No contract specifies what other threads leave in the set.
pub fn par_extend<
    T: Ord + Drop + Send + Sync,
    S: KeyHasher<T> + Sync,
    A: Allocator + Copy + Send + Sync,
    R: Threads + Wait + Sync,
>(set: &HashSet<T, S, A>, rt: &R, list: Vec<T, A>, part: usize) -> Result<(), AllocError> {
    set_ref::par_extend(&set.pin(rt), list, part)
}
