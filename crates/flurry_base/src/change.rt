//! What a call did that may put, change or remove a pair.
use std::alloc::{Allocator, Global};
use std::sync::Arc;

/// What `compute` or `merge` did to the pair of a key.
///
/// ```
/// match map.compute(key, f)? {
///     Change::Added(new) | Change::Changed(new) => Ok(Some(*new)),
///     Change::Absent | Change::Removed(_) => Ok(None),
/// }
/// ```
#[derive(Drop)]
#[derive_where(Debug, PartialEq, Eq; V)]
pub enum Change<V, A: Allocator = Global> {
    /// The key was absent, and still is.
    Absent,
    /// The key was absent, and has this value now.
    Added(Arc<V, A>),
    /// The key was present, and has this value now, in place of the one that it had.
    Changed(Arc<V, A>),
    /// The key was present with this value, and is absent now.
    Removed(Arc<V, A>),
}
