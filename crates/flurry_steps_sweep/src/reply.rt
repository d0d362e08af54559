//! The replies of the calls of a shared map.

use flurry_base::try_insert::TryInsertError;
use std::alloc::{Allocator, Global};
use std::sync::Arc;

/// The reply of a call of a shared map.
///
/// ```
/// match drive_alone(rt, call, &LowHashBuilder, 1, parts) {
///     Reply::Value(_) => true,
///     _ => false,
/// }
/// ```
#[derive(Drop)]
pub enum Reply<K, V, A: Allocator = Global> {
    /// A value, or `None`: the stored value for `Get`, the removed value for `Remove` and `RemoveSeen`, the old value for `Insert`, and
    /// the new value for `Compute`.
    Value(Option<Arc<V, A>>),
    /// The stored key and its value, or `None`, for `GetKeyValue` and `RemoveEntry`, and for an alteration that removed the pair.
    Pair(Option<(Arc<K, A>, Arc<V, A>)>),
    /// Whether the key is present, for `ContainsKey`, and for an alteration that changed nothing.
    Contains(bool),
    /// The value that was inserted, for `TryInsert` or an alteration if the key was absent.
    New(Arc<V, A>),
    /// The value that a present key has now, and the value that it had, for an alteration that set a value.
    Changed {
        /// The value that the key has now.
        new: Arc<V, A>,
        /// The value that the key had.
        old: Arc<V, A>,
    },
    /// The value that the key has, and the value that was not inserted, for `TryInsert` if the key is present.
    Exists(TryInsertError<V, A>),
    /// The end of a call that returns nothing: `Reserve`, `Clear` or `Walk`.
    Ended,
    /// The failure of a call: memory could not be allocated.
    Refused,
}
