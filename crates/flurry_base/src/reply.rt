//! The reply of a one-key call, with plain keys and values.

/// The reply of a one-key call, as a history keeps it.
///
/// ```
/// match reply {
///     KeptReply::Value(value) => value,
///     KeptReply::Pair(pair) => pair.map(|(_, value)| value),
///     KeptReply::Contains(_) => None,
///     KeptReply::New(value) => Some(value),
///     KeptReply::Changed { new, .. } => Some(new),
///     KeptReply::Exists { current, .. } => Some(current),
/// }
/// ```
#[derive(Clone, Copy, Debug, PartialEq, Eq)]
pub enum KeptReply<K, V> {
    /// A value, or `None`.
    Value(Option<V>),
    /// A stored key and its value, or `None`.
    Pair(Option<(K, V)>),
    /// Whether the key is present.
    Contains(bool),
    /// The value that was inserted at an absent key.
    New(V),
    /// The value that a present key has now, and the value that it had.
    Changed {
        /// The value that the key has now.
        new: V,
        /// The value that the key had.
        old: V,
    },
    /// The value that a present key has, and the value that was not inserted.
    Exists {
        /// The value that the key has.
        current: V,
        /// The value that was not inserted.
        not_inserted: V,
    },
}
