//! Calls as a history keeps them.

use flurry_base::reply::KeptReply;

/// A one-key call, as a history keeps it. A call that computes cannot be in a history, since its function cannot be kept.
///
/// ```
/// let (place, _reply) = book.call(KeptCall::Insert(key, value))?;
/// Ok(place)
/// ```
#[derive(Clone, Copy, Debug, PartialEq, Eq)]
pub enum KeptCall<K, V> {
    /// A look-up of the value of a key.
    Get(K),
    /// A look-up of the stored key and the value of a key.
    GetKeyValue(K),
    /// A test whether a key is present.
    ContainsKey(K),
    /// A write of a value.
    Insert(K, V),
    /// A write of a value if the key is absent.
    TryInsert(K, V),
    /// A removal of the pair of a key, which returns its value.
    Remove(K),
    /// A removal of the pair of a key, which returns the stored key and the value.
    RemoveEntry(K),
}

/// A call, and its reply.
///
/// ```
/// match (entry.call, entry.reply) {
///     (KeptCall::Insert(_, _), KeptReply::Value(None)) => true,
///     _ => false,
/// }
/// ```
#[derive(Clone, Copy, Debug, PartialEq, Eq)]
pub struct KeptEntry<K, V> {
    /// The call.
    pub call: KeptCall<K, V>,
    /// The reply of the call.
    pub reply: KeptReply<K, V>,
}
