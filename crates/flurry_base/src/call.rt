//! Calls on a map, as plain values.

/// A pair that a walk has read, with the write number of its value.
///
/// ```
/// match call {
///     Call::Insert(_, value) | Call::TryInsert(_, value) => Some(value),
///     Call::RemoveSeen(Seen { value, .. }) => Some(value),
///     _ => None,
/// }
/// ```
#[derive(Clone, Copy, Debug)]
pub struct Seen<K, V> {
    /// The stored key.
    pub key: K,
    /// The value.
    pub value: V,
    /// The write number of the value.
    pub number: u64,
}

/// A call on a map, with its key and value.
///
/// ```
/// match call {
///     Call::Insert(_, value) | Call::TryInsert(_, value) => Some(value),
///     Call::RemoveSeen(Seen { value, .. }) => Some(value),
///     _ => None,
/// }
/// ```
#[derive(Clone, Copy, Debug)]
pub enum Call<K, V, F> {
    /// A look-up of the value of a key.
    Get(K),
    /// A look-up of the stored key and the value of a key.
    GetKeyValue(K),
    /// A check whether a key is present.
    ContainsKey(K),
    /// A write of a value at a key.
    Insert(K, V),
    /// A write of a value at a key, if the key is absent.
    TryInsert(K, V),
    /// A call of a function on the pair of a key. The value that it returns is written; if it returns `None`, the pair is removed.
    Compute(K, F),
    /// A call of a function on the value of a key, or on none. The pair becomes what the function returns, a [`Verdict`](crate::Verdict).
    Alter {
        /// The key.
        key: K,
        /// Whether a pair may be added. If it is `false`, the function is not called if the key is absent.
        may_add: bool,
        /// The function.
        f: F,
    },
    /// A removal of the pair of a key, which returns the value.
    Remove(K),
    /// A removal of the pair of a key, which returns the stored key and the value.
    RemoveEntry(K),
    /// A removal of a pair that was read, if it is still as it was read.
    RemoveSeen(Seen<K, V>),
    /// A reservation of room for the given number of additional pairs.
    Reserve(usize),
    /// A removal of all pairs, one bin after another.
    Clear,
    /// A walk, which reads all pairs, one bin after another.
    Walk,
}
