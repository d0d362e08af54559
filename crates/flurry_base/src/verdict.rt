//! What a function makes of the pair of a key.

/// What a function that saw the value of a key, or that there is none, makes of the pair.
///
/// ```
/// match verdict {
///     Verdict::Set(value) => Some(value),
///     Verdict::Keep | Verdict::Remove => None,
/// }
/// ```
#[derive(Clone, Copy, Debug, PartialEq, Eq)]
pub enum Verdict<V> {
    /// A present pair stays as it is, and an absent key stays absent.
    Keep,
    /// The key has this value.
    Set(V),
    /// A present pair is removed, and an absent key stays absent.
    Remove,
}
