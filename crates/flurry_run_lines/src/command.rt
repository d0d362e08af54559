//! The commands that a line can give.

/// A command on the map, as a line gives it.
///
/// ```
/// match parse(line)? {
///     Command::Insert(key, _) | Command::Try(key, _) => Some(key),
///     Command::Get(key) | Command::Remove(key) => Some(key),
///     Command::Len | Command::Bins => None,
/// }
/// ```
#[derive(Clone, Copy, Debug, PartialEq, Eq)]
pub enum Command {
    /// The line `insert K V`.
    Insert(u64, u64),
    /// The line `try K V`.
    Try(u64, u64),
    /// The line `get K`.
    Get(u64),
    /// The line `remove K`.
    Remove(u64),
    /// The line `len`.
    Len,
    /// The line `bins`.
    Bins,
}
