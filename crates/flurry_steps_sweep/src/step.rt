//! What a call needs for its next step, and what a step did.

/// The part of a shared map that the next step of a call needs.
///
/// ```
/// match want {
///     Want::Look(table, index) | Want::Bin(table, index) | Want::Move(table, index) => {
///         Some((table, index))
///     }
///     Want::Control | Want::Seat(_) | Want::Board(_) | Want::Give(_) | Want::Done => None,
/// }
/// ```
#[derive(Clone, Copy, Debug, PartialEq, Eq)]
pub enum Want {
    /// The control, and the room where tables are made.
    Control,
    /// The slot of the given table and index, to read.
    Look(u8, usize),
    /// The slot of the given table and index, to write.
    Bin(u8, usize),
    /// The slot of the given table and index, and its two halves in the next table, to move the bin.
    Move(u8, usize),
    /// A seat at the board of the growth from the given table.
    Seat(u8),
    /// The board of the growth from the given table, to claim a range there, or to report one.
    Board(u8),
    /// The place where its seat at the board of the growth from the given table is given back.
    Give(u8),
    /// Nothing: the call is done.
    Done,
}

/// What a step of a call did.
///
/// ```
/// match event {
///     Event::Opened(table) | Event::Published(table) => Some(table),
///     _ => None,
/// }
/// ```
#[derive(Clone, Copy, Debug, PartialEq, Eq)]
pub enum Event {
    /// A one-key call decided: it has its reply, and has made its change to the map, if any.
    Decide,
    /// A walk read a pair.
    Read,
    /// A clear emptied the bin of the given table and index.
    Wipe(u8, usize),
    /// Memory for the call could not be allocated, and the call is done.
    Refused,
    /// The first table, of the given exponent, was made and published.
    Opened(u8),
    /// The table of the given exponent was made, and the growth that fills it began.
    Placed(u8),
    /// The bin of the given table and index was moved.
    Moved(u8, usize),
    /// The table of the given exponent was published.
    Published(u8),
    /// Any other step.
    Silent,
}
