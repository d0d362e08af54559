//! What an exported function tells its caller, as a number. `include/flurry.h` names the same.

/// The key was absent.
pub const ABSENT: u8 = 0;

/// The key was present.
pub const PRESENT: u8 = 1;

/// The call did what it is for.
pub const DONE: u8 = 2;

/// Memory could not be allocated.
pub const NO_MEMORY: u8 = 3;

/// A buffer of the caller is too small.
pub const NO_ROOM: u8 = 4;
