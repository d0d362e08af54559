//! Whether the values of a type can be cloned.
//!
//! A contract is about values, and cannot say that a type lacks an impl. A call of [`CloneProbe::is_there`] by its type is the inherent
//! function if the type is `Clone`, and else that of [`NotClone`]. So its result is known where the call is written.
ghost use Rattle.std.specs.Prelude.{◌≡◌, true, false};

use std::marker::PhantomData;

/// A type of which [`CloneProbe::is_there`] says whether its values can be cloned.
///
/// ```
/// assert!(rt; CloneProbe::<u64>::is_there());
/// ```
pub struct CloneProbe<T> {
    of: PhantomData<T>,
}

impl<T: Clone> CloneProbe<T> {
    /// Returns `true`: the values of the type can be cloned.
    pub fn is_there() -> bool
        ensures { result ≡ true }
    {
        true
    }
}

/// The result of [`CloneProbe::is_there`] for a type that is not `Clone`.
///
/// ```
/// assert!(rt; !CloneProbe::<Receipt>::is_there());
/// ```
pub trait NotClone {
    /// Returns `false`: the values of the type cannot be cloned.
    fn is_there() -> bool
        ensures { result ≡ false };
}

impl<T> NotClone for CloneProbe<T> {
    fn is_there() -> bool {
        false
    }
}
