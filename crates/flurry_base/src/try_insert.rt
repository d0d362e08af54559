//! The error of an insertion whose key is present.
ghost use Rattle.flurry_base.specs.TryInsert.{try_insert_text};

use std::alloc::{Allocator, Global};
use std::error::Error;
use std::fmt;
use std::sync::Arc;

/// The error of `try_insert` if the key is present: the value that the key has, and the value that was not inserted.
///
/// Its `Display` form is `Insert of "A" failed as key was already present with value "B"`, where A and B are the `Debug` forms of
/// `not_inserted` and `current`.
///
/// ```
/// match map.try_insert(key, value)? {
///     Ok(_) => Ok(None),
///     Err(error) => Ok(Some((*error.current, error.not_inserted))),
/// }
/// ```
#[derive(Drop)]
#[derive_where(Debug, PartialEq, Eq; V)]
pub struct TryInsertError<V, A: Allocator = Global> {
    /// The value that the key has.
    pub current: Arc<V, A>,
    /// The value that was passed in, which was not inserted.
    pub not_inserted: V,
}

impl<V: fmt::Debug, A: Allocator> fmt::Display for TryInsertError<V, A> {
    ghost use Rattle.std.specs.Arc.{arc_value};

    ghost output = { λ e. try_insert_text (V.debug_output e.not_inserted) (V.debug_output (arc_value e.current)) };

    fn fmt<W: fmt::Write>(&self, f: &mut fmt::Formatter<W>) -> fmt::Result {
        write!(
            f,
            "Insert of \"{:?}\" failed as key was already present with value \"{:?}\"",
            self.not_inserted, self.current
        )
    }
}

impl<V: fmt::Debug + Drop, A: Allocator> Error for TryInsertError<V, A> {}
