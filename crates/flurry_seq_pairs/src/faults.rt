//! The error of making a map from pairs.
ghost use Rattle.std.specs.Prelude.{◌≡◌};
ghost use Rattle.flurry_seq_pairs.specs.declared.faults.FromPairsError.TheVariants.{NoMemory};

use std::alloc::AllocError;
use thiserror::Error;

/// The reason why [`crate::map::from_pairs`] makes no map.
///
/// ```
/// match pairs::into_seq_map(list, DefaultHashBuilder::default()) {
///     Err(FromPairsError::DoubledKey(position)) => Some(position),
///     _ => None,
/// }
/// ```
#[derive(Clone, Copy, Debug, PartialEq, Eq, Error)]
pub enum FromPairsError {
    /// Memory could not be allocated.
    #[error("memory is wanting")]
    NoMemory,
    /// The position, counted from 0, of the first pair whose key is equal to an earlier key.
    #[error("the key at position {0} stood before")]
    DoubledKey(usize),
}

impl From<AllocError> for FromPairsError {
    ghost from_gives = { λ _ e. e ≡ NoMemory };

    fn from(_: AllocError) -> FromPairsError {
        FromPairsError::NoMemory
    }
}
