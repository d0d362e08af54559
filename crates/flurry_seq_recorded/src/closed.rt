//! A recorded map that has been closed, and the faults for which it cannot be closed.
ghost use Rattle.std.specs.Prelude.{◌≡◌};
ghost use Rattle.flurry_seq_recorded.specs.Faults.{fault_number, fault_text};

use crate::kept::KeptEntry;
use flurry_base::hash::{DefaultHashBuilder, KeyHasher};
use flurry_seq::SeqMap;
use std::alloc::{Allocator, Global};
use std::error::Error;
use std::fmt;

/// The map and the history of a recorded map that has been closed.
///
/// ```
/// (closed.history.len(), closed.map.len())
/// ```
#[derive(Drop)]
pub struct Closed<K: Ord, V, S: KeyHasher<K> = DefaultHashBuilder, A: Allocator = Global> {
    /// The map, as the calls of the history left it.
    pub map: SeqMap<K, V, S, A>,
    /// The calls with their replies, oldest first.
    pub history: Vec<KeptEntry<K, V>, A>,
}

/// The reason why a recorded map and its shares do not fit.
///
/// ```
/// match fault {
///     CloseFault::SharesDiffer | CloseFault::ReceiptsDiffer | CloseFault::PlacesDiffer => true,
///     CloseFault::NoMemory => false,
/// }
/// ```
#[derive(Clone, Copy, Debug, PartialEq, Eq)]
pub enum CloseFault {
    /// A share of the map is missing or comes twice, a share is not one of the map's, or the number of receipts is not the number of the
    /// map's calls.
    SharesDiffer,
    /// A receipt does not have the call and the reply that the history has at its place.
    ReceiptsDiffer,
    /// The places of a share do not ascend in the order of its receipts, or two receipts name one place.
    PlacesDiffer,
    /// Memory could not be allocated.
    NoMemory,
}

impl CloseFault {
    /// Returns the number of the fault, in the order in which the faults are looked for: 1 for [`CloseFault::SharesDiffer`], 2 for
    /// [`CloseFault::ReceiptsDiffer`], 3 for [`CloseFault::PlacesDiffer`], and 4 for [`CloseFault::NoMemory`].
    pub fn number(self) -> u8
        ensures { result ≡ fault_number self }
    {
        match self {
            CloseFault::SharesDiffer => 1,
            CloseFault::ReceiptsDiffer => 2,
            CloseFault::PlacesDiffer => 3,
            CloseFault::NoMemory => 4,
        }
    }
}

impl fmt::Display for CloseFault {
    ghost output = { λ f. fault_text f };

    fn fmt<W: fmt::Write>(&self, f: &mut fmt::Formatter<W>) -> fmt::Result {
        f.write_str(match self {
            CloseFault::SharesDiffer => {
                "the shares are not those of the map, or have not as many receipts as it has calls"
            }
            CloseFault::ReceiptsDiffer => {
                "a receipt is not the call and the reply at its place in the history"
            }
            CloseFault::PlacesDiffer => {
                "the places of a share do not ascend, or two receipts name one place"
            }
            CloseFault::NoMemory => "out of memory",
        })
    }
}

impl Error for CloseFault {}
