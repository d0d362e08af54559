//! The set of byte strings. Its calls take slices, and copy what they keep.
ghost use Rattle.std.specs.Prelude.{◌≡◌, []};

mod calls;
mod walk;

use crate::crossing::crossing;
use flurry_seq_set::SeqSet;
use std::alloc::Global;

/// A set of byte strings, over the default hasher.
#[derive(Drop)]
pub struct ByteSet {
    pub set: SeqSet<Vec<u8>>,
}

impl ByteSet {
    /// Creates an empty set. Takes no memory. Another thread may have the set.
    pub fn new(alloc: Global) -> Self
        ensures { result.set.elements ≡ [] }
    {
        crossing(ByteSet {
            set: SeqSet::new(alloc),
        })
    }
}
