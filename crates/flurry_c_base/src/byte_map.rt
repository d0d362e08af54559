//! The map of bytes. Its calls take slices, and copy what they keep.
ghost use Rattle.std.specs.Prelude.{◌≡◌, []};

mod calls;
mod walk;

use crate::crossing::crossing;
use flurry_seq::SeqMap;
use std::alloc::Global;

/// A map from bytes to bytes, over the default hasher.
#[derive(Drop)]
pub struct ByteMap {
    pub map: SeqMap<Vec<u8>, Vec<u8>>,
}

impl ByteMap {
    /// Creates an empty map. Takes no memory. Another thread may have the map.
    pub fn new(alloc: Global) -> Self
        ensures { result.map.pairs ≡ [] }
    {
        crossing(ByteMap {
            map: SeqMap::new(alloc),
        })
    }
}
