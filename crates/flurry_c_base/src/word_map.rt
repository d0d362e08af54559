//! The map of numbers.
ghost use Rattle.std.specs.Prelude.{◌≡◌, ◌++◌, ◌≤◌, [], drop, length, map};
ghost use Rattle.flurry_c_base.specs.WordWalks.{pair_of, ListsPairs};

use crate::crossing::crossing;
use crate::word_pair::WordPair;
use flurry_seq::{Iter, SeqMap};
use std::alloc::Global;

/// A map from numbers to numbers, over the default hasher.
#[derive(Drop)]
pub struct WordMap {
    pub map: SeqMap<u64, u64>,
}

impl WordMap {
    /// Creates an empty map. Takes no memory. Another thread may have the map.
    pub fn new(alloc: Global) -> Self
        ensures { result.map.pairs ≡ [] }
    {
        crossing(WordMap {
            map: SeqMap::new(alloc),
        })
    }

    /// Writes all pairs, each once, in any order, to the beginning of `pairs`.
    pub fn write_pairs(&self, pairs: &mut [WordPair])
        requires { length self.now.map.pairs ≤ length pairs.old }
        ensures { ListsPairs self.now.map.pairs pairs.old pairs.new }
    {
        write_pairs(self.map.iter(), pairs);
    }
}

// Writes the pairs that an iterator has left to the beginning of a buffer.
fn write_pairs(pairs: Iter<'_, u64, u64>, buffer: &mut [WordPair])
    requires { length pairs ≤ length buffer.old }
    ensures { buffer.new ≡ map pair_of pairs.entry ++ drop (length pairs.entry) buffer.old }
{
    let mut at = 0;
    for (key, value) in pairs {
        buffer[at] = WordPair {
            key: **key,
            value: **value,
        };
        at += 1;
    }
}
