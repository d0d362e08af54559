//! All pairs.
ghost use Rattle.std.specs.Prelude.{◌≡◌, ◌++◌, ◌-◌, ◌^◌, ◌≤◌, drop, flat_map, length, map, min, sum_by};
ghost use Rattle.flurry_base.specs.FiniteMap.{IsFiniteMap};
ghost use Rattle.flurry_c_base.specs.ByteMaps.{bytes_in, bytes_of_pair};
ghost use Rattle.flurry_c_base.specs.ByteStrings.{byte_order};
ghost use Rattle.flurry_c_base.specs.ByteWalks.{size_of, lengths_of, text_of, ListsPairs};

use super::ByteMap;
use crate::byte_pair::BytePair;
use crate::copying::copy_pair;
use flurry_seq::Iter;

impl ByteMap {
    /// Returns the number of pairs.
    #[tactic(auto, using(crate::proofs::ByteLaws::length_bytes, crate::proofs::ByteOrder::ascend_keys))]
    pub fn len(&self) -> usize
        ensures count { result ≡ length (bytes_in self.now) }
        ensures ascend { IsFiniteMap byte_order (bytes_in self.now) }
    {
        self.map.len()
    }

    /// Returns how many bytes all keys and values have, or `usize::MAX` if they have more.
    #[tactic(auto, using(crate::proofs::ByteWalkLaws::size_of_bytes))]
    pub fn size(&self) -> usize
        ensures { result ≡ min (sum_by size_of (bytes_in self.now)) (2 ^ 64 - 1) }
    {
        size(self.map.iter())
    }

    /// Writes all pairs, each once, in any order: for each pair the lengths of its key and of its value to the beginning of `pairs`, and
    /// its key and then its value to the beginning of `text`, where the next pair follows without a gap.
    pub fn write_pairs(&self, pairs: &mut [BytePair], text: &mut [u8])
        requires count { length (bytes_in self.now) ≤ length pairs.old }
        requires size { sum_by size_of (bytes_in self.now) ≤ length text.old }
        ensures { ListsPairs (bytes_in self.now) pairs.old pairs.new text.old text.new }
    {
        write_pairs(self.map.iter(), pairs, text);
    }
}

// How many bytes the pairs have that an iterator has left, or `usize::MAX` if they have more.
fn size(pairs: Iter<'_, Vec<u8>, Vec<u8>>) -> usize
    ensures { result ≡ min (sum_by size_of (map bytes_of_pair pairs.entry)) (2 ^ 64 - 1) }
{
    let mut size: usize = 0;
    for (key, value) in pairs {
        size = size.saturating_add(key.len()).saturating_add(value.len());
    }
    size
}

// Writes the pairs that an iterator has left to the beginning of both buffers.
fn write_pairs(pairs: Iter<'_, Vec<u8>, Vec<u8>>, lengths: &mut [BytePair], text: &mut [u8])
    requires count { length pairs ≤ length lengths.old }
    requires size { sum_by size_of (map bytes_of_pair pairs) ≤ length text.old }
    ensures lengths { lengths.new
        ≡ map lengths_of (map bytes_of_pair pairs.entry) ++ drop (length pairs.entry) lengths.old }
    ensures text { let bytes = flat_map text_of (map bytes_of_pair pairs.entry) in
        text.new ≡ bytes ++ drop (length bytes) text.old }
{
    let mut at = 0;
    let mut end = 0;
    for (key, value) in pairs {
        lengths[at] = BytePair {
            key: key.len(),
            value: value.len(),
        };
        end = copy_pair(key.as_slice(), value.as_slice(), text, end);
        at += 1;
    }
}
