//! All elements.
ghost use Rattle.std.specs.Prelude.{◌≡◌, ◌++◌, ◌-◌, ◌^◌, ◌≤◌, drop, length, map, min, sum_by};
ghost use Rattle.std.specs.List.{concat};
ghost use Rattle.flurry_base.specs.FiniteSet.{IsFiniteSet};
ghost use Rattle.flurry_c_base.specs.ByteStrings.{byte_order, bytes_of};
ghost use Rattle.flurry_c_base.specs.ByteSets.{elements_in};
ghost use Rattle.flurry_c_base.specs.ByteSetWalks.{ListsElements};

use super::ByteSet;
use crate::copying::copy_at;
use flurry_seq::Keys;

impl ByteSet {
    /// Returns the number of elements.
    #[tactic(auto, using(crate::proofs::ByteSetLaws::length_elements, crate::proofs::ByteOrder::ascend_bytes))]
    pub fn len(&self) -> usize
        ensures count { result ≡ length (elements_in self.now) }
        ensures ascend { IsFiniteSet byte_order (elements_in self.now) }
    {
        self.set.len()
    }

    /// Returns how many bytes all elements have, or `usize::MAX` if they have more.
    #[tactic(auto, using(crate::proofs::ByteSetLaws::size_of_elements))]
    pub fn size(&self) -> usize
        ensures { result ≡ min (sum_by length (elements_in self.now)) (2 ^ 64 - 1) }
    {
        size(self.set.iter())
    }

    /// Writes all elements, each once, in any order: the length of each to the beginning of `lengths`, and its bytes to the beginning of
    /// `text`, where the next element follows without a gap.
    pub fn write_elements(&self, lengths: &mut [usize], text: &mut [u8])
        requires count { length (elements_in self.now) ≤ length lengths.old }
        requires size { sum_by length (elements_in self.now) ≤ length text.old }
        ensures { ListsElements (elements_in self.now) lengths.old lengths.new text.old text.new }
    {
        write_elements(self.set.iter(), lengths, text);
    }
}

// How many bytes the elements have that an iterator has left, or `usize::MAX` if they have more.
fn size(elements: Keys<'_, Vec<u8>, ()>) -> usize
    ensures { result ≡ min (sum_by length (map bytes_of elements.entry)) (2 ^ 64 - 1) }
{
    let mut size: usize = 0;
    for element in elements {
        size = size.saturating_add(element.len());
    }
    size
}

// Writes the elements that an iterator has left to the beginning of both buffers.
fn write_elements(elements: Keys<'_, Vec<u8>, ()>, lengths: &mut [usize], text: &mut [u8])
    requires count { length elements ≤ length lengths.old }
    requires size { sum_by length (map bytes_of elements) ≤ length text.old }
    ensures lengths { lengths.new
        ≡ map length (map bytes_of elements.entry) ++ drop (length elements.entry) lengths.old }
    ensures text { let bytes = concat (map bytes_of elements.entry) in
        text.new ≡ bytes ++ drop (length bytes) text.old }
{
    let mut at = 0;
    let mut end = 0;
    for element in elements {
        lengths[at] = element.len();
        end = copy_at(element.as_slice(), text, end);
        at += 1;
    }
}
