//! The set of numbers.
ghost use Rattle.std.specs.Ordering.{nat_cmp};
ghost use Rattle.std.specs.Prelude.{◌≡◌, ◌++◌, ◌≤◌, [], IfOk, IsTrue, OnErr, OnOk, drop, is_none, length, not};
ghost use Rattle.flurry_base.specs.declared.sizes.TheConstants.{FIRST_BINS};
ghost use Rattle.flurry_seq.specs.Contents.{first_bins};
ghost use Rattle.flurry_seq.specs.Growth.{IsTableAfter};
ghost use Rattle.flurry_base.specs.FiniteSet.{element_at};
ghost use Rattle.flurry_c_base.specs.SetInsertions.{AddsOrKeeps};
ghost use Rattle.flurry_c_base.specs.WordSetWalks.{ListsElements};

use crate::crossing::crossing;
use flurry_seq::Keys;
use flurry_seq_set::SeqSet;
use std::alloc::{AllocError, Global};

/// A set of numbers, over the default hasher.
#[derive(Drop)]
pub struct WordSet {
    pub set: SeqSet<u64>,
}

impl WordSet {
    /// Creates an empty set. Takes no memory. Another thread may have the set.
    pub fn new(alloc: Global) -> Self
        ensures { result.set.elements ≡ [] }
    {
        crossing(WordSet {
            set: SeqSet::new(alloc),
        })
    }

    /// Inserts `element`, and returns `true` if it was absent. If it was present, nothing changes.
    ///
    /// # Errors
    ///
    /// Returns [`AllocError`] if memory cannot be allocated, or if the element is new and the set has as many elements as it can. The set
    /// is unchanged.
    pub fn insert(&mut self, element: u64) -> Result<bool, AllocError>
        ensures new { IfOk result (λ new. new ≡ is_none (element_at nat_cmp self.old.set.elements element)) }
        ensures elements { OnOk result
            (AddsOrKeeps nat_cmp self.old.set.elements element self.new.set.elements) }
        ensures bins { IfOk result (λ new. IsTrue (not new) → self.new.set.bins ≡ self.old.set.bins) }
        ensures grown { IfOk result (λ new. IsTrue new
            → IsTableAfter (first_bins self.old.set.bins FIRST_BINS) (length self.new.set.elements) self.new.set.bins) }
        ensures err { OnErr result (self.new ≡ self.old) }
    {
        self.set.insert(element)
    }

    /// Writes all elements, each once, in any order, to the beginning of `elements`.
    pub fn write_elements(&self, elements: &mut [u64])
        requires { length self.now.set.elements ≤ length elements.old }
        ensures { ListsElements self.now.set.elements elements.old elements.new }
    {
        write_elements(self.set.iter(), elements);
    }
}

// Writes the elements that an iterator has left to the beginning of a buffer.
fn write_elements(elements: Keys<'_, u64, ()>, buffer: &mut [u64])
    requires { length elements ≤ length buffer.old }
    ensures { buffer.new ≡ elements.entry ++ drop (length elements.entry) buffer.old }
{
    let mut at = 0;
    for element in elements {
        buffer[at] = **element;
        at += 1;
    }
}
