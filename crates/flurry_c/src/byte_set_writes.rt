//! Sets of byte strings: calls that change them.
ghost use Rattle.std.specs.Prelude.{◌≡◌, ◌⊎◌, [], length};
ghost use Rattle.flurry_base.specs.FiniteSet.{without_element};
ghost use Rattle.flurry_base.specs.Sizes.{IsGrown};
ghost use Rattle.flurry_base.specs.declared.sizes.TheConstants.{FIRST_BINS};
ghost use Rattle.flurry_seq.specs.Growth.{IsTableAfter};
ghost use Rattle.flurry_seq.specs.Contents.{first_bins};
ghost use Rattle.flurry_seq_set.specs.SetContents.{asked_for};
ghost use Rattle.flurry_c_base.specs.ByteStrings.{byte_order};
ghost use Rattle.flurry_c_base.specs.SetInsertions.{AddsOrKeeps};
ghost use Rattle.flurry_c.specs.ByteSetAnswers.{elements_of, found_in};
ghost use Rattle.flurry_c.specs.Presence.{Finds};
ghost use Rattle.flurry_c.specs.declared.statuses.TheConstants.{ABSENT, DONE, NO_MEMORY, PRESENT};

use crate::statuses::{ABSENT, DONE, NO_MEMORY, PRESENT};
use flurry_c_base::held_byte_set::HeldByteSet;
use std::alloc::Global;

/// Inserts an element, of which the set keeps a copy, and returns [`ABSENT`]. If it is present, nothing changes, and [`PRESENT`] is
/// returned.
///
/// Returns [`NO_MEMORY`] if memory cannot be allocated, or if the element is new and the set has as many elements as it can. The set is
/// unchanged then.
#[unsafe(no_mangle)]
pub extern "C" fn flurry_byte_set_insert(alloc: Global, set: &mut HeldByteSet, element: &[u8]) -> u8
    ensures reply { ((result ≡ NO_MEMORY) × (set.new.set ≡ set.old.set))
        ⊎ (Finds (found_in set.old element.now) result
        × AddsOrKeeps byte_order (elements_of set.old) element.now (elements_of set.new)) }
    ensures bins { result ≡ PRESENT → set.new.set.set.bins ≡ set.old.set.set.bins }
    ensures grown { result ≡ ABSENT → IsTableAfter (first_bins set.old.set.set.bins FIRST_BINS)
        (length set.new.set.set.elements) set.new.set.set.bins }
{
    match set.lend().insert(alloc, element) {
        Ok(true) => ABSENT,
        Ok(false) => PRESENT,
        Err(_) => NO_MEMORY,
    }
}

/// Removes the element, and returns [`PRESENT`], or [`ABSENT`] if there was none.
#[unsafe(no_mangle)]
pub extern "C" fn flurry_byte_set_remove(set: &mut HeldByteSet, element: &[u8]) -> u8
    ensures found { Finds (found_in set.old element.now) result }
    ensures elements { elements_of set.new ≡ without_element byte_order (elements_of set.old) element.now }
    ensures bins { set.new.set.set.bins ≡ set.old.set.set.bins }
{
    if set.lend().remove(element) {
        PRESENT
    } else {
        ABSENT
    }
}

/// Removes all elements. The set keeps the memory of its table.
#[unsafe(no_mangle)]
pub extern "C" fn flurry_byte_set_clear(set: &mut HeldByteSet)
    ensures elements { elements_of set.new ≡ [] }
    ensures bins { set.new.set.set.bins ≡ set.old.set.set.bins }
{
    set.lend().set.clear();
}

/// Makes room in the table for `additional` more elements, and returns [`DONE`]. The elements stay.
///
/// Returns [`NO_MEMORY`] if memory for the larger table cannot be allocated. The set is unchanged then.
#[unsafe(no_mangle)]
pub extern "C" fn flurry_byte_set_reserve(set: &mut HeldByteSet, additional: usize) -> u8
    ensures elements { elements_of set.new ≡ elements_of set.old }
    ensures room { let old = set.old.set.set in let bins = asked_for old additional in
        ((result ≡ NO_MEMORY) × (set.new.set ≡ set.old.set))
        ⊎ ((result ≡ DONE) × IsGrown (first_bins old.bins bins) bins set.new.set.set.bins) }
{
    match set.lend().set.reserve(additional) {
        Ok(()) => DONE,
        Err(_) => NO_MEMORY,
    }
}
