//! Sets of byte strings: all elements, and how many bytes they have.
ghost use Rattle.std.specs.Prelude.{◌≡◌, ◌⊎◌, ◌-◌, ◌^◌, ◌<◌, length, min, sum_by};
ghost use Rattle.flurry_base.specs.FiniteSet.{IsFiniteSet};
ghost use Rattle.flurry_c_base.specs.ByteStrings.{byte_order};
ghost use Rattle.flurry_c_base.specs.ByteSetWalks.{ListsElements};
ghost use Rattle.flurry_c.specs.ByteSetAnswers.{elements_of};
ghost use Rattle.flurry_c.specs.declared.statuses.TheConstants.{DONE, NO_ROOM};

use crate::statuses::{DONE, NO_ROOM};
use flurry_c_base::held_byte_set::HeldByteSet;

/// Returns how many bytes all elements have together, or `usize::MAX` if they have more.
#[unsafe(no_mangle)]
pub extern "C" fn flurry_byte_set_size(set: &mut HeldByteSet) -> usize
    ensures size { result ≡ min (sum_by length (elements_of set.old)) (2 ^ 64 - 1) }
    ensures same { set.new.set ≡ set.old.set }
{
    set.lend().size()
}

/// Writes all elements, each once, in any order, and returns [`DONE`]: the length of each to the beginning of `lengths`, and its bytes to
/// the beginning of `text`, where the next element follows without a gap.
///
/// Returns [`NO_ROOM`] and writes nothing if `lengths` is shorter than the set, or `text` than [`flurry_byte_set_size`] says.
#[unsafe(no_mangle)]
pub extern "C" fn flurry_byte_set_elements(
    set: &mut HeldByteSet,
    lengths: &mut [usize],
    text: &mut [u8],
) -> u8
    ensures told { ((result ≡ NO_ROOM)
        × ((length lengths.old < length (elements_of set.old))
        ⊎ (length text.old < sum_by length (elements_of set.old)))
        × (lengths.new ≡ lengths.old) × (text.new ≡ text.old))
        ⊎ ((result ≡ DONE) × ListsElements (elements_of set.old) lengths.old lengths.new text.old text.new) }
    ensures ascend { IsFiniteSet byte_order (elements_of set.old) }
    ensures same { set.new.set ≡ set.old.set }
{
    let held = set.lend();
    if lengths.len() < held.len() {
        return NO_ROOM;
    }
    if text.len() < held.size() {
        return NO_ROOM;
    }
    held.write_elements(lengths, text);
    DONE
}
