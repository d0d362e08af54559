//! Sets of numbers: all elements.
ghost use Rattle.std.specs.Ordering.{nat_cmp};
ghost use Rattle.std.specs.Prelude.{◌≡◌, ◌⊎◌, ◌<◌, length};
ghost use Rattle.flurry_base.specs.FiniteSet.{IsFiniteSet};
ghost use Rattle.flurry_c_base.specs.WordSetWalks.{ListsElements};
ghost use Rattle.flurry_c.specs.WordSetAnswers.{elements_of};
ghost use Rattle.flurry_c.specs.declared.statuses.TheConstants.{DONE, NO_ROOM};

use crate::statuses::{DONE, NO_ROOM};
use flurry_c_base::held_word_set::HeldWordSet;

/// Writes all elements to the beginning of `elements`, each once, in any order, and returns [`DONE`].
///
/// Returns [`NO_ROOM`] and writes nothing if `elements` is shorter than the set.
#[unsafe(no_mangle)]
pub extern "C" fn flurry_word_set_elements(set: &mut HeldWordSet, elements: &mut [u64]) -> u8
    ensures told { ((result ≡ NO_ROOM) × (length elements.old < length (elements_of set.old))
        × (elements.new ≡ elements.old))
        ⊎ ((result ≡ DONE) × ListsElements (elements_of set.old) elements.old elements.new) }
    ensures ascend { IsFiniteSet nat_cmp (elements_of set.old) }
    ensures same { set.new.set ≡ set.old.set }
{
    let held = set.lend();
    if elements.len() < held.set.len() {
        return NO_ROOM;
    }
    held.write_elements(elements);
    DONE
}
