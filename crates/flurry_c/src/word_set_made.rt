//! Sets of numbers: made and freed.
ghost use Rattle.std.specs.Prelude.{◌≡◌, ◌⊎◌, [], None, IfNone, IsSomeAnd};
ghost use Rattle.std.specs.Ptr.{null_ptr};
ghost use Rattle.flurry_c.specs.declared.statuses.TheConstants.{DONE, NO_MEMORY};

use crate::statuses::{DONE, NO_MEMORY};
use flurry_c_base::loose::Loose;
use flurry_c_base::word_set::WordSet;
use flurry_c_base::word_set_slot::WordSetSlot;
use std::alloc::Global;
use std::mem;

/// Makes an empty set, whose address is then in `set`, and returns [`DONE`].
///
/// Returns [`NO_MEMORY`] if memory cannot be allocated. The address is then null.
#[unsafe(no_mangle)]
pub extern "C" fn flurry_word_set_new(alloc: Global, set: &mut WordSetSlot) -> u8
    requires { set.old.set ≡ None }
    ensures { ((result ≡ DONE) × IsSomeAnd set.new.set (λ made. made.set.elements ≡ []))
        ⊎ ((result ≡ NO_MEMORY) × (set.new.set ≡ None) × (set.new.at ≡ null_ptr)) }
{
    match Box::new(alloc, WordSet::new(alloc)) {
        Ok(made) => {
            *set = WordSetSlot::of_loose(Loose::of_box(made, alloc));
            DONE
        }
        Err(_) => {
            *set = WordSetSlot::vacant(alloc);
            NO_MEMORY
        }
    }
}

/// Frees the set and makes its address null. Does nothing if the address is null.
#[unsafe(no_mangle)]
pub extern "C" fn flurry_word_set_free(alloc: Global, set: &mut WordSetSlot)
    requires { IfNone set.old.set (set.old.at ≡ null_ptr) }
    ensures { (set.new.set ≡ None) × (set.new.at ≡ null_ptr) }
{
    let held = mem::replace(set, WordSetSlot::vacant(alloc));
    if let Some(made) = held.into_loose() {
        drop(made.into_box());
    }
}
