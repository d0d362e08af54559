//! Sets of byte strings: made and freed.
ghost use Rattle.std.specs.Prelude.{◌≡◌, ◌⊎◌, [], None, IfNone, IsSomeAnd};
ghost use Rattle.std.specs.Ptr.{null_ptr};
ghost use Rattle.flurry_c_base.specs.ByteSets.{elements_in};
ghost use Rattle.flurry_c.specs.declared.statuses.TheConstants.{DONE, NO_MEMORY};

use crate::statuses::{DONE, NO_MEMORY};
use flurry_c_base::byte_set::ByteSet;
use flurry_c_base::byte_set_slot::ByteSetSlot;
use flurry_c_base::loose::Loose;
use std::alloc::Global;
use std::mem;

/// Makes an empty set, whose address is then in `set`, and returns [`DONE`].
///
/// Returns [`NO_MEMORY`] if memory cannot be allocated. The address is then null.
#[unsafe(no_mangle)]
pub extern "C" fn flurry_byte_set_new(alloc: Global, set: &mut ByteSetSlot) -> u8
    requires { set.old.set ≡ None }
    ensures { ((result ≡ DONE) × IsSomeAnd set.new.set (λ made. elements_in made ≡ []))
        ⊎ ((result ≡ NO_MEMORY) × (set.new.set ≡ None) × (set.new.at ≡ null_ptr)) }
{
    match Box::new(alloc, ByteSet::new(alloc)) {
        Ok(made) => {
            *set = ByteSetSlot::of_loose(Loose::of_box(made, alloc));
            DONE
        }
        Err(_) => {
            *set = ByteSetSlot::vacant(alloc);
            NO_MEMORY
        }
    }
}

/// Frees the set, with its elements, and makes its address null. Does nothing if the address is null.
#[unsafe(no_mangle)]
pub extern "C" fn flurry_byte_set_free(alloc: Global, set: &mut ByteSetSlot)
    requires { IfNone set.old.set (set.old.at ≡ null_ptr) }
    ensures { (set.new.set ≡ None) × (set.new.at ≡ null_ptr) }
{
    let held = mem::replace(set, ByteSetSlot::vacant(alloc));
    if let Some(made) = held.into_loose() {
        drop(made.into_box());
    }
}
