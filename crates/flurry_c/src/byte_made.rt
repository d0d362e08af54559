//! Maps of bytes: made and freed.
ghost use Rattle.std.specs.Prelude.{◌≡◌, ◌⊎◌, [], None, IfNone, IsSomeAnd};
ghost use Rattle.std.specs.Ptr.{null_ptr};
ghost use Rattle.flurry_c_base.specs.ByteMaps.{bytes_in};
ghost use Rattle.flurry_c.specs.declared.statuses.TheConstants.{DONE, NO_MEMORY};

use crate::statuses::{DONE, NO_MEMORY};
use flurry_c_base::byte_map::ByteMap;
use flurry_c_base::byte_slot::ByteSlot;
use flurry_c_base::loose::Loose;
use std::alloc::Global;
use std::mem;

/// Makes an empty map, whose address is then in `bytes`, and returns [`DONE`].
///
/// Returns [`NO_MEMORY`] if memory cannot be allocated. The address is then null.
#[unsafe(no_mangle)]
pub extern "C" fn flurry_bytes_new(alloc: Global, bytes: &mut ByteSlot) -> u8
    requires { bytes.old.map ≡ None }
    ensures { ((result ≡ DONE) × IsSomeAnd bytes.new.map (λ made. bytes_in made ≡ []))
        ⊎ ((result ≡ NO_MEMORY) × (bytes.new.map ≡ None) × (bytes.new.at ≡ null_ptr)) }
{
    match Box::new(alloc, ByteMap::new(alloc)) {
        Ok(map) => {
            *bytes = ByteSlot::of_loose(Loose::of_box(map, alloc));
            DONE
        }
        Err(_) => {
            *bytes = ByteSlot::vacant(alloc);
            NO_MEMORY
        }
    }
}

/// Frees the map, with its keys and values, and makes its address null. Does nothing if the address is null.
#[unsafe(no_mangle)]
pub extern "C" fn flurry_bytes_free(alloc: Global, bytes: &mut ByteSlot)
    requires { IfNone bytes.old.map (bytes.old.at ≡ null_ptr) }
    ensures { (bytes.new.map ≡ None) × (bytes.new.at ≡ null_ptr) }
{
    let held = mem::replace(bytes, ByteSlot::vacant(alloc));
    if let Some(made) = held.into_loose() {
        drop(made.into_box());
    }
}
