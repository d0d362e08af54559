//! Maps of numbers: made and freed.
ghost use Rattle.std.specs.Prelude.{◌≡◌, ◌⊎◌, [], None, IfNone, IsSomeAnd};
ghost use Rattle.std.specs.Ptr.{null_ptr};
ghost use Rattle.flurry_c.specs.declared.statuses.TheConstants.{DONE, NO_MEMORY};

use crate::statuses::{DONE, NO_MEMORY};
use flurry_c_base::loose::Loose;
use flurry_c_base::word_map::WordMap;
use flurry_c_base::word_slot::WordSlot;
use std::alloc::Global;
use std::mem;

/// Makes an empty map, whose address is then in `words`, and returns [`DONE`].
///
/// Returns [`NO_MEMORY`] if memory cannot be allocated. The address is then null.
#[unsafe(no_mangle)]
pub extern "C" fn flurry_words_new(alloc: Global, words: &mut WordSlot) -> u8
    requires { words.old.map ≡ None }
    ensures { ((result ≡ DONE) × IsSomeAnd words.new.map (λ made. made.map.pairs ≡ []))
        ⊎ ((result ≡ NO_MEMORY) × (words.new.map ≡ None) × (words.new.at ≡ null_ptr)) }
{
    match Box::new(alloc, WordMap::new(alloc)) {
        Ok(map) => {
            *words = WordSlot::of_loose(Loose::of_box(map, alloc));
            DONE
        }
        Err(_) => {
            *words = WordSlot::vacant(alloc);
            NO_MEMORY
        }
    }
}

/// Frees the map and makes its address null. Does nothing if the address is null.
#[unsafe(no_mangle)]
pub extern "C" fn flurry_words_free(alloc: Global, words: &mut WordSlot)
    requires { IfNone words.old.map (words.old.at ≡ null_ptr) }
    ensures { (words.new.map ≡ None) × (words.new.at ≡ null_ptr) }
{
    let held = mem::replace(words, WordSlot::vacant(alloc));
    if let Some(made) = held.into_loose() {
        drop(made.into_box());
    }
}
