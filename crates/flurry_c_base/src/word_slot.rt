//! Where C has a map of numbers, or wants one.
ghost use Rattle.std.specs.Coded.{coded_option};
ghost use Rattle.std.specs.Prelude.{◌≡◌, Option, None, Some, IfNone, option_map};
ghost use Rattle.std.specs.Ptr.{null_ptr};
ghost use Rattle.flurry_c_base.specs.declared.word_map.WordMap.{WordMap};
ghost use Rattle.flurry_c_base.specs.Owned.{slot_owns};
ghost use Rattle.flurry_c_base.specs.contracts.word_map.WordMap.{the_row};

use crate::loose::Loose;
use crate::word_map::WordMap;
use std::alloc::Global;
use std::marker::Model;
use std::ptr;

/// The address of a map of numbers, if there is one. It lies in memory as `Words` does.
#[repr(C)]
#[derive(Drop)]
pub struct WordSlot {
    at: *mut u8,
    alloc: Global,
    pub ghost map: { Option WordMap } by { coded_option the_row.coded },
}

impl Model for WordSlot {
    ghost also_owns = { λ s. slot_owns the_row s.alloc s.at s.map };
}

impl WordSlot {
    /// Returns the address of this map.
    pub fn of_loose(map: Loose<WordMap, Global>) -> WordSlot
        ensures { result.map ≡ Some map.value }
    {
        let Loose { at, alloc } = map;
        WordSlot {
            at: at as *mut u8,
            alloc,
        }
    }

    /// Returns null, where no map is.
    pub fn vacant(alloc: Global) -> WordSlot
        ensures { (result.map ≡ None) × (result.at ≡ null_ptr) }
    {
        WordSlot {
            at: ptr::null_mut(),
            alloc,
        }
    }

    /// Returns the map and the right to free it, as a box has them, if there is a map.
    pub fn into_loose(self) -> Option<Loose<WordMap, Global>>
        requires { IfNone self.map (self.at ≡ null_ptr) }
        ensures { option_map (λ loose. loose.value) result ≡ self.map }
    {
        let WordSlot { at, alloc } = self;
        if at.is_null() {
            None
        } else {
            Some(Loose {
                at: at as *mut WordMap,
                alloc,
            })
        }
    }
}
