//! Where C has a map of bytes, or wants one.
ghost use Rattle.std.specs.Coded.{coded_option};
ghost use Rattle.std.specs.Prelude.{◌≡◌, Option, None, Some, IfNone, option_map};
ghost use Rattle.std.specs.Ptr.{null_ptr};
ghost use Rattle.flurry_c_base.specs.declared.byte_map.ByteMap.{ByteMap};
ghost use Rattle.flurry_c_base.specs.Owned.{slot_owns};
ghost use Rattle.flurry_c_base.specs.contracts.byte_map.ByteMap.{the_row};

use crate::byte_map::ByteMap;
use crate::loose::Loose;
use std::alloc::Global;
use std::marker::Model;
use std::ptr;

/// The address of a map of bytes, if there is one. It lies in memory as `Bytes` does.
#[repr(C)]
#[derive(Drop)]
pub struct ByteSlot {
    at: *mut u8,
    alloc: Global,
    pub ghost map: { Option ByteMap } by { coded_option the_row.coded },
}

impl Model for ByteSlot {
    ghost also_owns = { λ s. slot_owns the_row s.alloc s.at s.map };
}

impl ByteSlot {
    /// Returns the address of this map.
    pub fn of_loose(map: Loose<ByteMap, Global>) -> ByteSlot
        ensures { result.map ≡ Some map.value }
    {
        let Loose { at, alloc } = map;
        ByteSlot {
            at: at as *mut u8,
            alloc,
        }
    }

    /// Returns null, where no map is.
    pub fn vacant(alloc: Global) -> ByteSlot
        ensures { (result.map ≡ None) × (result.at ≡ null_ptr) }
    {
        ByteSlot {
            at: ptr::null_mut(),
            alloc,
        }
    }

    /// Returns the map and the right to free it, as a box has them, if there is a map.
    pub fn into_loose(self) -> Option<Loose<ByteMap, Global>>
        requires { IfNone self.map (self.at ≡ null_ptr) }
        ensures { option_map (λ loose. loose.value) result ≡ self.map }
    {
        let ByteSlot { at, alloc } = self;
        if at.is_null() {
            None
        } else {
            Some(Loose {
                at: at as *mut ByteMap,
                alloc,
            })
        }
    }
}
