//! Where C has a set of byte strings, or wants one.
ghost use Rattle.std.specs.Coded.{coded_option};
ghost use Rattle.std.specs.Prelude.{◌≡◌, Option, None, Some, IfNone, option_map};
ghost use Rattle.std.specs.Ptr.{null_ptr};
ghost use Rattle.flurry_c_base.specs.declared.byte_set.ByteSet.{ByteSet};
ghost use Rattle.flurry_c_base.specs.Owned.{slot_owns};
ghost use Rattle.flurry_c_base.specs.contracts.byte_set.ByteSet.{the_row};

use crate::byte_set::ByteSet;
use crate::loose::Loose;
use std::alloc::Global;
use std::marker::Model;
use std::ptr;

/// The address of a set of byte strings, if there is one. It lies in memory as `HeldByteSet` does.
#[repr(C)]
#[derive(Drop)]
pub struct ByteSetSlot {
    at: *mut u8,
    alloc: Global,
    pub ghost set: { Option ByteSet } by { coded_option the_row.coded },
}

impl Model for ByteSetSlot {
    ghost also_owns = { λ s. slot_owns the_row s.alloc s.at s.set };
}

impl ByteSetSlot {
    /// Returns the address of this set.
    pub fn of_loose(set: Loose<ByteSet, Global>) -> ByteSetSlot
        ensures { result.set ≡ Some set.value }
    {
        let Loose { at, alloc } = set;
        ByteSetSlot {
            at: at as *mut u8,
            alloc,
        }
    }

    /// Returns null, where no set is.
    pub fn vacant(alloc: Global) -> ByteSetSlot
        ensures { (result.set ≡ None) × (result.at ≡ null_ptr) }
    {
        ByteSetSlot {
            at: ptr::null_mut(),
            alloc,
        }
    }

    /// Returns the set and the right to free it, as a box has them, if there is a set.
    pub fn into_loose(self) -> Option<Loose<ByteSet, Global>>
        requires { IfNone self.set (self.at ≡ null_ptr) }
        ensures { option_map (λ loose. loose.value) result ≡ self.set }
    {
        let ByteSetSlot { at, alloc } = self;
        if at.is_null() {
            None
        } else {
            Some(Loose {
                at: at as *mut ByteSet,
                alloc,
            })
        }
    }
}
