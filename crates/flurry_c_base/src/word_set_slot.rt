//! Where C has a set of numbers, or wants one.
ghost use Rattle.std.specs.Coded.{coded_option};
ghost use Rattle.std.specs.Prelude.{◌≡◌, Option, None, Some, IfNone, option_map};
ghost use Rattle.std.specs.Ptr.{null_ptr};
ghost use Rattle.flurry_c_base.specs.declared.word_set.WordSet.{WordSet};
ghost use Rattle.flurry_c_base.specs.Owned.{slot_owns};
ghost use Rattle.flurry_c_base.specs.contracts.word_set.WordSet.{the_row};

use crate::loose::Loose;
use crate::word_set::WordSet;
use std::alloc::Global;
use std::marker::Model;
use std::ptr;

/// The address of a set of numbers, if there is one. It lies in memory as `HeldWordSet` does.
#[repr(C)]
#[derive(Drop)]
pub struct WordSetSlot {
    at: *mut u8,
    alloc: Global,
    pub ghost set: { Option WordSet } by { coded_option the_row.coded },
}

impl Model for WordSetSlot {
    ghost also_owns = { λ s. slot_owns the_row s.alloc s.at s.set };
}

impl WordSetSlot {
    /// Returns the address of this set.
    pub fn of_loose(set: Loose<WordSet, Global>) -> WordSetSlot
        ensures { result.set ≡ Some set.value }
    {
        let Loose { at, alloc } = set;
        WordSetSlot {
            at: at as *mut u8,
            alloc,
        }
    }

    /// Returns null, where no set is.
    pub fn vacant(alloc: Global) -> WordSetSlot
        ensures { (result.set ≡ None) × (result.at ≡ null_ptr) }
    {
        WordSetSlot {
            at: ptr::null_mut(),
            alloc,
        }
    }

    /// Returns the set and the right to free it, as a box has them, if there is a set.
    pub fn into_loose(self) -> Option<Loose<WordSet, Global>>
        requires { IfNone self.set (self.at ≡ null_ptr) }
        ensures { option_map (λ loose. loose.value) result ≡ self.set }
    {
        let WordSetSlot { at, alloc } = self;
        if at.is_null() {
            None
        } else {
            Some(Loose {
                at: at as *mut WordSet,
                alloc,
            })
        }
    }
}
