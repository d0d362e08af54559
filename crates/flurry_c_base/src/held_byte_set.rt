//! What C keeps of a set of byte strings: its address.
ghost use Rattle.flurry_c_base.specs.declared.byte_set.ByteSet.{ByteSet};
ghost use Rattle.flurry_c_base.specs.Owned.{owns};
ghost use Rattle.flurry_c_base.specs.contracts.byte_set.ByteSet.{the_row};

mod lend;

use std::alloc::Global;
use std::marker::Model;

/// The address of a set of byte strings, and the right to free it.
#[repr(C)]
pub struct HeldByteSet {
    at: *mut u8,
    alloc: Global,
    pub ghost set: { ByteSet } by { the_row.coded },
}

impl Model for HeldByteSet {
    ghost also_owns = { λ s. owns the_row s.alloc s.at s.set };
}
