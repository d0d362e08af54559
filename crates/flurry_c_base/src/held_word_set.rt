//! What C keeps of a set of numbers: its address.
ghost use Rattle.flurry_c_base.specs.declared.word_set.WordSet.{WordSet};
ghost use Rattle.flurry_c_base.specs.Owned.{owns};
ghost use Rattle.flurry_c_base.specs.contracts.word_set.WordSet.{the_row};

mod lend;

use std::alloc::Global;
use std::marker::Model;

/// The address of a set of numbers, and the right to free it.
#[repr(C)]
pub struct HeldWordSet {
    at: *mut u8,
    alloc: Global,
    pub ghost set: { WordSet } by { the_row.coded },
}

impl Model for HeldWordSet {
    ghost also_owns = { λ s. owns the_row s.alloc s.at s.set };
}
