//! What C keeps of a map of numbers: its address.
ghost use Rattle.flurry_c_base.specs.declared.word_map.WordMap.{WordMap};
ghost use Rattle.flurry_c_base.specs.Owned.{owns};
ghost use Rattle.flurry_c_base.specs.contracts.word_map.WordMap.{the_row};

mod lend;

use std::alloc::Global;
use std::marker::Model;

/// The address of a map of numbers, and the right to free it.
#[repr(C)]
pub struct Words {
    at: *mut u8,
    alloc: Global,
    pub ghost map: { WordMap } by { the_row.coded },
}

impl Model for Words {
    ghost also_owns = { λ w. owns the_row w.alloc w.at w.map };
}
