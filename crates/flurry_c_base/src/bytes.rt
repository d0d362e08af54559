//! What C keeps of a map of bytes: its address.
ghost use Rattle.flurry_c_base.specs.declared.byte_map.ByteMap.{ByteMap};
ghost use Rattle.flurry_c_base.specs.Owned.{owns};
ghost use Rattle.flurry_c_base.specs.contracts.byte_map.ByteMap.{the_row};

mod lend;

use std::alloc::Global;
use std::marker::Model;

/// The address of a map of bytes, and the right to free it.
#[repr(C)]
pub struct Bytes {
    at: *mut u8,
    alloc: Global,
    pub ghost map: { ByteMap } by { the_row.coded },
}

impl Model for Bytes {
    ghost also_owns = { λ w. owns the_row w.alloc w.at w.map };
}
