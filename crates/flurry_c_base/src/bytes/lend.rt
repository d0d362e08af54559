//! A loan of the map.
ghost use Rattle.std.specs.Prelude.{◌≡◌};
ghost use types.Logic.{sem};
ghost use Rattle.flurry_c_base.specs.Lent.{bytes_with, value_follows};
ghost use Rattle.flurry_c_base.specs.contracts.bytes.Bytes.{the_row as bytes_row};
ghost use Rattle.flurry_c_base.specs.contracts.byte_map.ByteMap.{the_row as map_row};

use super::Bytes;
use crate::byte_map::ByteMap;

impl Bytes {
    /// Returns the map, for as long as its address is lent.
    pub fn lend(&mut self) -> &mut ByteMap
        ensures* follows { sem 𝓛 (value_follows bytes_row map_row bytes_with self.entry result) }
        ensures map { result.now ≡ self.old.map }
    {
        let map = self.at as *mut ByteMap;
        unsafe { &mut *map }
    }
}
