//! A loan of the set.
ghost use Rattle.std.specs.Prelude.{◌≡◌};
ghost use types.Logic.{sem};
ghost use Rattle.flurry_c_base.specs.Lent.{byte_set_with, value_follows};
ghost use Rattle.flurry_c_base.specs.contracts.held_byte_set.HeldByteSet.{the_row as held_row};
ghost use Rattle.flurry_c_base.specs.contracts.byte_set.ByteSet.{the_row as set_row};

use super::HeldByteSet;
use crate::byte_set::ByteSet;

impl HeldByteSet {
    /// Returns the set, for as long as its address is lent.
    pub fn lend(&mut self) -> &mut ByteSet
        ensures* follows { sem 𝓛 (value_follows held_row set_row byte_set_with self.entry result) }
        ensures set { result.now ≡ self.old.set }
    {
        let set = self.at as *mut ByteSet;
        unsafe { &mut *set }
    }
}
