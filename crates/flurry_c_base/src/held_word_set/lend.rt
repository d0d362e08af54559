//! A loan of the set.
ghost use Rattle.std.specs.Prelude.{◌≡◌};
ghost use types.Logic.{sem};
ghost use Rattle.flurry_c_base.specs.Lent.{word_set_with, value_follows};
ghost use Rattle.flurry_c_base.specs.contracts.held_word_set.HeldWordSet.{the_row as held_row};
ghost use Rattle.flurry_c_base.specs.contracts.word_set.WordSet.{the_row as set_row};

use super::HeldWordSet;
use crate::word_set::WordSet;

impl HeldWordSet {
    /// Returns the set, for as long as its address is lent.
    pub fn lend(&mut self) -> &mut WordSet
        ensures* follows { sem 𝓛 (value_follows held_row set_row word_set_with self.entry result) }
        ensures set { result.now ≡ self.old.set }
    {
        let set = self.at as *mut WordSet;
        unsafe { &mut *set }
    }
}
