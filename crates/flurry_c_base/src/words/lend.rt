//! A loan of the map.
ghost use Rattle.std.specs.Prelude.{◌≡◌};
ghost use types.Logic.{sem};
ghost use Rattle.flurry_c_base.specs.Lent.{words_with, value_follows};
ghost use Rattle.flurry_c_base.specs.contracts.words.Words.{the_row as words_row};
ghost use Rattle.flurry_c_base.specs.contracts.word_map.WordMap.{the_row as map_row};

use super::Words;
use crate::word_map::WordMap;

impl Words {
    /// Returns the map, for as long as its address is lent.
    pub fn lend(&mut self) -> &mut WordMap
        ensures* follows { sem 𝓛 (value_follows words_row map_row words_with self.entry result) }
        ensures map { result.now ≡ self.old.map }
    {
        let map = self.at as *mut WordMap;
        unsafe { &mut *map }
    }
}
