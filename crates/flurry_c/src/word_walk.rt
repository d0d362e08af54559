//! Maps of numbers: all pairs.
ghost use Rattle.std.specs.Ordering.{nat_cmp};
ghost use Rattle.std.specs.Prelude.{◌≡◌, ◌⊎◌, ◌<◌, length};
ghost use Rattle.flurry_base.specs.FiniteMap.{IsFiniteMap};
ghost use Rattle.flurry_c_base.specs.WordWalks.{ListsPairs};
ghost use Rattle.flurry_c.specs.WordAnswers.{pairs_of};
ghost use Rattle.flurry_c.specs.declared.statuses.TheConstants.{DONE, NO_ROOM};

use crate::statuses::{DONE, NO_ROOM};
use flurry_c_base::word_pair::WordPair;
use flurry_c_base::words::Words;

/// Writes all pairs to the beginning of `pairs`, each once, in any order, and returns [`DONE`].
///
/// Returns [`NO_ROOM`] and writes nothing if `pairs` is shorter than the map.
#[unsafe(no_mangle)]
pub extern "C" fn flurry_words_pairs(words: &mut Words, pairs: &mut [WordPair]) -> u8
    ensures told { ((result ≡ NO_ROOM) × (length pairs.old < length (pairs_of words.old)) × (pairs.new ≡ pairs.old))
        ⊎ ((result ≡ DONE) × ListsPairs (pairs_of words.old) pairs.old pairs.new) }
    ensures ascend { IsFiniteMap nat_cmp (pairs_of words.old) }
    ensures same { words.new.map ≡ words.old.map }
{
    let held = words.lend();
    if pairs.len() < held.map.len() {
        return NO_ROOM;
    }
    held.write_pairs(pairs);
    DONE
}
