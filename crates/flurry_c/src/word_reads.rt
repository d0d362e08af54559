//! Maps of numbers: reads.
ghost use Rattle.std.specs.Ordering.{nat_cmp};
ghost use Rattle.std.specs.Prelude.{◌≡◌, length, is_some};
ghost use Rattle.flurry_base.specs.FiniteMap.{IsFiniteMap};
ghost use Rattle.flurry_c.specs.WordAnswers.{pairs_of, value_of, Tells};

use crate::statuses::{ABSENT, PRESENT};
use flurry_c_base::words::Words;

/// Returns the number of pairs.
#[unsafe(no_mangle)]
pub extern "C" fn flurry_words_len(words: &mut Words) -> usize
    ensures count { result ≡ length (pairs_of words.old) }
    ensures ascend { IsFiniteMap nat_cmp (pairs_of words.old) }
    ensures same { words.new.map ≡ words.old.map }
{
    words.lend().map.len()
}

/// Returns whether the key is present.
#[unsafe(no_mangle)]
pub extern "C" fn flurry_words_contains(words: &mut Words, key: u64) -> bool
    ensures found { result ≡ is_some (value_of words.old key) }
    ensures same { words.new.map ≡ words.old.map }
{
    words.lend().map.get(&key).is_some()
}

/// Writes the value of the key to `value` and returns [`PRESENT`], or returns [`ABSENT`] and writes nothing.
#[unsafe(no_mangle)]
pub extern "C" fn flurry_words_get(words: &mut Words, key: u64, value: &mut u64) -> u8
    ensures told { Tells (value_of words.old key) result value.old value.new }
    ensures same { words.new.map ≡ words.old.map }
{
    match words.lend().map.get(&key) {
        Some(found) => {
            *value = **found;
            PRESENT
        }
        None => ABSENT,
    }
}
