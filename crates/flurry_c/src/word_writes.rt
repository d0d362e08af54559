//! Maps of numbers: calls that change them.
ghost use Rattle.std.specs.Prelude.{◌≡◌, ◌⊎◌, [], length};
ghost use Rattle.std.specs.Ordering.{nat_cmp};
ghost use Rattle.flurry_base.specs.FiniteMap.{with_pair, without};
ghost use Rattle.flurry_base.specs.Sizes.{IsGrown};
ghost use Rattle.flurry_base.specs.declared.sizes.TheConstants.{FIRST_BINS};
ghost use Rattle.flurry_seq.specs.Growth.{IsTableAfter};
ghost use Rattle.flurry_seq.specs.Contents.{asked_for, first_bins};
ghost use Rattle.flurry_c.specs.WordAnswers.{pairs_of, value_of, Tells, KeepsOrAdds};
ghost use Rattle.flurry_c.specs.declared.statuses.TheConstants.{ABSENT, DONE, NO_MEMORY, PRESENT};

use crate::statuses::{ABSENT, DONE, NO_MEMORY, PRESENT};
use flurry_c_base::words::Words;

/// Inserts a pair. Writes the value that the key had to `old` and returns [`PRESENT`], or returns [`ABSENT`] and writes nothing.
///
/// Returns [`NO_MEMORY`] if memory cannot be allocated, or if the key is new and the map has as many pairs as it can. The map is unchanged
/// then, and nothing is written.
#[unsafe(no_mangle)]
pub extern "C" fn flurry_words_insert(words: &mut Words, key: u64, value: u64, old: &mut u64) -> u8
    ensures reply { ((result ≡ NO_MEMORY) × (words.new.map ≡ words.old.map) × (old.new ≡ old.old))
        ⊎ (Tells (value_of words.old key) result old.old old.new
        × (pairs_of words.new ≡ with_pair nat_cmp (pairs_of words.old) key value)) }
    ensures bins { result ≡ PRESENT → words.new.map.map.bins ≡ words.old.map.map.bins }
    ensures grown { result ≡ ABSENT → IsTableAfter (first_bins words.old.map.map.bins FIRST_BINS)
        (length words.new.map.map.pairs) words.new.map.map.bins }
{
    match words.lend().map.insert(key, value) {
        Ok(Some(replaced)) => {
            *old = *replaced;
            PRESENT
        }
        Ok(None) => ABSENT,
        Err(_) => NO_MEMORY,
    }
}

/// Inserts a pair if the key is absent, and returns [`ABSENT`]. If the key is present, nothing changes: its value is written to `current`,
/// and [`PRESENT`] is returned.
///
/// Returns [`NO_MEMORY`] as [`flurry_words_insert`] does.
#[unsafe(no_mangle)]
pub extern "C" fn flurry_words_try_insert(
    words: &mut Words,
    key: u64,
    value: u64,
    current: &mut u64,
) -> u8
    ensures reply { ((result ≡ NO_MEMORY) × (words.new.map ≡ words.old.map) × (current.new ≡ current.old))
        ⊎ (Tells (value_of words.old key) result current.old current.new
        × KeepsOrAdds (pairs_of words.old) key value (pairs_of words.new)) }
    ensures bins { result ≡ PRESENT → words.new.map.map.bins ≡ words.old.map.map.bins }
    ensures grown { result ≡ ABSENT → IsTableAfter (first_bins words.old.map.map.bins FIRST_BINS)
        (length words.new.map.map.pairs) words.new.map.map.bins }
{
    match words.lend().map.try_insert(key, value) {
        Ok(Ok(_)) => ABSENT,
        Ok(Err(found)) => {
            *current = *found.current;
            PRESENT
        }
        Err(_) => NO_MEMORY,
    }
}

/// Removes the pair of the key. Writes its value to `old` and returns [`PRESENT`], or returns [`ABSENT`] and writes nothing.
#[unsafe(no_mangle)]
pub extern "C" fn flurry_words_remove(words: &mut Words, key: u64, old: &mut u64) -> u8
    ensures told { Tells (value_of words.old key) result old.old old.new }
    ensures pairs { pairs_of words.new ≡ without nat_cmp (pairs_of words.old) key }
    ensures bins { words.new.map.map.bins ≡ words.old.map.map.bins }
{
    match words.lend().map.remove(&key) {
        Some(removed) => {
            *old = *removed;
            PRESENT
        }
        None => ABSENT,
    }
}

/// Removes all pairs. The map keeps the memory of its table.
#[unsafe(no_mangle)]
pub extern "C" fn flurry_words_clear(words: &mut Words)
    ensures pairs { pairs_of words.new ≡ [] }
    ensures bins { words.new.map.map.bins ≡ words.old.map.map.bins }
{
    words.lend().map.clear();
}

/// Makes room for `additional` more pairs, and returns [`DONE`]. The pairs stay.
///
/// Returns [`NO_MEMORY`] if memory for the larger table cannot be allocated. The map is unchanged then.
#[unsafe(no_mangle)]
pub extern "C" fn flurry_words_reserve(words: &mut Words, additional: usize) -> u8
    ensures pairs { pairs_of words.new ≡ pairs_of words.old }
    ensures room { let old = words.old.map.map in let bins = asked_for old additional in
        ((result ≡ NO_MEMORY) × (words.new.map ≡ words.old.map))
        ⊎ ((result ≡ DONE) × IsGrown (first_bins old.bins bins) bins words.new.map.map.bins) }
{
    match words.lend().map.reserve(additional) {
        Ok(()) => DONE,
        Err(_) => NO_MEMORY,
    }
}
