//! Maps of bytes: calls that change them.
ghost use Rattle.std.specs.Prelude.{◌≡◌, ◌⊎◌, [], length};
ghost use Rattle.flurry_base.specs.FiniteMap.{with_pair, without};
ghost use Rattle.flurry_base.specs.Sizes.{IsGrown};
ghost use Rattle.flurry_base.specs.declared.sizes.TheConstants.{FIRST_BINS};
ghost use Rattle.flurry_seq.specs.Growth.{IsTableAfter};
ghost use Rattle.flurry_seq.specs.Contents.{asked_for, first_bins};
ghost use Rattle.flurry_c_base.specs.ByteMaps.{KeepsOrAdds};
ghost use Rattle.flurry_c_base.specs.ByteStrings.{byte_order};
ghost use Rattle.flurry_c.specs.ByteAnswers.{pairs_of, value_of};
ghost use Rattle.flurry_c.specs.Presence.{Finds};
ghost use Rattle.flurry_c.specs.declared.statuses.TheConstants.{ABSENT, DONE, NO_MEMORY, PRESENT};

use crate::statuses::{ABSENT, DONE, NO_MEMORY, PRESENT};
use flurry_c_base::bytes::Bytes;
use std::alloc::Global;

/// Inserts a pair, of which the map keeps copies. Returns [`PRESENT`] if the key was present, and its value is replaced, or [`ABSENT`].
///
/// Returns [`NO_MEMORY`] if memory cannot be allocated, or if the key is new and the map has as many pairs as it can. The map is unchanged
/// then.
#[unsafe(no_mangle)]
pub extern "C" fn flurry_bytes_insert(
    alloc: Global,
    bytes: &mut Bytes,
    key: &[u8],
    value: &[u8],
) -> u8
    ensures reply { ((result ≡ NO_MEMORY) × (bytes.new.map ≡ bytes.old.map))
        ⊎ (Finds (value_of bytes.old key.now) result
        × (pairs_of bytes.new ≡ with_pair byte_order (pairs_of bytes.old) key.now value.now)) }
    ensures bins { result ≡ PRESENT → bytes.new.map.map.bins ≡ bytes.old.map.map.bins }
    ensures grown { result ≡ ABSENT → IsTableAfter (first_bins bytes.old.map.map.bins FIRST_BINS)
        (length bytes.new.map.map.pairs) bytes.new.map.map.bins }
{
    match bytes.lend().insert(alloc, key, value) {
        Ok(true) => PRESENT,
        Ok(false) => ABSENT,
        Err(_) => NO_MEMORY,
    }
}

/// Inserts a pair if the key is absent, and returns [`ABSENT`]. If the key is present, nothing changes, and [`PRESENT`] is returned.
///
/// Returns [`NO_MEMORY`] as [`flurry_bytes_insert`] does.
#[unsafe(no_mangle)]
pub extern "C" fn flurry_bytes_try_insert(
    alloc: Global,
    bytes: &mut Bytes,
    key: &[u8],
    value: &[u8],
) -> u8
    ensures reply { ((result ≡ NO_MEMORY) × (bytes.new.map ≡ bytes.old.map))
        ⊎ (Finds (value_of bytes.old key.now) result
        × KeepsOrAdds (pairs_of bytes.old) key.now value.now (pairs_of bytes.new)) }
    ensures bins { result ≡ PRESENT → bytes.new.map.map.bins ≡ bytes.old.map.map.bins }
    ensures grown { result ≡ ABSENT → IsTableAfter (first_bins bytes.old.map.map.bins FIRST_BINS)
        (length bytes.new.map.map.pairs) bytes.new.map.map.bins }
{
    match bytes.lend().try_insert(alloc, key, value) {
        Ok(true) => PRESENT,
        Ok(false) => ABSENT,
        Err(_) => NO_MEMORY,
    }
}

/// Removes the pair of the key, and returns [`PRESENT`], or [`ABSENT`] if there was none.
#[unsafe(no_mangle)]
pub extern "C" fn flurry_bytes_remove(bytes: &mut Bytes, key: &[u8]) -> u8
    ensures found { Finds (value_of bytes.old key.now) result }
    ensures pairs { pairs_of bytes.new ≡ without byte_order (pairs_of bytes.old) key.now }
    ensures bins { bytes.new.map.map.bins ≡ bytes.old.map.map.bins }
{
    if bytes.lend().remove(key) {
        PRESENT
    } else {
        ABSENT
    }
}

/// Removes all pairs. The map keeps the memory of its table.
#[unsafe(no_mangle)]
pub extern "C" fn flurry_bytes_clear(bytes: &mut Bytes)
    ensures pairs { pairs_of bytes.new ≡ [] }
    ensures bins { bytes.new.map.map.bins ≡ bytes.old.map.map.bins }
{
    bytes.lend().map.clear();
}

/// Makes room in the table for `additional` more pairs, and returns [`DONE`]. The pairs stay.
///
/// Returns [`NO_MEMORY`] if memory for the larger table cannot be allocated. The map is unchanged then.
#[unsafe(no_mangle)]
pub extern "C" fn flurry_bytes_reserve(bytes: &mut Bytes, additional: usize) -> u8
    ensures pairs { pairs_of bytes.new ≡ pairs_of bytes.old }
    ensures room { let old = bytes.old.map.map in let bins = asked_for old additional in
        ((result ≡ NO_MEMORY) × (bytes.new.map ≡ bytes.old.map))
        ⊎ ((result ≡ DONE) × IsGrown (first_bins old.bins bins) bins bytes.new.map.map.bins) }
{
    match bytes.lend().map.reserve(additional) {
        Ok(()) => DONE,
        Err(_) => NO_MEMORY,
    }
}
