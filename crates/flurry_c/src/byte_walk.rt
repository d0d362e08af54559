//! Maps of bytes: all pairs, and how many bytes they have.
ghost use Rattle.std.specs.Prelude.{◌≡◌, ◌⊎◌, ◌-◌, ◌^◌, ◌<◌, length, min, sum_by};
ghost use Rattle.flurry_base.specs.FiniteMap.{IsFiniteMap};
ghost use Rattle.flurry_c_base.specs.ByteStrings.{byte_order};
ghost use Rattle.flurry_c.specs.ByteAnswers.{pairs_of};
ghost use Rattle.flurry_c_base.specs.ByteWalks.{size_of, ListsPairs};
ghost use Rattle.flurry_c.specs.declared.statuses.TheConstants.{DONE, NO_ROOM};

use crate::statuses::{DONE, NO_ROOM};
use flurry_c_base::byte_pair::BytePair;
use flurry_c_base::bytes::Bytes;

/// Returns how many bytes all keys and values have together, or `usize::MAX` if they have more.
#[unsafe(no_mangle)]
pub extern "C" fn flurry_bytes_size(bytes: &mut Bytes) -> usize
    ensures size { result ≡ min (sum_by size_of (pairs_of bytes.old)) (2 ^ 64 - 1) }
    ensures same { bytes.new.map ≡ bytes.old.map }
{
    bytes.lend().size()
}

/// Writes all pairs, each once, in any order, and returns [`DONE`]: for each pair the lengths of its key and of its value to the beginning
/// of `pairs`, and its key and then its value to the beginning of `text`, where the next pair follows without a gap.
///
/// Returns [`NO_ROOM`] and writes nothing if `pairs` is shorter than the map, or `text` than [`flurry_bytes_size`] says.
#[unsafe(no_mangle)]
pub extern "C" fn flurry_bytes_pairs(
    bytes: &mut Bytes,
    pairs: &mut [BytePair],
    text: &mut [u8],
) -> u8
    ensures told { ((result ≡ NO_ROOM)
        × ((length pairs.old < length (pairs_of bytes.old)) ⊎ (length text.old < sum_by size_of (pairs_of bytes.old)))
        × (pairs.new ≡ pairs.old) × (text.new ≡ text.old))
        ⊎ ((result ≡ DONE) × ListsPairs (pairs_of bytes.old) pairs.old pairs.new text.old text.new) }
    ensures ascend { IsFiniteMap byte_order (pairs_of bytes.old) }
    ensures same { bytes.new.map ≡ bytes.old.map }
{
    let held = bytes.lend();
    if pairs.len() < held.len() {
        return NO_ROOM;
    }
    if text.len() < held.size() {
        return NO_ROOM;
    }
    held.write_pairs(pairs, text);
    DONE
}
