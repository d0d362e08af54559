//! Maps of bytes: reads.
ghost use Rattle.std.specs.Prelude.{◌≡◌, is_some, length};
ghost use Rattle.flurry_base.specs.FiniteMap.{IsFiniteMap};
ghost use Rattle.flurry_c_base.specs.ByteStrings.{byte_order};
ghost use Rattle.flurry_c.specs.ByteAnswers.{pairs_of, value_of, Copies};
ghost use Rattle.flurry_c.specs.Presence.{Finds};

use crate::statuses::{ABSENT, PRESENT};
use flurry_c_base::bytes::Bytes;
use flurry_c_base::copying::copy_out;

/// Returns the number of pairs.
#[unsafe(no_mangle)]
pub extern "C" fn flurry_bytes_len(bytes: &mut Bytes) -> usize
    ensures count { result ≡ length (pairs_of bytes.old) }
    ensures ascend { IsFiniteMap byte_order (pairs_of bytes.old) }
    ensures same { bytes.new.map ≡ bytes.old.map }
{
    bytes.lend().len()
}

/// Returns whether the key is present.
#[unsafe(no_mangle)]
pub extern "C" fn flurry_bytes_contains(bytes: &mut Bytes, key: &[u8]) -> bool
    ensures found { result ≡ is_some (value_of bytes.old key.now) }
    ensures same { bytes.new.map ≡ bytes.old.map }
{
    bytes.lend().get(key).is_some()
}

/// Copies the key's value to the beginning of `value`, as far as there is room, writes the length of the whole value to `len`, and returns
/// [`PRESENT`]. Returns [`ABSENT`] and writes nothing if the key is absent.
#[unsafe(no_mangle)]
pub extern "C" fn flurry_bytes_get(
    bytes: &mut Bytes,
    key: &[u8],
    value: &mut [u8],
    len: &mut usize,
) -> u8
    ensures found { Finds (value_of bytes.old key.now) result }
    ensures copied { Copies (value_of bytes.old key.now) value.old value.new len.old len.new }
    ensures same { bytes.new.map ≡ bytes.old.map }
{
    match bytes.lend().get(key) {
        Some(found) => {
            copy_out(found, value);
            *len = found.len();
            PRESENT
        }
        None => ABSENT,
    }
}
