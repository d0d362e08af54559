//! Sets of byte strings: reads.
ghost use Rattle.std.specs.Prelude.{◌≡◌, is_some, length};
ghost use Rattle.flurry_base.specs.FiniteSet.{IsFiniteSet};
ghost use Rattle.flurry_c_base.specs.ByteStrings.{byte_order};
ghost use Rattle.flurry_c.specs.ByteSetAnswers.{elements_of, found_in};

use flurry_c_base::held_byte_set::HeldByteSet;

/// Returns the number of elements.
#[unsafe(no_mangle)]
pub extern "C" fn flurry_byte_set_len(set: &mut HeldByteSet) -> usize
    ensures count { result ≡ length (elements_of set.old) }
    ensures ascend { IsFiniteSet byte_order (elements_of set.old) }
    ensures same { set.new.set ≡ set.old.set }
{
    set.lend().len()
}

/// Returns whether the element is present.
#[unsafe(no_mangle)]
pub extern "C" fn flurry_byte_set_contains(set: &mut HeldByteSet, element: &[u8]) -> bool
    ensures found { result ≡ is_some (found_in set.old element.now) }
    ensures same { set.new.set ≡ set.old.set }
{
    set.lend().contains(element)
}
