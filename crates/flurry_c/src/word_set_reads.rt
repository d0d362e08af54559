//! Sets of numbers: reads.
ghost use Rattle.std.specs.Ordering.{nat_cmp};
ghost use Rattle.std.specs.Prelude.{◌≡◌, length, is_some};
ghost use Rattle.flurry_base.specs.FiniteSet.{IsFiniteSet};
ghost use Rattle.flurry_c.specs.WordSetAnswers.{elements_of, found_in};

use flurry_c_base::held_word_set::HeldWordSet;

/// Returns the number of elements.
#[unsafe(no_mangle)]
pub extern "C" fn flurry_word_set_len(set: &mut HeldWordSet) -> usize
    ensures count { result ≡ length (elements_of set.old) }
    ensures ascend { IsFiniteSet nat_cmp (elements_of set.old) }
    ensures same { set.new.set ≡ set.old.set }
{
    set.lend().set.len()
}

/// Returns whether the element is present.
#[unsafe(no_mangle)]
pub extern "C" fn flurry_word_set_contains(set: &mut HeldWordSet, element: u64) -> bool
    ensures found { result ≡ is_some (found_in set.old element) }
    ensures same { set.new.set ≡ set.old.set }
{
    set.lend().set.contains(&element)
}
