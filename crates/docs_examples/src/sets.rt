//! Callers of the owned set: elements that stay, numbers of elements, and elements of other types.
ghost use Rattle.std.specs.Prelude.{◌≡◌, ◌≢◌, ◌+◌, ◌≤◌, ℕ, length, None, IfOk, OnOk, IsSome, if◌then◌else◌, String, string_bytes};
ghost use Rattle.std.specs.Arc.{arc_value};
ghost use Rattle.std.specs.Global.{Global};
ghost use Rattle.std.specs.Ordering.{nat_cmp};
ghost use Rattle.std.specs.String.{string_cmp};
ghost use Rattle.flurry.specs.FiniteSet.{element_at};

use flurry::SeqSet;
use std::alloc::AllocError;
use std::hash::Hash;
use std::sync::Arc;

/// Removes an element. Other elements stay.
#[tactic(auto, using(flurry::proofs::CallerLaws::set_calls))]
pub fn drop_other_element(set: &mut SeqSet<u64>, x: u64)
    ensures { (q : ℕ) → q ≢ x → element_at nat_cmp set.new.elements q ≡ element_at nat_cmp set.old.elements q }
{
    let _ = set.remove(&x);
}

/// Inserts an element, and returns `true` if it is new. The contract says how many elements the set then has.
#[tactic(auto, using(flurry::proofs::CallerLaws::set_calls))]
pub fn put_element_len(set: &mut SeqSet<u64>, x: u64) -> Result<bool, AllocError>
    ensures { let n = length set.old.elements in
        IfOk result (λ new. length set.new.elements ≡ (if new then n + 1 else n)) }
{
    set.insert(x)
}

/// Removes an element of any type, which is then absent.
#[tactic(auto, using(flurry::proofs::CallerLaws::any_elements))]
pub fn drop_any_element<T: Hash + Ord + Drop>(set: &mut SeqSet<T>, x: &T)
    ensures gone { element_at T.cmp set.new.elements x.now ≡ None }
    ensures fewer { length set.new.elements ≤ length set.old.elements }
{
    let _ = set.remove(x);
}

/// Keeps a text once. The returned string has the text, and the strings that are kept stay.
#[tactic(auto, using(flurry::proofs::CallerLaws::text_elements))]
pub fn keep_text(set: &mut SeqSet<String>, text: String) -> Result<Arc<String>, AllocError>
    ensures text { IfOk result (λ kept. string_bytes (arc_value kept) ≡ string_bytes text) }
    ensures stay { OnOk result ((q : String Global) → IsSome (element_at string_cmp set.old.elements q)
        → element_at string_cmp set.new.elements q ≡ element_at string_cmp set.old.elements q) }
{
    set.get_or_insert(text)
}
