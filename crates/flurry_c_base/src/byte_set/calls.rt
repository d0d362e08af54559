//! The calls of one element. An insertion copies it.
ghost use Rattle.std.specs.Prelude.{◌≡◌, IfOk, IsTrue, OnErr, OnOk, is_none, is_some, length, not};
ghost use Rattle.flurry_base.specs.declared.sizes.TheConstants.{FIRST_BINS};
ghost use Rattle.flurry_seq.specs.Contents.{first_bins};
ghost use Rattle.flurry_seq.specs.Growth.{IsTableAfter};
ghost use Rattle.flurry_base.specs.FiniteSet.{element_at, without_element};
ghost use Rattle.flurry_c_base.specs.ByteStrings.{byte_order};
ghost use Rattle.flurry_c_base.specs.ByteSets.{elements_in};
ghost use Rattle.flurry_c_base.specs.SetInsertions.{AddsOrKeeps};

use super::ByteSet;
use crate::byte_query::ByteQuery;
use std::alloc::{AllocError, Global};

impl ByteSet {
    /// Returns `true` if the set contains `element`.
    #[tactic(auto, using(crate::proofs::ByteQueryLaws::element_by_bytes))]
    pub fn contains(&self, element: &[u8]) -> bool
        ensures { result ≡ is_some (element_at byte_order (elements_in self.now) element.now) }
    {
        self.set.contains(ByteQuery(element))
    }

    /// Inserts a copy of `element`, and returns `true` if it was absent. If it was present, nothing changes.
    ///
    /// # Errors
    ///
    /// Returns [`AllocError`] if memory cannot be allocated, or if the element is new and the set has as many elements as it can. The set
    /// is unchanged.
    pub fn insert(&mut self, alloc: Global, element: &[u8]) -> Result<bool, AllocError>
        ensures new { IfOk result
            (λ new. new ≡ is_none (element_at byte_order (elements_in self.old) element.now)) }
        ensures elements { OnOk result
            (AddsOrKeeps byte_order (elements_in self.old) element.now (elements_in self.new)) }
        ensures bins { IfOk result (λ new. IsTrue (not new) → self.new.set.bins ≡ self.old.set.bins) }
        ensures grown { IfOk result (λ new. IsTrue new
            → IsTableAfter (first_bins self.old.set.bins FIRST_BINS) (length self.new.set.elements) self.new.set.bins) }
        ensures err { OnErr result (self.new ≡ self.old) }
    {
        let element = element.to_vec(alloc)?;
        self.set.insert(element)
    }

    /// Removes `element`, and returns `true` if it was present.
    #[tactic(auto, using(crate::proofs::ByteQueryLaws::element_by_bytes, crate::proofs::ByteQueryLaws::without_element_by_bytes))]
    pub fn remove(&mut self, element: &[u8]) -> bool
        ensures found { result ≡ is_some (element_at byte_order (elements_in self.old) element.now) }
        ensures elements { elements_in self.new ≡ without_element byte_order (elements_in self.old) element.now }
        ensures bins { self.new.set.bins ≡ self.old.set.bins }
    {
        self.set.remove(ByteQuery(element))
    }
}
