//! An interner, which keeps one string for each text.

ghost use Rattle.std.specs.Prelude.{◌≡◌, [], length, String, string_bytes, IsSome, IfOk};
ghost use Rattle.std.specs.Global.{Global};
ghost use Rattle.std.specs.Arc.{arc_value};
ghost use Rattle.std.specs.String.{string_cmp};
ghost use Rattle.flurry.specs.FiniteSet.{element_at};
ghost use Rattle.use_interner.specs.Interner.{IsInterned};

use flurry::SeqSet;
use std::alloc::{AllocError, Global};
use std::sync::Arc;

/// An interner of texts, which keeps each text once.
#[derive(Drop)]
pub struct Interner {
    pub texts: SeqSet<String>,
}

impl Interner {
    /// Creates an interner without texts.
    pub fn new(alloc: Global) -> Self
        ensures { result.texts.elements ≡ [] }
    {
        Interner {
            texts: SeqSet::new(alloc),
        }
    }

    /// Returns the number of texts.
    pub fn len(&self) -> usize
        ensures { result ≡ length self.now.texts.elements }
    {
        self.texts.len()
    }

    /// Returns the one string with this text, which is kept from the first call with the text on.
    ///
    /// # Errors
    ///
    /// Returns [`AllocError`] if memory for the string cannot be allocated. No text is lost.
    #[tactic(auto, using(flurry::proofs::CallerLaws::text_elements))]
    pub fn intern(&mut self, text: &str) -> Result<Arc<String>, AllocError>
        ensures text { IfOk result (λ shared. string_bytes (arc_value shared) ≡ text.now) }
        ensures stored { IfOk result (λ shared. IsInterned self.new.texts.elements (arc_value shared)) }
        // No text is lost, even if memory cannot be allocated.
        ensures kept { (q : String Global) → IsSome (element_at string_cmp self.old.texts.elements q)
            → element_at string_cmp self.new.texts.elements q ≡ element_at string_cmp self.old.texts.elements q }
    {
        let owned = String::from_str(*self.texts.allocator(), text)?;
        self.texts.get_or_insert(owned)
    }
}
