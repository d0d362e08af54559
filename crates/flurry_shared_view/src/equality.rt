//! Equality of shared maps.
ghost use Rattle.std.specs.Prelude.{◌≡◌, true, IfOk, Option};
ghost use Rattle.flurry_base.specs.declared.call.Call.TheVariants.{Get};
ghost use Rattle.flurry_base.specs.declared.reply.KeptReply.TheVariants.{Value};
ghost use Rattle.flurry_steps_sweep.specs.Outcome.{OutcomeReply};
ghost use Rattle.flurry_shared_view.specs.SharedAnswers.{IsAnswerOf};
ghost use Rattle.flurry_shared_view.specs.Visits.{FoldsWalk, LooksUpEqual, is_equal_to};
ghost use Rattle.flurry_shared_view.specs.Walks.{Begins};

use crate::HashMapRef;
use crate::iter::Iter;
use flurry_base::hash::KeyHasher;
use std::alloc::{AllocError, Allocator};
use std::sync::Wait;

// No contract specifies when a map is unequal, since its length is one that other threads may change meanwhile.
impl<'m, R: Wait, K: Ord + Drop, V: Drop, S: KeyHasher<K>, A: Allocator + Copy> HashMapRef<
    'm,
    R,
    K,
    V,
    S,
    A,
> {
    /// Returns `true` if this map counts as many pairs as `other`, and if `other` has an equal value for each pair that
    /// [`HashMapRef::iter`] gives of this map. If no thread changes either map, it returns whether the maps are equal.
    ///
    /// One look-up for each pair if the maps are equally long. Takes the locks of [`HashMapRef::len`] of both maps, those of the walk, and
    /// those of [`HashMapRef::get`] of `other`.
    ///
    /// # Errors
    ///
    /// Returns [`AllocError`] if cloning an `Arc` fails.
    pub fn equals(&self, other: &Self) -> Result<bool, AllocError>
    where
        V: PartialEq,
        ensures { IfOk result (λ are_equal. are_equal ≡ true
            → FoldsWalk K.cmp (LooksUpEqual K.cmp S.hash_of other.now V.eq true) tt tt) }
    {
        if self.len() != other.len() {
            return Ok(false);
        }
        let mut pairs = self.iter();
        let answer = other.has_rest(&mut pairs);
        drop(pairs);
        answer
    }

    // Whether this map has an equal value for each pair that is left. It borrows the iterator, since a body that owns it needs a proof of
    // its drop at each way out.
    fn has_rest(&self, pairs: &mut Iter<'_, R, K, V, A>) -> Result<bool, AllocError>
    where
        V: PartialEq,
        requires { Begins K.cmp pairs.old }
        ensures { IfOk result (λ has_all. has_all ≡ true
            → FoldsWalk K.cmp (LooksUpEqual K.cmp S.hash_of self.now V.eq true) tt tt) }
    {
        for _ in self.runtime().forever() {
            let Some((key, value)) = pairs.next()? else {
                return Ok(true);
            };
            if !self.has(&key, &value)? {
                return Ok(false);
            }
        }
        unreachable!()
    }

    // Whether this map has an equal value at the key.
    fn has(&self, key: &K, value: &V) -> Result<bool, AllocError>
    where
        V: PartialEq,
        ensures { IfOk result (λ has_pair. (found : Option V)
            × IsAnswerOf K.cmp S.hash_of self.now (Get key.now) (OutcomeReply (Value found))
            × (is_equal_to V.eq value.now found ≡ has_pair)) }
    {
        match self.get(key)? {
            Some(found) => Ok(*value == *found),
            None => Ok(false),
        }
    }
}
