//! The call that extends a shared set, by its view, by several threads at once.
ghost use Rattle.flurry_shared_view.specs.SharedAnswers.{IsAnswerOf, or_refused};
ghost use Rattle.flurry_base.specs.declared.call.Call.TheVariants.{TryInsert};
ghost use Rattle.flurry_shared_par.specs.Answers.{IsWithoutValue};
ghost use Rattle.flurry_shared_set.specs.ElementAnswers.{inserted_answer};

use crate::workers::{Put, put_all};
use flurry_base::hash::KeyHasher;
use flurry_shared_set::HashSetRef;
use std::alloc::{AllocError, Allocator};
use std::sync::Wait;
use std::thread::Threads;

impl<'m, R: Wait, T: Ord + Drop, S: KeyHasher<T>, A: Allocator + Copy> Put<T>
    for HashSetRef<'m, R, T, S, A> {
    // What an insertion returns, without whether the element is new.
    ghost put_gives = { λ s e. IsWithoutValue (λ r. IsAnswerOf T.cmp S.hash_of s (TryInsert e tt)
        (or_refused inserted_answer r)) };

    fn put(&self, item: T) -> Result<(), AllocError> {
        self.insert(item)?;
        Ok(())
    }
}

/// Inserts the elements of `list` by several threads at once. See [`crate::set::par_extend`].
///
/// # Errors
///
/// Returns [`AllocError`] if memory for a piece cannot be allocated, if an insertion fails, or if a thread cannot be started. What then
/// remains is described at [`crate::set::par_extend`].
// No contract specifies what other threads leave in the set.
pub fn par_extend<
    'm,
    R: Threads + Wait + Sync,
    T: Ord + Drop + Send + Sync,
    S: KeyHasher<T> + Sync,
    A: Allocator + Copy + Send + Sync,
>(set: &HashSetRef<'m, R, T, S, A>, list: Vec<T, A>, part: usize) -> Result<(), AllocError> {
    put_all(set.runtime(), set, list, part, set.processors())
}
