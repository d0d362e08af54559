//! The call that extends a shared map, by its view, by several threads at once.
ghost use Rattle.flurry_shared_view.specs.SharedAnswers.{IsAnswerOf, or_refused, value_answer};
ghost use Rattle.flurry_base.specs.declared.call.Call.TheVariants.{Insert};
ghost use Rattle.flurry_shared_par.specs.Answers.{IsWithoutValue};

use crate::workers::{Put, put_all};
use flurry_base::hash::KeyHasher;
use flurry_shared_view::HashMapRef;
use std::alloc::{AllocError, Allocator};
use std::sync::Wait;
use std::thread::Threads;

impl<'m, R: Wait, K: Ord + Drop, V: Drop, S: KeyHasher<K>, A: Allocator + Copy> Put<(K, V)>
    for HashMapRef<'m, R, K, V, S, A> {
    // What an insertion returns, without the old value.
    ghost put_gives = { λ m p. IsWithoutValue (λ r. IsAnswerOf K.cmp S.hash_of m (Insert p.0 p.1)
        (or_refused (value_answer {A = A}) r)) };

    fn put(&self, item: (K, V)) -> Result<(), AllocError> {
        self.insert(item.0, item.1)?;
        Ok(())
    }
}

/// Inserts the pairs of `list` by several threads at once. See [`crate::map::par_extend`].
///
/// # Errors
///
/// Returns [`AllocError`] if memory for a piece cannot be allocated, if an insertion fails, or if a thread cannot be started. What then
/// remains is described at [`crate::map::par_extend`].
// No contract specifies what other threads leave in the map.
pub fn par_extend<
    'm,
    R: Threads + Wait + Sync,
    K: Ord + Drop + Send + Sync,
    V: Drop + Send + Sync,
    S: KeyHasher<K> + Sync,
    A: Allocator + Copy + Send + Sync,
>(
    map: &HashMapRef<'m, R, K, V, S, A>,
    list: Vec<(K, V), A>,
    part: usize,
) -> Result<(), AllocError> {
    put_all(map.runtime(), map, list, part, map.processors())
}
