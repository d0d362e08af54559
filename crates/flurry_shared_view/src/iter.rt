//! The iterators of a shared map.
ghost use Rattle.std.specs.Prelude.{◌≡◌};
ghost use Rattle.std.specs.Option.{option_map};
ghost use Rattle.std.specs.Arc.{arc_value};
ghost use Rattle.flurry_steps_sweep.specs.OutcomeView.{outcome_of, pair_value};
ghost use Rattle.flurry_steps_sweep.specs.Sweep.{pair_seen};
ghost use Rattle.flurry_shared_view.specs.Walks.{WalkAnswers, Begins, Gives, IsWalkUnderWay, ReadsOn, has_ended_after};

use crate::HashMapRef;
use flurry_base::hash::KeyHasher;
use flurry_shared_locks::LockField;
use flurry_steps_sweep::{Event, Reply, Seen, Sweep};
use std::alloc::{AllocError, Allocator, Global};
use std::marker::Model;
use std::sync::{Arc, Wait};

/// An iterator over the pairs of a shared map, in an unspecified order. Other calls may run meanwhile.
///
/// It starts at the table that was published when it was created. If there was none, it gives nothing, even if pairs are inserted later. It
/// gives no key twice, and it gives each pair that is present from before it was created until it has ended. A pair that is inserted or
/// removed meanwhile may be given or not. It holds no lock between two calls of [`Iter::next`].
///
/// ```
/// Ok(pairs.next()?.is_some())
/// ```
#[derive(Drop)]
pub struct Iter<'m, R, K: Ord, V, A: Allocator = Global> {
    walk: Sweep<K, V, A>,
    lock_field: LockField<'m, R, K, V, A>,
    has_ended: bool,
}

impl<'m, R, K: Ord, V, A: Allocator> Model for Iter<'m, R, K, V, A> {
    ghost use Rattle.std.specs.Prelude.{◌≡◌, false};
    ghost use Rattle.flurry_shared_view.specs.Walks.{IteratorState, IsWalkUnderWay};

    ghost Value = { IteratorState K V };

    ghost view = { λ it. record { walk = it.walk; has_ended = it.has_ended } };

    ghost invariant = { λ it. it.has_ended ≡ false → IsWalkUnderWay K.cmp it.walk };
}

impl<'m, R: Wait, K: Ord + Drop, V: Drop, A: Allocator + Copy> Iter<'m, R, K, V, A> {
    // Creates an iterator over the parts to which `lock_field` gives access. Its walk has done its first step, by which it starts at the
    // published table.
    pub(crate) fn new(lock_field: LockField<'m, R, K, V, A>) -> Self
        ensures { Begins K.cmp result }
    {
        let mut walk = Sweep::walk();
        let _ = lock_field.step_walk(&mut walk);
        Iter {
            walk,
            lock_field,
            has_ended: false,
        }
    }

    /// Returns clones of the `Arc`s of the next key and its value, or `None` at the end. Once the iterator has ended, it always returns
    /// `None`.
    ///
    /// Takes the lock of one bin after another for reading, up to the next pair, which costs a look-up in its bin. Takes no memory except
    /// for clones of `Arc`s.
    ///
    /// # Errors
    ///
    /// Returns [`AllocError`] if cloning an `Arc` fails. The iterator has then ended.
    pub fn next(&mut self) -> Result<Option<(Arc<K, A>, Arc<V, A>)>, AllocError>
        ensures { Gives K.cmp pair_value pair_seen self.old result self.new }
    {
        match self.next_seen()? {
            Some(seen) => Ok(Some(seen.into_pair())),
            None => Ok(None),
        }
    }

    /// Returns the next pair with the write number of its value, or `None` at the end. By that number, [`HashMapRef::remove_seen`] knows
    /// whether the value is still the one that was read. Once the iterator has ended, it always returns `None`.
    ///
    /// Takes the same locks, time and memory as [`Iter::next`].
    ///
    /// # Errors
    ///
    /// Returns [`AllocError`] if cloning an `Arc` fails. The iterator has then ended.
    pub fn next_seen(&mut self) -> Result<Option<Seen<K, V, A>>, AllocError>
        ensures { Gives K.cmp (λ s. s) (λ s. s) self.old result self.new }
    {
        if self.has_ended {
            return Ok(None);
        }
        let answer = see_next(&mut self.walk, &self.lock_field);
        self.has_ended = is_last(&answer);
        answer
    }
}

// Whether an iterator that returns `answer` has ended.
fn is_last<X, E>(answer: &Result<Option<X>, E>) -> bool
    ensures { result ≡ has_ended_after answer.now }
{
    match answer {
        Ok(Some(_)) => false,
        _ => true,
    }
}

// Does the steps of `walk` up to its next read, and returns what it has read. Returns `None` if the walk has ended, and the error if it
// failed.
fn see_next<R: Wait, K: Ord + Drop, V: Drop, A: Allocator + Copy>(
    walk: &mut Sweep<K, V, A>,
    lock_field: &LockField<'_, R, K, V, A>,
) -> Result<Option<Seen<K, V, A>>, AllocError>
    requires { IsWalkUnderWay K.cmp walk.old }
    ensures { WalkAnswers K.cmp (λ s. s) (λ s. s) walk.old result walk.new }
{
    if let Some(reply) = read_next(walk, lock_field) {
        match reply {
            Reply::Ended => return Ok(None),
            Reply::Refused => return Err(AllocError),
            _ => unreachable!(),
        }
    }
    match walk.seen()? {
        Some(seen) => Ok(Some(seen)),
        None => unreachable!(),
    }
}

// Does the steps of `walk` up to its next read, and returns `None`. If the walk ends before that, it takes the walk's reply and returns it.
fn read_next<R: Wait, K: Ord + Drop, V: Drop, A: Allocator + Copy>(
    walk: &mut Sweep<K, V, A>,
    lock_field: &LockField<'_, R, K, V, A>,
) -> Option<Reply<K, V, A>>
    ensures { ReadsOn K.cmp walk.old (option_map outcome_of result) walk.new }
{
    for _ in lock_field.runtime().forever() {
        if let Some(event) = lock_field.step_walk(walk) {
            match event {
                Event::Read => return None,
                _ => continue,
            }
        }
        if let Some(reply) = walk.take_reply() {
            return Some(reply);
        }
    }
    unreachable!()
}

impl<'m, R: Wait, K: Ord + Drop, V: Drop, S: KeyHasher<K>, A: Allocator + Copy> HashMapRef<
    'm,
    R,
    K,
    V,
    S,
    A,
> {
    /// Returns an iterator over the pairs. Other calls may run meanwhile.
    ///
    /// Takes the control's lock if no table is known to be published. Takes no memory. Constant time.
    // No contract specifies which pairs it gives, since other threads change them meanwhile.
    pub fn iter(&self) -> Iter<'m, R, K, V, A>
        ensures { Begins K.cmp result }
    {
        Iter::new(self.lock_field.reborrow())
    }

    /// Returns an iterator over the keys. It visits the pairs as [`HashMapRef::iter`] does.
    pub fn keys(&self) -> Keys<'m, R, K, V, A>
        ensures { Begins K.cmp result }
    {
        Keys::of(self.iter())
    }

    /// Returns an iterator over the values. It visits the pairs as [`HashMapRef::iter`] does.
    pub fn values(&self) -> Values<'m, R, K, V, A>
        ensures { Begins K.cmp result }
    {
        Values::of(self.iter())
    }
}

/// An iterator over the keys of a shared map. It visits the pairs as [`Iter`] does.
///
/// ```
/// let key = keys.next()?;
/// Ok(key.map(|key| *key))
/// ```
#[derive(Drop)]
pub struct Keys<'m, R, K: Ord, V, A: Allocator = Global> {
    pairs: Iter<'m, R, K, V, A>,
}

impl<'m, R, K: Ord, V, A: Allocator> Model for Keys<'m, R, K, V, A> {
    ghost use Rattle.flurry_shared_view.specs.Walks.{IteratorState};

    ghost Value = { IteratorState K V };

    ghost view = { λ it. it.pairs };
}

impl<'m, R: Wait, K: Ord + Drop, V: Drop, A: Allocator + Copy> Keys<'m, R, K, V, A> {
    // Creates an iterator over the keys of `pairs`.
    pub(crate) fn of(pairs: Iter<'m, R, K, V, A>) -> Self
        ensures { result ≡ pairs.entry }
    {
        Keys { pairs }
    }

    /// Returns a clone of the next key's `Arc`, or `None` at the end. Once the iterator has ended, it always returns `None`.
    ///
    /// Takes the same locks and time as [`Iter::next`].
    ///
    /// # Errors
    ///
    /// Returns [`AllocError`] if cloning an `Arc` fails. The iterator has then ended.
    pub fn next(&mut self) -> Result<Option<Arc<K, A>>, AllocError>
        ensures { Gives K.cmp arc_value (λ s. s.key) self.old result self.new }
    {
        match self.pairs.next()? {
            Some((key, _)) => Ok(Some(key)),
            None => Ok(None),
        }
    }
}

/// An iterator over the values of a shared map. It visits the pairs as [`Iter`] does.
///
/// ```
/// let value = values.next()?;
/// Ok(value.map(|value| *value))
/// ```
#[derive(Drop)]
pub struct Values<'m, R, K: Ord, V, A: Allocator = Global> {
    pairs: Iter<'m, R, K, V, A>,
}

impl<'m, R, K: Ord, V, A: Allocator> Model for Values<'m, R, K, V, A> {
    ghost use Rattle.flurry_shared_view.specs.Walks.{IteratorState};

    ghost Value = { IteratorState K V };

    ghost view = { λ it. it.pairs };
}

impl<'m, R: Wait, K: Ord + Drop, V: Drop, A: Allocator + Copy> Values<'m, R, K, V, A> {
    // Creates an iterator over the values of `pairs`.
    pub(crate) fn of(pairs: Iter<'m, R, K, V, A>) -> Self
        ensures { result ≡ pairs.entry }
    {
        Values { pairs }
    }

    /// Returns a clone of the next value's `Arc`, or `None` at the end. Once the iterator has ended, it always returns `None`.
    ///
    /// Takes the same locks and time as [`Iter::next`].
    ///
    /// # Errors
    ///
    /// Returns [`AllocError`] if cloning an `Arc` fails. The iterator has then ended.
    pub fn next(&mut self) -> Result<Option<Arc<V, A>>, AllocError>
        ensures { Gives K.cmp arc_value (λ s. s.value) self.old result self.new }
    {
        match self.pairs.next()? {
            Some((_, value)) => Ok(Some(value)),
            None => Ok(None),
        }
    }
}
