//! What an insertion gives back of what it was given.
ghost use Rattle.std.specs.Prelude.{◌≡◌, IfErr, IfOk, true};
ghost use Rattle.std.specs.Arc.{arc_value};
ghost use Rattle.flurry_base.specs.Given.{given_of, is_plain};

use std::alloc::{Allocator, Global};
use std::sync::Arc;

/// A key or a value that an insertion was given: in an `Arc` if one had been made for it, and plain otherwise.
///
/// ```
/// match given {
///     Given::Plain(number) => number,
///     Given::Shared(number) => *number,
/// }
/// ```
#[derive(Drop)]
pub enum Given<T, A: Allocator = Global> {
    /// Plain.
    Plain(T),
    /// In an `Arc`.
    Shared(Arc<T, A>),
}

impl<T, A: Allocator> Given<T, A> {
    /// Returns the `Arc`, which is made now if there is none. Constant time.
    ///
    /// # Errors
    ///
    /// Returns what was given if memory for the `Arc` cannot be allocated. What is in an `Arc` already is never refused.
    pub fn into_shared(self, alloc: A) -> Result<Arc<T, A>, Self>
        ensures ok { IfOk result (λ c. arc_value c ≡ given_of self) }
        ensures err { IfErr result (λ g. given_of g ≡ given_of self) }
        ensures plain { IfErr result (λ g. is_plain self ≡ true) }
    {
        match self {
            Given::Shared(shared) => Ok(shared),
            Given::Plain(plain) => match Arc::new(alloc, plain) {
                Ok(shared) => Ok(shared),
                Err(failed) => Err(Given::Plain(failed.value)),
            },
        }
    }
}

/// The key and the value of an insertion that did not take place, because memory could not be allocated.
///
/// ```
/// match Node::of_key(alloc, hash, key, value, 0) {
///     Ok(_) => None,
///     Err(NotInserted { key, .. }) => match key {
///         Given::Plain(key) => Some(key),
///         Given::Shared(key) => Some(*key),
///     },
/// }
/// ```
#[derive(Drop)]
pub struct NotInserted<K, V, A: Allocator = Global> {
    /// The key.
    pub key: Given<K, A>,
    /// The value.
    pub value: Given<V, A>,
}

/// What an insertion at a present key gives back.
///
/// ```
/// let Replaced { key, old } = replaced;
/// (key, *old)
/// ```
#[derive(Drop)]
pub struct Replaced<K, V, A: Allocator = Global> {
    /// The key that was passed in; the stored one stays.
    pub key: K,
    /// The value that the key had.
    pub old: Arc<V, A>,
}
