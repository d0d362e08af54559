//! The calls of a shared map.
ghost use Rattle.std.specs.Prelude.{◌≡◌, option_map};
ghost use Rattle.flurry_base.specs.OneKey.{hash_of_call, key_of};
ghost use Rattle.flurry_steps_stages.specs.CallView.{plain_call, plain_key, plain_of_owned};

use flurry_base::hash::KeyHasher;
use flurry_base::query::{HashedQuery, Query};
use flurry_bins_slots::Given;
use flurry_steps_sweep::Seen;
use std::alloc::{Allocator, Global};
use std::cmp::Ordering;
use std::sync::Arc;

/// A call of a shared map.
///
/// ```
/// let party: Party<&u64, u64, u64, F> = Party::new(Call::ContainsKey(key), *key, 1);
/// let want = party.want();
/// drop(party);
/// want
/// ```
#[derive(Drop)]
pub enum Call<Q, K, V, F, A: Allocator = Global> {
    /// A look-up of the value of a key.
    Get(Q),
    /// A look-up of the stored key and the value of a key.
    GetKeyValue(Q),
    /// A check whether a key is present.
    ContainsKey(Q),
    /// A removal of the pair of a key, which returns the value.
    Remove(Q),
    /// A removal of the pair of a key, which returns the stored key and the value.
    RemoveEntry(Q),
    /// A removal of a pair that a walk has read, if and only if its value is still as it was read. It returns the value.
    RemoveSeen(Seen<K, V, A>),
    /// An insertion of a value at a key, which returns the value that the key had. The value is in an `Arc`, for which no memory has to be
    /// taken while the bin is locked.
    Insert(K, Arc<V, A>),
    /// An insertion of a value at a key, if the key is absent.
    TryInsert(K, V),
    /// A call of the function on the pair of a present key. The value that it returns replaces the value of the key; if it returns
    /// `None`, the pair is removed. The call returns the new value.
    Compute(Q, F),
    /// A call of the function on the value of a key, or on `None`. The pair becomes what the function returns, and may be added.
    Alter(K, F),
    /// A call of the function on the value of a present key. The pair becomes what the function returns. If the key is absent, the function
    /// is not called.
    AlterPresent(Q, F),
    /// A reservation of room for the given number of additional pairs.
    Reserve(usize),
    /// A removal of all pairs, one bin after another.
    Clear,
    /// A walk, which reads all pairs, one after another.
    Walk,
}

impl<Q, K: Ord + Drop, V: Drop, F, A: Allocator> Call<Q, K, V, F, A> {
    /// Returns the hash that `hasher` gives the key of the call, or 0 if it has no key. Computes one hash of a key.
    #[inline]
    pub fn hash_by<S: KeyHasher<K>>(&self, hasher: &S) -> u64
    where
        Q: HashedQuery<K, S>,
        ensures { result ≡ hash_of_call (S.hash_of hasher.now) (plain_call Q.stands_for self.now) }
    {
        match self {
            Call::Get(key)
            | Call::GetKeyValue(key)
            | Call::ContainsKey(key)
            | Call::Remove(key)
            | Call::RemoveEntry(key)
            | Call::Compute(key, _)
            | Call::AlterPresent(key, _) => key.hash_by(hasher),
            Call::RemoveSeen(seen) => hasher.hash_one(seen.key()),
            Call::Insert(key, _) | Call::TryInsert(key, _) | Call::Alter(key, _) => {
                hasher.hash_one(key)
            }
            Call::Reserve(_) | Call::Clear | Call::Walk => 0,
        }
    }
}

/// A call of a shared map that owns its key, as a list of calls keeps it.
///
/// ```
/// let party = world.begin(OwnedCall::Insert(key, value))?;
/// for _ in 0..4u32 {
///     world.step(party)?;
/// }
/// ```
#[derive(Clone, Copy, Debug)]
pub enum OwnedCall<K, V, F> {
    /// A look-up of the value of a key, as [`Call::Get`].
    Get(K),
    /// A look-up of the stored key and the value of a key, as [`Call::GetKeyValue`].
    GetKeyValue(K),
    /// A check whether a key is present, as [`Call::ContainsKey`].
    ContainsKey(K),
    /// A removal of the pair of a key, as [`Call::Remove`].
    Remove(K),
    /// A removal of the pair of a key, as [`Call::RemoveEntry`].
    RemoveEntry(K),
    /// An insertion of a value at a key, as [`Call::Insert`].
    Insert(K, V),
    /// An insertion of a value at a key, if the key is absent, as [`Call::TryInsert`].
    TryInsert(K, V),
    /// A call of a function on the pair of a present key, as [`Call::Compute`].
    Compute(K, F),
    /// A call of a function on the value of a key, or on `None`, as [`Call::Alter`].
    Alter(K, F),
    /// A call of a function on the value of a present key, as [`Call::AlterPresent`].
    AlterPresent(K, F),
    /// A reservation of room for the given number of additional pairs, as [`Call::Reserve`].
    Reserve(usize),
    /// A removal of all pairs, as [`Call::Clear`].
    Clear,
    /// A walk, as [`Call::Walk`].
    Walk,
}

impl<K, V, F> OwnedCall<K, V, F> {
    /// Returns the key of the call, or `None` if it has no key. Constant time.
    pub fn key(&self) -> Option<&K>
        ensures { option_map (λ k. k.now) result ≡ key_of (plain_of_owned self.now) }
    {
        match self {
            OwnedCall::Get(key)
            | OwnedCall::GetKeyValue(key)
            | OwnedCall::ContainsKey(key)
            | OwnedCall::Remove(key)
            | OwnedCall::RemoveEntry(key)
            | OwnedCall::Insert(key, _)
            | OwnedCall::TryInsert(key, _)
            | OwnedCall::Compute(key, _)
            | OwnedCall::Alter(key, _)
            | OwnedCall::AlterPresent(key, _) => Some(key),
            OwnedCall::Reserve(_) | OwnedCall::Clear | OwnedCall::Walk => None,
        }
    }
}

/// A key that is borrowed for the time of a call, or that the call owns.
#[derive(Drop)]
pub enum Key<Q, K> {
    Lent(Q),
    Own(K),
}

impl<Q: Query<K>, K: Ord> Query<K> for &Key<Q, K> {
    ghost stands_for = { λ k. plain_key Q.stands_for k.now };

    fn compare(self, key: &K) -> Ordering {
        match self {
            Key::Lent(lent) => lent.compare(key),
            Key::Own(own) => own.cmp(key),
        }
    }
}

/// What a call returns of the entry of a key.
#[derive(Clone, Copy, Drop)]
pub enum AnswerForm {
    /// The value.
    Value,
    /// The stored key and the value.
    Pair,
    /// Whether there is an entry.
    Presence,
}

/// A one-key call that has not decided yet.
#[derive(Drop)]
pub enum Task<Q, K, V, F, A: Allocator> {
    Find(AnswerForm, Key<Q, K>),
    Remove(AnswerForm, Key<Q, K>),
    RemoveSeen(Seen<K, V, A>),
    Insert(K, Given<V, A>),
    Add(K, V),
    Compute(Key<Q, K>, F),
    Alter(K, F),
    AlterPresent(Key<Q, K>, F),
}
