//! A call of a world.
ghost use Rattle.std.specs.Prelude.{◌≡◌, None, Some};
ghost use Rattle.flurry_base.specs.OneKey.{hash_of_call};
ghost use Rattle.flurry_steps_stages.specs.CallView.{plain_of_owned};
ghost use Rattle.flurry_base.specs.declared.call.Call.TheVariants as call;
ghost use Rattle.flurry_steps_stages.specs.Stage.{RemovesSeen, AtLocate};

use flurry_base::call::Seen as KeptSeen;
use flurry_base::hash::KeyHasher;
use flurry_bins_slots::ComputeFn;
use flurry_steps::Party;
use flurry_steps::party::{Call as PartyCall, OwnedCall};
use flurry_steps_sweep::Seen;
use flurry_steps_theory::Call;
use std::alloc::Allocator;
use std::marker::Model;

/// A call that has begun, with the walk from whose last read it began, if it is a removal of that pair, with its party, and with the
/// number of steps that it has done.
#[derive(Drop)]
pub(crate) struct PartyRecord<'k, K: Ord, V, F: ComputeFn<K, V>, A: Allocator> {
    pub(crate) call: Call<K, V, F>,
    pub(crate) began_from: Option<usize>,
    pub(crate) party: Party<&'k K, K, V, F, A>,
    pub(crate) steps: usize,
}

impl<'k, K: Ord, V, F: ComputeFn<K, V>, A: Allocator> Model for PartyRecord<'k, K, V, F, A> {
    ghost use Rattle.flurry_steps_world.specs.World.{PartyRecord};

    ghost Value = { PartyRecord K V F };

    ghost view = { λ c. record { call = c.call; began_from = c.began_from; party_state = c.party; steps = c.steps } };
}

impl<'k, K: Ord + Copy + Drop, V: Copy + Drop, F: ComputeFn<K, V>, A: Allocator> PartyRecord<
    'k,
    K,
    V,
    F,
    A,
> {
    // Creates the record of a removal of the pair that a walk has read last. The removal has done no step yet.
    pub(crate) fn of_seen(seen: Seen<K, V, A>, walk: usize, hash: u64, processors: usize) -> Self
        ensures { result ≡ record {
          call = call.RemoveSeen seen;
          began_from = Some walk;
          party_state = record { hash = hash; processors = processors; helped = None; stage = AtLocate (RemovesSeen seen) };
          steps = 0;
        } }
    {
        let kept = KeptSeen {
            key: *seen.key(),
            value: *seen.value(),
            number: seen.number(),
        };
        PartyRecord {
            call: Call::RemoveSeen(kept),
            began_from: Some(walk),
            party: Party::new(PartyCall::RemoveSeen(seen), hash, processors),
            steps: 0,
        }
    }
}

// The call as labels keep it.
pub(crate) fn plain_of_owned<K, V, F>(call: OwnedCall<K, V, F>) -> Call<K, V, F>
    ensures { result ≡ plain_of_owned call }
{
    match call {
        OwnedCall::Get(key) => Call::Get(key),
        OwnedCall::GetKeyValue(key) => Call::GetKeyValue(key),
        OwnedCall::ContainsKey(key) => Call::ContainsKey(key),
        OwnedCall::Remove(key) => Call::Remove(key),
        OwnedCall::RemoveEntry(key) => Call::RemoveEntry(key),
        OwnedCall::Insert(key, value) => Call::Insert(key, value),
        OwnedCall::TryInsert(key, value) => Call::TryInsert(key, value),
        OwnedCall::Compute(key, f) => Call::Compute(key, f),
        OwnedCall::Alter(key, f) => Call::Alter {
            key,
            may_add: true,
            f,
        },
        OwnedCall::AlterPresent(key, f) => Call::Alter {
            key,
            may_add: false,
            f,
        },
        OwnedCall::Reserve(more) => Call::Reserve(more),
        OwnedCall::Clear => Call::Clear,
        OwnedCall::Walk => Call::Walk,
    }
}

/// Returns the hash of the key of `call`, or 0 if the call has no key.
///
/// Computes one hash of a key.
pub fn hash_for<K: Ord, V, F, S: KeyHasher<K>>(hasher: &S, call: &OwnedCall<K, V, F>) -> u64
    ensures { result ≡ hash_of_call (S.hash_of hasher.now) (plain_of_owned call.now) }
{
    match call.key() {
        Some(key) => hasher.hash_one(key),
        None => 0,
    }
}
