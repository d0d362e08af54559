//! Calls that are driven to their end.
ghost use Rattle.std.specs.Prelude.{◌≡◌, ◌+◌, ◌≤◌, ℕ, []};
ghost use Rattle.std.specs.declared.cmp.Ordering.TheVariants.{Equal};
ghost use Rattle.flurry_steps_drive.specs.Exact.{Holds, DrivesTo, IsExact, most_counted};
ghost use Rattle.flurry_steps_drive.specs.IsExclusive.{IsExclusive};
ghost use Rattle.flurry_steps.specs.Field.{FieldStep};
ghost use Rattle.flurry_steps_stages.specs.Stage.{IsTaken};
ghost use Rattle.flurry_steps.specs.StepClosure.{StepsToReply};
ghost use Rattle.flurry_steps_sweep.specs.OutcomeView.{outcome_of};
ghost use Rattle.flurry_steps_stages.specs.CallView.{OwnedIsReady, plain_of_owned};
ghost use Rattle.flurry_steps_theory.specs.Map.{Pairs};
ghost use Rattle.flurry_steps_world.specs.Parts.{OwnLends, OwnLacks, no_parts};
ghost use Rattle.flurry_steps_world.specs.Tables.{PlaceGives};
ghost use Rattle.flurry_base.specs.declared.sizes.TheConstants.{MAX_LABELS};

use flurry_base::hash::KeyHasher;
use flurry_base::query::Query;
use flurry_bins_slots::ComputeFn;
use flurry_steps::party::{OwnedCall, Reply};
use flurry_steps::{Field, Party, finish};
use flurry_steps_world::{Parts, hash_for};
use std::alloc::Allocator;
use std::sync::Wait;

/// Does the steps of `party` until it is done, and returns its reply, which is then taken from it. A step whose part `field` does not
/// pass is tried again, so a call whose part never comes does not end.
///
/// A field is exclusive if what it passes is its own, and what it does not pass is not there. Over such a field, whose parts hold a
/// finite map and which nobody else changes, a call before its first step behaves as it does on that map. A one-key call, also a
/// conditional removal, returns a reply that the map allows, and the parts then hold the map after the call. A walk and a reserve leave
/// the map unchanged, and a clear leaves no pair. Any call that fails for lack of memory leaves the map unchanged; a clear never fails
/// that way. This holds if the distance of the count of pairs from 0, plus the one pair that a one-key call may count or the pairs that a
/// clear removes, is at most 2^62.
///
/// Takes as many steps as the call needs, and as many as the field needs to pass its parts.
pub fn drive<
    Q: Query<K>,
    K: Ord + Drop,
    V: Drop,
    A: Allocator + Copy,
    F: ComputeFn<K, V>,
    X: Field<K, V, A>,
    R: Wait,
>(rt: &R, party: &mut Party<Q, K, V, F, A>, field: &mut X) -> Reply<K, V, A>
    requires { IsTaken party.old.stage → ⊥ }
    ensures field_steps { StepsToReply (FieldStep X.Room.place_gives K.cmp F.changes X.lends) field.old party.old
        (outcome_of result) field.new party.new }
    ensures exact { IsExact X.Room.place_gives K.cmp F.changes X.lends X.lacks field.old party.old
        (outcome_of result) field.new }
{
    finish(rt, party, field)
}

/// Does all steps of `call` over `parts`, which nobody else changes, and returns the reply.
///
/// The reply is that of the finite map which the parts hold, and the parts then hold the map after the call: the same map after a walk or
/// a reserve, and a map without pairs after a clear. A call that fails for lack of memory leaves the map unchanged; a clear never fails
/// that way. This holds if the distance of the count of pairs from 0, plus the one pair that a one-key call may count or the pairs that a
/// clear removes, is at most 2^62.
///
/// Takes as many steps as the call needs.
pub fn drive_alone<
    K: Ord + Drop,
    V: Drop,
    A: Allocator + Copy,
    F: ComputeFn<K, V>,
    S: KeyHasher<K>,
    R: Wait,
>(
    rt: &R,
    call: OwnedCall<K, V, F>,
    hasher: &S,
    processors: usize,
    parts: &mut Parts<K, V, A>,
) -> Reply<K, V, A>
    requires { OwnedIsReady F.can_change F.never_keeps call }
    ensures { (n : ℕ) (m : Pairs K V) → n + most_counted (plain_of_owned call) m ≤ MAX_LABELS
        → Holds K.cmp (S.hash_of hasher.now) F.changes n parts.old m
        → DrivesTo K.cmp (S.hash_of hasher.now) F.changes (plain_of_owned call) n parts.old m
        (outcome_of result) parts.new }
{
    let hash = hash_for(hasher, &call);
    let mut party = Party::from_owned(call, hash, processors);
    let reply = drive(rt, &mut party, parts);
    drop(party);
    reply
}

/// States that the parts of one owner are an exclusive field: what it passes is its own, and what it does not pass is not
/// there. Does nothing; its contract is a law.
pub fn own_parts_are_exclusive<K: Ord, V>()
    ensures { IsExclusive {K = K} {V = V} (λ s. s) (λ r. r) PlaceGives OwnLends OwnLacks }
{}

/// States that parts without a table hold no pair. Does nothing; its contract is a law.
pub fn no_parts_hold_nothing<K: Ord, V, F: ComputeFn<K, V>>()
    ensures { (hash : K → ℕ) → ((j k : K) → K.cmp j k ≡ Equal → hash j ≡ hash k)
        → Holds {V = V} K.cmp hash F.changes 0 no_parts [] }
{}
