//! The first two steps of a call, done at once.
ghost use Rattle.std.specs.Prelude.{◌≡◌, MatchResult, true};
ghost use Rattle.flurry_bins_slots.specs.Slot.{IsSlot, is_live};
ghost use Rattle.flurry_steps.specs.FirstSteps.{BeginsAt, begun_at};
ghost use Rattle.flurry_steps_sweep.specs.Part.{LookPart, BinPart};
ghost use Rattle.flurry_steps_stages.specs.Stage.{LooksUp, BeginsToWrite, AtLocate, AtDone, stage_of_call};
ghost use Rattle.flurry_steps.specs.Party.{wanted_part};
ghost use Rattle.flurry_steps.specs.PartyTally.{ending_stage};
ghost use Rattle.flurry_steps_sweep.specs.OutcomeView.{outcome_of};
ghost use Rattle.flurry_steps_stages.specs.CallView.{CallIsReady, plain_call, plain_of_owned};
ghost use Rattle.flurry_steps_stages.specs.StageView.{task_of};
ghost use Rattle.flurry_steps.specs.PartyView.{plain_of_whole};

use super::at_slot::{step_lookup, step_write};
use super::ending::Ending;
use super::{Party, Reply};
use flurry_base::query::Query;
use flurry_bins_slots::{ComputeFn, Given, Slot};
use flurry_steps_control::PublishedTable;
use flurry_steps_stages::{AnswerForm, Call, Key, Left, OwnedCall, Stage, Task};
use std::alloc::{Allocator, Global};

/// What the first steps of a call took out of a bin and do not return, or were given and did not keep. It is to be dropped while no lock
/// is held, since that may run code of the map's user.
///
/// ```
/// let (ending, left) = Party::write_first(call, hash, start, alloc, slot);
/// drop(left);
/// ending
/// ```
#[derive(Drop)]
pub struct Remains<Q, K, V, F, A: Allocator = Global> {
    left: Left<Q, K, V, F, A>,
}

// A call without a key.
#[derive(Clone, Copy, Drop)]
pub(crate) enum WholeMapCall {
    Reserve(usize),
    Clear,
    Walk,
}

// The task of a one-key call, or the call without a key.
pub(super) fn task_for<Q: Query<K>, K: Ord, V, F, A: Allocator>(
    call: Call<Q, K, V, F, A>,
) -> Result<Task<Q, K, V, F, A>, WholeMapCall>
    ensures { MatchResult result (λ t. stage_of_call (plain_call Q.stands_for call)
        ≡ AtLocate (task_of Q.stands_for t))
        (λ c. stage_of_call (plain_call Q.stands_for call) ≡ stage_of_call (plain_of_whole c)) }
{
    match call {
        Call::Get(key) => Ok(Task::Find(AnswerForm::Value, Key::Lent(key))),
        Call::GetKeyValue(key) => Ok(Task::Find(AnswerForm::Pair, Key::Lent(key))),
        Call::ContainsKey(key) => Ok(Task::Find(AnswerForm::Presence, Key::Lent(key))),
        Call::Remove(key) => Ok(Task::Remove(AnswerForm::Value, Key::Lent(key))),
        Call::RemoveEntry(key) => Ok(Task::Remove(AnswerForm::Pair, Key::Lent(key))),
        Call::RemoveSeen(seen) => Ok(Task::RemoveSeen(seen)),
        Call::Insert(key, value) => Ok(Task::Insert(key, Given::Shared(value))),
        Call::TryInsert(key, value) => Ok(Task::Add(key, value)),
        Call::Compute(key, f) => Ok(Task::Compute(Key::Lent(key), f)),
        Call::Alter(key, f) => Ok(Task::Alter(key, f)),
        Call::AlterPresent(key, f) => Ok(Task::AlterPresent(Key::Lent(key), f)),
        Call::Reserve(more) => Err(WholeMapCall::Reserve(more)),
        Call::Clear => Err(WholeMapCall::Clear),
        Call::Walk => Err(WholeMapCall::Walk),
    }
}

// The task of a one-key call that owns its key, or the call without a key.
pub(super) fn task_of_owned<Q: Query<K>, K: Ord, V, F, A: Allocator>(
    call: OwnedCall<K, V, F>,
) -> Result<Task<Q, K, V, F, A>, WholeMapCall>
    ensures { MatchResult result (λ t. stage_of_call (plain_of_owned call) ≡ AtLocate (task_of Q.stands_for t))
        (λ c. stage_of_call (plain_of_owned call) ≡ stage_of_call (plain_of_whole c)) }
{
    match call {
        OwnedCall::Get(key) => Ok(Task::Find(AnswerForm::Value, Key::Own(key))),
        OwnedCall::GetKeyValue(key) => Ok(Task::Find(AnswerForm::Pair, Key::Own(key))),
        OwnedCall::ContainsKey(key) => Ok(Task::Find(AnswerForm::Presence, Key::Own(key))),
        OwnedCall::Remove(key) => Ok(Task::Remove(AnswerForm::Value, Key::Own(key))),
        OwnedCall::RemoveEntry(key) => Ok(Task::Remove(AnswerForm::Pair, Key::Own(key))),
        OwnedCall::Insert(key, value) => Ok(Task::Insert(key, Given::Plain(value))),
        OwnedCall::TryInsert(key, value) => Ok(Task::Add(key, value)),
        OwnedCall::Compute(key, f) => Ok(Task::Compute(Key::Own(key), f)),
        OwnedCall::Alter(key, f) => Ok(Task::Alter(key, f)),
        OwnedCall::AlterPresent(key, f) => Ok(Task::AlterPresent(Key::Own(key), f)),
        OwnedCall::Reserve(more) => Err(WholeMapCall::Reserve(more)),
        OwnedCall::Clear => Err(WholeMapCall::Clear),
        OwnedCall::Walk => Err(WholeMapCall::Walk),
    }
}

impl<Q: Query<K>, K: Ord + Drop, V: Drop, F: ComputeFn<K, V>, A: Allocator> Party<Q, K, V, F, A> {
    /// Does at once the first two steps of a look-up: the step at the published table `start`, and the step at the slot there, whose bin
    /// is live. Returns the reply, since these steps finish the call.
    ///
    /// Takes as many steps as a look-up in the bin.
    pub fn look_first(
        call: Call<Q, K, V, F, A>,
        hash: u64,
        start: &PublishedTable,
        slot: &Slot<K, V, A>,
    ) -> Reply<K, V, A>
        requires looks { LooksUp (stage_of_call (plain_call Q.stands_for call)) }
        requires part { wanted_part (begun_at start.now hash 0 (stage_of_call (plain_call Q.stands_for call)))
            ≡ LookPart slot.now.table slot.now.index }
        requires live { is_live slot.now.content ≡ true }
        ensures within { IsSlot K.cmp slot.now }
        ensures steps { BeginsAt K.cmp F.changes hash start.now (stage_of_call (plain_call Q.stands_for call))
            slot.now
            (AtDone (outcome_of result)) slot.now }
    {
        let Ok(Task::Find(form, key)) = task_for(call) else {
            unreachable!()
        };
        let (stage, _, _) = step_lookup::<Q, K, V, F, A>(hash, form, key, start.table(), slot);
        match stage {
            Stage::Done(reply) => reply,
            _ => unreachable!(),
        }
    }
}

impl<Q: Query<K>, K: Ord + Drop, V: Drop, F: ComputeFn<K, V>, A: Allocator + Copy> Party<
    Q,
    K,
    V,
    F,
    A,
> {
    /// Does at once the first two steps of a call that may change its bin: the step at the published table `start`, and the step at the
    /// slot there, whose bin is live. The call has then decided, or memory for it could not be allocated. Returns the call, and what these
    /// steps left behind, which is to be dropped while no lock is held.
    ///
    /// Takes as many steps as a look-up in the bin.
    #[inline(always)]
    pub fn write_first(
        call: Call<Q, K, V, F, A>,
        hash: u64,
        start: &PublishedTable,
        alloc: A,
        slot: &mut Slot<K, V, A>,
    ) -> (Ending<K, V, A>, Remains<Q, K, V, F, A>)
        requires ready { CallIsReady F.can_change F.never_keeps call }
        requires writes { BeginsToWrite (stage_of_call (plain_call Q.stands_for call)) }
        requires part { wanted_part (begun_at start.now hash 0 (stage_of_call (plain_call Q.stands_for call)))
            ≡ BinPart slot.old.table slot.old.index }
        requires live { is_live slot.old.content ≡ true }
        ensures within { IsSlot K.cmp slot.old }
        ensures steps { BeginsAt K.cmp F.changes hash start.now (stage_of_call (plain_call Q.stands_for call))
            slot.old
            (ending_stage result.0) slot.new }
    {
        let Ok(task) = task_for(call) else {
            unreachable!()
        };
        let (stage, _, left) = step_write(alloc, hash, task, start.table(), slot);
        (Ending::of_stage(stage), Remains { left })
    }
}
