//! The steps of a call over the locks: its first ones in one go, if its table is known without the control's lock.
ghost use Rattle.flurry_shared_replies.specs.Replies.{BeginsOrStays, IsReplyOf, RepliesFrom};
ghost use Rattle.flurry_steps_stages.specs.Stage.{BeginsToWrite, IsTaken, LooksUp, stage_of_call};
ghost use Rattle.flurry_steps.specs.PartyTally.{ending_stage};
ghost use Rattle.flurry_steps_sweep.specs.OutcomeView.{outcome_of};
ghost use Rattle.flurry_steps_stages.specs.CallView.{CallIsReady, plain_call};

use flurry_base::query::Query;
use flurry_base::sizes::bin_index;
use flurry_bins_slots::ComputeFn;
use flurry_shared_locks::{CallField, LockField};
use flurry_steps::Party;
use flurry_steps::party::{Call, Ending, Remains, Reply};
use flurry_steps_control::PublishedTable;
use std::alloc::Allocator;
use std::sync::Wait;

/// Runs a call over the locks of a map, and returns its reply. `hash` is the hash of the call's key; a call without a key does not read it.
/// A growth is divided among `processors` threads; `0` means 1. The function is copied into its callers, and then need not test which call
/// it runs.
///
/// As many steps as the call needs, each of which waits for the locks of its part.
// If a table is known to be published, and the bin there is live, a one-key call does its first two steps in one go. No party is made if
// these are all, or if the step at a tally is the last.
#[inline(always)]
pub fn reply_to<
    Q: Query<K>,
    K: Ord + Drop,
    V: Drop,
    F: ComputeFn<K, V>,
    A: Allocator + Copy,
    R: Wait,
>(
    lock_field: &LockField<'_, R, K, V, A>,
    call: Call<Q, K, V, F, A>,
    hash: u64,
    processors: usize,
) -> Reply<K, V, A>
    requires { CallIsReady F.can_change F.never_keeps call }
    ensures { RepliesFrom K.cmp F.changes hash processors (stage_of_call (plain_call Q.stands_for call)) result }
{
    let Some(start) = lock_field.newest() else {
        return drive_call(lock_field, call, hash, processors);
    };
    match &call {
        Call::Reserve(_) | Call::Clear | Call::Walk => {
            return drive_call(lock_field, call, hash, processors);
        }
        Call::Get(_) | Call::GetKeyValue(_) | Call::ContainsKey(_) => {
            return look_up_at_table(lock_field, start, call, hash, processors);
        }
        _ => return write_at_table(lock_field, start, call, hash, processors),
    }
}

// Runs a look-up that starts at the table `start`, and returns its reply.
fn look_up_at_table<
    Q: Query<K>,
    K: Ord + Drop,
    V: Drop,
    F: ComputeFn<K, V>,
    A: Allocator + Copy,
    R: Wait,
>(
    lock_field: &LockField<'_, R, K, V, A>,
    start: &PublishedTable,
    call: Call<Q, K, V, F, A>,
    hash: u64,
    processors: usize,
) -> Reply<K, V, A>
    requires ready { CallIsReady F.can_change F.never_keeps call }
    requires looks { LooksUp (stage_of_call (plain_call Q.stands_for call)) }
    ensures { RepliesFrom K.cmp F.changes hash processors (stage_of_call (plain_call Q.stands_for call)) result }
{
    let table = start.table();
    let index = bin_index(hash, table);
    if let Some(lock) = lock_field.slot(table, index) {
        let slot = lock.read(lock_field.runtime());
        if slot.at() == (table, index) && slot.is_live() {
            return Party::look_first(call, hash, start, &*slot);
        }
    }
    drive_call(lock_field, call, hash, processors)
}

// Runs a call that may change its bin and that starts at the table `start`, and returns its reply.
#[inline(always)]
fn write_at_table<
    Q: Query<K>,
    K: Ord + Drop,
    V: Drop,
    F: ComputeFn<K, V>,
    A: Allocator + Copy,
    R: Wait,
>(
    lock_field: &LockField<'_, R, K, V, A>,
    start: &PublishedTable,
    call: Call<Q, K, V, F, A>,
    hash: u64,
    processors: usize,
) -> Reply<K, V, A>
    requires ready { CallIsReady F.can_change F.never_keeps call }
    requires writes { BeginsToWrite (stage_of_call (plain_call Q.stands_for call)) }
    ensures { RepliesFrom K.cmp F.changes hash processors (stage_of_call (plain_call Q.stands_for call)) result }
{
    match try_write_bin(lock_field, start, call, hash) {
        Ok((ending, remains)) => {
            drop(remains);
            return finish_call::<K, V, F, A, R>(lock_field, ending, hash, processors);
        }
        Err(call) => return drive_call(lock_field, call, hash, processors),
    }
}

// Does the first two steps of a call that may change its bin. Returns the call, and what these steps left behind. If the call cannot start
// so, it has done no step, and is returned.
#[inline(always)]
fn try_write_bin<
    Q: Query<K>,
    K: Ord + Drop,
    V: Drop,
    F: ComputeFn<K, V>,
    A: Allocator + Copy,
    R: Wait,
>(
    lock_field: &LockField<'_, R, K, V, A>,
    start: &PublishedTable,
    call: Call<Q, K, V, F, A>,
    hash: u64,
) -> Result<(Ending<K, V, A>, Remains<Q, K, V, F, A>), Call<Q, K, V, F, A>>
    requires ready { CallIsReady F.can_change F.never_keeps call }
    requires writes { BeginsToWrite (stage_of_call (plain_call Q.stands_for call)) }
    ensures { BeginsOrStays Q.stands_for K.cmp F.changes hash call result }
{
    let table = start.table();
    let index = bin_index(hash, table);
    if let Some(lock) = lock_field.slot(table, index) {
        let mut slot = lock.write(lock_field.runtime());
        if slot.at() == (table, index) && slot.is_live() {
            return Ok(Party::write_first(call, hash, start, lock_field.allocator(), &mut *slot));
        }
    }
    Err(call)
}

// Finishes a call that has done its deciding step or has failed, and returns its reply.
#[inline(always)]
fn finish_call<K: Ord + Drop, V: Drop, F: ComputeFn<K, V>, A: Allocator + Copy, R: Wait>(
    lock_field: &LockField<'_, R, K, V, A>,
    ending: Ending<K, V, A>,
    hash: u64,
    processors: usize,
) -> Reply<K, V, A>
    ensures { RepliesFrom K.cmp F.changes hash processors (ending_stage ending) result }
{
    match ending.into_reply() {
        Ok(reply) => return reply,
        Err(ending) => return count_and_finish::<K, V, F, A, R>(
            lock_field, ending, hash, processors,
        ),
    }
}

// Finishes a call that has more to do, and returns its reply. If the call counts a pair next, and pairs may wait at a tally, it counts
// there.
#[inline(always)]
fn count_and_finish<K: Ord + Drop, V: Drop, F: ComputeFn<K, V>, A: Allocator + Copy, R: Wait>(
    lock_field: &LockField<'_, R, K, V, A>,
    ending: Ending<K, V, A>,
    hash: u64,
    processors: usize,
) -> Reply<K, V, A>
    ensures { RepliesFrom K.cmp F.changes hash processors (ending_stage ending) result }
{
    if ending.is_counting() {
        if let Some((tally, most)) = lock_field.tally(hash) {
            let mut counted = ending;
            counted.on_tally::<F>(&mut *tally.lock(lock_field.runtime()), most);
            match counted.into_reply() {
                Ok(reply) => return reply,
                Err(ending) => return drive_ending::<K, V, F, A, R>(
                    lock_field, ending, hash, processors,
                ),
            }
        }
    }
    drive_ending::<K, V, F, A, R>(lock_field, ending, hash, processors)
}

// Does all steps of a call, one after another, and returns its reply.
fn drive_call<
    Q: Query<K>,
    K: Ord + Drop,
    V: Drop,
    F: ComputeFn<K, V>,
    A: Allocator + Copy,
    R: Wait,
>(
    lock_field: &LockField<'_, R, K, V, A>,
    call: Call<Q, K, V, F, A>,
    hash: u64,
    processors: usize,
) -> Reply<K, V, A>
    requires { CallIsReady F.can_change F.never_keeps call }
    ensures { RepliesFrom K.cmp F.changes hash processors (stage_of_call (plain_call Q.stands_for call)) result }
{
    drive_party(lock_field, Party::new(call, hash, processors))
}

// Does the steps that are left of a call that has done its deciding step, and returns its reply.
fn drive_ending<K: Ord + Drop, V: Drop, F: ComputeFn<K, V>, A: Allocator + Copy, R: Wait>(
    lock_field: &LockField<'_, R, K, V, A>,
    ending: Ending<K, V, A>,
    hash: u64,
    processors: usize,
) -> Reply<K, V, A>
    ensures { RepliesFrom K.cmp F.changes hash processors (ending_stage ending) result }
{
    drive_party(lock_field, ending.into_party::<&K, F>(hash, processors))
}

// Does the steps that are left of a call, and returns its reply.
fn drive_party<
    Q: Query<K>,
    K: Ord + Drop,
    V: Drop,
    F: ComputeFn<K, V>,
    A: Allocator + Copy,
    R: Wait,
>(lock_field: &LockField<'_, R, K, V, A>, party: Party<Q, K, V, F, A>) -> Reply<K, V, A>
    requires { IsTaken party.stage → ⊥ }
    ensures { IsReplyOf K.cmp F.changes party (outcome_of result) }
{
    let mut party = party;
    let reply = CallField::new(lock_field).finish(&mut party);
    drop(party);
    reply
}
