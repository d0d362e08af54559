//! The steps of a call at a bin.
ghost use Rattle.std.specs.Prelude.{◌≡◌, ◌+◌, ◌-◌, ◌<◌, ◌≤◌, ◌⊎◌, true, false, Some, IfOk, OnErr};
ghost use Rattle.flurry_base.specs.Given.{given_of};
ghost use Rattle.flurry_bins_slots.specs.LiveView.{view_of_inserted, view_of_added, outcome, alteration, alteration_if_present};
ghost use Rattle.flurry_bins.specs.PlainEntries.{numbered_pair};
ghost use Rattle.flurry_bins_slots.specs.Slot.{IsSlot, IsUnborn, LiesInBin};
ghost use Rattle.flurry_steps_sweep.specs.Outcome.{OutcomeReply};
ghost use Rattle.flurry_steps_stages.specs.Stage.{StageIsReady, TaskIsReady, IsWriter, IsDecided, steps_left, Finds, Removes, RemovesSeen, Inserts, Adds, Computes, Alters, reply_for};
ghost use Rattle.flurry_steps.specs.PartySlots.{ContentGives, GoesOnNew, GoesOnWritten, GoesOnAdded, GoesOnAltered, FindCanBeRefused, stage_computed};
ghost use Rattle.flurry_steps_sweep.specs.OutcomeView.{outcome_of};
ghost use Rattle.flurry_steps_stages.specs.CallView.{plain_key};
ghost use Rattle.flurry_steps_stages.specs.StageView.{stage_of, task_of, form_of};
ghost use Rattle.flurry_base.specs.declared.sizes.TheConstants.{MAX_TABLE};

use super::at_control::absent_reply;
use super::{Event, Reply};
use flurry_base::query::Query;
use flurry_bins::bin::Entry;
use flurry_bins_slots::{
    Added, Altered, Answer, ComputeFn, Computed, Given, Inserted, Replaced, Slot,
};
use flurry_steps_control::wanted_table;
use flurry_steps_stages::{AnswerForm, GrowFor, Help, Key, Left, Resume, Stage, Task};
use flurry_steps_sweep::Seen;
use std::alloc::{AllocError, Allocator};
use std::sync::Arc;

// The reply of a look-up that finds `entry`.
fn reply_of<K: Drop, V: Drop, A: Allocator>(
    form: AnswerForm,
    entry: &Entry<K, V, A>,
) -> Result<Reply<K, V, A>, AllocError>
    ensures reply { IfOk result
        (λ r. outcome_of r ≡ OutcomeReply (reply_for (form_of form) (Some (numbered_pair entry.now)))) }
    ensures refused { OnErr result (FindCanBeRefused (form_of form) (Some (numbered_pair entry.now))) }
{
    match form {
        AnswerForm::Value => Ok(Reply::Value(Some(Arc::try_clone(&entry.value)?))),
        AnswerForm::Pair => {
            let key = Arc::try_clone(&entry.key)?;
            let value = Arc::try_clone(&entry.value)?;
            Ok(Reply::Pair(Some((key, value))))
        }
        AnswerForm::Presence => Ok(Reply::Contains(true)),
    }
}

// Does the step of a look-up. Returns the stage after it, what the step did, and what it leaves behind.
pub(super) fn step_lookup<Q: Query<K>, K: Ord + Drop, V: Drop, F: ComputeFn<K, V>, A: Allocator>(
    hash: u64,
    form: AnswerForm,
    key: Key<Q, K>,
    table: u8,
    slot: &Slot<K, V, A>,
) -> (Stage<Q, K, V, F, A>, Event, Left<Q, K, V, F, A>)
    requires region { LiesInBin hash slot.now }
    requires at { table ≡ slot.now.table }
    ensures ready { StageIsReady F.can_change F.never_keeps (stage_of Q.stands_for result.0) }
    ensures within { IsSlot K.cmp slot.now }
    ensures nearer { (slot.now.content ≡ IsUnborn)
        ⊎ (steps_left (stage_of Q.stands_for result.0) < MAX_TABLE + 1 - table) }
    ensures step { ContentGives K.cmp F.changes hash
        (Finds (form_of form) (plain_key Q.stands_for key)) table slot.now.content result.1
        (stage_of Q.stands_for result.0) slot.now.content }
{
    match slot.find(hash, &key) {
        Answer::Here(Some(entry)) => match reply_of(form, entry) {
            Ok(reply) => (
                Stage::Done(reply),
                Event::Decide,
                Left::Stored(key, None, None),
            ),
            Err(_) => (
                Stage::Done(Reply::Refused),
                Event::Refused,
                Left::Stored(key, None, None),
            ),
        },
        Answer::Here(None) => (
            Stage::Done(absent_reply(form)),
            Event::Decide,
            Left::Stored(key, None, None),
        ),
        Answer::Moved(()) => (
            Stage::Bin(Task::Find(form, key), table + 1),
            Event::Silent,
            Left::Nothing,
        ),
        Answer::Unborn(()) => (
            Stage::Locate(Task::Find(form, key)),
            Event::Silent,
            Left::Nothing,
        ),
    }
}

// Does the step of a call that may change its bin. Returns the stage after it, what the step did, and what it leaves behind.
#[inline(always)]
pub(super) fn step_write<
    Q: Query<K>,
    K: Ord + Drop,
    V: Drop,
    F: ComputeFn<K, V>,
    A: Allocator + Copy,
>(
    alloc: A,
    hash: u64,
    task: Task<Q, K, V, F, A>,
    table: u8,
    slot: &mut Slot<K, V, A>,
) -> (Stage<Q, K, V, F, A>, Event, Left<Q, K, V, F, A>)
    requires region { LiesInBin hash slot.old }
    requires at { table ≡ slot.old.table }
    requires writer { IsWriter (task_of Q.stands_for task) }
    requires callable { TaskIsReady F.can_change F.never_keeps (task_of Q.stands_for task) }
    ensures ready { StageIsReady F.can_change F.never_keeps (stage_of Q.stands_for result.0) }
    ensures within { IsSlot K.cmp slot.old }
    ensures table { slot.new.table ≡ slot.old.table }
    ensures index { slot.new.index ≡ slot.old.index }
    ensures step { ContentGives K.cmp F.changes hash (task_of Q.stands_for task) table slot.old.content result.1
        (stage_of Q.stands_for result.0) slot.new.content }
{
    match task {
        Task::Remove(form, key) => return remove(hash, form, key, table, slot),
        Task::RemoveSeen(seen) => return remove_seen(hash, seen, table, slot),
        Task::Insert(key, value) => return insert(alloc, hash, key, value, table, slot),
        Task::Add(key, value) => return try_insert(alloc, hash, key, value, table, slot),
        Task::Compute(key, f) => return compute(alloc, hash, key, f, table, slot),
        Task::Alter(key, f) => return alter(alloc, hash, key, f, table, slot),
        Task::AlterPresent(key, f) => return alter_present(alloc, hash, key, f, table, slot),
        Task::Find(_, _) => unreachable!(),
    }
}

// The reply of a removal that has removed `entry`, and what of the entry is not in the reply.
fn owned_reply<Q: Query<K>, K: Ord + Drop, V: Drop, F: Drop, A: Allocator>(
    form: AnswerForm,
    key: Key<Q, K>,
    entry: Entry<K, V, A>,
) -> (Reply<K, V, A>, Left<Q, K, V, F, A>)
    ensures { outcome_of result.0 ≡ OutcomeReply (reply_for (form_of form) (Some (numbered_pair entry))) }
{
    let Entry {
        key: stored,
        value,
        ..
    } = entry;
    match form {
        AnswerForm::Value => (
            Reply::Value(Some(value)),
            Left::Stored(key, Some(stored), None),
        ),
        AnswerForm::Pair => (
            Reply::Pair(Some((stored, value))),
            Left::Stored(key, None, None),
        ),
        AnswerForm::Presence => (
            Reply::Contains(true),
            Left::Stored(key, Some(stored), Some(value)),
        ),
    }
}

fn remove<Q: Query<K>, K: Ord + Drop, V: Drop, F: ComputeFn<K, V>, A: Allocator>(
    hash: u64,
    form: AnswerForm,
    key: Key<Q, K>,
    table: u8,
    slot: &mut Slot<K, V, A>,
) -> (Stage<Q, K, V, F, A>, Event, Left<Q, K, V, F, A>)
    requires region { LiesInBin hash slot.old }
    requires at { table ≡ slot.old.table }
    ensures ready { StageIsReady F.can_change F.never_keeps (stage_of Q.stands_for result.0) }
    ensures within { IsSlot K.cmp slot.old }
    ensures table { slot.new.table ≡ slot.old.table }
    ensures index { slot.new.index ≡ slot.old.index }
    ensures step { ContentGives K.cmp F.changes hash
        (Removes (form_of form) (plain_key Q.stands_for key)) table slot.old.content result.1
        (stage_of Q.stands_for result.0) slot.new.content }
{
    match slot.take(hash, &key) {
        Answer::Here(Some(entry)) => {
            let (reply, left) = owned_reply(form, key, entry);
            (Stage::Uncount(reply), Event::Decide, left)
        }
        Answer::Here(None) => (
            Stage::Done(absent_reply(form)),
            Event::Decide,
            Left::Stored(key, None, None),
        ),
        Answer::Moved(()) => (
            Stage::Help(
                Help::Seat(table),
                Resume::Bin(Task::Remove(form, key), table + 1),
            ),
            Event::Silent,
            Left::Nothing,
        ),
        Answer::Unborn(()) => (
            Stage::Locate(Task::Remove(form, key)),
            Event::Silent,
            Left::Nothing,
        ),
    }
}

fn remove_seen<Q: Query<K>, K: Ord + Drop, V: Drop, F: ComputeFn<K, V>, A: Allocator>(
    hash: u64,
    seen: Seen<K, V, A>,
    table: u8,
    slot: &mut Slot<K, V, A>,
) -> (Stage<Q, K, V, F, A>, Event, Left<Q, K, V, F, A>)
    requires region { LiesInBin hash slot.old }
    requires at { table ≡ slot.old.table }
    ensures ready { StageIsReady F.can_change F.never_keeps (stage_of Q.stands_for result.0) }
    ensures within { IsSlot K.cmp slot.old }
    ensures table { slot.new.table ≡ slot.old.table }
    ensures index { slot.new.index ≡ slot.old.index }
    ensures step { ContentGives K.cmp F.changes hash (RemovesSeen seen) table slot.old.content result.1
        (stage_of Q.stands_for result.0) slot.new.content }
{
    match slot.take_if(hash, seen.key(), seen.number()) {
        Answer::Here(Some(entry)) => {
            let Entry { key, value, .. } = entry;
            (
                Stage::Uncount(Reply::Value(Some(value))),
                Event::Decide,
                Left::Seen(seen, Some(key)),
            )
        }
        Answer::Here(None) => (
            Stage::Done(Reply::Value(None)),
            Event::Decide,
            Left::Seen(seen, None),
        ),
        Answer::Moved(()) => (
            Stage::Help(
                Help::Seat(table),
                Resume::Bin(Task::RemoveSeen(seen), table + 1),
            ),
            Event::Silent,
            Left::Nothing,
        ),
        Answer::Unborn(()) => (
            Stage::Locate(Task::RemoveSeen(seen)),
            Event::Silent,
            Left::Nothing,
        ),
    }
}

// The stage of a call that inserted a new key into a bin of `table`: the pair is counted, after the growth if one is asked for.
fn after_new_pair<Q: Query<K>, K: Ord, V, F: ComputeFn<K, V>, A: Allocator>(
    table: u8,
    reply: Reply<K, V, A>,
    asks_for_growth: bool,
) -> Stage<Q, K, V, F, A>
    requires table { table ≤ MAX_TABLE }
    requires decided { IsDecided (outcome_of reply) }
    ensures ready { StageIsReady F.can_change F.never_keeps (stage_of Q.stands_for result) }
    ensures stage { GoesOnNew table (outcome_of reply) asks_for_growth (stage_of Q.stands_for result) }
{
    if asks_for_growth {
        let wanted = wanted_table(2usize << table);
        Stage::Grow(wanted, GrowFor::Insert(reply))
    } else {
        Stage::Count(reply)
    }
}

fn after_write<Q: Query<K>, K: Ord + Drop, V: Drop, F: ComputeFn<K, V>, A: Allocator>(
    table: u8,
    inserted: Inserted<K, V, A>,
) -> (Stage<Q, K, V, F, A>, Left<Q, K, V, F, A>)
    requires { table ≤ MAX_TABLE }
    ensures ready { StageIsReady F.can_change F.never_keeps (stage_of Q.stands_for result.0) }
    ensures stage { GoesOnWritten table (view_of_inserted inserted) (stage_of Q.stands_for result.0) }
{
    match inserted {
        Inserted::New { asks_for_growth } => {
            let stage = after_new_pair(table, Reply::Value(None), asks_for_growth);
            (stage, Left::Nothing)
        }
        Inserted::Replaced(Replaced { key, old }) => {
            (Stage::Done(Reply::Value(Some(old))), Left::Key(key))
        }
    }
}

fn insert<Q: Query<K>, K: Ord + Drop, V: Drop, F: ComputeFn<K, V>, A: Allocator + Copy>(
    alloc: A,
    hash: u64,
    key: K,
    value: Given<V, A>,
    table: u8,
    slot: &mut Slot<K, V, A>,
) -> (Stage<Q, K, V, F, A>, Event, Left<Q, K, V, F, A>)
    requires region { LiesInBin hash slot.old }
    requires at { table ≡ slot.old.table }
    ensures ready { StageIsReady F.can_change F.never_keeps (stage_of Q.stands_for result.0) }
    ensures within { IsSlot K.cmp slot.old }
    ensures table { slot.new.table ≡ slot.old.table }
    ensures index { slot.new.index ≡ slot.old.index }
    ensures step { ContentGives K.cmp F.changes hash (Inserts key (given_of value)) table slot.old.content result.1
        (stage_of Q.stands_for result.0) slot.new.content }
{
    match slot.put(alloc, hash, key, value) {
        Ok(Answer::Here(inserted)) => {
            let (stage, left) = after_write(table, inserted);
            (stage, Event::Decide, left)
        }
        Ok(Answer::Moved((key, value))) => (
            Stage::Help(
                Help::Seat(table),
                Resume::Bin(Task::Insert(key, value), table + 1),
            ),
            Event::Silent,
            Left::Nothing,
        ),
        Ok(Answer::Unborn((key, value))) => (
            Stage::Locate(Task::Insert(key, value)),
            Event::Silent,
            Left::Nothing,
        ),
        Err(pair) => (
            Stage::Done(Reply::Refused),
            Event::Refused,
            Left::NotInserted(pair),
        ),
    }
}

fn after_try<Q: Query<K>, K: Ord + Drop, V: Drop, F: ComputeFn<K, V>, A: Allocator>(
    table: u8,
    added: Added<K, V, A>,
) -> (Stage<Q, K, V, F, A>, Left<Q, K, V, F, A>)
    requires { table ≤ MAX_TABLE }
    ensures ready { StageIsReady F.can_change F.never_keeps (stage_of Q.stands_for result.0) }
    ensures stage { GoesOnAdded table (view_of_added added) (stage_of Q.stands_for result.0) }
{
    match added {
        Added::New {
            value,
            asks_for_growth,
        } => {
            let stage = after_new_pair(table, Reply::New(value), asks_for_growth);
            (stage, Left::Nothing)
        }
        Added::Present { key, error } => (Stage::Done(Reply::Exists(error)), Left::Key(key)),
    }
}

fn try_insert<Q: Query<K>, K: Ord + Drop, V: Drop, F: ComputeFn<K, V>, A: Allocator + Copy>(
    alloc: A,
    hash: u64,
    key: K,
    value: V,
    table: u8,
    slot: &mut Slot<K, V, A>,
) -> (Stage<Q, K, V, F, A>, Event, Left<Q, K, V, F, A>)
    requires region { LiesInBin hash slot.old }
    requires at { table ≡ slot.old.table }
    ensures ready { StageIsReady F.can_change F.never_keeps (stage_of Q.stands_for result.0) }
    ensures within { IsSlot K.cmp slot.old }
    ensures table { slot.new.table ≡ slot.old.table }
    ensures index { slot.new.index ≡ slot.old.index }
    ensures step { ContentGives K.cmp F.changes hash (Adds key value) table slot.old.content result.1
        (stage_of Q.stands_for result.0) slot.new.content }
{
    match slot.put_absent(alloc, hash, key, value) {
        Ok(Answer::Here(added)) => {
            let (stage, left) = after_try(table, added);
            (stage, Event::Decide, left)
        }
        Ok(Answer::Moved((key, value))) => (
            Stage::Help(
                Help::Seat(table),
                Resume::Bin(Task::Add(key, value), table + 1),
            ),
            Event::Silent,
            Left::Nothing,
        ),
        Ok(Answer::Unborn((key, value))) => (
            Stage::Locate(Task::Add(key, value)),
            Event::Silent,
            Left::Nothing,
        ),
        Err(pair) => (
            Stage::Done(Reply::Refused),
            Event::Refused,
            Left::NotInserted(pair),
        ),
    }
}

// The stage of a computation that was done at a live bin.
fn after_compute<Q: Query<K>, K: Ord + Drop, V: Drop, F: ComputeFn<K, V>, A: Allocator>(
    key: Key<Q, K>,
    computed: Computed<K, V, F, A>,
) -> (Stage<Q, K, V, F, A>, Event, Left<Q, K, V, F, A>)
    ensures ready { StageIsReady F.can_change F.never_keeps (stage_of Q.stands_for result.0) }
    ensures decides { result.1 ≡ Event.Decide }
    ensures stage { stage_of Q.stands_for result.0 ≡ stage_computed (outcome computed) }
{
    match computed {
        Computed::Absent(f) => (
            Stage::Done(Reply::Value(None)),
            Event::Decide,
            Left::Function(key, f),
        ),
        Computed::Removed(
            Entry {
                key: stored,
                value,
                ..
            },
        ) => (
            Stage::Uncount(Reply::Value(None)),
            Event::Decide,
            Left::Stored(key, Some(stored), Some(value)),
        ),
        Computed::Changed { new, old } => (
            Stage::Done(Reply::Value(Some(new))),
            Event::Decide,
            Left::Stored(key, None, Some(old)),
        ),
    }
}

fn compute<Q: Query<K>, K: Ord + Drop, V: Drop, F: ComputeFn<K, V>, A: Allocator + Copy>(
    alloc: A,
    hash: u64,
    key: Key<Q, K>,
    f: F,
    table: u8,
    slot: &mut Slot<K, V, A>,
) -> (Stage<Q, K, V, F, A>, Event, Left<Q, K, V, F, A>)
    requires region { LiesInBin hash slot.old }
    requires at { table ≡ slot.old.table }
    requires callable { F.can_change f }
    requires changes { F.never_keeps f }
    ensures ready { StageIsReady F.can_change F.never_keeps (stage_of Q.stands_for result.0) }
    ensures within { IsSlot K.cmp slot.old }
    ensures table { slot.new.table ≡ slot.old.table }
    ensures index { slot.new.index ≡ slot.old.index }
    ensures step { ContentGives K.cmp F.changes hash (Computes (plain_key Q.stands_for key) f) table
        slot.old.content result.1
        (stage_of Q.stands_for result.0) slot.new.content }
{
    match slot.compute(alloc, hash, &key, f) {
        Ok(Answer::Here(computed)) => after_compute(key, computed),
        Ok(Answer::Moved(f)) => (
            Stage::Help(
                Help::Seat(table),
                Resume::Bin(Task::Compute(key, f), table + 1),
            ),
            Event::Silent,
            Left::Nothing,
        ),
        Ok(Answer::Unborn(f)) => (
            Stage::Locate(Task::Compute(key, f)),
            Event::Silent,
            Left::Nothing,
        ),
        Err(value) => (
            Stage::Done(Reply::Refused),
            Event::Refused,
            Left::NotStored(key, value),
        ),
    }
}

// The stage of a call that altered at a live bin of `table`.
fn after_alter<Q: Query<K>, K: Ord + Drop, V: Drop, F: ComputeFn<K, V>, A: Allocator>(
    table: u8,
    altered: Altered<K, V, A>,
) -> Stage<Q, K, V, F, A>
    requires { table ≤ MAX_TABLE }
    ensures ready { StageIsReady F.can_change F.never_keeps (stage_of Q.stands_for result) }
    ensures stage { GoesOnAltered table (alteration altered) (stage_of Q.stands_for result) }
{
    match altered {
        Altered::Absent => Stage::Done(Reply::Contains(false)),
        Altered::Added {
            value,
            asks_for_growth,
        } => after_new_pair(table, Reply::New(value), asks_for_growth),
        Altered::Kept => Stage::Done(Reply::Contains(true)),
        Altered::Removed(Entry { key, value, .. }) => {
            Stage::Uncount(Reply::Pair(Some((key, value))))
        }
        Altered::Changed { new, old } => Stage::Done(Reply::Changed { new, old }),
    }
}

// What a call leaves behind that did not keep its key.
fn left_key<Q: Query<K>, K: Ord, V, F, A: Allocator>(key: Option<K>) -> Left<Q, K, V, F, A> {
    match key {
        Some(key) => Left::Key(key),
        None => Left::Nothing,
    }
}

fn alter<Q: Query<K>, K: Ord + Drop, V: Drop, F: ComputeFn<K, V>, A: Allocator + Copy>(
    alloc: A,
    hash: u64,
    key: K,
    f: F,
    table: u8,
    slot: &mut Slot<K, V, A>,
) -> (Stage<Q, K, V, F, A>, Event, Left<Q, K, V, F, A>)
    requires region { LiesInBin hash slot.old }
    requires at { table ≡ slot.old.table }
    requires callable { F.can_change f }
    ensures ready { StageIsReady F.can_change F.never_keeps (stage_of Q.stands_for result.0) }
    ensures within { IsSlot K.cmp slot.old }
    ensures table { slot.new.table ≡ slot.old.table }
    ensures index { slot.new.index ≡ slot.old.index }
    ensures step { ContentGives K.cmp F.changes hash (Alters key true f) table slot.old.content result.1
        (stage_of Q.stands_for result.0) slot.new.content }
{
    match slot.alter(alloc, hash, key, f) {
        Ok(Answer::Here((altered, key))) => {
            (after_alter(table, altered), Event::Decide, left_key(key))
        }
        Ok(Answer::Moved((key, f))) => (
            Stage::Help(
                Help::Seat(table),
                Resume::Bin(Task::Alter(key, f), table + 1),
            ),
            Event::Silent,
            Left::Nothing,
        ),
        Ok(Answer::Unborn((key, f))) => (
            Stage::Locate(Task::Alter(key, f)),
            Event::Silent,
            Left::Nothing,
        ),
        Err(pair) => (
            Stage::Done(Reply::Refused),
            Event::Refused,
            Left::NotInserted(pair),
        ),
    }
}

// The stage of an alteration of a present pair that was done at a live bin of `table`, and what it leaves behind.
fn after_alter_present<Q: Query<K>, K: Ord + Drop, V: Drop, F: ComputeFn<K, V>, A: Allocator>(
    table: u8,
    key: Key<Q, K>,
    altered: Result<Altered<K, V, A>, F>,
) -> (Stage<Q, K, V, F, A>, Left<Q, K, V, F, A>)
    requires { table ≤ MAX_TABLE }
    ensures ready { StageIsReady F.can_change F.never_keeps (stage_of Q.stands_for result.0) }
    ensures stage { GoesOnAltered table (alteration_if_present altered) (stage_of Q.stands_for result.0) }
{
    match altered {
        Ok(altered) => (after_alter(table, altered), Left::Stored(key, None, None)),
        Err(f) => (Stage::Done(Reply::Contains(false)), Left::Function(key, f)),
    }
}

fn alter_present<Q: Query<K>, K: Ord + Drop, V: Drop, F: ComputeFn<K, V>, A: Allocator + Copy>(
    alloc: A,
    hash: u64,
    key: Key<Q, K>,
    f: F,
    table: u8,
    slot: &mut Slot<K, V, A>,
) -> (Stage<Q, K, V, F, A>, Event, Left<Q, K, V, F, A>)
    requires region { LiesInBin hash slot.old }
    requires at { table ≡ slot.old.table }
    requires callable { F.can_change f }
    ensures ready { StageIsReady F.can_change F.never_keeps (stage_of Q.stands_for result.0) }
    ensures within { IsSlot K.cmp slot.old }
    ensures table { slot.new.table ≡ slot.old.table }
    ensures index { slot.new.index ≡ slot.old.index }
    ensures step { ContentGives K.cmp F.changes hash (Alters (plain_key Q.stands_for key) false f) table
        slot.old.content
        result.1 (stage_of Q.stands_for result.0) slot.new.content }
{
    match slot.alter_present(alloc, hash, &key, f) {
        Ok(Answer::Here(altered)) => {
            let (stage, left) = after_alter_present(table, key, altered);
            (stage, Event::Decide, left)
        }
        Ok(Answer::Moved(f)) => (
            Stage::Help(
                Help::Seat(table),
                Resume::Bin(Task::AlterPresent(key, f), table + 1),
            ),
            Event::Silent,
            Left::Nothing,
        ),
        Ok(Answer::Unborn(f)) => (
            Stage::Locate(Task::AlterPresent(key, f)),
            Event::Silent,
            Left::Nothing,
        ),
        Err(value) => (
            Stage::Done(Reply::Refused),
            Event::Refused,
            Left::NotStored(key, value),
        ),
    }
}
