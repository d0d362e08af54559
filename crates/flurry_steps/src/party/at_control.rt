//! The steps of a call at the control.
ghost use Rattle.std.specs.Prelude.{◌≡◌, ◌<◌, ◌≤◌, None};
ghost use Rattle.flurry_steps_control.specs.Control.{after_count, advice_of, after_publish};
ghost use Rattle.flurry_steps_sweep.specs.Outcome.{OutcomeReply};
ghost use Rattle.flurry_steps_stages.specs.Help.{GivesBack};
ghost use Rattle.flurry_steps_stages.specs.Stage.{ResumeIsReady, IsDecided, GrowForIsReady, StageIsReady, TaskIsReady, IsAtControl, AtLocate, AtBegin, AtGrow, AtHelp, AtReserve, reply_for};
ghost use Rattle.flurry_steps.specs.PartyControl.{OpensFor, StageAtControl, stage_advised, event_published};
ghost use Rattle.flurry_steps_sweep.specs.OutcomeView.{outcome_of};
ghost use Rattle.flurry_steps_stages.specs.StageView.{resume_of, stage_of, task_of, grow_for_of, form_of};
ghost use Rattle.flurry_base.specs.declared.sizes.TheConstants.{MAX_TABLE};

use super::{Event, Reply};
use flurry_base::query::Query;
use flurry_base::sizes::FIRST_TABLE;
use flurry_bins_slots::ComputeFn;
use flurry_steps_control::{Advice, BeginOutcome, Control, Room, wanted_table};
use flurry_steps_stages::{AnswerForm, GrowFor, Help, Left, Resume, Stage, Task};
use std::alloc::Allocator;

// Does the step of a call that is at the control, and has helped the growth from `helped` last. Returns the stage after it, what the
// step did, and what it left behind.
pub(super) fn step_control<
    Q: Query<K>,
    K: Ord + Drop,
    V: Drop,
    F: ComputeFn<K, V>,
    A: Allocator,
    R: Room,
>(
    stage: Stage<Q, K, V, F, A>,
    processors: usize,
    helped: Option<u8>,
    control: &mut Control,
    room: &mut R,
) -> (Stage<Q, K, V, F, A>, Event, Left<Q, K, V, F, A>)
    requires part { IsAtControl (stage_of Q.stands_for stage) }
    requires callable { StageIsReady F.can_change F.never_keeps (stage_of Q.stands_for stage) }
    ensures ready { StageIsReady F.can_change F.never_keeps (stage_of Q.stands_for result.0) }
    ensures step { StageAtControl R.place_gives processors helped (stage_of Q.stands_for stage) control.old
        room.old result.1
        (stage_of Q.stands_for result.0) control.new room.new }
{
    match stage {
        Stage::Locate(task) => return locate(task, control, room),
        Stage::Help(Help::Publish(table), after) => {
            let (stage, event) = publish(table, after, control);
            return (stage, event, Left::Nothing);
        }
        Stage::Uncount(reply) => {
            let _advice = control.count(-1);
            return (Stage::Done(reply), Event::Silent, Left::Nothing);
        }
        Stage::Count(reply) => {
            let stage = count(control, 1, helped, reply);
            return (stage, Event::Silent, Left::Nothing);
        }
        Stage::Recount(reply) => {
            let stage = count(control, 0, helped, reply);
            return (stage, Event::Silent, Left::Nothing);
        }
        Stage::Begin(table, reply) => {
            let (stage, event) = begin(table, processors, reply, control, room);
            return (stage, event, Left::Nothing);
        }
        Stage::Grow(wanted, growing) => {
            let (stage, event) = grow(wanted, processors, growing, control, room);
            return (stage, event, Left::Nothing);
        }
        Stage::Reserve(more) => {
            let (stage, event) = reserve(more, control, room);
            return (stage, event, Left::Nothing);
        }
        _ => unreachable!(),
    }
}

// The reply of a call of this form if the key is absent.
pub(super) fn absent_reply<K, V, A: Allocator>(form: AnswerForm) -> Reply<K, V, A>
    ensures { outcome_of result ≡ OutcomeReply (reply_for (form_of form) None) }
{
    match form {
        AnswerForm::Value => Reply::Value(None),
        AnswerForm::Pair => Reply::Pair(None),
        AnswerForm::Presence => Reply::Contains(false),
    }
}

// Does the first step of a call: the call goes on at the published table. While there is none, it is decided, or the first table is made for
// it; what it was given and does not keep is left behind then, since that must not be dropped under the control's lock.
fn locate<Q: Query<K>, K: Ord + Drop, V: Drop, F: ComputeFn<K, V>, A: Allocator, R: Room>(
    task: Task<Q, K, V, F, A>,
    control: &mut Control,
    room: &mut R,
) -> (Stage<Q, K, V, F, A>, Event, Left<Q, K, V, F, A>)
    requires { TaskIsReady F.can_change F.never_keeps (task_of Q.stands_for task) }
    ensures ready { StageIsReady F.can_change F.never_keeps (stage_of Q.stands_for result.0) }
    ensures step { StageAtControl R.place_gives 0 None (AtLocate (task_of Q.stands_for task)) control.old
        room.old result.1
        (stage_of Q.stands_for result.0) control.new room.new }
{
    if let Some(table) = control.locate() {
        return (Stage::Bin(task, table), Event::Silent, Left::Nothing);
    }
    let reply = match &task {
        Task::Find(form, _) | Task::Remove(form, _) => absent_reply(*form),
        Task::RemoveSeen(_) | Task::Compute(_, _) => Reply::Value(None),
        Task::AlterPresent(_, _) => Reply::Contains(false),
        Task::Insert(_, _) | Task::Add(_, _) | Task::Alter(_, _) => {
            return open_for(task, control, room);
        }
    };
    (Stage::Done(reply), Event::Decide, Left::Task(task))
}

// Makes the first table for a call that may add a pair.
fn open_for<Q: Query<K>, K: Ord + Drop, V: Drop, F: ComputeFn<K, V>, A: Allocator, R: Room>(
    task: Task<Q, K, V, F, A>,
    control: &mut Control,
    room: &mut R,
) -> (Stage<Q, K, V, F, A>, Event, Left<Q, K, V, F, A>)
    requires none { control.old.published ≡ None }
    requires callable { TaskIsReady F.can_change F.never_keeps (task_of Q.stands_for task) }
    ensures ready { StageIsReady F.can_change F.never_keeps (stage_of Q.stands_for result.0) }
    ensures step { OpensFor R.place_gives 0 None (task_of Q.stands_for task) control.old room.old result.1
        (stage_of Q.stands_for result.0) control.new room.new }
{
    match control.open(FIRST_TABLE, room) {
        Ok(table) => (Stage::Bin(task, table), Event::Opened(table), Left::Nothing),
        Err(_) => (
            Stage::Done(Reply::Refused),
            Event::Refused,
            Left::Task(task),
        ),
    }
}

fn reserve<Q: Query<K>, K: Ord, V, F: ComputeFn<K, V>, A: Allocator, R: Room>(
    more: usize,
    control: &mut Control,
    room: &mut R,
) -> (Stage<Q, K, V, F, A>, Event)
    ensures ready { StageIsReady F.can_change F.never_keeps (stage_of Q.stands_for result.0) }
    ensures step { StageAtControl {K = K} {V = V} {F = F} R.place_gives 0 None
        (AtReserve more) control.old room.old result.1 (stage_of Q.stands_for result.0) control.new room.new }
{
    let wanted = wanted_table(control.len().saturating_add(more));
    if control.locate().is_some() {
        return (Stage::Grow(wanted, GrowFor::Reserve), Event::Silent);
    }
    match control.open(wanted, room) {
        Ok(_) => (Stage::Grow(wanted, GrowFor::Reserve), Event::Opened(wanted)),
        Err(_) => (Stage::Done(Reply::Refused), Event::Refused),
    }
}

fn count<Q: Query<K>, K: Ord, V, F: ComputeFn<K, V>, A: Allocator>(
    control: &mut Control,
    delta: i64,
    helped: Option<u8>,
    reply: Reply<K, V, A>,
) -> Stage<Q, K, V, F, A>
    requires { IsDecided (outcome_of reply) }
    ensures ready { StageIsReady F.can_change F.never_keeps (stage_of Q.stands_for result) }
    ensures after { control.new ≡ after_count delta control.old }
    ensures stage { stage_of Q.stands_for result
        ≡ stage_advised helped control.old.published (outcome_of reply) (advice_of (after_count delta control.old)) }
{
    match control.count(delta) {
        Advice::Enough => Stage::Done(reply),
        Advice::Join(table) => match helped {
            Some(last) if last == table => Stage::Done(reply),
            _ => Stage::Help(Help::Seat(table), Resume::Recount(reply)),
        },
        Advice::Begin => match control.locate() {
            Some(table) => Stage::Begin(table, reply),
            None => Stage::Done(reply),
        },
    }
}

fn begin<Q: Query<K>, K: Ord, V, F: ComputeFn<K, V>, A: Allocator, R: Room>(
    table: u8,
    processors: usize,
    reply: Reply<K, V, A>,
    control: &mut Control,
    room: &mut R,
) -> (Stage<Q, K, V, F, A>, Event)
    requires table { table ≤ MAX_TABLE }
    requires decided { IsDecided (outcome_of reply) }
    ensures ready { StageIsReady F.can_change F.never_keeps (stage_of Q.stands_for result.0) }
    ensures step { StageAtControl {K = K} {F = F} R.place_gives processors None
        (AtBegin table (outcome_of reply)) control.old room.old result.1 (stage_of Q.stands_for result.0)
        control.new room.new }
{
    match control.begin(table, processors, room) {
        BeginOutcome::Begun => (
            Stage::Help(Help::Board(table), Resume::Recount(reply)),
            Event::Placed(table + 1),
        ),
        BeginOutcome::Refused => (Stage::Done(reply), Event::Silent),
        BeginOutcome::Busy => (Stage::Recount(reply), Event::Silent),
    }
}

fn grow<Q: Query<K>, K: Ord + Drop, V: Drop, F: ComputeFn<K, V>, A: Allocator, R: Room>(
    wanted: u8,
    processors: usize,
    growing: GrowFor<K, V, A>,
    control: &mut Control,
    room: &mut R,
) -> (Stage<Q, K, V, F, A>, Event)
    requires table { wanted ≤ MAX_TABLE }
    requires decided { GrowForIsReady (grow_for_of growing) }
    ensures ready { StageIsReady F.can_change F.never_keeps (stage_of Q.stands_for result.0) }
    ensures step { StageAtControl {K = K} {F = F} R.place_gives processors None
        (AtGrow wanted (grow_for_of growing)) control.old room.old result.1 (stage_of Q.stands_for result.0)
        control.new room.new }
{
    let Some(table) = control.grows_from(wanted) else {
        return (growing.end(), Event::Silent);
    };
    match control.begin(table, processors, room) {
        BeginOutcome::Begun => (
            Stage::Help(Help::Board(table), Resume::Grow(wanted, growing)),
            Event::Placed(table + 1),
        ),
        BeginOutcome::Busy => (growing.end(), Event::Silent),
        BeginOutcome::Refused => match growing {
            GrowFor::Insert(reply) => (Stage::Count(reply), Event::Silent),
            GrowFor::Reserve => (Stage::Done(Reply::Refused), Event::Refused),
        },
    }
}

fn publish<Q: Query<K>, K: Ord, V, F: ComputeFn<K, V>, A: Allocator>(
    table: u8,
    after: Resume<Q, K, V, F, A>,
    control: &mut Control,
) -> (Stage<Q, K, V, F, A>, Event)
    requires table { table < MAX_TABLE }
    requires callable { ResumeIsReady F.can_change F.never_keeps (resume_of Q.stands_for after) }
    ensures ready { StageIsReady F.can_change F.never_keeps (stage_of Q.stands_for result.0) }
    ensures stage { stage_of Q.stands_for result.0 ≡ AtHelp (GivesBack table) (resume_of Q.stands_for after) }
    ensures event { result.1 ≡ event_published table control.old }
    ensures after { control.new ≡ after_publish table control.old }
{
    let stage = Stage::Help(Help::Give(table), after);
    if control.publish(table) {
        (stage, Event::Published(table + 1))
    } else {
        (stage, Event::Silent)
    }
}
