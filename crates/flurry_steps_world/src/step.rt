//! The labels of steps.
ghost use Rattle.std.specs.Prelude.{◌≡◌};
ghost use Rattle.flurry_steps.specs.Party.{wanted_part};
ghost use Rattle.flurry_steps_sweep.specs.OutcomeView.{outcome_of};
ghost use Rattle.flurry_steps_world.specs.Parts.{IsGoing, IsThere};
ghost use Rattle.flurry_steps_world.specs.Steps.{StageStep, closing_label, label_of};
ghost use Rattle.flurry_steps_world.specs.World.{reply_in};

use crate::parts::Parts;
use flurry_base::query::Query;
use flurry_base::reply::KeptReply;
use flurry_bins_slots::ComputeFn;
use flurry_steps::party::{Event, Reply};
use flurry_steps::{Party, act};
use flurry_steps_theory::Label;
use std::alloc::Allocator;

// The reply of a one-key call, with plain keys and values, or `None` for any other reply.
fn kept<K: Copy + Drop, V: Copy + Drop, A: Allocator>(
    reply: &Reply<K, V, A>,
) -> Option<KeptReply<K, V>>
    ensures { result ≡ reply_in (outcome_of reply.now) }
{
    match reply {
        Reply::Value(None) => Some(KeptReply::Value(None)),
        Reply::Value(Some(value)) => Some(KeptReply::Value(Some(**value))),
        Reply::Pair(None) => Some(KeptReply::Pair(None)),
        Reply::Pair(Some((key, value))) => Some(KeptReply::Pair(Some((**key, **value)))),
        Reply::Contains(there) => Some(KeptReply::Contains(*there)),
        Reply::New(value) => Some(KeptReply::New(**value)),
        Reply::Changed { new, old } => Some(KeptReply::Changed {
            new: **new,
            old: **old,
        }),
        Reply::Exists(error) => Some(KeptReply::Exists {
            current: *error.current,
            not_inserted: error.not_inserted,
        }),
        Reply::Ended | Reply::Refused => None,
    }
}

// The closing label of a call that is done.
fn closing<K: Copy + Drop, V: Copy + Drop, F, A: Allocator>(
    party: usize,
    reply: &Reply<K, V, A>,
) -> Label<K, V, F>
    ensures { result ≡ closing_label party (outcome_of reply.now) }
{
    match kept(reply) {
        Some(reply) => Label::Reply(party, reply),
        None => match reply {
            Reply::Ended => Label::End(party),
            _ => Label::Silent(party),
        },
    }
}

// The label of a step of `party` that did `event`, where `call` is the call after that step.
fn label_of<Q: Query<K>, K: Ord + Copy + Drop, V: Copy + Drop, F: ComputeFn<K, V>, A: Allocator>(
    party: usize,
    event: Event,
    call: &Party<Q, K, V, F, A>,
) -> Label<K, V, F>
    ensures { result ≡ label_of party event call.now.stage }
{
    match event {
        Event::Decide => match call.reply() {
            Some(reply) => match kept(reply) {
                Some(reply) => Label::Decide(party, reply),
                None => Label::Silent(party),
            },
            None => Label::Silent(party),
        },
        Event::Read => match call.last_read() {
            Some((key, value)) => Label::Read(party, *key, *value),
            None => Label::Silent(party),
        },
        Event::Wipe(table, index) => Label::Wipe(party, table, index),
        Event::Refused => Label::Refused(party),
        Event::Opened(table) => Label::Opened(table),
        Event::Placed(table) => Label::Placed(table),
        Event::Moved(table, index) => Label::Moved(table, index),
        Event::Published(table) => Label::Published(table),
        Event::Silent => Label::Silent(party),
    }
}

// Does one step of a party, and returns its label.
pub(crate) fn step_party<
    Q: Query<K>,
    K: Ord + Copy + Drop,
    V: Copy + Drop,
    F: ComputeFn<K, V>,
    A: Allocator + Copy,
>(party: usize, call: &mut Party<Q, K, V, F, A>, parts: &mut Parts<K, V, A>) -> Label<K, V, F>
    requires { IsGoing call.old.stage → IsThere parts.old.tables (wanted_part call.old) }
    ensures { StageStep K.cmp F.changes party call.old.stage call.old parts.old.control_state parts.old.tables
        result call.new parts.new.control_state parts.new.tables }
{
    match act(call, parts) {
        Some(event) => label_of(party, event, call),
        None => match call.take_reply() {
            Some(reply) => closing(party, &reply),
            None => Label::Silent(party),
        },
    }
}
