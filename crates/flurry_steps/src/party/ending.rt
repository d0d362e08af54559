//! A call whose reply is known.
ghost use Rattle.std.specs.Prelude.{◌≡◌, MatchResult, None, true};
ghost use Rattle.flurry_steps_stages.specs.Stage.{StageIsReady};
ghost use Rattle.flurry_steps.specs.PartyTally.{HasDecided, StageAtTally, ending_stage, has_to_count};
ghost use Rattle.flurry_steps_sweep.specs.OutcomeView.{outcome_of};
ghost use Rattle.flurry_steps_stages.specs.StageView.{stage_of};
ghost use Rattle.flurry_steps.specs.declared.party.ending.Rest.TheVariants as rest;

use super::{Party, Reply};
use flurry_base::query::Query;
use flurry_bins_slots::ComputeFn;
use flurry_steps_control::Tally;
use flurry_steps_stages::{GrowFor, Stage};
use std::alloc::{Allocator, Global};
use std::marker::Model;

/// What a call whose reply is known does next.
///
/// ```
/// match rest {
///     Rest::Count | Rest::Grow(_) => 1,
///     Rest::Uncount => -1,
///     Rest::Nothing | Rest::Recount => 0,
/// }
/// ```
#[derive(Clone, Copy, Drop)]
pub enum Rest {
    /// Nothing: the call is done.
    Nothing,
    /// Counting the pair that it inserted.
    Count,
    /// Counting the pair that it removed.
    Uncount,
    /// Asking what is to be done, without counting a pair.
    Recount,
    /// Beginning a growth on the way to the given table, and then counting the pair that it inserted.
    Grow(u8),
}

/// A call whose reply is known: it has decided, and may have more to do, or memory for it could not be allocated. Only the first steps of
/// a call make one.
///
/// It is smaller than a [`Party`]. It has neither the hash of its key nor the number of processors that share the work of a growth;
/// [`Ending::into_party`] takes them again, as they were when the call started.
///
/// ```
/// match ending.into_reply() {
///     Ok(_reply) => None,
///     Err(ending) => Some(ending.into_party(hash, 1)),
/// }
/// ```
#[derive(Drop)]
pub struct Ending<K, V, A: Allocator = Global> {
    rest: Rest,
    reply: Reply<K, V, A>,
}

impl<K, V, A: Allocator> Model for Ending<K, V, A> {
    ghost use Rattle.flurry_steps.specs.EndingView.{ending_of};
    ghost use Rattle.flurry_steps.specs.PartyTally.{EndingState, RestIsReady};
    ghost use Rattle.flurry_steps_sweep.specs.OutcomeView.{outcome_of};

    ghost Value = { EndingState K V };

    ghost view = { ending_of };

    ghost invariant = { λ e. RestIsReady e.rest (outcome_of e.reply) };
}

impl<K: Ord, V, A: Allocator> Ending<K, V, A> {
    // Creates the ending of a call at the given stage.
    pub(super) fn of_stage<Q: Query<K>, F: ComputeFn<K, V>>(stage: Stage<Q, K, V, F, A>) -> Self
        requires ready { StageIsReady F.can_change F.never_keeps (stage_of Q.stands_for stage) }
        requires decided { HasDecided (stage_of Q.stands_for stage) }
        ensures { ending_stage result ≡ stage_of Q.stands_for stage }
    {
        let (rest, reply) = match stage {
            Stage::Done(reply) => (Rest::Nothing, reply),
            Stage::Count(reply) => (Rest::Count, reply),
            Stage::Uncount(reply) => (Rest::Uncount, reply),
            Stage::Recount(reply) => (Rest::Recount, reply),
            Stage::Grow(wanted, GrowFor::Insert(reply)) => (Rest::Grow(wanted), reply),
            _ => unreachable!(),
        };
        Ending { rest, reply }
    }

    // The stage of the call.
    pub(super) fn into_stage<Q: Query<K>, F: ComputeFn<K, V>>(self) -> Stage<Q, K, V, F, A>
        ensures ready { StageIsReady F.can_change F.never_keeps (stage_of Q.stands_for result) }
        ensures stage { stage_of Q.stands_for result ≡ ending_stage self }
    {
        let Ending { rest, reply } = self;
        match rest {
            Rest::Nothing => Stage::Done(reply),
            Rest::Count => Stage::Count(reply),
            Rest::Uncount => Stage::Uncount(reply),
            Rest::Recount => Stage::Recount(reply),
            Rest::Grow(wanted) => Stage::Grow(wanted, GrowFor::Insert(reply)),
        }
    }

    /// Returns `true` if the call counts a pair next.
    ///
    /// Constant time.
    #[inline]
    pub fn is_counting(&self) -> bool
        ensures { result ≡ has_to_count self.now.rest }
    {
        matches!(self.rest, Rest::Count | Rest::Uncount)
    }

    /// Does the step that counts one pair, at a tally instead of the control, as [`Party::on_tally`] does. If the call inserted a pair
    /// and at least `most` pairs then wait at the tally, it looks at the control's count next; otherwise the call is done.
    ///
    /// Constant time.
    pub fn on_tally<F: ComputeFn<K, V>>(&mut self, tally: &mut Tally, most: i64)
        requires { has_to_count self.old.rest ≡ true }
        ensures { StageAtTally {F = F} most (ending_stage self.old) tally.old (ending_stage self.new) tally.new }
    {
        if let Rest::Count = self.rest {
            tally.count(1);
            self.rest = if tally.is_at_least(most) {
                Rest::Recount
            } else {
                Rest::Nothing
            };
        } else {
            tally.count(-1);
            self.rest = Rest::Nothing;
        }
    }

    /// Returns the reply of a call that is done.
    ///
    /// Constant time.
    ///
    /// # Errors
    ///
    /// Returns the call, unchanged, if it is not done.
    pub fn into_reply(self) -> Result<Reply<K, V, A>, Self>
        ensures { MatchResult result (λ r. self ≡ record { rest = rest.Nothing; reply = outcome_of r })
            (λ e. (e ≡ self) × (self.rest ≡ rest.Nothing → ⊥)) }
    {
        match self.rest {
            Rest::Nothing => Ok(self.reply),
            _ => Err(self),
        }
    }

    /// Converts the call into a [`Party`], which goes on step by step. `hash` and `processors` are those with which the call started.
    ///
    /// Constant time.
    pub fn into_party<Q: Query<K>, F: ComputeFn<K, V>>(
        self,
        hash: u64,
        processors: usize,
    ) -> Party<Q, K, V, F, A>
        ensures { result ≡ record { hash = hash; processors = processors; helped = None; stage = ending_stage self } }
    {
        Party::of_stage(self.into_stage(), hash, processors)
    }
}
