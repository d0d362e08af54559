//! The stages of a call between its steps.
ghost use Rattle.std.specs.Prelude.{◌≡◌, IfNone, IfSome};
ghost use Rattle.flurry_bins_slots.specs.Slot.{IsSlot};
ghost use Rattle.flurry_steps_sweep.specs.Part.{MovePart};
ghost use Rattle.flurry_steps_sweep.specs.PartView.{part_of_want};
ghost use Rattle.flurry_steps_stages.specs.Help.{HelpIsReady, help_part, help_range, unclaimed, MovesOn, moved_help};
ghost use Rattle.flurry_steps_stages.specs.Stage.{StageIsReady, GrowForIsReady, stage_grown};
ghost use Rattle.flurry_steps_stages.specs.StageView.{help_of, resume_of, grow_for_of, stage_of};

use super::call::Task;
use flurry_base::query::Query;
use flurry_bins_slots::{ComputeFn, MoveAnswer, Slot};
use flurry_steps_claims::Range;
use flurry_steps_control::Claim;
use flurry_steps_sweep::{Event, Reply, Want};
use std::alloc::Allocator;

/// What a table is made larger for.
#[derive(Drop)]
pub enum GrowFor<K, V, A: Allocator> {
    /// An insertion, with its reply.
    Insert(Reply<K, V, A>),
    /// A reserve.
    Reserve,
}

/// What a call that helps a growth does next. A growth is named by the table that it moves into the next one.
#[derive(Drop)]
pub enum Help {
    /// Taking a seat at the board of the given growth.
    Seat(u8),
    /// Claiming a range there.
    Board(u8),
    /// Moving the bins of its claim, and reporting the range once all of them have moved.
    Move(Claim),
    /// Publishing the table after the given one.
    Publish(u8),
    /// Giving back its seat at the board of the given growth.
    Give(u8),
}

/// What a call goes on with when it stops helping.
#[derive(Drop)]
pub enum Resume<Q, K, V, F, A: Allocator> {
    /// Its bin in the given table.
    Bin(Task<Q, K, V, F, A>, u8),
    /// Another look at the count.
    Recount(Reply<K, V, A>),
    /// Growing to the given table.
    Grow(u8, GrowFor<K, V, A>),
}

/// The stage of a call.
#[derive(Drop)]
pub enum Stage<Q, K, V, F, A: Allocator> {
    /// Asking for the published table.
    Locate(Task<Q, K, V, F, A>),
    /// Going to its bin in the given table.
    Bin(Task<Q, K, V, F, A>, u8),
    /// Helping a growth.
    Help(Help, Resume<Q, K, V, F, A>),
    /// Counting the pair that it removed.
    Uncount(Reply<K, V, A>),
    /// Counting the pair that it inserted.
    Count(Reply<K, V, A>),
    /// Asking what is to be done, without counting a pair.
    Recount(Reply<K, V, A>),
    /// Beginning a growth from the given table.
    Begin(u8, Reply<K, V, A>),
    /// Beginning a growth on the way to the given table.
    Grow(u8, GrowFor<K, V, A>),
    /// Making room for the given number of additional pairs.
    Reserve(usize),
    /// The end, with a reply that has not been taken yet.
    Done(Reply<K, V, A>),
    /// The end, after the reply was taken.
    Taken,
}

impl Help {
    /// Returns the part of the map that the next step of helping needs.
    ///
    /// Constant time.
    pub fn want(&self) -> Want
        ensures { part_of_want result ≡ help_part (help_of self.now) }
    {
        match self {
            Help::Seat(table) => Want::Seat(*table),
            Help::Board(table) => Want::Board(*table),
            Help::Move(claim) => match claim.next() {
                Some((table, index)) => Want::Move(table, index),
                None => Want::Board(claim.table()),
            },
            Help::Publish(_) => Want::Control,
            Help::Give(table) => Want::Give(*table),
        }
    }

    /// Takes out the range that is to be reported next, if there is one. Returns how helping goes on without it, and the range.
    ///
    /// Constant time.
    pub fn take_range(self) -> (Self, Option<Range>)
        requires { HelpIsReady (help_of self) }
        ensures ready { HelpIsReady (help_of result.0) }
        ensures value { result.1 ≡ help_range (help_of self) }
        ensures none { IfNone result.1 (help_of result.0 ≡ help_of self) }
        ensures some { IfSome result.1 (λ _. help_of result.0 ≡ unclaimed (help_of self)) }
    {
        match self {
            Help::Move(claim) => {
                let table = claim.table();
                match claim.into_range() {
                    Ok(range) => (Help::Board(table), Some(range)),
                    Err(claim) => (Help::Move(claim), None),
                }
            }
            other => (other, None),
        }
    }

    /// Does the step of a helper at a slot and its two halves in the next table.
    ///
    /// Linear in the number of the slot's entries.
    pub fn on_move<K: Ord + Drop, V: Drop, A: Allocator>(
        &mut self,
        old: &mut Slot<K, V, A>,
        low: &mut Slot<K, V, A>,
        high: &mut Slot<K, V, A>,
    ) -> Event
        requires { help_part (help_of self.old) ≡ MovePart old.old.table old.old.index }
        ensures ready { HelpIsReady (help_of self.old) → HelpIsReady (help_of self.new) }
        ensures within { IsSlot K.cmp old.old }
        ensures step { MovesOn moved_help (help_of self.old) old.old low.old high.old
            result (help_of self.new) old.new low.new high.new }
    {
        let Help::Move(claim) = self else {
            unreachable!()
        };
        match old.move_into(low, high) {
            MoveAnswer::Done(receipt) => {
                let (table, index) = receipt.at();
                claim.advance(receipt);
                Event::Moved(table, index)
            }
            MoveAnswer::Already(receipt) => {
                claim.advance(receipt);
                Event::Silent
            }
            MoveAnswer::Clash => Event::Silent,
        }
    }
}

impl<Q: Query<K>, K: Ord, V, F, A: Allocator> Resume<Q, K, V, F, A> {
    ghost use Rattle.flurry_steps_stages.specs.Stage.{resumed_stage};

    /// Returns the stage at which the call goes on when helping ends.
    ///
    /// Constant time.
    pub fn resume(self) -> Stage<Q, K, V, F, A>
        ensures { stage_of Q.stands_for result ≡ resumed_stage (resume_of Q.stands_for self) }
    {
        match self {
            Resume::Bin(task, table) => Stage::Bin(task, table),
            Resume::Recount(reply) => Stage::Recount(reply),
            Resume::Grow(wanted, growing) => Stage::Grow(wanted, growing),
        }
    }
}

impl<K: Ord, V, A: Allocator> GrowFor<K, V, A> {
    /// Returns the stage at which the call goes on when growing ends.
    ///
    /// Constant time.
    pub fn end<Q: Query<K>, F: ComputeFn<K, V>>(self) -> Stage<Q, K, V, F, A>
        requires { GrowForIsReady (grow_for_of self) }
        ensures ready { StageIsReady F.can_change F.never_keeps (stage_of Q.stands_for result) }
        ensures stage { stage_of Q.stands_for result ≡ stage_grown (grow_for_of self) }
    {
        match self {
            GrowFor::Insert(reply) => Stage::Count(reply),
            GrowFor::Reserve => Stage::Done(Reply::Ended),
        }
    }
}
