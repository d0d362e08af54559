//! A one-key call in progress, or a call in progress that makes room.
ghost use Rattle.std.specs.Prelude.{◌≡◌, ◌<◌, ◌≤◌, ◌⊎◌, IfNone, IfSome, true};
ghost use Rattle.std.specs.Option.{option_map, option_copied};
ghost use Rattle.flurry_bins_slots.specs.Slot.{IsSlot, IsUnborn};
ghost use Rattle.flurry_steps_sweep.specs.Part.{LookPart, BinPart, MovePart, ControlPart};
ghost use Rattle.flurry_steps_sweep.specs.PartView.{part_of_want};
ghost use Rattle.flurry_steps_sweep.specs.OutcomeView.{outcome_of};
ghost use Rattle.flurry_steps_sweep.specs.Sweep.{pair_seen};
ghost use Rattle.flurry_steps_stages.specs.Stage.{is_locating, published_stage, taken_stage, outcome_in, final_outcome, last_seen, steps_left, LooksUp};
ghost use Rattle.flurry_steps.specs.Party.{wanted_part, with_stage};
ghost use Rattle.flurry_steps.specs.PartyControl.{ControlStep};
ghost use Rattle.flurry_steps.specs.PartySlots.{SlotStep, MoveStep};
ghost use Rattle.flurry_steps.specs.PartyTally.{TallyStep, is_counting};
ghost use Rattle.flurry_steps.specs.PartyBoard.{Seated, Attempted, TakenBack, StageAsks, BoardStep, range_to_report, stage_unclaimed, IsAtBoard, stage_told, lost};
ghost use Rattle.flurry_base.specs.declared.sizes.TheConstants.{MAX_TABLE};

use super::at_control::step_control;
use super::at_slot::{step_lookup, step_write};
use super::at_tally::step_tally;
use super::{Event, Reply, Want};
use flurry_base::query::Query;
use flurry_base::sizes::bin_index;
use flurry_bins_slots::{ComputeFn, Slot};
use flurry_steps_claims::{Attempt, Range};
use flurry_steps_control::{Claim, Control, PublishedTable, Room, Tally};
use flurry_steps_stages::{GrowFor, Help, Left, Resume, Stage, Task};
use flurry_steps_sweep::Seen;
use std::alloc::Allocator;
use std::marker::Model;
use std::mem;

// A call in progress that does not visit all bins: a one-key call, or a call that makes room.
#[derive(Drop)]
pub(crate) struct Single<Q: Query<K>, K: Ord, V, F: ComputeFn<K, V>, A: Allocator> {
    pub(super) hash: u64,
    pub(super) processors: usize,
    // The table of the growth that the call has helped last, or for which it found no seat.
    pub(super) helped: Option<u8>,
    // A stage is set by `mem::replace`, and the stage before is passed to `drop`: for an assignment the proof would go through everything
    // that a stage can hold.
    pub(super) stage: Stage<Q, K, V, F, A>,
    // What the last step left behind, which no contract sees.
    pub(super) left: Left<Q, K, V, F, A>,
}

impl<Q: Query<K>, K: Ord, V, F: ComputeFn<K, V>, A: Allocator> Model for Single<Q, K, V, F, A> {
    ghost use Rattle.flurry_steps_stages.specs.Stage.{StageIsReady};
    ghost use Rattle.flurry_steps.specs.Party.{PartyState};
    ghost use Rattle.flurry_steps_stages.specs.StageView.{stage_of};
    ghost use Rattle.flurry_steps.specs.PartyView.{single_state_of};

    ghost Value = { PartyState K V F };

    ghost view = { single_state_of Q.stands_for };

    ghost invariant = { λ p. StageIsReady F.can_change F.never_keeps (stage_of Q.stands_for p.stage) };
}

impl<Q: Query<K>, K: Ord + Drop, V: Drop, F: ComputeFn<K, V>, A: Allocator> Single<Q, K, V, F, A> {
    // The part of the map that the next step needs.
    #[inline]
    pub(super) fn want(&self) -> Want
        ensures { part_of_want result ≡ wanted_part self.now }
    {
        match &self.stage {
            Stage::Bin(task, table) => {
                let index = bin_index(self.hash, *table);
                match task {
                    Task::Find(_, _) => Want::Look(*table, index),
                    _ => Want::Bin(*table, index),
                }
            }
            Stage::Help(help, _) => help.want(),
            Stage::Done(_) | Stage::Taken => Want::Done,
            _ => Want::Control,
        }
    }

    // The reply of a call that has decided or ended, until it is taken.
    pub(super) fn reply(&self) -> Option<&Reply<K, V, A>>
        ensures { option_map outcome_of (option_copied result) ≡ outcome_in self.now.stage }
    {
        match &self.stage {
            Stage::Done(reply)
            | Stage::Uncount(reply)
            | Stage::Count(reply)
            | Stage::Recount(reply)
            | Stage::Begin(_, reply)
            | Stage::Help(_, Resume::Recount(reply))
            | Stage::Help(_, Resume::Grow(_, GrowFor::Insert(reply)))
            | Stage::Grow(_, GrowFor::Insert(reply)) => Some(reply),
            _ => None,
        }
    }

    // Takes the reply of a call that is done, which stays done. Returns `None` if and only if the call is not done, or its reply was
    // taken before; the call is then unchanged.
    pub(super) fn take_reply(&mut self) -> Option<Reply<K, V, A>>
        ensures value { option_map outcome_of result ≡ final_outcome self.old.stage }
        ensures none { IfNone result (self.new ≡ self.old) }
        ensures some { IfSome result (λ _. self.new ≡ with_stage self.old (taken_stage self.old.stage)) }
    {
        match mem::replace(&mut self.stage, Stage::Taken) {
            Stage::Done(reply) => Some(reply),
            other => {
                drop(mem::replace(&mut self.stage, other));
                None
            }
        }
    }

    // Returns `None`, since only a walk reads pairs.
    pub(super) fn last_read(&self) -> Option<(&K, &V)>
        ensures { option_map (λ p. (p.0.now, p.1.now)) result ≡ option_map pair_seen (last_seen self.now.stage) }
    {
        match &self.stage {
            _stage => None,
        }
    }

    // Returns `None`, since only a walk reads pairs.
    pub(super) fn seen(&self) -> Option<Seen<K, V, A>>
        ensures { result ≡ last_seen self.now.stage }
    {
        match &self.stage {
            _stage => None,
        }
    }

    // Does the step at the control, with the room where tables are made.
    pub(super) fn on_control<R: Room>(&mut self, control: &mut Control, room: &mut R) -> Event
        requires { wanted_part self.old ≡ ControlPart }
        ensures { ControlStep R.place_gives self.old control.old room.old result self.new control.new room.new }
    {
        let stage = mem::replace(&mut self.stage, Stage::Taken);
        let (stage, event, left) = step_control(stage, self.processors, self.helped, control, room);
        drop(mem::replace(&mut self.stage, stage));
        drop(mem::replace(&mut self.left, left));
        event
    }

    // Drops what the last step left behind.
    #[inline]
    pub(super) fn release(&mut self)
        ensures { self.new ≡ self.old }
    {
        drop(mem::replace(&mut self.left, Left::Nothing));
    }

    // Whether the next step only asks the control for the published table.
    #[inline]
    pub(super) fn is_locating(&self) -> bool
        ensures { result ≡ is_locating self.now.stage }
    {
        matches!(self.stage, Stage::Locate(_))
    }

    // Does the step that asks for the published table, at the published table `start`. The call goes on to its bin in that table.
    #[inline]
    pub(super) fn on_published(&mut self, start: &PublishedTable) -> Event
        requires { is_locating self.old.stage ≡ true }
        ensures within { start.now ≤ MAX_TABLE }
        ensures silent { result ≡ Event.Silent }
        ensures at { self.new ≡ with_stage self.old (published_stage start.now self.old.stage) }
    {
        match mem::replace(&mut self.stage, Stage::Taken) {
            Stage::Locate(task) => {
                let stage = Stage::Bin(task, start.table());
                drop(mem::replace(&mut self.stage, stage));
                Event::Silent
            }
            _ => unreachable!(),
        }
    }
}

impl<Q: Query<K>, K: Ord + Drop, V: Drop, F: ComputeFn<K, V>, A: Allocator> Single<Q, K, V, F, A> {
    // Does the step of a look-up at its slot. Unless the bin is unborn, fewer steps are left than before.
    pub(super) fn on_look(&mut self, slot: &Slot<K, V, A>) -> Event
        requires { wanted_part self.old ≡ LookPart slot.now.table slot.now.index }
        ensures within { IsSlot K.cmp slot.now }
        ensures nearer { LooksUp self.old.stage →
            ((slot.now.content ≡ IsUnborn) ⊎ (steps_left self.new.stage < steps_left self.old.stage)) }
        ensures step { SlotStep K.cmp F.changes self.old slot.now result self.new slot.now }
    {
        let stage = mem::replace(&mut self.stage, Stage::Taken);
        let Stage::Bin(task, table) = stage else {
            unreachable!()
        };
        let Task::Find(form, key) = task else {
            unreachable!()
        };
        let (stage, event, left) = step_lookup(self.hash, form, key, table, slot);
        drop(mem::replace(&mut self.stage, stage));
        drop(mem::replace(&mut self.left, left));
        event
    }

    // Does the step of a helper at a slot and its two halves in the next table.
    pub(super) fn on_move(
        &mut self,
        old: &mut Slot<K, V, A>,
        low: &mut Slot<K, V, A>,
        high: &mut Slot<K, V, A>,
    ) -> Event
        requires { wanted_part self.old ≡ MovePart old.old.table old.old.index }
        ensures within { IsSlot K.cmp old.old }
        ensures step { MoveStep self.old old.old low.old high.old result self.new old.new low.new high.new }
    {
        let Stage::Help(help, _) = &mut self.stage else {
            unreachable!()
        };
        help.on_move(old, low, high)
    }
}

impl<Q: Query<K>, K: Ord + Drop, V: Drop, F: ComputeFn<K, V>, A: Allocator + Copy> Single<
    Q,
    K,
    V,
    F,
    A,
> {
    // Does the step, at its slot, of a call that may change its bin.
    pub(super) fn on_bin(&mut self, alloc: A, slot: &mut Slot<K, V, A>) -> Event
        requires { wanted_part self.old ≡ BinPart slot.old.table slot.old.index }
        ensures within { IsSlot K.cmp slot.old }
        ensures step { SlotStep K.cmp F.changes self.old slot.old result self.new slot.new }
    {
        match mem::replace(&mut self.stage, Stage::Taken) {
            Stage::Bin(task, table) => {
                let (stage, event, left) = step_write(alloc, self.hash, task, table, slot);
                drop(mem::replace(&mut self.stage, stage));
                drop(mem::replace(&mut self.left, left));
                event
            }
            _ => unreachable!(),
        }
    }
}

impl<Q: Query<K>, K: Ord + Drop, V: Drop, F: ComputeFn<K, V>, A: Allocator> Single<Q, K, V, F, A> {
    // Whether the next step counts one pair, which the call has inserted or removed.
    #[inline]
    pub(super) fn is_counting(&self) -> bool
        ensures { result ≡ is_counting self.now.stage }
    {
        matches!(self.stage, Stage::Count(_) | Stage::Uncount(_))
    }

    // Does the step that counts one pair, at a tally instead of the control. If the call inserted a pair and at least `most` pairs then
    // wait at the tally, it looks at the control's count next; otherwise the call is done.
    pub(super) fn on_tally(&mut self, tally: &mut Tally, most: i64) -> Event
        requires { is_counting self.old.stage ≡ true }
        ensures { TallyStep most self.old tally.old result self.new tally.new }
    {
        let stage = mem::replace(&mut self.stage, Stage::Taken);
        let stage = step_tally(stage, tally, most);
        drop(mem::replace(&mut self.stage, stage));
        Event::Silent
    }

    // The hash that the call was created with.
    #[inline]
    pub(super) fn hash(&self) -> u64
        ensures { result ≡ self.now.hash }
    {
        self.hash
    }

    // Does the step that takes a seat, if the call got one.
    pub(super) fn on_seat(&mut self, got: bool) -> Event
        requires { StageAsks self.old.stage (Seated got) }
        ensures { BoardStep self.old (Seated got) result self.new }
    {
        match mem::replace(&mut self.stage, Stage::Taken) {
            Stage::Help(Help::Seat(table), after) => {
                if got {
                    drop(mem::replace(&mut self.stage, Stage::Help(Help::Board(table), after)));
                } else {
                    self.helped = Some(table);
                    drop(mem::replace(&mut self.stage, after.resume()));
                }
                Event::Silent
            }
            _ => unreachable!(),
        }
    }

    // Does the step of an attempt to claim a range.
    pub(super) fn on_attempt(&mut self, attempt: Attempt) -> Event
        requires { StageAsks self.old.stage (Attempted attempt) }
        ensures { BoardStep self.old (Attempted attempt) result self.new }
    {
        match mem::replace(&mut self.stage, Stage::Taken) {
            Stage::Help(Help::Board(table), after) => {
                let help = match attempt {
                    Attempt::Got(range) => Help::Move(Claim::of(range)),
                    Attempt::Lost => Help::Board(table),
                    Attempt::Nothing => Help::Give(table),
                };
                drop(mem::replace(&mut self.stage, Stage::Help(help, after)));
                Event::Silent
            }
            _ => unreachable!(),
        }
    }

    // Takes out the range that the call is to report, if there is one.
    pub(super) fn take_range(&mut self) -> Option<Range>
        ensures value { result ≡ range_to_report self.old.stage }
        ensures none { IfNone result (self.new ≡ self.old) }
        ensures some { IfSome result (λ _. self.new ≡ with_stage self.old (stage_unclaimed self.old.stage)) }
    {
        match mem::replace(&mut self.stage, Stage::Taken) {
            Stage::Help(help, after) => {
                let (help, range) = help.take_range();
                drop(mem::replace(&mut self.stage, Stage::Help(help, after)));
                range
            }
            other => {
                drop(mem::replace(&mut self.stage, other));
                None
            }
        }
    }

    // Does the step of a report, whose range was taken out.
    pub(super) fn on_report(&mut self, last: bool) -> Event
        requires { IsAtBoard self.old.stage }
        ensures silent { result ≡ Event.Silent }
        ensures told { self.new ≡ with_stage self.old (stage_told last self.old.stage) }
    {
        match mem::replace(&mut self.stage, Stage::Taken) {
            Stage::Help(Help::Board(table), after) => {
                let help = if last {
                    Help::Publish(table)
                } else {
                    Help::Board(table)
                };
                drop(mem::replace(&mut self.stage, Stage::Help(help, after)));
                Event::Silent
            }
            _ => unreachable!(),
        }
    }

    // Does the step that gives the seat back.
    pub(super) fn on_give(&mut self) -> Event
        requires { StageAsks self.old.stage TakenBack }
        ensures { BoardStep self.old TakenBack result self.new }
    {
        match mem::replace(&mut self.stage, Stage::Taken) {
            Stage::Help(Help::Give(table), after) => {
                self.helped = Some(table);
                drop(mem::replace(&mut self.stage, after.resume()));
                Event::Silent
            }
            _ => unreachable!(),
        }
    }

    // Goes on as if no seat had been left, if the call is to take one.
    pub(super) fn lose(&mut self)
        ensures { self.new ≡ lost self.old }
    {
        match mem::replace(&mut self.stage, Stage::Taken) {
            Stage::Help(Help::Seat(table), after) => {
                self.helped = Some(table);
                drop(mem::replace(&mut self.stage, after.resume()));
            }
            other => drop(mem::replace(&mut self.stage, other)),
        }
    }
}
