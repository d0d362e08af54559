//! One call of a shared map in progress, as a machine each of whose steps needs one part of the map.
//!
//! A caller asks a [`Party`] which part it needs, passes that part to it, and so on until the party is done. In contracts, what a step
//! does to the part and to the party is plain data. Each step is one line of what a call does, whichever steps of other calls come in
//! between.
ghost use Rattle.std.specs.Prelude.{◌≡◌, ◌<◌, ◌≤◌, ◌⊎◌, IsSome, IfNone, IfSome, IfOk, OnErr, None, true};
ghost use Rattle.std.specs.Option.{option_map, option_copied};
ghost use Rattle.flurry_bins_slots.specs.Slot.{IsSlot, IsUnborn};
ghost use Rattle.flurry_steps_sweep.specs.Part.{LookPart, BinPart, MovePart, ControlPart};
ghost use Rattle.flurry_steps_sweep.specs.PartView.{part_of_want};
ghost use Rattle.flurry_steps_sweep.specs.OutcomeView.{outcome_of};
ghost use Rattle.flurry_steps_sweep.specs.Sweep.{pair_seen};
ghost use Rattle.flurry_steps_stages.specs.Stage.{is_locating, published_stage, taken_stage, outcome_in, final_outcome, last_seen, steps_left, LooksUp, StageIsReady, stage_of_call};
ghost use Rattle.flurry_steps.specs.Party.{wanted_part, with_stage};
ghost use Rattle.flurry_steps.specs.PartyControl.{ControlStep};
ghost use Rattle.flurry_steps.specs.PartySlots.{SlotStep, MoveStep};
ghost use Rattle.flurry_steps.specs.PartyTally.{TallyStep, is_counting};
ghost use Rattle.flurry_steps.specs.PartyBoard.{Seated, Attempted, TakenBack, StageAsks, BoardStep, range_to_report, stage_unclaimed, IsAtBoard, stage_told, lost};
ghost use Rattle.flurry_steps_stages.specs.CallView.{CallIsReady, OwnedIsReady, plain_call, plain_of_owned};
ghost use Rattle.flurry_steps_stages.specs.StageView.{stage_of};
ghost use Rattle.flurry_steps.specs.PartyView.{plain_of_whole};
ghost use Rattle.flurry_base.specs.declared.sizes.TheConstants.{MAX_TABLE};

mod at_control;
mod at_slot;
mod at_tally;
mod ending;
mod first;
mod single;

pub use ending::{Ending, Rest};
pub use first::Remains;
use first::{WholeMapCall, task_for, task_of_owned};
use flurry_base::query::Query;
use flurry_bins_slots::{ComputeFn, Slot};
use flurry_steps_claims::{Attempt, Range};
use flurry_steps_control::{Control, PublishedTable, Room, Tally};
pub use flurry_steps_stages::{Call, OwnedCall};
use flurry_steps_stages::{Left, Stage};
use flurry_steps_sweep::{Seen, Sweep};
pub use flurry_steps_sweep::{Event, Reply, Want};
use single::Single;
use std::alloc::{AllocError, Allocator, Global};
use std::marker::Model;

/// One call of a shared map in progress.
///
/// It advances only by its steps, each of which takes the part that [`Party::want`] returns. A look-up takes at most 32 steps if no bin
/// that it meets is unborn: one at the control, and one in each of 31 tables.
///
/// ```
/// let party: Party<&u64, u64, u64, F> = Party::from_owned(OwnedCall::Get(key), key, 1);
/// let want = party.want();
/// drop(party);
/// want
/// ```
#[derive(Drop)]
pub struct Party<Q: Query<K>, K: Ord, V, F: ComputeFn<K, V>, A: Allocator = Global> {
    kind: PartyKind<Q, K, V, F, A>,
}

/// The two kinds of calls. The frames of a sweep would lengthen the proofs of all other steps, so the two kinds are of two types.
#[derive(Drop)]
pub(crate) enum PartyKind<Q: Query<K>, K: Ord, V, F: ComputeFn<K, V>, A: Allocator> {
    /// A one-key call, or a call that makes room.
    Single(Single<Q, K, V, F, A>),
    /// A walk or a clear, with the hash and the number of processors that it was given; it reads neither.
    Sweep(u64, usize, Sweep<K, V, A>),
}

impl<Q: Query<K>, K: Ord, V, F: ComputeFn<K, V>, A: Allocator> Model for Party<Q, K, V, F, A> {
    ghost use Rattle.flurry_steps.specs.Party.{PartyState};
    ghost use Rattle.flurry_steps.specs.PartyKindView.{party_state_of};

    ghost Value = { PartyState K V F };

    ghost view = { party_state_of };
}

impl<Q: Query<K>, K: Ord, V, F: ComputeFn<K, V>, A: Allocator> Party<Q, K, V, F, A> {
    // Creates a call that does not visit all bins, at the given stage.
    fn of_stage(stage: Stage<Q, K, V, F, A>, hash: u64, processors: usize) -> Self
        requires { StageIsReady F.can_change F.never_keeps (stage_of Q.stands_for stage) }
        ensures { result
            ≡ record {
              hash = hash;
              processors = processors;
              helped = None;
              stage = stage_of Q.stands_for stage;
            } }
    {
        Party {
            kind: PartyKind::Single(Single {
                hash,
                processors,
                helped: None,
                stage,
                left: Left::Nothing,
            }),
        }
    }
}

impl<Q: Query<K>, K: Ord + Drop, V: Drop, F: ComputeFn<K, V>, A: Allocator> Party<Q, K, V, F, A> {
    // Creates a call without a key, before its first step.
    fn of_whole_map(call: WholeMapCall, hash: u64, processors: usize) -> Self
        ensures { result
            ≡ record { hash = hash; processors = processors; helped = None; stage = stage_of_call (plain_of_whole call) } }
    {
        match call {
            WholeMapCall::Reserve(more) => {
                return Party::of_stage(Stage::Reserve(more), hash, processors);
            }
            WholeMapCall::Clear => {
                return Party {
                    kind: PartyKind::Sweep(hash, processors, Sweep::clear()),
                };
            }
            WholeMapCall::Walk => {
                return Party {
                    kind: PartyKind::Sweep(hash, processors, Sweep::walk()),
                };
            }
        }
    }

    /// Creates a call that has done no step yet.
    ///
    /// `hash` is the hash of its key; a call without a key does not read it. `processors` is the number of processors that share the work
    /// of a growth; `0` counts as 1.
    ///
    /// Constant time. Takes no memory.
    pub fn new(call: Call<Q, K, V, F, A>, hash: u64, processors: usize) -> Self
        requires { CallIsReady F.can_change F.never_keeps call }
        ensures { result
            ≡ record {
              hash = hash;
              processors = processors;
              helped = None;
              stage = stage_of_call (plain_call Q.stands_for call);
            } }
    {
        match task_for(call) {
            Ok(task) => return Party::of_stage(Stage::Locate(task), hash, processors),
            Err(call) => return Party::of_whole_map(call, hash, processors),
        }
    }

    /// Returns the part of the map that the next step needs.
    ///
    /// Constant time.
    #[inline]
    pub fn want(&self) -> Want
        ensures { part_of_want result ≡ wanted_part self.now }
    {
        match &self.kind {
            PartyKind::Single(single) => single.want(),
            PartyKind::Sweep(_, _, sweep) => sweep.want(),
        }
    }

    /// Returns the reply of a call that has decided or ended, until it is taken. Otherwise returns `None`.
    ///
    /// Constant time.
    pub fn reply(&self) -> Option<&Reply<K, V, A>>
        ensures { option_map outcome_of (option_copied result) ≡ outcome_in self.now.stage }
    {
        match &self.kind {
            PartyKind::Single(single) => single.reply(),
            PartyKind::Sweep(_, _, sweep) => sweep.reply(),
        }
    }

    /// Takes the reply of a call that is done, which stays done. Returns `None` if and only if the call is not done, or its reply was
    /// taken before; the call is then unchanged.
    ///
    /// Constant time.
    pub fn take_reply(&mut self) -> Option<Reply<K, V, A>>
        ensures value { option_map outcome_of result ≡ final_outcome self.old.stage }
        ensures none { IfNone result (self.new ≡ self.old) }
        ensures some { IfSome result (λ _. self.new ≡ with_stage self.old (taken_stage self.old.stage)) }
    {
        match &mut self.kind {
            PartyKind::Single(single) => return single.take_reply(),
            PartyKind::Sweep(_, _, sweep) => return sweep.take_reply(),
        }
    }

    /// Returns the pair that a walk has read last, also after the walk has ended. Returns `None` for any other call, and before the first
    /// read.
    ///
    /// Constant time.
    pub fn last_read(&self) -> Option<(&K, &V)>
        ensures { option_map (λ p. (p.0.now, p.1.now)) result ≡ option_map pair_seen (last_seen self.now.stage) }
    {
        match &self.kind {
            PartyKind::Single(single) => single.last_read(),
            PartyKind::Sweep(_, _, sweep) => sweep.last_read(),
        }
    }

    /// Returns the pair that a walk has read last, with the write number of its value. Returns `None` for any other call, and before the
    /// first read.
    ///
    /// Constant time. Takes no memory except for clones of the `Arc`s of the key and the value.
    ///
    /// # Errors
    ///
    /// Returns [`AllocError`] if cloning one of these `Arc`s fails.
    pub fn seen(&self) -> Result<Option<Seen<K, V, A>>, AllocError>
        ensures ok { IfOk result (λ s. s ≡ last_seen self.now.stage) }
        ensures err { OnErr result (IsSome (last_seen self.now.stage)) }
    {
        match &self.kind {
            PartyKind::Single(single) => Ok(single.seen()),
            PartyKind::Sweep(_, _, sweep) => sweep.seen(),
        }
    }

    /// Drops what the last step took out of a bin and did not return, or was given and did not keep. [`act`](crate::act) begins with this,
    /// so that nothing of the kind is dropped while a lock is held.
    ///
    /// Constant time, and as long as the drops take; after a clear of a bin, linear in the number of its entries.
    pub fn release(&mut self)
        ensures { self.new ≡ self.old }
    {
        match &mut self.kind {
            PartyKind::Single(single) => single.release(),
            PartyKind::Sweep(_, _, sweep) => sweep.release(),
        }
    }

    /// Does the step at the control, with the room where tables are made.
    ///
    /// Constant time, except for making a table.
    pub fn on_control<R: Room>(&mut self, control: &mut Control, room: &mut R) -> Event
        requires { wanted_part self.old ≡ ControlPart }
        ensures { ControlStep R.place_gives self.old control.old room.old result self.new control.new room.new }
    {
        match &mut self.kind {
            PartyKind::Single(single) => return single.on_control(control, room),
            PartyKind::Sweep(_, _, sweep) => return sweep.on_control(control),
        }
    }

    /// Returns `true` if the next step only asks the control for the published table.
    ///
    /// Constant time.
    #[inline]
    pub fn is_locating(&self) -> bool
        ensures { result ≡ is_locating self.now.stage }
    {
        match &self.kind {
            PartyKind::Single(single) => single.is_locating(),
            PartyKind::Sweep(_, _, sweep) => sweep.is_at_start(),
        }
    }

    /// Does the step that asks for the published table, at the published table `start` instead of the control. The call goes on to its
    /// bin in that table, or, if it visits all bins, to the first one.
    ///
    /// Constant time.
    #[inline]
    pub fn on_published(&mut self, start: &PublishedTable) -> Event
        requires { is_locating self.old.stage ≡ true }
        ensures within { start.now ≤ MAX_TABLE }
        ensures silent { result ≡ Event.Silent }
        ensures at { self.new ≡ with_stage self.old (published_stage start.now self.old.stage) }
    {
        match &mut self.kind {
            PartyKind::Single(single) => return single.on_published(start),
            PartyKind::Sweep(_, _, sweep) => return sweep.on_published(start),
        }
    }

    /// Returns `true` if the next step counts one pair, which the call has inserted or removed.
    ///
    /// Constant time.
    #[inline]
    pub fn is_counting(&self) -> bool
        ensures { result ≡ is_counting self.now.stage }
    {
        match &self.kind {
            PartyKind::Single(single) => single.is_counting(),
            PartyKind::Sweep(_, _, _) => false,
        }
    }

    /// Does the step that counts one pair, at a tally instead of the control. If the call inserted a pair and at least `most` pairs then
    /// wait at the tally, it looks at the control's count next; otherwise the call is done.
    ///
    /// Constant time.
    pub fn on_tally(&mut self, tally: &mut Tally, most: i64) -> Event
        requires { is_counting self.old.stage ≡ true }
        ensures { TallyStep most self.old tally.old result self.new tally.new }
    {
        match &mut self.kind {
            PartyKind::Single(single) => return single.on_tally(tally, most),
            PartyKind::Sweep(_, _, _) => unreachable!(),
        }
    }

    /// Does the step that takes a seat at the board of the growth that the call is to help. `got` says whether there was one. If there was
    /// none, the call does not help.
    ///
    /// Constant time.
    pub fn on_seat(&mut self, got: bool) -> Event
        requires { StageAsks self.old.stage (Seated got) }
        ensures { BoardStep self.old (Seated got) result self.new }
    {
        match &mut self.kind {
            PartyKind::Single(single) => return single.on_seat(got),
            PartyKind::Sweep(_, _, _) => unreachable!(),
        }
    }

    /// Takes out the range that the next step is to report, all of whose bins have moved. It is then to be reported to its board, and
    /// [`on_report`](Self::on_report) to be called with what the board returns. Returns `None` if the next step is no report; the call is
    /// then unchanged.
    ///
    /// Constant time.
    pub fn take_range(&mut self) -> Option<Range>
        ensures value { result ≡ range_to_report self.old.stage }
        ensures none { IfNone result (self.new ≡ self.old) }
        ensures some { IfSome result (λ _. self.new ≡ with_stage self.old (stage_unclaimed self.old.stage)) }
    {
        match &mut self.kind {
            PartyKind::Single(single) => return single.take_range(),
            PartyKind::Sweep(_, _, _) => return None,
        }
    }

    /// Does the step of a report whose range was taken out. `last` says whether the report was the last one of the growth; the call then
    /// publishes the next table.
    ///
    /// Constant time.
    pub fn on_report(&mut self, last: bool) -> Event
        requires { IsAtBoard self.old.stage }
        ensures silent { result ≡ Event.Silent }
        ensures told { self.new ≡ with_stage self.old (stage_told last self.old.stage) }
    {
        match &mut self.kind {
            PartyKind::Single(single) => return single.on_report(last),
            PartyKind::Sweep(_, _, _) => unreachable!(),
        }
    }

    /// Does the step of an attempt to claim a range, with the result of that attempt at the board of the growth that the call helps. The
    /// call moves the bins of a range that it got, tries again if the attempt was lost, and gives its seat back if there is nothing to
    /// claim.
    ///
    /// Constant time.
    pub fn on_attempt(&mut self, attempt: Attempt) -> Event
        requires { StageAsks self.old.stage (Attempted attempt) }
        ensures { BoardStep self.old (Attempted attempt) result self.new }
    {
        match &mut self.kind {
            PartyKind::Single(single) => return single.on_attempt(attempt),
            PartyKind::Sweep(_, _, _) => unreachable!(),
        }
    }

    /// Does the step that gives the call's seat back, after which the call does not help any more.
    ///
    /// Constant time.
    pub fn on_give(&mut self) -> Event
        requires { StageAsks self.old.stage TakenBack }
        ensures { BoardStep self.old TakenBack result self.new }
    {
        match &mut self.kind {
            PartyKind::Single(single) => return single.on_give(),
            PartyKind::Sweep(_, _, _) => unreachable!(),
        }
    }

    /// Makes the call lose, as if others had been faster. If it is to take a seat, none is left for it, and it does not help. If it is to
    /// claim a range, the attempt is lost, which changes nothing, as it tries again. Any other call is unchanged.
    ///
    /// This is no step of the call. Constant time.
    pub fn lose(&mut self)
        ensures { self.new ≡ lost self.old }
    {
        if let PartyKind::Single(single) = &mut self.kind {
            single.lose();
        }
    }

    /// Returns the hash that the call was created with.
    ///
    /// Constant time.
    #[inline]
    pub fn hash(&self) -> u64
        ensures { result ≡ self.now.hash }
    {
        match &self.kind {
            PartyKind::Single(single) => single.hash(),
            PartyKind::Sweep(hash, _, _) => *hash,
        }
    }
}

impl<'k, K: Ord + Drop, V: Drop, F: ComputeFn<K, V>, A: Allocator> Party<&'k K, K, V, F, A> {
    /// Creates a call that owns its key, and has done no step yet.
    ///
    /// `hash` is the hash of its key; a call without a key does not read it. `processors` is the number of processors that share the work
    /// of a growth; `0` counts as 1.
    ///
    /// Constant time. Takes no memory.
    pub fn from_owned(call: OwnedCall<K, V, F>, hash: u64, processors: usize) -> Self
        requires { OwnedIsReady F.can_change F.never_keeps call }
        ensures { result
            ≡ record { hash = hash; processors = processors; helped = None; stage = stage_of_call (plain_of_owned call) } }
    {
        match task_of_owned(call) {
            Ok(task) => return Party::of_stage(Stage::Locate(task), hash, processors),
            Err(call) => return Party::of_whole_map(call, hash, processors),
        }
    }
}

impl<Q: Query<K>, K: Ord + Drop, V: Drop, F: ComputeFn<K, V>, A: Allocator> Party<Q, K, V, F, A> {
    /// Does the step of a look-up or a walk at its slot. A look-up has fewer steps left than before, unless the bin is unborn.
    ///
    /// Takes as many steps as a look-up in the bin.
    pub fn on_look(&mut self, slot: &Slot<K, V, A>) -> Event
        requires { wanted_part self.old ≡ LookPart slot.now.table slot.now.index }
        ensures within { IsSlot K.cmp slot.now }
        ensures nearer { LooksUp self.old.stage →
            ((slot.now.content ≡ IsUnborn) ⊎ (steps_left self.new.stage < steps_left self.old.stage)) }
        ensures step { SlotStep K.cmp F.changes self.old slot.now result self.new slot.now }
    {
        match &mut self.kind {
            PartyKind::Single(single) => return single.on_look(slot),
            PartyKind::Sweep(_, _, sweep) => return sweep.on_look(slot),
        }
    }

    /// Does the step of a helper at a slot and its two halves in the next table.
    ///
    /// Linear in the number of entries of the bin. Takes no memory.
    pub fn on_move(
        &mut self,
        old: &mut Slot<K, V, A>,
        low: &mut Slot<K, V, A>,
        high: &mut Slot<K, V, A>,
    ) -> Event
        requires { wanted_part self.old ≡ MovePart old.old.table old.old.index }
        ensures within { IsSlot K.cmp old.old }
        ensures step { MoveStep self.old old.old low.old high.old result self.new old.new low.new high.new }
    {
        match &mut self.kind {
            PartyKind::Single(single) => return single.on_move(old, low, high),
            PartyKind::Sweep(_, _, _) => unreachable!(),
        }
    }
}

impl<Q: Query<K>, K: Ord + Drop, V: Drop, F: ComputeFn<K, V>, A: Allocator + Copy> Party<
    Q,
    K,
    V,
    F,
    A,
> {
    /// Does the step, at its slot, of a call that may change its bin.
    ///
    /// Takes as many steps as a look-up in the bin. For a clear, linear in the number of entries of the bin.
    pub fn on_bin(&mut self, alloc: A, slot: &mut Slot<K, V, A>) -> Event
        requires { wanted_part self.old ≡ BinPart slot.old.table slot.old.index }
        ensures within { IsSlot K.cmp slot.old }
        ensures step { SlotStep K.cmp F.changes self.old slot.old result self.new slot.new }
    {
        match &mut self.kind {
            PartyKind::Single(single) => return single.on_bin(alloc, slot),
            PartyKind::Sweep(_, _, sweep) => return sweep.on_bin(slot),
        }
    }
}
