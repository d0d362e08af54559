//! The field of one call, which keeps the helper that the call has.
ghost use Rattle.std.specs.Prelude.{◌≡◌};
ghost use Rattle.flurry_steps_sweep.specs.Part.{ControlPart};
ghost use Rattle.flurry_shared_locks.specs.LockLoans.{CallLends, KeepsLocks, LockLacks, RoomStays};
ghost use Rattle.flurry_shared_locks.specs.declared.tables.LockRoom.{LockRoom};
ghost use Rattle.flurry_steps.specs.Field.{ActsOrStays, FieldStep};
ghost use Rattle.flurry_steps_stages.specs.Stage.{IsTaken};
ghost use Rattle.flurry_steps.specs.Party.{wanted_part};
ghost use Rattle.flurry_steps.specs.StepClosure.{StepsToReply};
ghost use Rattle.flurry_steps_sweep.specs.OutcomeView.{outcome_of};
ghost use Rattle.flurry_steps.specs.PartyBoard.{IsAttempt};

use crate::lock_field::LockField;
use crate::locks::Locks;
use crate::tables::LockRoom;
use flurry_base::query::Query;
use flurry_bins_slots::ComputeFn;
use flurry_steps::party::{Event, Reply, Want};
use flurry_steps::{Field, Party};
use flurry_steps_claims::{Attempt, Helper, Range};
use std::alloc::{Allocator, Global};
use std::sync::Wait;

/// The field of one call. It gives the steps of the call the parts of a shared map, each under its lock, and keeps the helper by which the
/// call helps a growth.
///
/// A step that moves a bin takes the lock of the bin, then the lock of its low half, then the lock of its high half, and holds all three. A
/// call starts at the table that was published last, as far as that is known without the control's lock. A claim and a report take no lock.
///
/// A helper is given back to its growth once its call has nothing more to do there, and at the latest when the call field is dropped.
///
/// ```
/// let mut lock_field = CallField::new(&LockField::new(rt, locks));
/// lock_field.act(&mut party)
/// ```
pub struct CallField<'m, R: Wait, K: Ord, V, A: Allocator = Global> {
    rt: &'m R,
    locks: &'m Locks<K, V, A>,
    // The helper of the call, and the table of the growth that it helps.
    helper: Option<(u8, Helper<A>)>,
}

impl<'m, R: Wait, K: Ord, V, A: Allocator> Drop for CallField<'m, R, K, V, A> {
    fn drop(self) {
        let Self { rt, locks, helper } = self;
        if let Some((table, helper)) = helper {
            locks.tables.give_back(rt, table, helper);
        }
    }
}

impl<'m, R: Wait, K: Ord, V, A: Allocator> CallField<'m, R, K, V, A> {
    /// Creates the field of one call, which has no helper yet. Constant time.
    // The parts under the locks are known by their types alone, so no contract specifies them.
    pub fn new(lock_field: &LockField<'m, R, K, V, A>) -> Self {
        CallField {
            rt: lock_field.rt,
            locks: lock_field.locks,
            helper: None,
        }
    }

    // Takes a helper of the growth from `table`, and returns whether there was one. A helper that the call has is given back before.
    fn take_helper(&mut self, table: u8) -> bool
        ensures { KeepsLocks self.old self.new }
    {
        self.give_back();
        match self.locks.tables.take_helper(self.rt, table) {
            Some(helper) => {
                self.helper = Some((table, helper));
                true
            }
            None => false,
        }
    }

    // Gives back the helper that the call has, if any.
    fn give_back(&mut self)
        ensures { KeepsLocks self.old self.new }
    {
        if let Some((table, helper)) = self.helper.take() {
            self.locks.tables.give_back(self.rt, table, helper);
        }
    }

    // Tries to claim a range of `table`. Without a helper of the growth from there, there is nothing to claim.
    fn try_claim(&mut self, table: u8) -> Attempt
        ensures lock_field { KeepsLocks self.old self.new }
        ensures attempt { IsAttempt table result }
    {
        match &mut self.helper {
            Some((there, helper)) if *there == table => match helper.try_claim() {
                Attempt::Got(range) if range.table() != table => Attempt::Nothing,
                attempt => attempt,
            },
            _ => Attempt::Nothing,
        }
    }

    // Reports a range to the board of the growth from `table`, and returns whether that report was the last. Without a helper of that
    // growth, it is not.
    fn report(&mut self, table: u8, range: Range) -> bool
        ensures { KeepsLocks self.old self.new }
    {
        match &mut self.helper {
            Some((there, helper)) if *there == table => helper.report(range),
            _ => false,
        }
    }
}

impl<'m, R: Wait, K: Ord + Drop, V: Drop, A: Allocator + Copy> CallField<'m, R, K, V, A> {
    // Passes the control to the next step of `party`. A growth that this step begins gives the call a helper, before anybody else can take
    // one: the control's lock is held until then.
    fn at_locked_control<Q: Query<K>, F: ComputeFn<K, V>>(
        &mut self,
        party: &mut Party<Q, K, V, F, A>,
    ) -> Event
        requires { wanted_part party.old ≡ ControlPart }
        ensures { FieldStep (RoomStays {M = LockRoom K V A}) K.cmp F.changes CallLends self.old party.old result self.new party.new }
    {
        let locks = self.locks;
        let mut room = LockRoom::new(&locks.tables, locks.alloc);
        let mut control = locks.control.lock(self.rt);
        let event = party.on_control(&mut *control, &mut room);
        if let Event::Opened(_) | Event::Published(_) = event {
            if let Some(start) = control.start() {
                locks.published_tables.add(start);
            }
        }
        if let Want::Board(table) = party.want() {
            self.take_helper(table);
        }
        event
    }
}

impl<'m, R: Wait, K: Ord + Drop, V: Drop, A: Allocator + Copy> Field<K, V, A>
    for CallField<'m, R, K, V, A> {
    type Room = LockRoom<'m, K, V, A>;

    ghost lends = { CallLends };

    ghost lacks = { LockLacks };

    fn at_control<Q: Query<K>, F: ComputeFn<K, V>>(
        &mut self,
        party: &mut Party<Q, K, V, F, A>,
    ) -> Option<Event> {
        let locks = self.locks;
        if party.is_locating() {
            if let Some(start) = locks.published_tables.newest() {
                return Some(party.on_published(start));
            }
        }
        if party.is_counting() {
            if let Some((tally, most)) = locks
                .control
                .tally(party.hash(), locks.published_tables.newest())
            {
                return Some(party.on_tally(&mut *tally.lock(self.rt), most));
            }
        }
        Some(self.at_locked_control(party))
    }

    fn at_look<Q: Query<K>, F: ComputeFn<K, V>>(
        &mut self,
        table: u8,
        index: usize,
        party: &mut Party<Q, K, V, F, A>,
    ) -> Option<Event> {
        let slot = self.locks.tables.lock_of(table, index)?.read(self.rt);
        if slot.at() != (table, index) {
            return None;
        }
        Some(party.on_look(&*slot))
    }

    fn at_bin<Q: Query<K>, F: ComputeFn<K, V>>(
        &mut self,
        table: u8,
        index: usize,
        party: &mut Party<Q, K, V, F, A>,
    ) -> Option<Event> {
        let mut slot = self.locks.tables.lock_of(table, index)?.write(self.rt);
        if slot.at() != (table, index) {
            return None;
        }
        Some(party.on_bin(self.locks.alloc, &mut *slot))
    }

    fn at_move<Q: Query<K>, F: ComputeFn<K, V>>(
        &mut self,
        table: u8,
        index: usize,
        party: &mut Party<Q, K, V, F, A>,
    ) -> Option<Event> {
        let (old, low, high) = self.locks.tables.locks_of_move(table, index)?;
        let mut old = old.write(self.rt);
        let mut low = low.write(self.rt);
        let mut high = high.write(self.rt);
        if old.at() != (table, index) {
            return None;
        }
        Some(party.on_move(&mut *old, &mut *low, &mut *high))
    }

    fn at_seat<Q: Query<K>, F: ComputeFn<K, V>>(
        &mut self,
        table: u8,
        party: &mut Party<Q, K, V, F, A>,
    ) -> Option<Event> {
        let got = self.take_helper(table);
        if !got {
            self.locks.control.note_enough(table);
        }
        Some(party.on_seat(got))
    }

    fn at_board<Q: Query<K>, F: ComputeFn<K, V>>(
        &mut self,
        table: u8,
        party: &mut Party<Q, K, V, F, A>,
    ) -> Option<Event> {
        if let Some(range) = party.take_range() {
            let last = self.report(table, range);
            return Some(party.on_report(last));
        }
        let attempt = self.try_claim(table);
        if let Attempt::Nothing = &attempt {
            self.locks.control.note_enough(table);
        }
        Some(party.on_attempt(attempt))
    }

    fn at_give<Q: Query<K>, F: ComputeFn<K, V>>(
        &mut self,
        table: u8,
        party: &mut Party<Q, K, V, F, A>,
    ) -> Option<Event> {
        self.give_back();
        Some(party.on_give())
    }
}

impl<'m, R: Wait, K: Ord + Drop, V: Drop, A: Allocator + Copy> CallField<'m, R, K, V, A> {
    /// Does the next step of `party`, and returns what the step did. If the call is done, or a part cannot be had, returns `None`, and both
    /// are unchanged. It drops first what the step before left behind, while no lock is held.
    ///
    /// Takes as many steps as the call's step, and what its locks take.
    #[inline(always)]
    pub fn act<Q: Query<K>, F: ComputeFn<K, V>>(
        &mut self,
        party: &mut Party<Q, K, V, F, A>,
    ) -> Option<Event>
        ensures { ActsOrStays (RoomStays {M = LockRoom K V A}) K.cmp F.changes CallLends LockLacks self.old party.old
            result self.new party.new }
    {
        party.release();
        match party.want() {
            Want::Control => self.at_control(party),
            Want::Look(table, index) => self.at_look(table, index, party),
            Want::Bin(table, index) => self.at_bin(table, index, party),
            Want::Move(table, index) => self.at_move(table, index, party),
            Want::Seat(table) => self.at_seat(table, party),
            Want::Board(table) => self.at_board(table, party),
            Want::Give(table) => self.at_give(table, party),
            Want::Done => None,
        }
    }

    /// Does the steps of a call until it is done, takes its reply, and returns it.
    ///
    /// Takes as many steps as the call needs, and what its locks take.
    pub fn finish<Q: Query<K>, F: ComputeFn<K, V>>(
        &mut self,
        party: &mut Party<Q, K, V, F, A>,
    ) -> Reply<K, V, A>
        requires { IsTaken party.old.stage → ⊥ }
        ensures { StepsToReply (FieldStep (RoomStays {M = LockRoom K V A}) K.cmp F.changes CallLends) self.old party.old
            (outcome_of result) self.new party.new }
    {
        let rt = self.rt;
        for _ in rt.forever() {
            if self.act(party).is_some() {
                continue;
            }
            if let Some(reply) = party.take_reply() {
                return reply;
            }
        }
        unreachable!()
    }
}
