//! Where a call finds the parts of a map that its steps need.
ghost use Rattle.std.specs.Prelude.{◌≡◌};
ghost use Rattle.flurry_steps_sweep.specs.Part.{Part, ControlPart, LookPart, BinPart, MovePart, SeatPart, BoardPart, GivePart};
ghost use Rattle.flurry_steps_sweep.specs.OutcomeView.{outcome_of};
ghost use Rattle.flurry_steps_stages.specs.Stage.{IsTaken};
ghost use Rattle.flurry_steps.specs.Party.{wanted_part};
ghost use Rattle.flurry_steps.specs.Field.{Loan, FieldStep, StepsOrStays, ActsOrStays};
ghost use Rattle.flurry_steps.specs.StepClosure.{StepsToReply};

use crate::party::{Event, Party, Reply, Want};
use flurry_base::query::Query;
use flurry_bins_slots::ComputeFn;
use flurry_steps_control::Room;
use std::alloc::Allocator;
use std::sync::Wait;

/// A place that has the parts of a map, and passes the part that a call needs to exactly one step of that call.
///
/// Each method returns what the step did. If the part is not there, or a slot is at another place, no step is done, and the method
/// returns `None`; the call and the field are then unchanged.
///
/// A call that helps a growth has a seat at the growth's board, which the field keeps for it, also one that comes with a growth which the
/// call begins.
///
/// ```
/// act(party, field)
/// ```
pub trait Field<K: Ord + Drop, V: Drop, A: Allocator + Copy> {
    /// The room where the control makes tables.
    type Room: Room;

    /// What is known of a loan, as a relation of the field before, the part as it was before and after the step, and the field after.
    ghost lends: { Self → Loan K V Self.Room → Self → Type 0 };

    /// What is known if a part was not passed to a step.
    ghost lacks: { Self → Part → Type 0 };

    /// Passes the control, with the room where it makes tables, to the next step of `party`, and returns what the step did, or `None` if
    /// no step was done.
    ///
    /// Instead of the control, it may pass a published table to a call that only asks for the published table, and a tally to a call that
    /// counts a pair.
    fn at_control<Q: Query<K>, F: ComputeFn<K, V>>(
        &mut self,
        party: &mut Party<Q, K, V, F, A>,
    ) -> Option<Event>
        requires { wanted_part party.old ≡ ControlPart }
        ensures { StepsOrStays Self.Room.place_gives K.cmp F.changes lends lacks self.old party.old
            result self.new party.new };

    /// Passes the slot of `table` and `index`, to read it, to the next step of `party`. Returns what the step did, or `None` if no step
    /// was done.
    fn at_look<Q: Query<K>, F: ComputeFn<K, V>>(
        &mut self,
        table: u8,
        index: usize,
        party: &mut Party<Q, K, V, F, A>,
    ) -> Option<Event>
        requires { wanted_part party.old ≡ LookPart table index }
        ensures { StepsOrStays Self.Room.place_gives K.cmp F.changes lends lacks self.old party.old
            result self.new party.new };

    /// Passes the slot of `table` and `index`, to write it, to the next step of `party`. Returns what the step did, or `None` if no step
    /// was done.
    fn at_bin<Q: Query<K>, F: ComputeFn<K, V>>(
        &mut self,
        table: u8,
        index: usize,
        party: &mut Party<Q, K, V, F, A>,
    ) -> Option<Event>
        requires { wanted_part party.old ≡ BinPart table index }
        ensures { StepsOrStays Self.Room.place_gives K.cmp F.changes lends lacks self.old party.old
            result self.new party.new };

    /// Passes the slot of `table` and `index`, and its two halves in the next table, to the next step of `party`, which moves the bin of
    /// the slot into the halves. Returns what the step did, or `None` if no step was done.
    fn at_move<Q: Query<K>, F: ComputeFn<K, V>>(
        &mut self,
        table: u8,
        index: usize,
        party: &mut Party<Q, K, V, F, A>,
    ) -> Option<Event>
        requires { wanted_part party.old ≡ MovePart table index }
        ensures { StepsOrStays Self.Room.place_gives K.cmp F.changes lends lacks self.old party.old
            result self.new party.new };

    /// Takes a seat at the board of the growth from `table`, and passes to the next step of `party` whether there was one. Returns what
    /// the step did, or `None` if no step was done.
    fn at_seat<Q: Query<K>, F: ComputeFn<K, V>>(
        &mut self,
        table: u8,
        party: &mut Party<Q, K, V, F, A>,
    ) -> Option<Event>
        requires { wanted_part party.old ≡ SeatPart table }
        ensures { StepsOrStays Self.Room.place_gives K.cmp F.changes lends lacks self.old party.old
            result self.new party.new };

    /// Reports the range whose bins `party` has moved to the board of the growth from `table`, or tries to claim one there if it has none,
    /// and passes the result to the next step of `party`. Returns what the step did, or `None` if no step was done.
    fn at_board<Q: Query<K>, F: ComputeFn<K, V>>(
        &mut self,
        table: u8,
        party: &mut Party<Q, K, V, F, A>,
    ) -> Option<Event>
        requires { wanted_part party.old ≡ BoardPart table }
        ensures { StepsOrStays Self.Room.place_gives K.cmp F.changes lends lacks self.old party.old
            result self.new party.new };

    /// Takes back the seat of `party` at the board of the growth from `table`, and does the step of `party` that gives it back. Returns
    /// what the step did, or `None` if no step was done.
    fn at_give<Q: Query<K>, F: ComputeFn<K, V>>(
        &mut self,
        table: u8,
        party: &mut Party<Q, K, V, F, A>,
    ) -> Option<Event>
        requires { wanted_part party.old ≡ GivePart table }
        ensures { StepsOrStays Self.Room.place_gives K.cmp F.changes lends lacks self.old party.old
            result self.new party.new };
}

/// Does the next step of `party` over `field`, and returns what the step did. If the call is done, or the field does not pass the part,
/// returns `None`, and both are unchanged. It drops first what the step before left behind, so that the field holds no lock then.
///
/// Takes as many steps as the call's step, and as many as the field needs to pass the part.
#[inline(always)]
pub fn act<
    Q: Query<K>,
    K: Ord + Drop,
    V: Drop,
    A: Allocator + Copy,
    F: ComputeFn<K, V>,
    X: Field<K, V, A>,
>(party: &mut Party<Q, K, V, F, A>, field: &mut X) -> Option<Event>
    ensures { ActsOrStays X.Room.place_gives K.cmp F.changes X.lends X.lacks field.old party.old
        result field.new party.new }
{
    party.release();
    match party.want() {
        Want::Control => field.at_control(party),
        Want::Look(table, index) => field.at_look(table, index, party),
        Want::Bin(table, index) => field.at_bin(table, index, party),
        Want::Move(table, index) => field.at_move(table, index, party),
        Want::Seat(table) => field.at_seat(table, party),
        Want::Board(table) => field.at_board(table, party),
        Want::Give(table) => field.at_give(table, party),
        Want::Done => None,
    }
}

/// Does the steps of a call over a field until the call is done, takes its reply, and returns it. A step whose part the field does not give
/// is tried again, so a call whose part is never given does not return.
///
/// Takes as many steps as the call needs, and what the field takes to give the parts.
pub fn finish<
    Q: Query<K>,
    K: Ord + Drop,
    V: Drop,
    A: Allocator + Copy,
    F: ComputeFn<K, V>,
    X: Field<K, V, A>,
    R: Wait,
>(rt: &R, party: &mut Party<Q, K, V, F, A>, field: &mut X) -> Reply<K, V, A>
    requires { IsTaken party.old.stage → ⊥ }
    ensures { StepsToReply (FieldStep X.Room.place_gives K.cmp F.changes X.lends) field.old party.old
        (outcome_of result) field.new party.new }
{
    for _ in rt.forever() {
        if act(party, field).is_some() {
            continue;
        }
        if let Some(reply) = party.take_reply() {
            return reply;
        }
    }
    unreachable!()
}
