//! A walk or a clear, as a machine each of whose steps needs one part of the map.
ghost use Rattle.std.specs.Prelude.{◌≡◌, ◌≤◌, IsSome, IfNone, IfSome, IfOk, OnErr, true};
ghost use Rattle.std.specs.Option.{option_map, option_copied};
ghost use Rattle.flurry_base.specs.declared.sizes.TheConstants.{MAX_TABLE};
ghost use Rattle.flurry_bins_slots.specs.Slot.{IsSlot};
ghost use Rattle.flurry_steps_sweep.specs.Part.{ControlPart, LookPart, BinPart};
ghost use Rattle.flurry_steps_sweep.specs.OutcomeView.{outcome_of};
ghost use Rattle.flurry_steps_sweep.specs.PartView.{part_of_want};
ghost use Rattle.flurry_steps_sweep.specs.Sweep.{Reads, Wipes, AtEnd, AfterEnd, OverBins, fresh_sweep, with_stage, pair_seen, swept_part, swept_outcome, is_at_start, start_stage_at, SweepControl, SweepStep};
ghost use Rattle.flurry_steps_sweep.specs.SweepView.{stage_of};
ghost use Rattle.flurry_steps_sweep.specs.Cursor.{at_base};

mod at_bin;

use crate::cursor::Cursor;
use crate::reply::Reply;
use crate::seen::Seen;
use crate::step::{Event, Want};
use at_bin::{step_clear, step_walk};
use flurry_bins::bin::BoxedNode;
use flurry_bins_slots::Slot;
use flurry_steps_control::{Control, PublishedTable};
use std::alloc::{AllocError, Allocator, Global};
use std::marker::Model;
use std::mem;

// The greatest number of pairs that one count takes away.
const MAX_COUNTED: usize = i64::MAX as usize;

/// What a sweep does at each bin.
#[derive(Clone, Copy, Drop)]
pub(crate) enum SweepKind {
    /// A walk, which reads the pairs.
    Read,
    /// A clear, which removes the pairs, with the number of pairs that it has removed.
    Wipe(usize),
}

/// The stage of a sweep.
#[derive(Drop)]
pub(crate) enum Stage<K, V, A: Allocator> {
    /// Asking for the published table.
    Start,
    /// Visiting the bins; the cursor is at the next one.
    Bins(Cursor<K, A>),
    /// Counting the pairs that the clear removed.
    Total,
    /// The end, with a reply that has not been taken yet, and the cursor, so that nothing of it is dropped while its last bin is locked.
    End(Reply<K, V, A>, Option<Cursor<K, A>>),
    /// The end, after the reply was taken.
    Taken,
}

/// A walk or a clear of a shared map in progress.
///
/// It starts at the table that is published at its first step, and visits the bins of that table one after another. If a bin has moved
/// meanwhile, it visits the two halves of the bin in the next table instead. So it visits each hash once, whichever steps of other calls
/// come in between. It advances only by its steps, each of which takes the part that [`Sweep::want`] returns.
///
/// ```
/// let mut walk: Sweep<u64, u64> = Sweep::walk();
/// let _ = walk.on_control(&mut Control::new());
/// let has_ended = walk.reply().is_some();
/// drop(walk);
/// has_ended
/// ```
#[derive(Drop)]
pub struct Sweep<K, V, A: Allocator = Global> {
    kind: SweepKind,
    // A stage is set by `mem::replace`, and the stage before is passed to `drop`: for an assignment the proof would go through everything
    // that a stage can hold.
    stage: Stage<K, V, A>,
    last: Option<Seen<K, V, A>>,
    // What the last step left behind, which no contract sees. It is kept until no lock is held.
    spent: Spent<K, V, A>,
}

/// What a step of a sweep leaves behind.
#[derive(Drop)]
pub(crate) struct Spent<K, V, A: Allocator> {
    /// The pair that the walk had read before.
    seen: Option<Seen<K, V, A>>,
    /// The nodes that the clear removed.
    nodes: Option<BoxedNode<K, V, A>>,
}

impl<K, V, A: Allocator> Spent<K, V, A> {
    fn new() -> Self {
        Spent {
            seen: None,
            nodes: None,
        }
    }
}

impl<K, V, A: Allocator> Model for Sweep<K, V, A> {
    ghost use Rattle.flurry_steps_sweep.specs.Sweep.{SweepState, SweepIsReady};
    ghost use Rattle.flurry_steps_sweep.specs.SweepView.{sweep_state_of, kind_of, stage_of};

    ghost Value = { SweepState K V };

    ghost view = { sweep_state_of };

    ghost invariant = { λ s. SweepIsReady (kind_of s.kind) (stage_of s.stage) };
}

impl<K: Drop, V: Drop, A: Allocator> Sweep<K, V, A> {
    /// Creates a walk, which is to read all pairs, at most one in each step. It has done no step yet.
    ///
    /// Constant time. Takes no memory.
    pub fn walk() -> Self
        ensures { result ≡ fresh_sweep Reads }
    {
        Sweep {
            kind: SweepKind::Read,
            stage: Stage::Start,
            last: None,
            spent: Spent::new(),
        }
    }

    /// Creates a clear, which is to empty all bins, at most one in each step. It has done no step yet.
    ///
    /// Constant time. Takes no memory.
    pub fn clear() -> Self
        ensures { result ≡ fresh_sweep (Wipes 0) }
    {
        Sweep {
            kind: SweepKind::Wipe(0),
            stage: Stage::Start,
            last: None,
            spent: Spent::new(),
        }
    }

    /// Drops what the last step left behind: the pairs that a clear removed, or the pair that a walk had read before. Whoever gives the
    /// sweep its parts under locks calls this while it holds none.
    ///
    /// Linear in the number of pairs that the last step removed.
    pub fn release(&mut self)
        ensures { self.new ≡ self.old }
    {
        drop(mem::take(&mut self.spent.seen));
        drop(mem::take(&mut self.spent.nodes));
        if let Stage::Bins(cursor) = &mut self.stage {
            cursor.release();
        }
    }

    /// Returns the part of the map that the next step needs.
    ///
    /// Constant time.
    pub fn want(&self) -> Want
        ensures { part_of_want result ≡ swept_part self.now }
    {
        match &self.stage {
            Stage::Bins(cursor) => {
                let (table, index) = cursor.at();
                match self.kind {
                    SweepKind::Read => Want::Look(table, index),
                    SweepKind::Wipe(_) => Want::Bin(table, index),
                }
            }
            Stage::End(_, _) | Stage::Taken => Want::Done,
            _ => Want::Control,
        }
    }

    /// Returns the reply of a call that has ended, until it is taken. Otherwise returns `None`.
    ///
    /// Constant time.
    pub fn reply(&self) -> Option<&Reply<K, V, A>>
        ensures { option_map outcome_of (option_copied result) ≡ swept_outcome self.now.stage }
    {
        match &self.stage {
            Stage::End(ended, _) => Some(ended),
            _ => None,
        }
    }

    /// Takes the reply of a call that has ended. Returns `None` if and only if the call has not ended, or its reply was taken before; the
    /// call is then unchanged.
    ///
    /// Constant time.
    pub fn take_reply(&mut self) -> Option<Reply<K, V, A>>
        ensures value { option_map outcome_of result ≡ swept_outcome self.old.stage }
        ensures none { IfNone result (self.new ≡ self.old) }
        ensures some { IfSome result (λ _. self.new ≡ with_stage self.old AfterEnd) }
    {
        match mem::replace(&mut self.stage, Stage::Taken) {
            Stage::End(reply, cursor) => {
                drop(cursor);
                Some(reply)
            }
            other => {
                drop(mem::replace(&mut self.stage, other));
                None
            }
        }
    }

    /// Returns the pair that a walk has read last, also after the walk has ended. Returns `None` for a clear, and before the first read.
    ///
    /// Constant time.
    pub fn last_read(&self) -> Option<(&K, &V)>
        ensures { option_map (λ p. (p.0.now, p.1.now)) result ≡ option_map pair_seen self.now.last }
    {
        match &self.last {
            Some(seen) => Some((seen.key(), seen.value())),
            None => None,
        }
    }

    /// Returns the pair that a walk has read last, with the write number of its value. Returns `None` for a clear, and before the first
    /// read.
    ///
    /// Constant time. Takes no memory except for clones of the `Arc`s of the key and the value.
    ///
    /// # Errors
    ///
    /// Returns [`AllocError`] if cloning one of these `Arc`s fails.
    pub fn seen(&self) -> Result<Option<Seen<K, V, A>>, AllocError>
        ensures ok { IfOk result (λ s. s ≡ self.now.last) }
        ensures err { OnErr result (IsSome self.now.last) }
    {
        match &self.last {
            Some(seen) => Ok(Some(seen.try_clone()?)),
            None => Ok(None),
        }
    }

    /// Does the step at the control: the first step, or the last step of a clear, which counts the pairs that it removed.
    ///
    /// Constant time.
    pub fn on_control(&mut self, control: &mut Control) -> Event
        requires { swept_part self.old ≡ ControlPart }
        ensures { SweepControl self.old control.old result self.new control.new }
    {
        let stage = match (&self.stage, self.kind) {
            (Stage::Start, _) => start_stage(control.locate()),
            (Stage::Total, SweepKind::Wipe(pairs)) => {
                let _advice = control.count(-(pairs.min(MAX_COUNTED) as i64));
                Stage::End(Reply::Ended, None)
            }
            _ => unreachable!(),
        };
        drop(mem::replace(&mut self.stage, stage));
        Event::Silent
    }

    /// Returns `true` if the next step only asks the control for the published table.
    ///
    /// Constant time.
    pub fn is_at_start(&self) -> bool
        ensures { result ≡ is_at_start self.now.stage }
    {
        matches!(self.stage, Stage::Start)
    }

    /// Does the step that asks for the published table, at the published table `start` instead of the control. The call goes on to the
    /// first bin of that table.
    ///
    /// Constant time.
    pub fn on_published(&mut self, start: &PublishedTable) -> Event
        requires { is_at_start self.old.stage ≡ true }
        ensures within { start.now ≤ MAX_TABLE }
        ensures silent { result ≡ Event.Silent }
        ensures at { self.new ≡ with_stage self.old (OverBins (at_base start.now 0)) }
    {
        let stage = Stage::Bins(Cursor::new(start.table()));
        drop(mem::replace(&mut self.stage, stage));
        Event::Silent
    }
}

impl<K: Ord + Drop, V: Drop, A: Allocator> Sweep<K, V, A> {
    /// Does the step of a walk at its slot.
    ///
    /// Takes as many steps as a look-up in the bin. Takes no memory except for clones of the `Arc`s of a key and a value. If cloning one
    /// of them fails, returns [`Event::Refused`]; the walk has then ended, and what it read before remains.
    pub fn on_look(&mut self, slot: &Slot<K, V, A>) -> Event
        requires { swept_part self.old ≡ LookPart slot.now.table slot.now.index }
        ensures within { IsSlot K.cmp slot.now }
        ensures step { SweepStep K.cmp self.old slot.now result self.new slot.now }
    {
        let Stage::Bins(cursor) = &mut self.stage else {
            unreachable!()
        };
        let (reply, event, seen) = step_walk(cursor, &mut self.last, slot);
        drop(mem::replace(&mut self.spent.seen, seen));
        if let Some(reply) = reply {
            let stage = mem::replace(&mut self.stage, Stage::Taken);
            drop(mem::replace(&mut self.stage, stage.end(reply)));
        }
        event
    }

    /// Does the step of a clear at its slot. What it removes is dropped by [`release`](Self::release).
    ///
    /// Constant time. Takes no memory, and never fails.
    pub fn on_bin(&mut self, slot: &mut Slot<K, V, A>) -> Event
        requires { swept_part self.old ≡ BinPart slot.old.table slot.old.index }
        ensures within { IsSlot K.cmp slot.old }
        ensures step { SweepStep K.cmp self.old slot.old result self.new slot.new }
    {
        let Stage::Bins(cursor) = &mut self.stage else {
            unreachable!()
        };
        let SweepKind::Wipe(wiped) = &mut self.kind else {
            unreachable!()
        };
        let (goes_on, event, nodes) = step_clear(cursor, wiped, slot);
        drop(mem::replace(&mut self.spent.nodes, nodes));
        if !goes_on {
            drop(mem::replace(&mut self.stage, Stage::Total));
        }
        event
    }
}

// The stage at the first bin of the published table, or the end of the call if there is no such table.
fn start_stage<K: Drop, V: Drop, A: Allocator>(published: Option<u8>) -> Stage<K, V, A>
    requires { IfSome published (λ e. e ≤ MAX_TABLE) }
    ensures { stage_of result ≡ start_stage_at published }
{
    match published {
        Some(table) => Stage::Bins(Cursor::new(table)),
        None => Stage::End(Reply::Ended, None),
    }
}

impl<K: Drop, V: Drop, A: Allocator> Stage<K, V, A> {
    // The end of a walk at a bin, with a reply.
    fn end(self, reply: Reply<K, V, A>) -> Self
        ensures { stage_of result ≡ AtEnd (outcome_of reply) }
    {
        match self {
            Stage::Bins(cursor) => Stage::End(reply, Some(cursor)),
            _ => Stage::End(reply, None),
        }
    }
}
