//! A lock field, which takes the locks of a shared map for the steps of a thread's calls.
ghost use Rattle.std.specs.Prelude.{◌≡◌};
ghost use Rattle.flurry_steps_sweep.specs.Part.{ControlPart, LookPart};
ghost use Rattle.flurry_steps_sweep.specs.Sweep.{swept_part};
ghost use Rattle.flurry_shared_locks.specs.WalkSteps.{WalkStep, WalksOrStays};

use crate::locks::Locks;
use flurry_bins_slots::Slot;
use flurry_steps::party::{Event, Want};
use flurry_steps_control::{PublishedTable, Tally};
use flurry_steps_sweep::Sweep;
use std::alloc::{Allocator, Global};
use std::sync::{Mutex, RwLock, Wait};

/// A handle that gives the parts of a shared map, each under its lock. It does the steps of a walk itself; a
/// [`CallField`](crate::CallField) made of it does those of the other calls.
///
/// ```
/// let lock_field = LockField::new(rt, locks);
/// lock_field.newest().map(|start| start.table())
/// ```
#[derive(Drop)]
pub struct LockField<'m, R, K: Ord, V, A: Allocator = Global> {
    pub(crate) rt: &'m R,
    pub(crate) locks: &'m Locks<K, V, A>,
}

impl<'m, R, K: Ord, V, A: Allocator> LockField<'m, R, K, V, A> {
    /// Creates a lock field that takes `locks`, and waits for them by the runtime `rt`. Constant time.
    // The parts under the locks are known by their types alone, so no contract specifies them.
    pub fn new(rt: &'m R, locks: &'m Locks<K, V, A>) -> Self {
        LockField { rt, locks }
    }

    /// Returns another lock field for the same locks. Constant time.
    pub fn reborrow(&self) -> Self {
        LockField {
            rt: self.rt,
            locks: self.locks,
        }
    }

    /// Returns the runtime by which the lock field waits. Constant time.
    pub fn runtime(&self) -> &'m R {
        self.rt
    }

    /// Returns the allocator of the tables and the pairs. Constant time.
    pub fn allocator(&self) -> A
    where
        A: Copy,
    {
        self.locks.alloc
    }

    /// Returns the exponent of the table that was published last, as far as that is known without the control's lock, or `None` if no table
    /// is known. Constant time.
    pub fn newest(&self) -> Option<&PublishedTable> {
        self.locks.published_tables.newest()
    }

    /// Returns the tally where a call with the hash `hash` counts a pair, and how many pairs may wait there before a call that inserted one
    /// looks at the control's count. Returns `None` if calls count at the control: if the table is small, and as long as a growth is due.
    /// Constant time.
    pub fn tally(&self, hash: u64) -> Option<(&Mutex<Tally>, i64)> {
        self.locks
            .control
            .tally(hash, self.locks.published_tables.newest())
    }

    /// Returns the lock of the slot at `table` and `index`, or `None` if that table was not made or has no such slot. Whoever takes the
    /// lock must hold no lock of a slot of a greater table or index, and must not wait for the control's lock while holding it. Constant
    /// time.
    pub fn slot(&self, table: u8, index: usize) -> Option<&RwLock<Slot<K, V, A>>> {
        self.locks.tables.lock_of(table, index)
    }
}

impl<'m, R: Wait, K: Ord, V, A: Allocator> LockField<'m, R, K, V, A> {
    /// Returns the number of pairs, counted at one moment during the call. Takes the control's lock, then the lock of each tally in turn.
    pub fn len(&self) -> usize {
        self.locks.control.lock(self.rt).len()
    }

    /// Adds `pairs` to the count of pairs, for pairs that come into the slots without being counted. Takes the control's lock, then the
    /// lock of each tally in turn.
    pub fn count(&self, pairs: i64) {
        self.locks.control.lock(self.rt).count(pairs);
    }
}

impl<'m, R: Wait, K: Ord + Drop, V: Drop, A: Allocator> LockField<'m, R, K, V, A> {
    /// Does the next step of `walk` with the part that it needs, under that part's lock, and returns what the step was. If the walk is
    /// done, or a slot is not there, it returns `None`, and the walk is unchanged. The steps are those of a party that is a walk; a walk on
    /// its own names no type of function.
    ///
    /// Costs a look-up in the bin, once its lock is taken.
    pub fn step_walk(&self, walk: &mut Sweep<K, V, A>) -> Option<Event>
        ensures { WalksOrStays K.cmp walk.old result walk.new }
    {
        walk.release();
        match walk.want() {
            Want::Control => Some(self.walk_at_control(walk)),
            Want::Look(table, index) => self.walk_at_slot(table, index, walk),
            _ => None,
        }
    }

    // Does the next step of `walk` at the table that was published last, or else at the control.
    fn walk_at_control(&self, walk: &mut Sweep<K, V, A>) -> Event
        requires { swept_part walk.old ≡ ControlPart }
        ensures { WalkStep K.cmp walk.old result walk.new }
    {
        if walk.is_at_start() {
            if let Some(start) = self.locks.published_tables.newest() {
                return walk.on_published(start);
            }
        }
        walk.on_control(&mut *self.locks.control.lock(self.rt))
    }

    // Does the next step of `walk` at the slot at `table` and `index`. Returns `None` if the slot is not there.
    fn walk_at_slot(&self, table: u8, index: usize, walk: &mut Sweep<K, V, A>) -> Option<Event>
        requires { swept_part walk.old ≡ LookPart table index }
        ensures { WalksOrStays K.cmp walk.old result walk.new }
    {
        let slot = self.locks.tables.lock_of(table, index)?.read(self.rt);
        if slot.at() != (table, index) {
            return None;
        }
        Some(walk.on_look(&*slot))
    }
}
