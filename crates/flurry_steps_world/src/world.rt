//! A world: calls on a map, whose steps come in any order.
ghost use Rattle.std.specs.Prelude.{◌≡◌, ◌<◌, length, pos, slice_get, None, All, OnOk, OnErr, IfOk, IfSome};
ghost use Rattle.std.specs.Vec.{vec_len, vec_capacity};
ghost use Rattle.flurry_steps_stages.specs.CallView.{OwnedIsReady};
ghost use Rattle.flurry_steps_world.specs.Lawful.{IsLawful};
ghost use Rattle.flurry_steps_world.specs.Runs.{DoesStep, Drops, NewGives, Runs, RunsFront, StepIsReady, begun_with};
ghost use Rattle.flurry_steps_world.specs.Steps.{WorldStep, WorldLoses, fresh_world};
ghost use Rattle.flurry_steps_world.specs.World.{DoesTransition, IsWorld, IsBounded, seen_in};
ghost use Rattle.flurry_base.specs.declared.sizes.TheConstants.{MAX_LABELS};

use crate::parts::Parts;
use crate::party_record::{PartyRecord, hash_for, plain_of_owned};
use crate::step::step_party;
use flurry_base::hash::KeyHasher;
pub use flurry_base::sizes::MAX_LABELS;
use flurry_bins_slots::ComputeFn;
use flurry_steps::Party;
use flurry_steps::party::OwnedCall;
use flurry_steps_control::wanted_table;
use flurry_steps_sweep::Seen;
use flurry_steps_theory::Label;
use std::alloc::{AllocError, Allocator, Global};
use std::marker::Model;

/// One step of a list that a world runs.
///
/// ```
/// let mut steps = Vec::new(alloc);
/// steps.push(Step::Begin(OwnedCall::Insert(7, 70)))?;
/// steps.push(Step::Step(0))?;
/// world.run(steps)
/// ```
#[derive(Clone, Copy, Debug)]
pub enum Step<K, V, F> {
    /// The start of a call.
    Begin(OwnedCall<K, V, F>),
    /// The start of a removal of the pair that the party of this number has read last. Nothing starts if the party has read nothing.
    Drop(usize),
    /// The next step of the party of this number.
    Step(usize),
    /// The loss of an attempt of the party of this number, which is no step of it.
    Lose(usize),
}

/// A map and any number of calls on it. Each call is a party, whose steps are done one at a time, in the order that the owner of the
/// world gives. Any party may be left unfinished for good.
///
/// Keys, values and functions are `Copy`, since the labels keep the calls. Contracts see a world as plain data (`specs/World.antt`): its
/// hasher and processors, the table that it started with, the control, the tables, the calls and the labels. Whichever steps a world ran,
/// its labels are lawful, as [`World::trace`] says.
///
/// ```
/// let mut world: World<'_, u64, u64, F, LowHashBuilder> = World::new(
///     alloc,
///     8,
///     LowHashBuilder,
///     1,
/// )?;
/// let party = world.begin(OwnedCall::Insert(key, value))?;
/// for _ in 0..4u32 {
///     world.step(party)?;
/// }
/// Ok(world.trace().len())
/// ```
pub struct World<
    'k,
    K: Ord + Copy,
    V: Copy,
    F: ComputeFn<K, V> + Copy,
    S: KeyHasher<K>,
    A: Allocator + Copy = Global,
> {
    hasher: S,
    processors: usize,
    first: Option<u8>,
    parts: Parts<K, V, A>,
    party_records: Vec<PartyRecord<'k, K, V, F, A>, A>,
    trace: Vec<Label<K, V, F>, A>,
}

// By hand and not derived: so a function that owns a world calls this, and is not proved to drop each part of the world.
impl<
    'k,
    K: Ord + Copy + Drop,
    V: Copy + Drop,
    F: ComputeFn<K, V> + Copy,
    S: KeyHasher<K> + Drop,
    A: Allocator + Copy,
> Drop for World<'k, K, V, F, S, A> {
    fn drop(self) {
        let World {
            hasher: _hasher,
            processors: _,
            first: _,
            parts: _parts,
            party_records: _party_records,
            trace: _trace,
        } = self;
    }
}

impl<
    'k,
    K: Ord + Copy,
    V: Copy,
    F: ComputeFn<K, V> + Copy,
    S: KeyHasher<K>,
    A: Allocator + Copy,
> Model for World<'k, K, V, F, S, A> {
    ghost use Rattle.flurry_steps_world.specs.World.{WorldState, IsBounded};
    ghost use Rattle.flurry_steps_world.specs.WorldView.{world_state_of};

    ghost Value = { WorldState K V F S };

    ghost view = { world_state_of };

    ghost invariant = { λ w. IsBounded K.cmp (S.hash_of w.hasher) F.changes (world_state_of w) };
}

impl<
    'k,
    K: Ord + Copy + Drop,
    V: Copy + Drop,
    F: ComputeFn<K, V> + Copy,
    S: KeyHasher<K> + Drop,
    A: Allocator + Copy,
> World<'k, K, V, F, S, A> {
    /// Creates a world in which no call has begun, for `capacity` pairs.
    ///
    /// With a capacity of 0 the world has no table, and otherwise it has a table of as many bins as a map of that capacity. `processors`
    /// is the number of processors that share the work of a growth; `0` counts as 1.
    ///
    /// Linear in the number of bins.
    ///
    /// # Errors
    ///
    /// Returns [`AllocError`] if memory for the table, or for the places of tables, cannot be allocated.
    pub fn new(alloc: A, capacity: usize, hasher: S, processors: usize) -> Result<Self, AllocError>
        ensures { IfOk result (NewGives capacity hasher processors) }
    {
        let mut parts = Parts::new(alloc)?;
        if capacity == 0 {
            return Ok(World::of(alloc, hasher, processors, None, parts));
        }
        let first = parts.open(wanted_table(capacity))?;
        Ok(World::of(alloc, hasher, processors, Some(first), parts))
    }

    // Creates a world in which no call has begun, and which starts with the table `first`.
    fn of(alloc: A, hasher: S, processors: usize, first: Option<u8>, parts: Parts<K, V, A>) -> Self
        requires control_state { parts.control_state ≡ record { published = first; growth = None; count = pos 0 } }
        requires world { IsBounded K.cmp (S.hash_of hasher) F.changes
            (fresh_world {K = K} {V = V} {F = F} hasher processors first parts.tables) }
        ensures { result ≡ fresh_world hasher processors first parts.tables }
    {
        World {
            hasher,
            processors,
            first,
            parts,
            party_records: Vec::new(alloc),
            trace: Vec::new(alloc),
        }
    }

    /// Begins a call, and returns the number of its party. Parties are numbered from 0 in the order in which they begin. The call has
    /// done no step yet.
    ///
    /// Constant time and at most one hash of a key, except for growing the lists of parties and labels.
    ///
    /// # Errors
    ///
    /// Returns [`AllocError`] if memory for the party or its label cannot be allocated, or if the world has [`MAX_LABELS`] labels. The
    /// world is unchanged, and the call is dropped.
    pub fn begin(&mut self, call: OwnedCall<K, V, F>) -> Result<usize, AllocError>
        requires { OwnedIsReady F.can_change F.never_keeps call }
        ensures party { IfOk result (λ p. p ≡ length self.old.party_records) }
        ensures ok { OnOk result (self.new ≡ begun_with (S.hash_of self.old.hasher) self.old call) }
        ensures transition { IfOk result
            (λ p. DoesTransition K.cmp (S.hash_of self.old.hasher) F.changes self.old p self.new) }
        ensures err { OnErr result (self.new ≡ self.old) }
    {
        make_room(&mut self.trace)?;
        make_room(&mut self.party_records)?;
        let party = self.party_records.len();
        let hash = hash_for(&self.hasher, &call);
        let kept = plain_of_owned(call);
        self.party_records.push_reserved(PartyRecord {
            call: kept,
            began_from: None,
            party: Party::from_owned(call, hash, self.processors),
            steps: 0,
        });
        self.trace.push_reserved(Label::Begin(party, kept));
        Ok(party)
    }

    /// Begins a removal of the pair that the walk of party `walk` has read last, and returns the number of the removal's party.
    ///
    /// The removal removes the pair if and only if its value is still as it was read. If party `walk` is no walk, or has read nothing, no
    /// removal begins, `None` is returned, and the world is unchanged.
    ///
    /// Constant time and one hash of a key, except for growing the lists of parties and labels.
    ///
    /// # Errors
    ///
    /// Returns [`AllocError`] if memory for the party or its label cannot be allocated, if cloning the `Arc`s of the pair fails, or if
    /// the world has [`MAX_LABELS`] labels. The world is unchanged.
    pub fn begin_remove_seen(&mut self, walk: usize) -> Result<Option<usize>, AllocError>
        ensures ok { IfOk result (λ p. Drops (S.hash_of self.old.hasher) self.old walk p self.new) }
        ensures transition { IfOk result (λ p. IfSome p
            (λ q. DoesTransition K.cmp (S.hash_of self.old.hasher) F.changes self.old q self.new)) }
        ensures err { OnErr result (self.new ≡ self.old) }
    {
        let Some(seen) = self.last_seen(walk)? else {
            return Ok(None);
        };
        make_room(&mut self.trace)?;
        make_room(&mut self.party_records)?;
        let party = self.party_records.len();
        let hash = self.hasher.hash_one(seen.key());
        let party_record = PartyRecord::of_seen(seen, walk, hash, self.processors);
        let removal = party_record.call;
        self.party_records.push_reserved(party_record);
        self.trace.push_reserved(Label::Begin(party, removal));
        Ok(Some(party))
    }

    // What the party of number `party` has read last, or `None` if it has read nothing or never began.
    fn last_seen(&self, party: usize) -> Result<Option<Seen<K, V, A>>, AllocError>
        ensures { IfOk result (λ z. z ≡ seen_in (slice_get self.now.party_records party)) }
    {
        if party < self.party_records.len() {
            return self.party_records[party].party.seen();
        }
        Ok(None)
    }

    /// Does one step of the party of number `party`, and adds its label. A party that has finished or never began does nothing, and its
    /// label is silent.
    ///
    /// Takes as many steps as the party's step, which at most makes a table, moves a bin or looks into one.
    ///
    /// # Errors
    ///
    /// Returns [`AllocError`] if memory for the label cannot be allocated, or if the world has [`MAX_LABELS`] labels. The world is
    /// unchanged.
    ///
    /// If memory that the step itself needs cannot be allocated, this is no error of this function: the step is done, and its label or
    /// later labels of the party say so.
    pub fn step(&mut self, party: usize) -> Result<(), AllocError>
        ensures ok { OnOk result (WorldStep K.cmp F.changes self.old party self.new) }
        ensures transition { OnOk result
            (DoesTransition K.cmp (S.hash_of self.old.hasher) F.changes self.old party self.new) }
        ensures err { OnErr result (self.new ≡ self.old) }
    {
        make_room(&mut self.trace)?;
        if party >= self.party_records.len() {
            self.trace.push_reserved(Label::Silent(party));
            return Ok(());
        }
        let party_record = &mut self.party_records[party];
        party_record.steps += 1;
        let label = step_party(party, &mut party_record.party, &mut self.parts);
        self.trace.push_reserved(label);
        Ok(())
    }

    /// Makes the party of number `party` lose, as if others had been faster, and adds a silent label. If it is to take a seat at the board
    /// of a growth, none is left for it, and it does not help. If it is to claim a range of bins there, the attempt is lost, and it tries
    /// again. Any other party is unchanged, also one that has finished or never began. A loss is no step of the party.
    ///
    /// Constant time, except for growing the list of labels.
    ///
    /// # Errors
    ///
    /// Returns [`AllocError`] if memory for the label cannot be allocated, or if the world has [`MAX_LABELS`] labels. The world is
    /// unchanged.
    pub fn lose(&mut self, party: usize) -> Result<(), AllocError>
        ensures ok { OnOk result (WorldLoses self.old party self.new) }
        ensures transition { OnOk result
            (DoesTransition K.cmp (S.hash_of self.old.hasher) F.changes self.old party self.new) }
        ensures err { OnErr result (self.new ≡ self.old) }
    {
        make_room(&mut self.trace)?;
        self.trace.push_reserved(Label::Silent(party));
        if self.party_records.len() <= party {
            return Ok(());
        }
        let party_record = &mut self.party_records[party];
        party_record.party.lose();
        Ok(())
    }

    /// Does the steps of the list `steps`, one after another. [`World::trace`] then returns their labels too.
    ///
    /// Takes as many steps as the steps of the list take.
    ///
    /// # Errors
    ///
    /// Returns [`AllocError`] if memory for a party or a label cannot be allocated, if cloning the `Arc`s of a pair fails, or if the
    /// world has [`MAX_LABELS`] labels. Then the steps before the one that failed have been done, and the world is as it was after the
    /// last of their labels.
    pub fn run(&mut self, steps: Vec<Step<K, V, F>, A>) -> Result<(), AllocError>
        requires { All (StepIsReady F.can_change F.never_keeps) steps.items }
        ensures ok { OnOk result (Runs K.cmp (S.hash_of self.old.hasher) F.changes steps.items self.old self.new) }
        ensures lawful { OnOk result (IsLawful K.cmp (S.hash_of self.old.hasher) F.changes self.new) }
        ensures err { OnErr result
            (RunsFront K.cmp (S.hash_of self.old.hasher) F.changes steps.items self.old self.new) }
    {
        for step in steps {
            self.do_step(step)?;
        }
        // Here the proof learns that the labels are lawful.
        let _ = self.trace();
        Ok(())
    }

    fn do_step(&mut self, step: Step<K, V, F>) -> Result<(), AllocError>
        requires { StepIsReady F.can_change F.never_keeps step }
        ensures ok { OnOk result (DoesStep K.cmp (S.hash_of self.old.hasher) F.changes step self.old self.new) }
        ensures hasher { self.new.hasher ≡ self.old.hasher }
        ensures err { OnErr result (self.new ≡ self.old) }
    {
        match step {
            Step::Begin(call) => {
                self.begin(call)?;
                Ok(())
            }
            Step::Drop(walk) => {
                self.begin_remove_seen(walk)?;
                Ok(())
            }
            Step::Step(party) => self.step(party),
            Step::Lose(party) => self.lose(party),
        }
    }

    /// Returns the labels since the world was created, the oldest first. They are lawful.
    ///
    /// Constant time.
    pub fn trace(&self) -> &[Label<K, V, F>]
        ensures labels { result.now ≡ self.now.trace }
        ensures lawful { IsLawful K.cmp (S.hash_of self.now.hasher) F.changes self.now }
        ensures world { IsWorld K.cmp (S.hash_of self.now.hasher) F.changes self.now }
    {
        self.trace.as_slice()
    }
}

// Makes room for one more item in a list that has fewer than `MAX_LABELS` items.
fn make_room<T, A: Allocator>(list: &mut Vec<T, A>) -> Result<(), AllocError>
    ensures same { list.new.items ≡ list.old.items }
    ensures few { OnOk result (length list.new.items < MAX_LABELS) }
    ensures room { OnOk result (vec_len list.new < vec_capacity list.new) }
{
    if list.len() >= MAX_LABELS {
        return Err(AllocError);
    }
    list.reserve(1)
}
