//! A slot of a table, which is the place of one bin, and the steps that are done at one slot.
ghost use Rattle.std.specs.Prelude.{◌≡◌, ℕ, ◌+◌, ◌^◌, ◌<◌, ◌≤◌, ◌⊎◌, ⊤, length, map, IfErr, IfNone, IfOk, IfSome, OnErr, OnOk, IsTrue, true, false, ◌↔◌};
ghost use Rattle.std.specs.Option.{option_map};
ghost use Rattle.std.specs.Arc.{arc_value};
ghost use Rattle.flurry_bins.specs.Bin.{entries_of_bin};
ghost use Rattle.flurry_bins.specs.Entries.{lent_bound};
ghost use Rattle.flurry_base.specs.Greatest.{greatest};
ghost use Rattle.flurry_base.specs.Given.{given_of, IsNotInserted};
ghost use Rattle.flurry_bins_insertion.specs.Inserted.{IfReplaced};
ghost use Rattle.flurry_bins_slots.specs.LiveView.{live_of, view_of_inserted, view_of_added, IfPresent, outcome, IfAbsent, IsLeftOf, alteration, alteration_if_present, key_back};
ghost use Rattle.flurry_bins.specs.PlainEntries.{numbered_pair, numbered_pairs};
ghost use Rattle.flurry_bins.specs.PlainEntries.{AllInRegion};
ghost use Rattle.flurry_bins_slots.specs.Slot.{SlotState, IsLive, HasMoved, IsUnborn, IsSlot, LiesInBin, IfLive, is_live, slot_with, entry_of_live, next_of_live, after_write, write_reply, after_add, add_reply, after_take, after_take_if, take_if_reply, after_wipe, Computes, ComputesInVain, Alters, JudgesAt, HasMovedInto, Clashes};
ghost use Rattle.flurry_bins_slots.specs.SlotView.{place_of, answer_with, answer_map, IfHere, IfAway, IsAway, IfDone, IfAlready, IfClash, IfNotDone};
ghost use Rattle.flurry_base.specs.declared.verdict.Verdict.TheVariants.{Set};
ghost use Rattle.flurry_base.specs.declared.sizes.TheConstants.{MAX_TABLE};

use crate::clones::{CloneProbe, NotClone};
use crate::compute_fn::ComputeFn;
use crate::live::{Added, Altered, Computed, LiveBin};
use flurry_base::query::Query;
use flurry_bins::bin::{Bin, Entry, Given, NotInserted, Ordered};
use flurry_bins_insertion::table::Inserted;
use std::alloc::{Allocator, Global};
use std::marker::Model;
use std::mem;
use std::sync::Arc;

/// What a step at a slot returns.
///
/// ```
/// match answer {
///     Answer::Here(Inserted::Replaced(replaced)) => Some(*replaced.old),
///     _ => None,
/// }
/// ```
#[derive(Drop)]
pub enum Answer<T, B> {
    /// The bin is live. The step was done there, and returned this.
    Here(T),
    /// The bin has moved to the next larger table. Nothing was changed, and what was passed in is given back.
    Moved(B),
    /// No bin is there yet. Nothing was changed, and what was passed in is given back.
    Unborn(B),
}

/// A note that the bin of a slot was moved. Only [`Slot::move_into`] makes one, and it cannot be cloned.
///
/// ```
/// match slot.move_into(low, high) {
///     MoveAnswer::Done(receipt) => Some(receipt.at()),
///     MoveAnswer::Already(receipt) => Some(receipt.at()),
///     MoveAnswer::Clash => None,
/// }
/// ```
#[derive(Drop)]
pub struct Receipt {
    at: (u8, usize),
}

impl Model for Receipt {
    ghost use Rattle.std.specs.Prelude.{ℕ};

    ghost Value = { ℕ × ℕ };

    ghost view = { λ r. r.at };
}

impl Receipt {
    /// Returns the table and the index of the slot.
    pub fn at(&self) -> (u8, usize)
        ensures { result ≡ self.now }
    {
        self.at
    }
}

// Returns `false`: a receipt cannot be cloned, so it is passed in once.
fn receipts_can_be_cloned() -> bool
    ensures { result ≡ false }
{
    CloneProbe::<Receipt>::is_there()
}

/// What [`Slot::move_into`] returns.
///
/// ```
/// match slot.move_into(low, high) {
///     MoveAnswer::Done(_) | MoveAnswer::Already(_) => true,
///     MoveAnswer::Clash => false,
/// }
/// ```
#[derive(Drop)]
pub enum MoveAnswer {
    /// The bin was moved.
    Done(Receipt),
    /// The bin had moved before.
    Already(Receipt),
    /// No bin is there yet; or a slot that was passed in is not the half that it should be, or already has a bin. Nothing was changed.
    Clash,
}

#[derive(Clone, Copy)]
enum State {
    Live,
    Moved,
    Unborn,
}

/// The place of one bin in a table of 2^table bins, with the count of the values that were written to the bin.
///
/// A written value gets, as its write number, the count after the write. The count goes along with a bin that moves. Once it is `u64::MAX`,
/// it stays so.
///
/// ```
/// match slot.next_after(None) {
///     Answer::Here(entry) => entry.map(|entry| *entry.value),
///     Answer::Moved(()) | Answer::Unborn(()) => None,
/// }
/// ```
#[derive(Drop)]
pub struct Slot<K: Ord, V, A: Allocator = Global> {
    // An index is below 2^30. In 32 bits it shares a word with the two bytes before it, so that a slot under its lock is as large as a
    // cache line.
    table: u8,
    state: State,
    index: u32,
    // Empty if no bin is live.
    live: LiveBin<K, V, A>,
}

impl<K: Ord, V, A: Allocator> Model for Slot<K, V, A> {
    ghost use Rattle.flurry_bins_slots.specs.Slot.{SlotState, IsSlot};
    ghost use Rattle.flurry_bins_slots.specs.SlotView.{place_of};

    ghost Value = { SlotState K V };

    ghost view = { place_of };

    ghost invariant = { λ s. IsSlot K.cmp (place_of s) };
}

impl<K: Ord + Drop, V: Drop, A: Allocator> Slot<K, V, A> {
    /// Creates the slot of a live bin whose hashes lie in the slot's region. The count of writes is the greatest write number in the bin,
    /// or 0 if the bin is empty. Linear in the number of entries.
    pub fn live(table: u8, index: usize, bin: Bin<K, V, A>) -> Self
        requires table { table ≤ MAX_TABLE }
        requires index { index < 2 ^ table }
        requires region { AllInRegion table index (entries_of_bin bin) }
        ensures { result ≡ record {
          table = table;
          index = index;
          content = IsLive
              (live_of bin (greatest (map (λ e. e.number) (entries_of_bin bin))));
        } }
    {
        let writes = bin.greatest_number();
        Slot::live_at(table, index, bin, writes)
    }

    /// Creates the slot of a live bin whose hashes lie in the slot's region. The count of writes is `writes`, which no write number in the
    /// bin exceeds. Constant time.
    pub fn live_at(table: u8, index: usize, bin: Bin<K, V, A>, writes: u64) -> Self
        requires table { table ≤ MAX_TABLE }
        requires index { index < 2 ^ table }
        requires region { AllInRegion table index (entries_of_bin bin) }
        requires count { greatest (map (λ e. e.number) (entries_of_bin bin)) ≤ writes }
        ensures { result ≡ record { table = table; index = index; content = IsLive (live_of bin writes) } }
    {
        Slot {
            table,
            state: State::Live,
            index: index as u32,
            live: LiveBin::new(bin, writes),
        }
    }

    /// Creates a slot that waits for its bin. Constant time.
    pub fn unborn(table: u8, index: usize) -> Self
        requires table { table ≤ MAX_TABLE }
        requires index { index < 2 ^ table }
        ensures { result ≡ record { table = table; index = index; content = IsUnborn } }
    {
        Slot {
            table,
            state: State::Unborn,
            index: index as u32,
            live: LiveBin::new(Bin::new(), 0),
        }
    }

    /// Returns the live bin, to be owned again, or `None` if the bin has moved or is not there yet. It is the inverse of [`Slot::live`].
    /// The entries keep their write numbers, and the count of writes is lost. Constant time.
    pub fn into_bin(self) -> Option<Bin<K, V, A>>
        ensures bin { IfSome result (λ b. IfLive self.content (λ d. live_of b d.writes ≡ d)) }
        ensures region { IfSome result (λ b. AllInRegion self.table self.index (entries_of_bin b)) }
        ensures none { IfNone result ((self.content ≡ HasMoved) ⊎ (self.content ≡ IsUnborn)) }
        ensures within { IsSlot K.cmp self }
    {
        match self.state {
            State::Live => Some(self.live.into_bin()),
            State::Moved | State::Unborn => None,
        }
    }

    /// Returns the exponent of the table, which has 2 to that power bins, and the index of the slot in it. Constant time.
    pub fn at(&self) -> (u8, usize)
        ensures at { (result.0 ≡ self.now.table) × (result.1 ≡ self.now.index) }
        ensures within { IsSlot K.cmp self.now }
    {
        (self.table, self.index as usize)
    }

    /// Returns `true` if a bin is live here. If not, the bin has moved, or no bin is there yet. Constant time.
    #[inline]
    pub fn is_live(&self) -> bool
        ensures { result ≡ is_live self.now.content }
    {
        matches!(self.state, State::Live)
    }

    /// Finds the entry of a hash and a key, if there is one. As many steps as a look-up in the bin.
    pub fn find<Q: Query<K>>(&self, hash: u64, key: Q) -> Answer<Option<&Entry<K, V, A>>, ()>
        requires { LiesInBin hash self.now }
        ensures reply { answer_map (option_map (λ e. numbered_pair e.now)) result
            ≡ answer_with self.now.content (λ b. entry_of_live K.cmp b hash (Q.stands_for key)) tt }
        ensures within { IsSlot K.cmp self.now }
    {
        match self.state {
            State::Live => Answer::Here(self.live.find(hash, key)),
            State::Moved => Answer::Moved(()),
            State::Unborn => Answer::Unborn(()),
        }
    }

    /// Finds the first entry past `bound`, or the first of all if there is no bound. As many steps as a look-up in the bin.
    pub fn next_after(&self, bound: Option<(u64, &K)>) -> Answer<Option<&Entry<K, V, A>>, ()>
        ensures reply { answer_map (option_map (λ e. numbered_pair e.now)) result
            ≡ answer_with self.now.content (λ b. next_of_live K.cmp (lent_bound bound.entry) b) tt }
        ensures within { IsSlot K.cmp self.now }
    {
        match self.state {
            State::Live => Answer::Here(self.live.next_after(bound)),
            State::Moved => Answer::Moved(()),
            State::Unborn => Answer::Unborn(()),
        }
    }

    #[tactic(auto, using(crate::proofs::SlotLaws::live_in_taken))]
    /// Removes the entry of a hash and a key, if there is one, and returns it. As many steps as a look-up in the bin; takes no memory.
    pub fn take<Q: Query<K>>(&mut self, hash: u64, key: Q) -> Answer<Option<Entry<K, V, A>>, ()>
        requires { LiesInBin hash self.old }
        ensures reply { answer_map (option_map numbered_pair) result
            ≡ answer_with self.old.content (λ b. entry_of_live K.cmp b hash (Q.stands_for key)) tt }
        ensures after { self.new ≡ slot_with (λ b. after_take K.cmp b hash (Q.stands_for key)) self.old }
        ensures within { IsSlot K.cmp self.old }
    {
        match self.state {
            State::Live => Answer::Here(self.live.take(hash, key)),
            State::Moved => Answer::Moved(()),
            State::Unborn => Answer::Unborn(()),
        }
    }

    #[tactic(auto, using(crate::proofs::SlotLaws::live_in_taken_if))]
    /// Removes the entry of a hash and a key, and returns it, if and only if its value still has the write number `number`, and `number` is
    /// below `u64::MAX`. As many steps as a look-up in the bin; takes no memory.
    pub fn take_if<Q: Query<K>>(
        &mut self,
        hash: u64,
        key: Q,
        number: u64,
    ) -> Answer<Option<Entry<K, V, A>>, ()>
        requires { LiesInBin hash self.old }
        ensures reply { answer_map (option_map numbered_pair) result
            ≡ answer_with self.old.content (λ b. take_if_reply K.cmp number b hash (Q.stands_for key)) tt }
        ensures after { self.new ≡ slot_with (λ b. after_take_if K.cmp number b hash (Q.stands_for key)) self.old }
        ensures within { IsSlot K.cmp self.old }
    {
        match self.state {
            State::Live => Answer::Here(self.live.take_if(hash, key, number)),
            State::Moved => Answer::Moved(()),
            State::Unborn => Answer::Unborn(()),
        }
    }

    #[tactic(auto, using(crate::proofs::SlotLaws::live_in_wiped))]
    /// Removes all entries, and returns them as a bin. Constant time; takes no memory.
    pub fn drain(&mut self) -> Answer<Bin<K, V, A>, ()>
        ensures reply { answer_map (λ b. numbered_pairs (entries_of_bin b)) result
            ≡ answer_with self.old.content (λ b. b.plain_entries) tt }
        ensures after { self.new ≡ slot_with after_wipe self.old }
        ensures within { IsSlot K.cmp self.old }
    {
        match self.state {
            State::Live => Answer::Here(self.live.drain()),
            State::Moved => Answer::Moved(()),
            State::Unborn => Answer::Unborn(()),
        }
    }

    /// Removes all entries, and returns how many there were. Linear in the number of entries; takes no memory.
    pub fn wipe(&mut self) -> Answer<usize, ()>
        ensures reply { result ≡ answer_with self.old.content (λ b. length b.plain_entries) tt }
        ensures after { self.new ≡ slot_with after_wipe self.old }
        ensures within { IsSlot K.cmp self.old }
    {
        match self.drain() {
            Answer::Here(bin) => Answer::Here(bin.len()),
            Answer::Moved(()) => Answer::Moved(()),
            Answer::Unborn(()) => Answer::Unborn(()),
        }
    }

    #[tactic(auto, using(crate::proofs::SlotLaws::live_in_low, crate::proofs::SlotLaws::live_in_high))]
    /// Moves the live bin into its two halves in the next larger table. The entries whose hash has 0 at the bit that is numbered by this
    /// table's exponent go into `low`, at the same index. The others go into `high`, as many bins further on as this table has. Both halves
    /// get the count of writes. Linear in the number of entries; takes no memory.
    pub fn move_into(&mut self, low: &mut Self, high: &mut Self) -> MoveAnswer
        ensures done { IfDone result
            (λ r. (r ≡ (self.old.table, self.old.index))
            × HasMovedInto self.old low.old high.old self.new low.new high.new) }
        ensures already { IfAlready result
            (λ r. (r ≡ (self.old.table, self.old.index)) × (self.old.content ≡ HasMoved)) }
        ensures clash { IfClash result (Clashes self.old low.old high.old) }
        ensures same { IfNotDone result ((self.new ≡ self.old) × ((low.new ≡ low.old) × (high.new ≡ high.old))) }
        ensures within { IsSlot K.cmp self.old }
    {
        match self.state {
            State::Moved => return MoveAnswer::Already(self.receipt()),
            State::Unborn => return MoveAnswer::Clash,
            State::Live => {}
        }
        if !self.has_halves(low, high) {
            return MoveAnswer::Clash;
        }
        let live = mem::replace(&mut self.live, LiveBin::new(Bin::new(), 0));
        let (lows, highs) = live.split(self.table);
        self.state = State::Moved;
        low.state = State::Live;
        low.live = lows;
        high.state = State::Live;
        high.live = highs;
        MoveAnswer::Done(self.receipt())
    }
}

impl<K: Ord + Drop, V: Drop, A: Allocator> Slot<K, V, A> {
    ghost use Rattle.flurry_bins_slots.specs.Slot.{AreHalves};

    // Creates the note that the bin of this slot was moved.
    fn receipt(&self) -> Receipt
        ensures { result ≡ (self.now.table, self.now.index) }
    {
        Receipt { at: self.at() }
    }

    // Whether `low` and `high` are the halves of this slot's bin, and have no bin yet.
    fn has_halves(&self, low: &Self, high: &Self) -> bool
        ensures { IsTrue result ↔ AreHalves self.now low.now high.now }
    {
        let unborn = match (low.state, high.state) {
            (State::Unborn, State::Unborn) => true,
            _ => false,
        };
        unborn
            && low.table == self.table + 1
            && high.table == self.table + 1
            && low.index == self.index
            && high.index == self.index + (1u32 << self.table)
    }
}

impl<K: Ord + Drop, V: Drop, A: Allocator + Copy> Slot<K, V, A> {
    #[tactic(auto, using(crate::proofs::SlotLaws::live_in_written))]
    /// Sets the value of a key, in one pass down the bin. If the key is present, the stored key stays, and the old value and the key that
    /// was passed in are returned; if it is absent, the pair is inserted. The result also says whether the bin asks for a larger table. As
    /// many steps as a look-up in the bin. If the key is absent, memory for the key and for a node is taken.
    ///
    /// # Errors
    ///
    /// Returns the key and the value if memory cannot be allocated, or if the bin has 2^62 entries. The bin is unchanged.
    pub fn put(
        &mut self,
        alloc: A,
        hash: u64,
        key: K,
        value: Given<V, A>,
    ) -> Result<Answer<Inserted<K, V, A>, (K, Given<V, A>)>, NotInserted<K, V, A>>
        requires { LiesInBin hash self.old }
        ensures reply { IfOk result
            (λ a. answer_map view_of_inserted a
            ≡ answer_with self.old.content (λ b. write_reply K.cmp (2 ^ self.old.table) b hash key) (key, value)) }
        ensures after { OnOk result
            (self.new ≡ slot_with (λ b. after_write K.cmp (2 ^ self.old.table) b hash key (given_of value)) self.old) }
        ensures key { IfOk result (λ a. IfHere a (λ w. IfReplaced w (λ it. it.key ≡ key))) }
        ensures err { IfErr result (λ n. IsNotInserted key (given_of value) n) }
        ensures refused { OnErr result (self.new ≡ self.old) }
        ensures only_live { OnErr result (IfLive self.old.content (λ _. ⊤)) }
        ensures within { IsSlot K.cmp self.old }
    {
        let bins = 1usize << self.table;
        match self.state {
            State::Live => Ok(Answer::Here(self.live.put(alloc, bins, hash, key, value)?)),
            State::Moved => Ok(Answer::Moved((key, value))),
            State::Unborn => Ok(Answer::Unborn((key, value))),
        }
    }

    #[tactic(auto, using(crate::proofs::SlotLaws::live_in_added))]
    /// Inserts a pair if its key is absent, and returns a clone of the value's `Arc`, and whether the bin asks for a larger table. If the
    /// key is present, nothing changes: the result has the stored value, and the key and the value that were not inserted. As many steps
    /// as a look-up in the bin.
    ///
    /// # Errors
    ///
    /// Returns the key and the value if memory for the pair cannot be allocated, if the bin has 2^62 entries, or if cloning the `Arc` of the
    /// value fails. The bin is unchanged.
    pub fn put_absent(
        &mut self,
        alloc: A,
        hash: u64,
        key: K,
        value: V,
    ) -> Result<Answer<Added<K, V, A>, (K, V)>, NotInserted<K, V, A>>
        requires { LiesInBin hash self.old }
        ensures reply { IfOk result
            (λ a. answer_map view_of_added a
            ≡ answer_with self.old.content (λ b. add_reply K.cmp (2 ^ self.old.table) b hash key value) (key, value)) }
        ensures after { OnOk result
            (self.new ≡ slot_with (λ b. after_add K.cmp (2 ^ self.old.table) b hash key value) self.old) }
        ensures key { IfOk result (λ a. IfHere a (λ r. IfPresent r (λ k. k ≡ key))) }
        ensures err { IfErr result (λ n. IsNotInserted key value n) }
        ensures refused { OnErr result (self.new ≡ self.old) }
        ensures only_live { OnErr result (IfLive self.old.content (λ _. ⊤)) }
        ensures within { IsSlot K.cmp self.old }
    {
        let bins = 1usize << self.table;
        match self.state {
            State::Live => Ok(Answer::Here(self.live.put_absent(alloc, bins, hash, key, value)?)),
            State::Moved => Ok(Answer::Moved((key, value))),
            State::Unborn => Ok(Answer::Unborn((key, value))),
        }
    }

    #[tactic(auto, using(crate::proofs::SlotLaws::live_in_written, crate::proofs::SlotLaws::live_in_taken))]
    /// Calls `f` once on the stored key and its value if the key is present, and stores what `f` returns as the new value. If `f` returns
    /// `None`, the pair is removed. The result has what was taken out: the old value, or the entry. If `f` was not called, it is given
    /// back. As many steps as a look-up in the bin.
    ///
    /// # Errors
    ///
    /// Returns the value that `f` returned if memory for it cannot be allocated, or if cloning its `Arc` fails. The bin is unchanged.
    pub fn compute<Q: Query<K>, F: ComputeFn<K, V>>(
        &mut self,
        alloc: A,
        hash: u64,
        key: Q,
        f: F,
    ) -> Result<Answer<Computed<K, V, F, A>, F>, Given<V, A>>
        requires region { LiesInBin hash self.old }
        requires callable { F.can_change f }
        requires changes { F.never_keeps f }
        ensures back { IfOk result (λ a. IsAway a self.old.content f) }
        ensures absent { IfOk result (λ a. IfHere a (λ c. IfAbsent c (λ g. g ≡ f))) }
        ensures here { IfOk result (λ a. IfHere a (λ c. IfLive self.old.content (λ b. IfLive self.new.content (λ d.
            Computes K.cmp (F.changes f) (2 ^ self.old.table) b hash (Q.stands_for key) (outcome c) d
            × (self.new ≡ slot_with (λ _. d) self.old))))) }
        ensures left { IfOk result (λ a. IfHere a (λ c.
            IfLive self.old.content (λ b. IsLeftOf (entry_of_live K.cmp b hash (Q.stands_for key)) c))) }
        ensures same { IfOk result (λ a. IfAway a (self.new ≡ self.old)) }
        ensures refused { OnErr result (self.new ≡ self.old) }
        ensures in_vain { IfErr result (λ g.
            IfLive self.old.content (λ b. ComputesInVain K.cmp (F.changes f) b hash (Q.stands_for key) (given_of g))) }
        ensures within { IsSlot K.cmp self.old }
    {
        let bins = 1usize << self.table;
        match self.state {
            State::Live => Ok(Answer::Here(self.live.compute(alloc, bins, hash, key, f)?)),
            State::Moved => Ok(Answer::Moved(f)),
            State::Unborn => Ok(Answer::Unborn(f)),
        }
    }

    /// Calls `f` once: on the stored key and `Some` of its value if the key is present, or else on `key` and `None`. Does what the verdict
    /// says to the pair. The result also has `key`, unless it was added. As many steps as a look-up in the bin. Memory is taken for a value
    /// that is set, and at an absent key also for the key and a node.
    ///
    /// # Errors
    ///
    /// Returns the key and the value that `f` set if memory cannot be allocated, if the bin has 2^62 entries, or if cloning the `Arc` of
    /// the value fails. The bin is unchanged.
    pub fn alter<F: ComputeFn<K, V>>(
        &mut self,
        alloc: A,
        hash: u64,
        key: K,
        f: F,
    ) -> Result<Answer<(Altered<K, V, A>, Option<K>), (K, F)>, NotInserted<K, V, A>>
        requires region { LiesInBin hash self.old }
        requires callable { F.can_change f }
        ensures back { IfOk result (λ a. IsAway a self.old.content (key, f)) }
        ensures here { IfOk result (λ a. IfHere a (λ r. IfLive self.old.content (λ b. IfLive self.new.content (λ d.
            Alters K.cmp F.changes f true (2 ^ self.old.table) b hash key (alteration r.0) d
            × (self.new ≡ slot_with (λ _. d) self.old))))) }
        ensures key { IfOk result (λ a. IfHere a (λ r. r.1 ≡ key_back key (alteration r.0))) }
        ensures same { IfOk result (λ a. IfAway a (self.new ≡ self.old)) }
        ensures refused { OnErr result (self.new ≡ self.old) }
        ensures in_vain { IfErr result (λ n. (w : _) × IsNotInserted key w n
            × IfLive self.old.content (λ b. JudgesAt K.cmp F.changes f true b hash key (Set w))) }
        ensures within { IsSlot K.cmp self.old }
    {
        let bins = 1usize << self.table;
        match self.state {
            State::Live => Ok(Answer::Here(self.live.alter(alloc, bins, hash, key, f)?)),
            State::Moved => Ok(Answer::Moved((key, f))),
            State::Unborn => Ok(Answer::Unborn((key, f))),
        }
    }

    /// Calls `f` once on the stored key and `Some` of its value if the key is present, and does what the verdict says to the pair. If the
    /// key is absent, `f` is not called, and comes back in the inner `Err`. As many steps as a look-up in the bin.
    ///
    /// # Errors
    ///
    /// Returns the value that `f` set if memory for it cannot be allocated, or if cloning its `Arc` fails. The bin is unchanged.
    pub fn alter_present<Q: Query<K>, F: ComputeFn<K, V>>(
        &mut self,
        alloc: A,
        hash: u64,
        key: Q,
        f: F,
    ) -> Result<Answer<Result<Altered<K, V, A>, F>, F>, Given<V, A>>
        requires region { LiesInBin hash self.old }
        requires callable { F.can_change f }
        ensures back { IfOk result (λ a. IsAway a self.old.content f) }
        ensures absent { IfOk result (λ a. IfHere a (λ r. IfErr r (λ g. g ≡ f))) }
        ensures here { IfOk result (λ a. IfHere a (λ r. IfLive self.old.content (λ b. IfLive self.new.content (λ d.
            Alters K.cmp F.changes f false (2 ^ self.old.table) b hash (Q.stands_for key) (alteration_if_present r) d
            × (self.new ≡ slot_with (λ _. d) self.old))))) }
        ensures same { IfOk result (λ a. IfAway a (self.new ≡ self.old)) }
        ensures refused { OnErr result (self.new ≡ self.old) }
        ensures in_vain { IfErr result (λ g.
            IfLive self.old.content (λ b. JudgesAt K.cmp F.changes f false b hash (Q.stands_for key)
            (Set (given_of g)))) }
        ensures within { IsSlot K.cmp self.old }
    {
        let bins = 1usize << self.table;
        match self.state {
            State::Live => Ok(Answer::Here(self.live.alter_present(alloc, bins, hash, key, f)?)),
            State::Moved => Ok(Answer::Moved(f)),
            State::Unborn => Ok(Answer::Unborn(f)),
        }
    }
}
