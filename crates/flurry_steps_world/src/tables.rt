//! The tables of a map, each at the place of its exponent.
ghost use Rattle.std.specs.Prelude.{◌≡◌, ◌+◌, ◌<◌, ◌≤◌, ◌^◌, ◌↔◌, length, Some, IsSome, IsTrue, IfOk, OnErr, OnOk, is_none, is_some, false};
ghost use Rattle.flurry_bins_slots.specs.Slot.{IsSlot};
ghost use Rattle.flurry_steps_control.specs.Control.{ControlState};
ghost use Rattle.flurry_steps_sweep.specs.Part.{BinPart, MovePart};
ghost use Rattle.flurry_steps.specs.Party.{wanted_part};
ghost use Rattle.flurry_steps.specs.PartyBoard.{Seated, Attempted, Reported, TakenBack, IsAttempt};
ghost use Rattle.flurry_steps_world.specs.Parts.{BoardGives, HalvesStep, IsThere, PartStep};
ghost use Rattle.flurry_steps_world.specs.Tables.{AreTables, PlaceGives, begun_board, board_for, fresh, is_made, made_slots, new_slots, no_tables, place_at};
ghost use Rattle.flurry_base.specs.declared.sizes.TheConstants.{MAX_TABLE};

use flurry_base::query::Query;
use flurry_base::sizes::{MAX_TABLE, TABLES};
use flurry_bins::bin::Bin;
use flurry_bins_slots::{ComputeFn, Slot};
use flurry_steps::Party;
use flurry_steps::party::Event;
use flurry_steps_claims::{Attempt, PlainBoard, Range};
use flurry_steps_control::Room;
use std::alloc::{AllocError, Allocator};
use std::marker::Model;
use std::mem;

/// The tables of a map, by their exponents. Table `e` has `2^e` slots, or no slot if it has not been made. A table that is made for a growth
/// has the board of that growth beside it.
///
/// ```
/// let mut tables: Tables<u64, u64, Global> = Tables::new(alloc)?;
/// tables.place(4, None)?;
/// Ok(tables.has(4, index))
/// ```
#[derive(Drop)]
pub struct Tables<K: Ord, V, A: Allocator> {
    tables: Vec<Table<K, V, A>, A>,
}

// The slots of a table, and the board of the growth that moves the bins of the table before it into them. A first table has no board.
#[derive(Drop)]
struct Table<K: Ord, V, A: Allocator> {
    slots: Vec<Slot<K, V, A>, A>,
    board: Option<PlainBoard>,
}

impl<K: Ord, V, A: Allocator> Model for Tables<K, V, A> {
    ghost use Rattle.flurry_steps_world.specs.Tables.{Tables, AreTables};
    ghost use Rattle.flurry_steps_world.specs.TablesView.{tables_of};

    ghost Value = { Tables K V };

    ghost view = { λ t. tables_of t.tables.items };

    ghost invariant = { λ t. AreTables (tables_of t.tables.items) };
}

impl<K: Ord + Drop, V: Drop, A: Allocator + Copy> Tables<K, V, A> {
    /// Creates the places of all tables, without a table at any of them.
    ///
    /// # Errors
    ///
    /// Returns [`AllocError`] if memory for the places cannot be allocated.
    pub fn new(alloc: A) -> Result<Self, AllocError>
        ensures { IfOk result (λ t. t ≡ no_tables) }
    {
        let mut tables = Vec::with_capacity(alloc, TABLES)?;
        for _ in 0..TABLES {
            tables.push_reserved(Table {
                slots: Vec::new(alloc),
                board: None,
            });
        }
        Ok(Tables { tables })
    }
}

impl<K: Ord + Drop, V: Drop, A: Allocator + Copy> Room for Tables<K, V, A> {
    ghost place_gives = { PlaceGives };

    fn place(&mut self, table: u8, for_growth: Option<usize>) -> Result<(), AllocError> {
        self.tables[table as usize].make(table, for_growth)
    }
}

impl<K: Ord + Drop, V: Drop, A: Allocator + Copy> Table<K, V, A> {
    // Makes this table, of exponent `table`, if it has not been made, and a new board if it is asked for by a growth.
    fn make(&mut self, table: u8, for_growth: Option<usize>) -> Result<(), AllocError>
        requires { table ≤ MAX_TABLE }
        ensures slots { OnOk result (self.new.slots.items ≡ made_slots table (is_none for_growth) self.old.slots.items) }
        ensures board { OnOk result (self.new.board ≡ board_for table for_growth self.old.board) }
        ensures err { OnErr result (self.new ≡ self.old) }
        ensures none { OnErr result (is_made self.old.slots.items ≡ false) }
    {
        self.make_slots(table, for_growth.is_none())?;
        if let Some(processors) = for_growth {
            self.board = Some(begun_board(table.saturating_sub(1), processors));
        }
        Ok(())
    }

    // Makes the slots of this table, of exponent `table`, if there are none.
    fn make_slots(&mut self, table: u8, live: bool) -> Result<(), AllocError>
        requires { table ≤ MAX_TABLE }
        ensures slots { OnOk result (self.new.slots.items ≡ made_slots table live self.old.slots.items) }
        ensures board { self.new.board ≡ self.old.board }
        ensures err { OnErr result (self.new ≡ self.old) }
        ensures none { OnErr result (is_made self.old.slots.items ≡ false) }
    {
        if !self.slots.is_empty() {
            return Ok(());
        }
        self.slots = new_slots(*self.slots.allocator(), table, live)?;
        Ok(())
    }
}

impl<K: Ord + Drop, V: Drop, A: Allocator> Tables<K, V, A> {
    /// Returns a reference to the slot of `table` and `index`.
    ///
    /// Constant time.
    pub fn slot(&self, table: u8, index: usize) -> &Slot<K, V, A>
        requires { IsSome (place_at self.now table index) }
        ensures slot { place_at self.now table index ≡ Some result.now }
        ensures table { result.now.table ≡ table }
        ensures index { result.now.index ≡ index }
    {
        &self.tables[table as usize].slots[index]
    }

    /// Returns `true` if there is a slot of `table` and `index`.
    ///
    /// Constant time.
    pub fn has(&self, table: u8, index: usize) -> bool
        ensures there { result ≡ is_some (place_at self.now table index) }
        ensures within { AreTables self.now }
    {
        match self.tables.get(table as usize) {
            Some(place) => index < place.slots.len(),
            None => false,
        }
    }

    // Whether there is a slot of `table` and `index`, and its two halves in the next table.
    pub(crate) fn has_halves(&self, table: u8, index: usize) -> bool
        ensures there { IsTrue result ↔ (IsThere self.now (MovePart table index)) }
        ensures within { AreTables self.now }
    {
        if !self.has(table, index) {
            return false;
        }
        if table >= MAX_TABLE {
            return false;
        }
        let high = index + (1usize << table);
        self.has(table + 1, index) && self.has(table + 1, high)
    }
}

impl<K: Ord + Drop, V: Drop, A: Allocator + Copy> Tables<K, V, A> {
    // Passes the slot of `table` and `index` to the step of a call that may change its bin.
    pub(crate) fn lend_bin<Q: Query<K>, F: ComputeFn<K, V>>(
        &mut self,
        alloc: A,
        table: u8,
        index: usize,
        party: &mut Party<Q, K, V, F, A>,
    ) -> Event
        requires wants { wanted_part party.old ≡ BinPart table index }
        requires there { IsThere self.old (BinPart table index) }
        ensures step { (b : ControlState)
            → PartStep K.cmp F.changes (BinPart table index) party.old b self.old result party.new b self.new }
        ensures within { AreTables self.new }
    {
        let place = &mut self.tables[table as usize];
        party.on_bin(alloc, &mut place.slots[index])
    }
}

impl<K: Ord + Drop, V: Drop, A: Allocator> Tables<K, V, A> {
    // Takes a seat at the board of the growth from `table`. Returns whether one was left there.
    pub(crate) fn take_seat(&mut self, table: u8) -> bool
        ensures gives { BoardGives table (Seated result) self.old self.new }
    {
        if self.tables.len() <= table as usize + 1 {
            return false;
        }
        let place = &mut self.tables[table as usize + 1];
        let Some(board) = &mut place.board else {
            return false;
        };
        board.take_seat()
    }

    // Tries to claim a range at the board of the growth from `table`. Without a board there is nothing to claim.
    pub(crate) fn try_claim(&mut self, table: u8) -> Attempt
        ensures gives { BoardGives table (Attempted result) self.old self.new }
        ensures table { IsAttempt table result }
    {
        if self.tables.len() <= table as usize + 1 {
            return Attempt::Nothing;
        }
        let place = &mut self.tables[table as usize + 1];
        let Some(board) = &mut place.board else {
            return Attempt::Nothing;
        };
        board.try_claim()
    }

    // Reports a range to the board of the growth from `table`. Returns whether the report was the last one of that growth.
    pub(crate) fn report(&mut self, table: u8, range: Range) -> bool
        ensures gives { BoardGives table (Reported range result) self.old self.new }
    {
        if self.tables.len() <= table as usize + 1 {
            return false;
        }
        let place = &mut self.tables[table as usize + 1];
        let Some(board) = &mut place.board else {
            return false;
        };
        board.report(range)
    }

    // Takes a seat back at the board of the growth from `table`.
    pub(crate) fn give_seat(&mut self, table: u8)
        ensures gives { BoardGives table TakenBack self.old self.new }
    {
        if self.tables.len() <= table as usize + 1 {
            return;
        }
        let place = &mut self.tables[table as usize + 1];
        let Some(board) = &mut place.board else {
            return;
        };
        board.give_seat();
    }
}

impl<K: Ord + Drop, V: Drop, A: Allocator> Tables<K, V, A> {
    // Passes the slot of `table` and `index`, and its two halves in the next table, to the step of a helper.
    pub(crate) fn lend_halves<Q: Query<K>, F: ComputeFn<K, V>>(
        &mut self,
        table: u8,
        index: usize,
        party: &mut Party<Q, K, V, F, A>,
    ) -> Event
        requires wants { wanted_part party.old ≡ MovePart table index }
        requires there { IsThere self.old (MovePart table index) }
        ensures step { (b : ControlState)
            → PartStep K.cmp F.changes (MovePart table index) party.old b self.old result party.new b self.new }
        ensures within { AreTables self.new }
    {
        let (front, back) = self.tables.split_at_mut(table as usize + 1);
        let olds = &mut front[table as usize];
        let news = &mut back[0];
        move_between(party, &mut olds.slots[index], &mut news.slots, table, index)
    }
}

// Passes the slot `old`, and its two halves in the next table `news`, to the step of a helper. The low half is taken out of `news` for
// the step, since both halves are borrowed at once.
fn move_between<Q: Query<K>, K: Ord + Drop, V: Drop, F: ComputeFn<K, V>, A: Allocator>(
    party: &mut Party<Q, K, V, F, A>,
    old: &mut Slot<K, V, A>,
    news: &mut Vec<Slot<K, V, A>, A>,
    table: u8,
    index: usize,
) -> Event
    requires wants { wanted_part party.old ≡ MovePart old.old.table old.old.index }
    requires table { table < MAX_TABLE }
    requires low { index < 2 ^ table }
    requires high { index + 2 ^ table < length news.old.items }
    ensures within { IsSlot K.cmp old.old }
    ensures step { HalvesStep party.old old.old index
        (index + 2 ^ table) news.old.items result party.new old.new news.new.items }
{
    let place = index + (1usize << table);
    let mut low = mem::replace(&mut news[index], Slot::unborn(table + 1, index));
    let high = &mut news[place];
    let event = party.on_move(old, &mut low, high);
    news[index] = low;
    event
}

// Creates the board of a growth from `table` that begins, whose work so many processors share. The party that begins it has a seat there.
fn begun_board(table: u8, processors: usize) -> PlainBoard
    requires { table ≤ MAX_TABLE }
    ensures { result ≡ begun_board table processors }
{
    let mut board = PlainBoard::new(table, processors);
    let _ = board.take_seat();
    board
}

// Creates the slots of a new table: with live and empty bins if `live` is `true`, or else with unborn bins.
fn new_slots<K: Ord + Drop, V: Drop, A: Allocator>(
    alloc: A,
    table: u8,
    live: bool,
) -> Result<Vec<Slot<K, V, A>, A>, AllocError>
    requires { table ≤ MAX_TABLE }
    ensures { IfOk result (λ v. v.items ≡ new_slots table live (2 ^ table)) }
{
    let bins = 1usize << table;
    let mut slots = Vec::with_capacity(alloc, bins)?;
    for index in 0..bins {
        slots.push_reserved(new_slot(table, index, live));
    }
    Ok(slots)
}

// Creates one slot of a new table: with a live and empty bin if `live` is `true`, or else with an unborn bin.
fn new_slot<K: Ord + Drop, V: Drop, A: Allocator>(
    table: u8,
    index: usize,
    live: bool,
) -> Slot<K, V, A>
    requires table { table ≤ MAX_TABLE }
    requires index { index < 2 ^ table }
    ensures { result ≡ record { table = table; index = index; content = fresh live } }
{
    if live {
        Slot::live_at(table, index, Bin::new(), 0)
    } else {
        Slot::unborn(table, index)
    }
}
