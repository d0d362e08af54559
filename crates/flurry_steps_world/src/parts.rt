//! The parts of a map that has one owner: its control and its tables.
ghost use Rattle.std.specs.Prelude.{◌≡◌, ◌≤◌, IfOk};
ghost use Rattle.flurry_steps_control.specs.Control.{OpenGives};
ghost use Rattle.flurry_steps_world.specs.Parts.{no_parts};
ghost use Rattle.flurry_steps_world.specs.Tables.{PlaceGives};
ghost use Rattle.flurry_base.specs.declared.sizes.TheConstants.{MAX_TABLE};

use crate::tables::Tables;
use flurry_base::query::Query;
use flurry_bins_slots::ComputeFn;
use flurry_steps::party::Event;
use flurry_steps::{Field, Party};
use flurry_steps_control::Control;
use std::alloc::{AllocError, Allocator, Global};
use std::marker::Model;

/// The control and the tables of a map that has one owner, who passes each of them to the steps of calls.
///
/// ```
/// let call: OwnedCall<u64, u64, NoFn> = OwnedCall::Insert(key, value);
/// match drive_alone(rt, call, &LowHashBuilder, 1, parts) {
///     Reply::Value(_) => true,
///     _ => false,
/// }
/// ```
#[derive(Drop)]
pub struct Parts<K: Ord, V, A: Allocator = Global> {
    alloc: A,
    control: Control,
    tables: Tables<K, V, A>,
}

impl<K: Ord, V, A: Allocator> Model for Parts<K, V, A> {
    ghost use Rattle.flurry_steps_world.specs.Parts.{Parts};

    ghost Value = { Parts K V };

    ghost view = { λ p. record { control_state = p.control; tables = p.tables } };
}

impl<K: Ord + Drop, V: Drop, A: Allocator + Copy> Parts<K, V, A> {
    /// Creates the parts of a map without a table.
    ///
    /// # Errors
    ///
    /// Returns [`AllocError`] if memory for the places of tables cannot be allocated.
    pub fn new(alloc: A) -> Result<Self, AllocError>
        ensures { IfOk result (λ s. s ≡ no_parts) }
    {
        Ok(Parts {
            alloc,
            control: Control::new(),
            tables: Tables::new(alloc)?,
        })
    }

    /// Returns the exponent of the published table. If there is none, makes the table of exponent `table`, with live and empty bins, and
    /// publishes it.
    ///
    /// Constant time, except for making the table.
    ///
    /// # Errors
    ///
    /// Returns [`AllocError`] if memory for the table cannot be allocated. The parts are unchanged.
    pub fn open(&mut self, table: u8) -> Result<u8, AllocError>
        requires { table ≤ MAX_TABLE }
        ensures gives { OpenGives PlaceGives table self.old.control_state self.old.tables
            result self.new.control_state self.new.tables }
        ensures within { IfOk result (λ e. e ≤ MAX_TABLE) }
    {
        self.control.open(table, &mut self.tables)
    }

    /// Returns a reference to the control.
    ///
    /// Constant time.
    pub fn control(&self) -> &Control
        ensures { result.now ≡ self.now.control_state }
    {
        &self.control
    }

    /// Returns a reference to the tables.
    ///
    /// Constant time.
    pub fn tables(&self) -> &Tables<K, V, A>
        ensures { result.now ≡ self.now.tables }
    {
        &self.tables
    }
}

impl<K: Ord + Drop, V: Drop, A: Allocator + Copy> Field<K, V, A> for Parts<K, V, A> {
    ghost use Rattle.flurry_steps_world.specs.Parts.{OwnLends, OwnLacks};

    type Room = Tables<K, V, A>;

    ghost lends = { OwnLends };

    ghost lacks = { OwnLacks };

    fn at_control<Q: Query<K>, F: ComputeFn<K, V>>(
        &mut self,
        party: &mut Party<Q, K, V, F, A>,
    ) -> Option<Event> {
        Some(party.on_control(&mut self.control, &mut self.tables))
    }

    fn at_look<Q: Query<K>, F: ComputeFn<K, V>>(
        &mut self,
        table: u8,
        index: usize,
        party: &mut Party<Q, K, V, F, A>,
    ) -> Option<Event> {
        if !self.tables.has(table, index) {
            return None;
        }
        Some(party.on_look(self.tables.slot(table, index)))
    }

    fn at_bin<Q: Query<K>, F: ComputeFn<K, V>>(
        &mut self,
        table: u8,
        index: usize,
        party: &mut Party<Q, K, V, F, A>,
    ) -> Option<Event> {
        if !self.tables.has(table, index) {
            return None;
        }
        Some(self.tables.lend_bin(self.alloc, table, index, party))
    }

    fn at_move<Q: Query<K>, F: ComputeFn<K, V>>(
        &mut self,
        table: u8,
        index: usize,
        party: &mut Party<Q, K, V, F, A>,
    ) -> Option<Event> {
        if !self.tables.has_halves(table, index) {
            return None;
        }
        Some(self.tables.lend_halves(table, index, party))
    }

    fn at_seat<Q: Query<K>, F: ComputeFn<K, V>>(
        &mut self,
        table: u8,
        party: &mut Party<Q, K, V, F, A>,
    ) -> Option<Event> {
        let got = self.tables.take_seat(table);
        Some(party.on_seat(got))
    }

    fn at_board<Q: Query<K>, F: ComputeFn<K, V>>(
        &mut self,
        table: u8,
        party: &mut Party<Q, K, V, F, A>,
    ) -> Option<Event> {
        match party.take_range() {
            Some(range) => {
                let last = self.tables.report(table, range);
                Some(party.on_report(last))
            }
            None => {
                let attempt = self.tables.try_claim(table);
                Some(party.on_attempt(attempt))
            }
        }
    }

    fn at_give<Q: Query<K>, F: ComputeFn<K, V>>(
        &mut self,
        table: u8,
        party: &mut Party<Q, K, V, F, A>,
    ) -> Option<Event> {
        self.tables.give_seat(table);
        Some(party.on_give())
    }
}
