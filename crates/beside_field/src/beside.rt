//! Parts of one owner, beside a published table at which calls start without asking the control.
ghost use Rattle.std.specs.Prelude.{◌≡◌, true};
ghost use Rattle.flurry_steps_drive.specs.IsExclusive.{IsExclusive};
ghost use Rattle.flurry_steps_world.specs.Parts.{IsPublishedTable};
ghost use Rattle.flurry_steps_world.specs.Tables.{PlaceGives};
ghost use Rattle.beside_field.specs.Beside.{parts_of, BesideLends, BesideLacks};

use flurry_base::query::Query;
use flurry_bins_slots::{Answer, ComputeFn};
use flurry_steps::party::Event;
use flurry_steps::{Field, Party};
use flurry_steps_control::PublishedTable;
use flurry_steps_world::Parts;
use flurry_steps_world::tables::Tables;
use std::alloc::{Allocator, Global};

/// The parts of a map, and the number of a table that some control has published, which may be far behind.
#[derive(Drop)]
pub struct Beside<K: Ord, V, A: Allocator = Global> {
    parts: Parts<K, V, A>,
    start: PublishedTable,
}

impl<K: Ord + Drop, V: Drop, A: Allocator + Copy> Beside<K, V, A> {
    /// Creates a field of `parts`, beside the published table `start`.
    pub fn new(parts: Parts<K, V, A>, start: PublishedTable) -> Self
        ensures { parts_of result ≡ parts }
    {
        Beside { parts, start }
    }
}

// Returns `true` if a call may start at `table`: it has been published, and its bins are no longer unborn.
fn is_published_table<'s, K: Ord + Drop + 's, V: Drop, A: Allocator + Copy>(
    parts: &'s Parts<K, V, A>,
    table: u8,
) -> bool
    ensures { result ≡ true → IsPublishedTable parts.now table }
{
    let Some(newest) = parts.control().locate() else {
        return false;
    };
    if table > newest || !parts.tables().has(table, 0) {
        return false;
    }
    let bound: Option<(u64, &'s K)> = None;
    match parts.tables().slot(table, 0).next_after(bound) {
        Answer::Unborn(_) => false,
        _ => true,
    }
}

impl<K: Ord + Drop, V: Drop, A: Allocator + Copy> Field<K, V, A> for Beside<K, V, A> {
    ghost use Rattle.beside_field.specs.Beside.{BesideLends, BesideLacks};

    type Room = Tables<K, V, A>;

    ghost lends = { BesideLends };

    ghost lacks = { BesideLacks };

    fn at_control<Q: Query<K>, F: ComputeFn<K, V>>(
        &mut self,
        party: &mut Party<Q, K, V, F, A>,
    ) -> Option<Event> {
        if party.is_locating() && is_published_table(&self.parts, self.start.table()) {
            return Some(party.on_published(&self.start));
        }
        self.parts.at_control(party)
    }

    fn at_look<Q: Query<K>, F: ComputeFn<K, V>>(
        &mut self,
        table: u8,
        index: usize,
        party: &mut Party<Q, K, V, F, A>,
    ) -> Option<Event> {
        self.parts.at_look(table, index, party)
    }

    fn at_bin<Q: Query<K>, F: ComputeFn<K, V>>(
        &mut self,
        table: u8,
        index: usize,
        party: &mut Party<Q, K, V, F, A>,
    ) -> Option<Event> {
        self.parts.at_bin(table, index, party)
    }

    fn at_move<Q: Query<K>, F: ComputeFn<K, V>>(
        &mut self,
        table: u8,
        index: usize,
        party: &mut Party<Q, K, V, F, A>,
    ) -> Option<Event> {
        self.parts.at_move(table, index, party)
    }

    fn at_seat<Q: Query<K>, F: ComputeFn<K, V>>(
        &mut self,
        table: u8,
        party: &mut Party<Q, K, V, F, A>,
    ) -> Option<Event> {
        self.parts.at_seat(table, party)
    }

    fn at_board<Q: Query<K>, F: ComputeFn<K, V>>(
        &mut self,
        table: u8,
        party: &mut Party<Q, K, V, F, A>,
    ) -> Option<Event> {
        self.parts.at_board(table, party)
    }

    fn at_give<Q: Query<K>, F: ComputeFn<K, V>>(
        &mut self,
        table: u8,
        party: &mut Party<Q, K, V, F, A>,
    ) -> Option<Event> {
        self.parts.at_give(table, party)
    }
}

/// Parts beside a published table are a field of which `IsExclusive` holds. The function does nothing: its contract is a law.
pub fn beside_is_exclusive<K: Ord, V, A: Allocator>()
    ensures { IsExclusive (parts_of {K = K} {V = V} {A = A}) (λ r. r) PlaceGives BesideLends BesideLacks }
{}
