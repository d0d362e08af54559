//! The tables of a shared map, each at the place of its exponent.
ghost use Rattle.std.specs.Prelude.{◌≤◌};
ghost use Rattle.flurry_base.specs.declared.sizes.TheConstants.{MAX_TABLE};

use flurry_base::sizes::TABLES;
use flurry_bins::bin::Bin;
use flurry_bins_slots::Slot;
use flurry_steps_claims::{Helper, Helpers};
use flurry_steps_control::Room;
use std::alloc::{AllocError, Allocator, Global};
use std::array;
use std::sync::{Arc, OnceLock, RwLock, Wait};

/// A table, with each of its slots under a lock of its own.
type Table<K, V, A> = Vec<RwLock<Slot<K, V, A>>, A>;

/// The locks of a step that moves a bin, in the order in which the step takes them.
type LocksOfMove<'m, K, V, A> = (
    &'m RwLock<Slot<K, V, A>>,
    &'m RwLock<Slot<K, V, A>>,
    &'m RwLock<Slot<K, V, A>>,
);

/// A place for each table, by its exponent, and one for the helpers of the growth from it. Each is put into its place at most once, and stays
/// there.
#[derive(Drop)]
pub(crate) struct Tables<K: Ord, V, A: Allocator = Global> {
    places: [OnceLock<Arc<Vec<RwLock<Slot<K, V, A>>, A>, A>>; TABLES],
    helpers: [OnceLock<Arc<Helpers<A>, A>>; TABLES],
}

impl<K: Ord, V, A: Allocator> Tables<K, V, A> {
    // Creates the places, without a table.
    pub(crate) fn new() -> Self {
        Tables {
            places: array::from_fn(|_| OnceLock::new()),
            helpers: array::from_fn(|_| OnceLock::new()),
        }
    }

    // Returns the lock of the slot at `table` and `index`, or `None` if there is no such slot.
    pub(crate) fn lock_of(&self, table: u8, index: usize) -> Option<&RwLock<Slot<K, V, A>>> {
        self.places.get(usize::from(table))?.get()?.get(index)
    }

    // Takes a helper of the growth from `table`. Returns `None` if there was no such growth, or all of its helpers are out.
    pub(crate) fn take_helper<R: Wait>(&self, rt: &R, table: u8) -> Option<Helper<A>> {
        self.helpers_of(table)?.take(rt)
    }

    // Gives a helper back to the growth from `table`.
    pub(crate) fn give_back<R: Wait>(&self, rt: &R, table: u8, helper: Helper<A>) {
        if let Some(helpers) = self.helpers_of(table) {
            helpers.give(rt, helper);
        }
    }

    // Returns the helpers of the growth from `table`, or `None` if there was no such growth.
    fn helpers_of(&self, table: u8) -> Option<&Helpers<A>> {
        Some(&**self.helpers.get(usize::from(table))?.get()?)
    }

    // Returns the locks of the slot at `table` and `index`, and of its low and its high half in the next table, or `None` if one of them is
    // missing.
    pub(crate) fn locks_of_move(
        &self,
        table: u8,
        index: usize,
    ) -> Option<LocksOfMove<'_, K, V, A>> {
        let next = table.checked_add(1)?;
        let bins = 1usize.checked_shl(u32::from(table))?;
        Some((
            self.lock_of(table, index)?,
            self.lock_of(next, index)?,
            self.lock_of(next, index.checked_add(bins)?)?,
        ))
    }
}

/// A [`Room`] where a control makes tables, during one step.
#[derive(Drop)]
pub struct LockRoom<'m, K: Ord, V, A: Allocator = Global> {
    tables: &'m Tables<K, V, A>,
    alloc: A,
}

impl<'m, K: Ord, V, A: Allocator> LockRoom<'m, K, V, A> {
    // Creates a room that makes tables at the places of `tables`, in memory of the allocator `alloc`.
    pub(crate) fn new(tables: &'m Tables<K, V, A>, alloc: A) -> Self {
        LockRoom { tables, alloc }
    }
}

impl<'m, K: Ord + Drop, V: Drop, A: Allocator + Copy> Room for LockRoom<'m, K, V, A> {
    ghost use Rattle.flurry_shared_locks.specs.LockLoans.{RoomStays};

    ghost place_gives = { RoomStays };

    fn place(&mut self, table: u8, for_growth: Option<usize>) -> Result<(), AllocError> {
        let tables = self.tables;
        let place = &tables.places[usize::from(table)];
        if place.get().is_some() {
            return Ok(());
        }
        let slots = Arc::new(
            self.alloc,
            new_table(self.alloc, table, for_growth.is_none())?,
        )?;
        if let (Some(processors), Some(from)) = (for_growth, table.checked_sub(1)) {
            let helpers = Helpers::new(self.alloc, from, processors)?;
            let _ = tables.helpers[usize::from(from)].try_set(Arc::new(self.alloc, helpers)?);
        }
        let _ = place.try_set(slots);
        Ok(())
    }
}

// Creates the slots of a new table, with live and empty bins if `live` is `true`, and else with unborn bins.
fn new_table<K: Ord + Drop, V: Drop, A: Allocator + Copy>(
    alloc: A,
    table: u8,
    live: bool,
) -> Result<Table<K, V, A>, AllocError>
    requires { table ≤ MAX_TABLE }
{
    let bins = 1usize << table;
    let mut slots = Vec::with_capacity(alloc, bins)?;
    for index in 0..bins {
        let slot = if live {
            Slot::live_at(table, index, Bin::new(), 0)
        } else {
            Slot::unborn(table, index)
        };
        slots.push(RwLock::new(slot))?;
    }
    Ok(slots)
}
