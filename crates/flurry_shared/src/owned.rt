//! Converts a map of one owner into one that threads share, and back.
ghost use Rattle.std.specs.Prelude.{◌≡◌, ◌<◌, ◌≤◌, ◌^◌, length, IfOk, IfErr};
ghost use Rattle.flurry_shared.specs.Placing.{AreBinsOfTable};
ghost use Rattle.flurry_base.specs.declared.sizes.TheConstants.{MAX_TABLE};
ghost use Rattle.flurry_seq.specs.Invariant.{IsTableSize};

use crate::HashMap;
use flurry_base::hash::KeyHasher;
use flurry_base::sizes::{MAX_BINS, MAX_LEN, TABLES};
use flurry_bins::bin::Bin;
use flurry_bins_slots::{Answer, Slot};
use flurry_seq::SeqMap;
use flurry_shared_locks::{LockField, Locks};
use std::alloc::{AllocError, Allocator};
use std::sync::{Arc, Wait};

impl<K: Ord + Drop, V: Drop, S: KeyHasher<K>, A: Allocator + Copy> HashMap<K, V, S, A> {
    /// Converts a map of one owner into one that threads share, with the same pairs, the same hasher and as many bins. It takes memory for
    /// a table of the bins' locks, and moves each bin into it.
    ///
    /// Takes the control's lock, to count, and then the lock of each slot, one after another. Linear in the number of bins and pairs.
    ///
    /// # Errors
    ///
    /// Returns the argument `map`, unchanged, if memory for the table cannot be allocated.
    pub fn from_seq<R: Wait>(rt: &R, map: SeqMap<K, V, S, A>) -> Result<Self, SeqMap<K, V, S, A>>
        ensures made { IfOk result (λ m. m ≡ record { hasher = map.hasher; processors = 1 }) }
        ensures same { IfErr result (λ m. m ≡ map) }
    {
        let alloc = *map.allocator();
        let bins = map.capacity();
        if bins == 0 {
            let (_, hasher) = map.into_bins();
            return Ok(HashMap::with_hasher(alloc, hasher));
        }
        let table = exponent(bins);
        let Ok(locks) = Locks::with_table(alloc, table) else {
            return Err(map);
        };
        let lock_field = LockField::new(rt, &locks);
        lock_field.count(map.len() as i64);
        let (bins, hasher) = map.into_bins();
        put_bins(&lock_field, table, bins);
        Ok(HashMap::of_locks(locks, hasher))
    }

    /// Converts the map into one of a single owner, with the same pairs and the same hasher. The new map is built anew: it takes memory for
    /// a table and for a node of each pair, and a clone of the `Arc` of each key and each value.
    ///
    /// Takes the control's lock, and then the lock of each slot for reading, one after another. Linear in the number of bins of all tables
    /// that were made, and in the number of pairs.
    ///
    /// # Errors
    ///
    /// Returns [`AllocError`] if memory for a table or a node cannot be allocated, or if cloning an `Arc` fails. The map is then dropped.
    pub fn into_seq<R: Wait>(self, rt: &R) -> Result<SeqMap<K, V, S, A>, AllocError>
    where
        S: Drop,
        ensures { IfOk result (λ m. m.hasher ≡ self.hasher) }
    {
        let pairs = self.len(rt);
        let (locks, hasher) = self.into_parts();
        collect(&LockField::new(rt, &locks), pairs, hasher)
    }

    /// Creates another map, of the pairs that are found while other calls run, with the same hasher and the same number of processors. It
    /// has a table of its own, and shares the stored keys and the values with this map.
    ///
    /// Takes the control's lock, and then the lock of each slot for reading, one after another. Linear in the number of bins of all tables
    /// that were made, and in the number of pairs.
    ///
    /// # Errors
    ///
    /// Returns [`AllocError`] if memory for a table or a node cannot be allocated, or if cloning an `Arc` fails.
    // No contract specifies which pairs it has, since other threads change them meanwhile.
    pub fn try_clone<R: Wait>(&self, rt: &R) -> Result<Self, AllocError>
    where
        S: Copy + Drop,
        ensures { IfOk result (λ m. m ≡ self.now) }
    {
        let copy = collect(&LockField::new(rt, &self.locks), self.len(rt), self.hasher)?;
        match HashMap::from_seq(rt, copy) {
            Ok(map) => Ok(map.with_processors(self.processors)),
            Err(_) => Err(AllocError),
        }
    }
}

// Collects the pairs that are under the locks of `lock_field` in a map of one owner, which starts with room for `pairs` pairs.
fn collect<K: Ord + Drop, V: Drop, S: KeyHasher<K> + Drop, A: Allocator + Copy, R: Wait>(
    lock_field: &LockField<'_, R, K, V, A>,
    pairs: usize,
    hasher: S,
) -> Result<SeqMap<K, V, S, A>, AllocError>
    ensures { IfOk result (λ m. m.hasher ≡ hasher) }
{
    let mut map = SeqMap::with_capacity_and_hasher(lock_field.allocator(), pairs, hasher)?;
    for table in 0..TABLES {
        add_table(lock_field, table as u8, &mut map)?;
    }
    Ok(map)
}

// Returns the exponent of a table of `bins` bins.
fn exponent(bins: usize) -> u8
    requires size { IsTableSize bins }
    requires some { 0 < bins }
    ensures within { result ≤ MAX_TABLE }
    ensures power { bins ≡ 2 ^ result }
{
    bins.ilog2() as u8
}

// Puts each of `bins` into its slot of a table that has as many slots.
fn put_bins<K: Ord + Drop, V: Drop, A: Allocator + Copy, R: Wait>(
    lock_field: &LockField<'_, R, K, V, A>,
    table: u8,
    bins: Vec<Bin<K, V, A>, A>,
)
    requires table { table ≤ MAX_TABLE }
    requires count { length bins.items ≡ 2 ^ table }
    requires placed { AreBinsOfTable table 0 bins.items }
{
    let mut index = 0;
    for bin in bins {
        if let Some(slot) = lock_field.slot(table, index) {
            *slot.write(lock_field.runtime()) = Slot::live(table, index, bin);
        }
        index += 1;
    }
}

// Adds the pairs of a table's live bins to `map`.
fn add_table<K: Ord + Drop, V: Drop, S: KeyHasher<K>, A: Allocator + Copy, R: Wait>(
    lock_field: &LockField<'_, R, K, V, A>,
    table: u8,
    map: &mut SeqMap<K, V, S, A>,
) -> Result<(), AllocError>
    ensures { map.new.hasher ≡ map.old.hasher }
{
    for index in 0..MAX_BINS {
        let Some(slot) = lock_field.slot(table, index) else {
            return Ok(());
        };
        add_bin(&*slot.read(lock_field.runtime()), map)?;
    }
    Ok(())
}

// Adds the pairs of a slot's bin to `map`, if the bin is live.
fn add_bin<K: Ord + Drop, V: Drop, S: KeyHasher<K>, A: Allocator + Copy>(
    slot: &Slot<K, V, A>,
    map: &mut SeqMap<K, V, S, A>,
) -> Result<(), AllocError>
    ensures { map.new.hasher ≡ map.old.hasher }
{
    let mut bound = None;
    for _ in 0..=MAX_LEN {
        let Answer::Here(Some(entry)) = slot.next_after(bound) else {
            break;
        };
        bound = Some((entry.hash, entry.key.as_ref()));
        map.insert_arc(Arc::try_clone(&entry.key)?, Arc::try_clone(&entry.value)?)?;
    }
    Ok(())
}
