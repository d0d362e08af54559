//! A live bin of a table, and the steps at it.
ghost use Rattle.std.specs.Prelude.{◌≡◌, ◌<◌, length, IfErr, IfOk, OnOk, OnErr, IsSome, Some, None};
ghost use Rattle.std.specs.Option.{option_map};
ghost use Rattle.std.specs.Arc.{arc_value};
ghost use Rattle.flurry_bins.specs.Chain.{entry_of};
ghost use Rattle.flurry_bins.specs.Entries.{lent_bound};
ghost use Rattle.flurry_bins.specs.Bin.{entries_of_bin};
ghost use Rattle.flurry_base.specs.Given.{given_of, IsNotInserted};
ghost use Rattle.flurry_bins_insertion.specs.Inserted.{IfReplaced};
ghost use Rattle.flurry_bins.specs.PlainEntries.{numbered_pair, numbered_pairs};
ghost use Rattle.flurry_bins_slots.specs.Slot.{half, after_wipe, next_number, entry_of_live, value_of_live, next_of_live, after_write, write_reply, asks, after_take, after_add, add_reply, after_take_if, take_if_reply, Computes, ComputesInVain};
ghost use Rattle.flurry_bins_slots.specs.LiveView.{live_of, view_of_inserted, view_of_added, IfPresent, outcome, IfAbsent, IsLeftOf, IsEntryWith};
ghost use Rattle.flurry_base.specs.declared.sizes.TheConstants.{MAX_LEN};

mod alter;

use crate::compute_fn::ComputeFn;
pub use alter::Altered;
use alter::judge;
use flurry_base::query::Query;
use flurry_base::sizes::MAX_LEN;
use flurry_base::{TryInsertError, Verdict};
use flurry_bins::bin::{Bin, BoxedNode, Entry, Given, Node, NotInserted, Ordered};
use flurry_bins_insertion::table::{Inserted, insert_pair_in_bin, new_arc_pair, put_node_in_bin};
use std::alloc::Allocator;
use std::marker::Model;
use std::mem;
use std::sync::Arc;

/// What an insertion at an absent key did.
///
/// ```
/// match answer {
///     Answer::Here(Added::New { value, .. }) => Some(*value),
///     Answer::Here(Added::Present { error, .. }) => Some(*error.current),
///     Answer::Moved(_) | Answer::Unborn(_) => None,
/// }
/// ```
#[derive(Drop)]
pub enum Added<K, V, A: Allocator> {
    /// The pair was inserted.
    New {
        /// A clone of the new value's `Arc`.
        value: Arc<V, A>,
        /// Whether the bin asks for a larger table.
        asks_for_growth: bool,
    },
    /// The key was present. Nothing was changed.
    Present {
        /// The key that was passed in.
        key: K,
        /// The stored value, and the one that was not inserted.
        error: TryInsertError<V, A>,
    },
}

/// What a computation did.
///
/// ```
/// match answer {
///     Answer::Here(Computed::Changed { new, .. }) => Some(*new),
///     _ => None,
/// }
/// ```
#[derive(Drop)]
pub enum Computed<K, V, F, A: Allocator> {
    /// The key is absent. The function was not called, and is given back.
    Absent(F),
    /// The function returned `None`, and the pair was removed: its entry.
    Removed(Entry<K, V, A>),
    /// The function returned a value, which is now stored.
    Changed {
        /// A clone of the new value's `Arc`.
        new: Arc<V, A>,
        /// The value that the key had.
        old: Arc<V, A>,
    },
}

#[derive(Drop)]
pub(crate) struct LiveBin<K: Ord, V, A: Allocator> {
    bin: Bin<K, V, A>,
    writes: u64,
}

impl<K: Ord, V, A: Allocator> Model for LiveBin<K, V, A> {
    ghost use Rattle.flurry_bins_slots.specs.Slot.{Live};
    ghost use Rattle.flurry_bins_slots.specs.LiveView.{live_of};

    ghost Value = { Live K V };

    ghost view = { λ b. live_of b.bin b.writes };
}

impl<K: Ord + Drop, V: Drop, A: Allocator> LiveBin<K, V, A> {
    // Creates a live bin whose count of writes is `writes`.
    pub(crate) fn new(bin: Bin<K, V, A>, writes: u64) -> Self
        ensures { result ≡ live_of bin writes }
    {
        LiveBin { bin, writes }
    }

    pub(crate) fn len(&self) -> usize
        ensures { result ≡ length self.now.plain_entries }
    {
        self.bin.len()
    }

    pub(crate) fn find<Q: Query<K>>(&self, hash: u64, key: Q) -> Option<&Entry<K, V, A>>
        ensures { option_map (λ e. numbered_pair e.now) result ≡ entry_of_live K.cmp self.now hash (Q.stands_for key) }
    {
        self.bin.find(hash, key).0
    }

    pub(crate) fn next_after(&self, bound: Option<(u64, &K)>) -> Option<&Entry<K, V, A>>
        ensures { option_map (λ e. numbered_pair e.now) result ≡ next_of_live K.cmp (lent_bound bound.entry) self.now }
    {
        self.bin.next_after(bound)
    }

    // Writes another value at a hash and a key that are present, and returns the old value.
    fn rewrite<Q: Query<K>>(
        &mut self,
        bins: usize,
        hash: u64,
        key: Q,
        value: Arc<V, A>,
    ) -> Arc<V, A>
        requires { IsSome (entry_of_live K.cmp self.old hash (Q.stands_for key)) }
        ensures old { value_of_live K.cmp self.old hash (Q.stands_for key) ≡ Some (arc_value result) }
        ensures after { self.new ≡ after_write K.cmp bins self.old hash (Q.stands_for key) (arc_value value) }
    {
        self.writes = self.writes.saturating_add(1);
        self.bin.write(hash, key, value, self.writes)
    }

    // Inserts a node, of the next write number, whose hash and key are absent. Returns whether the bin asks for a larger table.
    fn add(&mut self, bins: usize, node: BoxedNode<K, V, A>) -> bool
        requires absent { let e = entry_of node.value in entry_of_live K.cmp self.old e.hash (arc_value e.key) ≡ None }
        requires room { length self.old.plain_entries < MAX_LEN }
        requires number { (entry_of node.value).number ≡ next_number self.old.writes }
        ensures asks { let e = entry_of node.value in
            result ≡ asks K.cmp bins self.old e.hash (arc_value e.key) }
        ensures after { let e = entry_of node.value in
            self.new ≡ after_write K.cmp bins self.old e.hash (arc_value e.key) (arc_value e.value) }
    {
        self.writes = self.writes.saturating_add(1);
        put_node_in_bin(&mut self.bin, node, bins)
    }

    pub(crate) fn take<Q: Query<K>>(&mut self, hash: u64, key: Q) -> Option<Entry<K, V, A>>
        ensures entry { option_map numbered_pair result ≡ entry_of_live K.cmp self.old hash (Q.stands_for key) }
        ensures after { self.new ≡ after_take K.cmp self.old hash (Q.stands_for key) }
    {
        match self.bin.remove(hash, key) {
            Some(node) => Some(Box::into_inner(node).into_entry()),
            None => None,
        }
    }

    pub(crate) fn take_if<Q: Query<K>>(
        &mut self,
        hash: u64,
        key: Q,
        number: u64,
    ) -> Option<Entry<K, V, A>>
        ensures entry { option_map numbered_pair result ≡ take_if_reply K.cmp number self.old hash (Q.stands_for key) }
        ensures after { self.new ≡ after_take_if K.cmp number self.old hash (Q.stands_for key) }
    {
        let entry = self.find(hash, key)?;
        if entry.number == number && number < u64::MAX {
            self.take(hash, key)
        } else {
            None
        }
    }

    // Removes all entries, and returns them.
    pub(crate) fn drain(&mut self) -> Bin<K, V, A>
        ensures entries { numbered_pairs (entries_of_bin result) ≡ self.old.plain_entries }
        ensures after { self.new ≡ after_wipe self.old }
    {
        mem::replace(&mut self.bin, Bin::new())
    }

    // Returns the bin alone, without the count of writes.
    pub(crate) fn into_bin(self) -> Bin<K, V, A>
        ensures { live_of result self.writes ≡ self }
    {
        let LiveBin { bin, writes: _ } = self;
        bin
    }

    // Splits the bin into the entries whose hash has 0 at bit `bit`, and the others. Each half has the count of writes.
    pub(crate) fn split(self, bit: u8) -> (Self, Self)
        requires { bit < 64 }
        ensures low { result.0 ≡ half bit 0 self }
        ensures high { result.1 ≡ half bit 1 self }
    {
        let LiveBin { bin, writes } = self;
        let (low, high) = bin.split(bit);
        (LiveBin { bin: low, writes }, LiveBin { bin: high, writes })
    }
}

impl<K: Ord + Drop, V: Drop, A: Allocator + Copy> LiveBin<K, V, A> {
    // Creates the node of a new key, for the next write.
    fn new_node(
        &self,
        alloc: A,
        hash: u64,
        key: K,
        value: V,
    ) -> Result<BoxedNode<K, V, A>, NotInserted<K, V, A>>
        ensures node { IfOk result (λ b. IsEntryWith hash key value (next_number self.now.writes) (entry_of b.value)) }
        ensures room { OnOk result (length self.now.plain_entries < MAX_LEN) }
        ensures err { IfErr result (λ n. IsNotInserted key value n) }
    {
        if self.len() >= MAX_LEN {
            return Err(NotInserted {
                key: Given::Plain(key),
                value: Given::Plain(value),
            });
        }
        match Arc::new(alloc, value) {
            Ok(value) => Node::of_key(alloc, hash, key, value, self.writes.saturating_add(1)),
            Err(failed) => Err(NotInserted {
                key: Given::Plain(key),
                value: Given::Plain(failed.value),
            }),
        }
    }

    pub(crate) fn put(
        &mut self,
        alloc: A,
        bins: usize,
        hash: u64,
        key: K,
        value: Given<V, A>,
    ) -> Result<Inserted<K, V, A>, NotInserted<K, V, A>>
        ensures reply { IfOk result (λ w. view_of_inserted w ≡ write_reply K.cmp bins self.old hash key) }
        ensures after { OnOk result (self.new ≡ after_write K.cmp bins self.old hash key (given_of value)) }
        ensures key { IfOk result (λ w. IfReplaced w (λ it. it.key ≡ key)) }
        ensures err { IfErr result (λ n. IsNotInserted key (given_of value) n) }
        ensures refused { OnErr result (self.new ≡ self.old) }
    {
        if self.len() >= MAX_LEN {
            return Err(NotInserted {
                key: Given::Plain(key),
                value,
            });
        }
        match value.into_shared(alloc) {
            Ok(value) => self.put_shared(alloc, bins, hash, key, value),
            Err(value) => Err(NotInserted {
                key: Given::Plain(key),
                value,
            }),
        }
    }

    // Sets a value that is in an `Arc` already, in a bin that has room.
    fn put_shared(
        &mut self,
        alloc: A,
        bins: usize,
        hash: u64,
        key: K,
        value: Arc<V, A>,
    ) -> Result<Inserted<K, V, A>, NotInserted<K, V, A>>
        requires { length self.old.plain_entries < MAX_LEN }
        ensures reply { IfOk result (λ w. view_of_inserted w ≡ write_reply K.cmp bins self.old hash key) }
        ensures after { OnOk result (self.new ≡ after_write K.cmp bins self.old hash key (arc_value value)) }
        ensures key { IfOk result (λ w. IfReplaced w (λ it. it.key ≡ key)) }
        ensures err { IfErr result (λ n. IsNotInserted key (arc_value value) n) }
        ensures refused { OnErr result (self.new ≡ self.old) }
    {
        let number = self.writes.saturating_add(1);
        let inserted = insert_pair_in_bin(&mut self.bin, alloc, hash, key, value, number, bins)?;
        self.writes = number;
        Ok(inserted)
    }

    pub(crate) fn put_absent(
        &mut self,
        alloc: A,
        bins: usize,
        hash: u64,
        key: K,
        value: V,
    ) -> Result<Added<K, V, A>, NotInserted<K, V, A>>
        ensures reply { IfOk result (λ r. view_of_added r ≡ add_reply K.cmp bins self.old hash key value) }
        ensures after { OnOk result (self.new ≡ after_add K.cmp bins self.old hash key value) }
        ensures key { IfOk result (λ r. IfPresent r (λ k. k ≡ key)) }
        ensures err { IfErr result (λ n. IsNotInserted key value n) }
        ensures refused { OnErr result (self.new ≡ self.old) }
    {
        if let Some(entry) = self.find(hash, &key) {
            return match Arc::try_clone(&entry.value) {
                Ok(current) => Ok(Added::Present {
                    key,
                    error: TryInsertError {
                        current,
                        not_inserted: value,
                    },
                }),
                Err(_) => Err(NotInserted {
                    key: Given::Plain(key),
                    value: Given::Plain(value),
                }),
            };
        }
        let (value, asks_for_growth) = self.add_pair(alloc, bins, hash, key, value)?;
        Ok(Added::New {
            value,
            asks_for_growth,
        })
    }

    // Inserts a pair whose hash and key are absent. Returns a clone of the value's `Arc`, and whether the bin asks for a larger table.
    fn add_pair(
        &mut self,
        alloc: A,
        bins: usize,
        hash: u64,
        key: K,
        value: V,
    ) -> Result<(Arc<V, A>, bool), NotInserted<K, V, A>>
        requires { entry_of_live K.cmp self.old hash key ≡ None }
        ensures value { IfOk result (λ r. arc_value r.0 ≡ value) }
        ensures asks { IfOk result (λ r. r.1 ≡ asks K.cmp bins self.old hash key) }
        ensures after { OnOk result (self.new ≡ after_write K.cmp bins self.old hash key value) }
        ensures err { IfErr result (λ n. IsNotInserted key value n) }
        ensures refused { OnErr result (self.new ≡ self.old) }
    {
        let node = match self.new_node(alloc, hash, key, value) {
            Ok(node) => node,
            Err(pair) => return Err(pair),
        };
        let Ok(value) = Arc::try_clone(&node.entry().value) else {
            return Err(Box::into_inner(node).into_not_inserted());
        };
        let asks_for_growth = self.add(bins, node);
        Ok((value, asks_for_growth))
    }

    pub(crate) fn compute<Q: Query<K>, F: ComputeFn<K, V>>(
        &mut self,
        alloc: A,
        bins: usize,
        hash: u64,
        key: Q,
        f: F,
    ) -> Result<Computed<K, V, F, A>, Given<V, A>>
        requires callable { F.can_change f }
        requires changes { F.never_keeps f }
        ensures back { IfOk result (λ c. IfAbsent c (λ g. g ≡ f)) }
        ensures done { IfOk result (λ c. Computes K.cmp (F.changes f) bins self.old hash (Q.stands_for key)
            (outcome c) self.new) }
        ensures left { IfOk result (λ c. IsLeftOf (entry_of_live K.cmp self.old hash (Q.stands_for key)) c) }
        ensures refused { OnErr result (self.new ≡ self.old) }
        ensures in_vain { IfErr result (λ g. ComputesInVain K.cmp (F.changes f) self.old hash (Q.stands_for key)
            (given_of g)) }
    {
        let verdict = match self.find(hash, key) {
            Some(entry) => judge(f, entry),
            None => return Ok(Computed::Absent(f)),
        };
        match verdict {
            Verdict::Set(value) => match new_arc_pair(alloc, value) {
                Ok((value, new)) => {
                    let old = self.rewrite(bins, hash, key, value);
                    Ok(Computed::Changed { new, old })
                }
                Err(value) => Err(value),
            },
            Verdict::Remove => match self.take(hash, key) {
                Some(entry) => Ok(Computed::Removed(entry)),
                None => unreachable!(),
            },
            Verdict::Keep => unreachable!(),
        }
    }
}
