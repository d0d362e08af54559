//! Steps at a live bin by a function that makes a verdict of a pair.
ghost use Rattle.std.specs.Prelude.{◌≡◌, IfErr, IfOk, OnOk, OnErr, IsSome, Some, None, true, false};
ghost use Rattle.flurry_base.specs.Given.{given_of, IsNotInserted};
ghost use Rattle.flurry_base.specs.declared.verdict.Verdict.TheVariants.{Keep, Set};
ghost use Rattle.flurry_bins.specs.PlainEntries.{numbered_pair};
ghost use Rattle.flurry_bins_slots.specs.Slot.{entry_of_live, asks, verdict_outcome, after_verdict, JudgesAt, Alters, pair_of_entry};
ghost use Rattle.flurry_bins_slots.specs.LiveView.{alteration, alteration_if_present, key_back};

use super::LiveBin;
use crate::compute_fn::ComputeFn;
use flurry_base::Verdict;
use flurry_base::query::Query;
use flurry_bins::bin::{Entry, Given, NotInserted, Ordered};
use flurry_bins_insertion::table::new_arc_pair;
use std::alloc::Allocator;
use std::sync::Arc;

/// What came of the verdict of a function on the pair of a key.
///
/// ```
/// match answer {
///     Answer::Here((Altered::Added { value, .. }, _)) => Some(*value),
///     Answer::Here((Altered::Changed { new, .. }, _)) => Some(*new),
///     _ => None,
/// }
/// ```
#[derive(Drop)]
pub enum Altered<K, V, A: Allocator> {
    /// The key is absent, and no pair was added.
    Absent,
    /// The key was absent, and has a pair now.
    Added {
        /// A clone of the new value's `Arc`.
        value: Arc<V, A>,
        /// Whether the bin asks for a larger table.
        asks_for_growth: bool,
    },
    /// The key is present, and its pair was kept.
    Kept,
    /// The pair was removed: its entry.
    Removed(Entry<K, V, A>),
    /// The key has another value now.
    Changed {
        /// A clone of the new value's `Arc`.
        new: Arc<V, A>,
        /// The value that the key had.
        old: Arc<V, A>,
    },
}

impl<K: Ord + Drop, V: Drop, A: Allocator + Copy> LiveBin<K, V, A> {
    pub(crate) fn alter_present<Q: Query<K>, F: ComputeFn<K, V>>(
        &mut self,
        alloc: A,
        bins: usize,
        hash: u64,
        key: Q,
        f: F,
    ) -> Result<Result<Altered<K, V, A>, F>, Given<V, A>>
        requires { F.can_change f }
        ensures back { IfOk result (λ r. IfErr r (λ g. g ≡ f)) }
        ensures done { IfOk result (λ r. Alters K.cmp F.changes f false bins self.old hash (Q.stands_for key)
            (alteration_if_present r) self.new) }
        ensures refused { OnErr result (self.new ≡ self.old) }
        ensures in_vain { IfErr result (λ g. JudgesAt K.cmp F.changes f false self.old hash (Q.stands_for key)
            (Set (given_of g))) }
    {
        let verdict = match self.find(hash, key) {
            Some(entry) => judge(f, entry),
            None => return Ok(Err(f)),
        };
        match self.settle(alloc, bins, hash, key, verdict) {
            Ok(altered) => Ok(Ok(altered)),
            Err(value) => Err(value),
        }
    }

    pub(crate) fn alter<F: ComputeFn<K, V>>(
        &mut self,
        alloc: A,
        bins: usize,
        hash: u64,
        key: K,
        f: F,
    ) -> Result<(Altered<K, V, A>, Option<K>), NotInserted<K, V, A>>
        requires { F.can_change f }
        ensures done { IfOk result (λ r. Alters K.cmp F.changes f true bins self.old hash key
            (alteration r.0) self.new) }
        ensures key { IfOk result (λ r. r.1 ≡ key_back key (alteration r.0)) }
        ensures refused { OnErr result (self.new ≡ self.old) }
        ensures in_vain { IfErr result (λ n. (w : _) × IsNotInserted key w n
            × JudgesAt K.cmp F.changes f true self.old hash key (Set w)) }
    {
        let verdict = match self.find(hash, &key) {
            Some(entry) => judge(f, entry),
            None => return self.alter_absent(alloc, bins, hash, key, f),
        };
        match self.settle(alloc, bins, hash, &key, verdict) {
            Ok(altered) => Ok((altered, Some(key))),
            Err(value) => Err(NotInserted {
                key: Given::Plain(key),
                value,
            }),
        }
    }

    // Calls the function on an absent key and on none.
    fn alter_absent<F: ComputeFn<K, V>>(
        &mut self,
        alloc: A,
        bins: usize,
        hash: u64,
        key: K,
        f: F,
    ) -> Result<(Altered<K, V, A>, Option<K>), NotInserted<K, V, A>>
        requires callable { F.can_change f }
        requires absent { entry_of_live K.cmp self.old hash key ≡ None }
        ensures done { IfOk result (λ r. Alters K.cmp F.changes f true bins self.old hash key
            (alteration r.0) self.new) }
        ensures key { IfOk result (λ r. r.1 ≡ key_back key (alteration r.0)) }
        ensures refused { OnErr result (self.new ≡ self.old) }
        ensures in_vain { IfErr result (λ n. (w : _) × IsNotInserted key w n
            × JudgesAt K.cmp F.changes f true self.old hash key (Set w)) }
    {
        match f.change(&key, None) {
            Verdict::Set(value) => {
                let (value, asks_for_growth) = self.add_pair(alloc, bins, hash, key, value)?;
                Ok((
                    Altered::Added {
                        value,
                        asks_for_growth,
                    },
                    None,
                ))
            }
            Verdict::Keep | Verdict::Remove => Ok((Altered::Absent, Some(key))),
        }
    }

    // Does what a verdict says to the pair of a present key.
    fn settle<Q: Query<K>>(
        &mut self,
        alloc: A,
        bins: usize,
        hash: u64,
        key: Q,
        verdict: Verdict<V>,
    ) -> Result<Altered<K, V, A>, Given<V, A>>
        requires { IsSome (entry_of_live K.cmp self.old hash (Q.stands_for key)) }
        ensures outcome { IfOk result (λ a. alteration a
            ≡ verdict_outcome (asks K.cmp bins self.old hash (Q.stands_for key))
            (entry_of_live K.cmp self.old hash (Q.stands_for key)) verdict) }
        ensures after { OnOk result (self.new ≡ after_verdict K.cmp bins self.old hash (Q.stands_for key)
            (entry_of_live K.cmp self.old hash (Q.stands_for key)) verdict) }
        ensures refused { OnErr result (self.new ≡ self.old) }
        ensures in_vain { IfErr result (λ g. verdict ≡ Set (given_of g)) }
    {
        match verdict {
            Verdict::Keep => Ok(Altered::Kept),
            Verdict::Set(value) => match new_arc_pair(alloc, value) {
                Ok((value, new)) => {
                    let old = self.rewrite(bins, hash, key, value);
                    Ok(Altered::Changed { new, old })
                }
                Err(value) => Err(value),
            },
            Verdict::Remove => match self.take(hash, key) {
                Some(entry) => Ok(Altered::Removed(entry)),
                None => unreachable!(),
            },
        }
    }
}

// Calls the function on the key and the value of an entry.
pub(super) fn judge<'a, K, V, F: ComputeFn<K, V>, A: Allocator>(
    f: F,
    entry: &'a Entry<K, V, A>,
) -> Verdict<V>
    requires { F.can_change f }
    ensures verdict { let p = pair_of_entry (numbered_pair entry.now) in F.changes f p.0 (Some p.1) result }
    ensures kept { F.never_keeps f → result ≡ Keep → ⊥ }
{
    f.change(&entry.key, Some(&entry.value))
}
