//! The iterators of an owned map. None of them takes memory.
ghost use Rattle.std.specs.Prelude.{◌≡◌, length, map, IfSome, IsPermutation};
ghost use Rattle.std.specs.Iterator.{YieldsFirstBy, UpTo, at_most, item_count};
ghost use Rattle.std.specs.Iterator.SizeHint.{IsWithinCount};
ghost use Rattle.flurry_bins.specs.Entries.{lent_bound};
ghost use Rattle.flurry_base.specs.FiniteMap.{IsFiniteMap, map_of_pairs};
ghost use Rattle.flurry_bins.specs.PlainEntries.{pair_of_entry};
ghost use Rattle.flurry_seq.specs.Iter.{pair_of_item, value_of_item, iter_place};
ghost use Rattle.flurry_seq.specs.Table.{all_entries, pair_of};
ghost use Rattle.flurry_seq.specs.Apart.{AreApart, AreHashed};
ghost use Rattle.flurry_seq.specs.MapsOfBins.{maps_of_bins};

use crate::seq_map::SeqMap;
use flurry_base::hash::KeyHasher;
use flurry_bins::bin::{Bin, Entry, Ordered};
use std::alloc::{Allocator, Global};
use std::marker::Model;
use std::sync::Arc;

// An iterator over the entries of a table, in the table's order. Contracts see it as the list of the entries that are left.
#[derive(Drop)]
pub(crate) struct Entries<'a, K: Ord, V, A: Allocator> {
    // The first of these bins has been visited up to and including the entry `last`.
    bins: &'a [Bin<K, V, A>],
    last: Option<&'a Entry<K, V, A>>,
    left: usize,
}

impl<'a, K: Ord, V, A: Allocator> Model for Entries<'a, K, V, A> {
    ghost use Rattle.std.specs.Prelude.{◌≡◌, ℕ, List, length};
    ghost use Rattle.flurry_seq.specs.Iter.{entries_left};

    ghost Value = { List ((ℕ × K) × V) };

    ghost view = { λ it. entries_left K.cmp it.bins.now it.last };

    ghost invariant = { λ it. it.left ≡ length (entries_left K.cmp it.bins.now it.last) };
}

// The place of an entry: its hash and its key.
fn place_of_last<'a, K, V, A: Allocator>(last: Option<&'a Entry<K, V, A>>) -> Option<(u64, &'a K)>
    ensures { lent_bound result ≡ iter_place last.entry }
{
    match last {
        Some(entry) => Some((entry.hash, entry.key.as_ref())),
        None => None,
    }
}

impl<'a, K: Ord, V, A: Allocator> Entries<'a, K, V, A> {
    fn new(bins: &'a [Bin<K, V, A>], left: usize) -> Entries<'a, K, V, A>
        requires { left ≡ length (all_entries (maps_of_bins bins.now)) }
        ensures { result ≡ all_entries (maps_of_bins bins.now) }
    {
        Entries {
            bins,
            last: None,
            left,
        }
    }
}

impl<'a, K: Ord + Drop, V: Drop, A: Allocator> Iterator for Entries<'a, K, V, A> {
    type Item = &'a Entry<K, V, A>;

    ghost next_gives = { YieldsFirstBy (λ e. pair_of_entry e.now) (λ it. it) };

    ghost remaining = { item_count (λ it. it) };

    fn next(&mut self) -> Option<&'a Entry<K, V, A>> {
        while let Some((bin, bins)) = self.bins.split_first() {
            if let Some(entry) = bin.next_after(place_of_last(self.last)) {
                self.last = Some(entry);
                self.left -= 1;
                return Some(entry);
            }
            self.bins = bins;
            self.last = None;
        }
        None
    }

    fn size_hint(&self) -> (usize, Option<usize>)
        ensures lower { IsWithinCount result.0 (at_most (length self.now)) }
        ensures upper { IfSome result.1 (UpTo (at_most (length self.now))) }
        ensures least { result.0 ≡ length self.now }
        ensures most { result.1 ≡ Some (length self.now) }
    {
        (self.left, Some(self.left))
    }
}

impl<'a, K: Ord + Drop, V: Drop, A: Allocator> ExactSizeIterator for Entries<'a, K, V, A> {
    fn len(&self) -> usize {
        self.left
    }
}

/// An iterator over the pairs of a map, each once, in unspecified order. Contracts see it as the list of the pairs that are left.
///
/// ```
/// let mut pairs: Iter<'_, u64, u64> = map.iter();
/// let _ = pairs.next();
/// pairs.len()
/// ```
#[derive(Drop)]
pub struct Iter<'a, K: Ord, V, A: Allocator = Global> {
    entries: Entries<'a, K, V, A>,
}

impl<'a, K: Ord, V, A: Allocator> Model for Iter<'a, K, V, A> {
    ghost use Rattle.std.specs.Prelude.{List, map};
    ghost use Rattle.flurry_seq.specs.Table.{pair_of};

    ghost Value = { List (K × V) };

    ghost view = { λ it. map pair_of it.entries };
}

impl<'a, K: Ord + Drop, V: Drop, A: Allocator> Iterator for Iter<'a, K, V, A> {
    type Item = (&'a Arc<K, A>, &'a Arc<V, A>);

    ghost next_gives = { YieldsFirstBy pair_of_item (λ it. it) };

    ghost remaining = { item_count (λ it. it) };

    fn next(&mut self) -> Option<(&'a Arc<K, A>, &'a Arc<V, A>)> {
        let entry = self.entries.next()?;
        Some((&entry.key, &entry.value))
    }

    fn size_hint(&self) -> (usize, Option<usize>)
        ensures lower { IsWithinCount result.0 (at_most (length self.now)) }
        ensures upper { IfSome result.1 (UpTo (at_most (length self.now))) }
        ensures least { result.0 ≡ length self.now }
        ensures most { result.1 ≡ Some (length self.now) }
    {
        self.entries.size_hint()
    }
}

impl<'a, K: Ord + Drop, V: Drop, A: Allocator> ExactSizeIterator for Iter<'a, K, V, A> {
    fn len(&self) -> usize {
        self.entries.len()
    }
}

/// An iterator over the stored keys of a map, one of each class, in unspecified order. Contracts see it as the list of the keys that are
/// left.
///
/// ```
/// let keys: Keys<'_, u64, u64> = map.keys();
/// keys.len()
/// ```
#[derive(Drop)]
pub struct Keys<'a, K: Ord, V, A: Allocator = Global> {
    entries: Entries<'a, K, V, A>,
}

impl<'a, K: Ord, V, A: Allocator> Model for Keys<'a, K, V, A> {
    ghost use Rattle.std.specs.Prelude.{List, map};

    ghost Value = { List K };

    ghost view = { λ it. map (λ e. e.0.1) it.entries };
}

impl<'a, K: Ord + Drop, V: Drop, A: Allocator> Iterator for Keys<'a, K, V, A> {
    type Item = &'a Arc<K, A>;

    ghost next_gives = { YieldsFirstBy value_of_item (λ it. it) };

    ghost remaining = { item_count (λ it. it) };

    fn next(&mut self) -> Option<&'a Arc<K, A>> {
        let entry = self.entries.next()?;
        Some(&entry.key)
    }

    fn size_hint(&self) -> (usize, Option<usize>)
        ensures lower { IsWithinCount result.0 (at_most (length self.now)) }
        ensures upper { IfSome result.1 (UpTo (at_most (length self.now))) }
        ensures least { result.0 ≡ length self.now }
        ensures most { result.1 ≡ Some (length self.now) }
    {
        self.entries.size_hint()
    }
}

impl<'a, K: Ord + Drop, V: Drop, A: Allocator> ExactSizeIterator for Keys<'a, K, V, A> {
    fn len(&self) -> usize {
        self.entries.len()
    }
}

/// An iterator over the values of a map, one of each pair, in unspecified order. Contracts see it as the list of the values that are left.
///
/// ```
/// let mut sum = 0u64;
/// let values: Values<'_, u64, u64> = map.values();
/// for value in values {
///     sum = sum.saturating_add(**value);
/// }
/// sum
/// ```
#[derive(Drop)]
pub struct Values<'a, K: Ord, V, A: Allocator = Global> {
    entries: Entries<'a, K, V, A>,
}

impl<'a, K: Ord, V, A: Allocator> Model for Values<'a, K, V, A> {
    ghost use Rattle.std.specs.Prelude.{List, map};

    ghost Value = { List V };

    ghost view = { λ it. map (λ e. e.1) it.entries };
}

impl<'a, K: Ord + Drop, V: Drop, A: Allocator> Iterator for Values<'a, K, V, A> {
    type Item = &'a Arc<V, A>;

    ghost next_gives = { YieldsFirstBy value_of_item (λ it. it) };

    ghost remaining = { item_count (λ it. it) };

    fn next(&mut self) -> Option<&'a Arc<V, A>> {
        let entry = self.entries.next()?;
        Some(&entry.value)
    }

    fn size_hint(&self) -> (usize, Option<usize>)
        ensures lower { IsWithinCount result.0 (at_most (length self.now)) }
        ensures upper { IfSome result.1 (UpTo (at_most (length self.now))) }
        ensures least { result.0 ≡ length self.now }
        ensures most { result.1 ≡ Some (length self.now) }
    {
        self.entries.size_hint()
    }
}

impl<'a, K: Ord + Drop, V: Drop, A: Allocator> ExactSizeIterator for Values<'a, K, V, A> {
    fn len(&self) -> usize {
        self.entries.len()
    }
}

impl<K: Ord + Drop, V: Drop, S: KeyHasher<K>, A: Allocator> SeqMap<K, V, S, A> {
    // The entries, in the order of the table.
    pub(crate) fn entries(&self) -> Entries<'_, K, V, A>
        ensures pairs { map_of_pairs K.cmp (map pair_of result) ≡ self.now.pairs }
        ensures apart { AreApart K.cmp (map pair_of result) }
        ensures hashed { AreHashed (S.hash_of self.now.hasher) result }
        ensures permuted { IsPermutation self.now.pairs (map pair_of result) }
        ensures count { length result ≡ length self.now.pairs }
        ensures ascend { IsFiniteMap K.cmp self.now.pairs }
    {
        Entries::new(self.table.bins(), self.len())
    }

    /// Returns an iterator over the pairs of a stored key and its value, each once, in unspecified order.
    ///
    /// Each step of the iterator costs at most a look-up, plus one step for each empty bin that it passes. A whole run passes each bin
    /// once.
    ///
    /// ```
    /// let mut map: SeqMap<u64, u64> = SeqMap::new(rt.alloc());
    /// map.insert(37, 1)?;
    /// map.insert(38, 2)?;
    /// let mut sum: u64 = 0;
    /// for (key, value) in map.iter() {
    ///     sum = sum.saturating_add(**key).saturating_add(**value);
    /// }
    /// assert_eq!(rt; sum, 78);
    /// ```
    pub fn iter(&self) -> Iter<'_, K, V, A>
        ensures pairs { IsPermutation self.now.pairs result }
        ensures count { length result ≡ length self.now.pairs }
        ensures ascend { IsFiniteMap K.cmp self.now.pairs }
    {
        Iter {
            entries: self.entries(),
        }
    }

    /// Returns an iterator over the stored keys, one of each class, in unspecified order. It is as fast as [`SeqMap::iter`].
    pub fn keys(&self) -> Keys<'_, K, V, A>
        ensures keys { IsPermutation (map (λ p. p.0) self.now.pairs) result }
        ensures count { length result ≡ length self.now.pairs }
        ensures ascend { IsFiniteMap K.cmp self.now.pairs }
    {
        Keys {
            entries: self.entries(),
        }
    }

    /// Returns an iterator over the values, one of each pair, in unspecified order. It is as fast as [`SeqMap::iter`].
    pub fn values(&self) -> Values<'_, K, V, A>
        ensures values { IsPermutation (map (λ p. p.1) self.now.pairs) result }
        ensures count { length result ≡ length self.now.pairs }
        ensures ascend { IsFiniteMap K.cmp self.now.pairs }
    {
        Values {
            entries: self.entries(),
        }
    }
}
