//! What a list and a tree of entries have in common.
ghost use Rattle.std.specs.Prelude.{◌≡◌, ℕ, ◌-◌, ◌<◌, ◌≤◌, List, length, Option, Some, IsSome, IsNone};
ghost use Rattle.std.specs.Option.{option_map, option_copied};
ghost use Rattle.std.specs.Arc.{arc_value};
ghost use Rattle.flurry_bins.specs.Entries.{IsAscending, entry_at, first_past, lent_bound, with_entry, with_value_at, without, with_bit};
ghost use Rattle.std.specs.declared.sync.Arc.{Arc};
ghost use Rattle.flurry_bins.specs.declared.bin.entry.Entry.{Entry};
ghost use Rattle.flurry_base.specs.declared.sizes.TheConstants.{MAX_LEN};

use super::entry::Entry;
use flurry_base::query::Query;
use std::alloc::Allocator;

/// The entries of a bin, in strictly ascending order of hash and key.
///
/// No call takes memory: nodes are passed in and returned as boxes, and are relinked.
///
/// ```
/// let (_entry, visits) = bin.find(hash, &key);
/// visits
/// ```
pub trait Ordered<K: Ord, V, A: Allocator>: Sized {
    // Each bin has the same three types. The trait has names of its own for them, since a method of a trait cannot take a value of a type
    // whose parameters have bounds with ghost members.

    /// A boxed node, `Box<Node<K, V, A>, A>`.
    type Boxed;

    /// A shared value, `Arc<V, A>`.
    type Shared;

    /// A list of entries, `ListBin<K, V, A>`.
    type List;

    // The entry in a boxed node.
    ghost entry_in: { Self.Boxed → Entry K V A };

    // The shared value itself.
    ghost shared: { Self.Shared → Arc V A };

    // The entries of a list.
    ghost listed: { Self.List → List (Entry K V A) };

    // The entries in their order.
    ghost entries: { Self → List (Entry K V A) };

    // The entries that are met on the way to a hash and a key.
    ghost way: { Self → ℕ → K → List (Entry K V A) };

    // The most entries that a way meets in a bin, by the number of its entries.
    ghost most_met: { ℕ → ℕ };

    /// Returns the number of entries. Constant time.
    fn len(&self) -> usize
        ensures { result ≡ length (entries self.now) };

    /// Returns the entry of `hash` and `key`, or `None` if there is none, and the number of nodes that were visited.
    ///
    /// A list visits the nodes up to the place. A tree of `n` entries visits at most twice as many nodes as `n + 1` has binary digits.
    fn find<Q: Query<K>>(&self, hash: u64, key: Q) -> (Option<&Entry<K, V, A>>, u64)
        ensures found { option_copied result.0 ≡ entry_at K.cmp hash (Q.stands_for key) (entries self.now) }
        ensures visits { result.1 ≡ length (way self.now hash (Q.stands_for key)) }
        ensures bounded { result.1 ≤ most_met (length (entries self.now)) };

    /// Returns the first entry past `bound`, or the first entry of all if there is no bound. A list visits the entries up to the one that
    /// is returned, and a tree follows one path down.
    fn next_after(&self, bound: Option<(u64, &K)>) -> Option<&Entry<K, V, A>>
        ensures { option_copied result ≡ first_past K.cmp (lent_bound bound.entry) (entries self.now) };

    /// Replaces the value at a hash and a key that are present, and returns the old value. As many steps as a look-up.
    fn write<Q: Query<K>>(
        &mut self,
        hash: u64,
        key: Q,
        value: Self::Shared,
        number: u64,
    ) -> Self::Shared
        requires { IsSome (entry_at K.cmp hash (Q.stands_for key) (entries self.old)) }
        ensures old { option_map (λ e. e.value) (entry_at K.cmp hash (Q.stands_for key) (entries self.old))
            ≡ Some (shared result) }
        ensures after { entries self.new ≡ with_value_at K.cmp hash (Q.stands_for key) (shared value) number
            (entries self.old) };

    /// Inserts a node whose hash and key are absent. As many steps as a look-up.
    fn put_node(&mut self, node: Self::Boxed)
        requires absent { let e = entry_in node in
            IsNone (entry_at K.cmp e.hash (arc_value e.key) (entries self.old)) }
        requires room { length (entries self.old) < MAX_LEN }
        ensures { entries self.new ≡ with_entry K.cmp (entry_in node) (entries self.old) };

    /// Removes the node of a hash and a key, and returns it, or `None` if there is none. As many steps as a look-up.
    fn remove<Q: Query<K>>(&mut self, hash: u64, key: Q) -> Option<Self::Boxed>
        ensures removed { option_map entry_in result
            ≡ entry_at K.cmp hash (Q.stands_for key) (entries self.old) }
        ensures after { entries self.new ≡ without K.cmp hash (Q.stands_for key) (entries self.old) };

    /// Splits the bin into the entries whose hash has a 0 at bit `bit`, and those whose hash has a 1 there. Linear time.
    fn split(self, bit: u8) -> (Self, Self)
        requires { bit < 64 }
        ensures low { entries result.0 ≡ with_bit bit 0 (entries self) }
        ensures high { entries result.1 ≡ with_bit bit 1 (entries self) };

    /// Returns the entries as a list. Linear time for a tree, and constant time for a list.
    fn into_list(self) -> Self::List
        ensures { listed result ≡ entries self };

    /// Creates a bin of the entries of `list`. Linear time if they become a tree, and constant time otherwise.
    fn from_list(list: Self::List) -> Self
        ensures { entries result ≡ listed list };

    ghost ascending: { (s : Self) → IsAscending K.cmp (entries s) };

    ghost short: { (s : Self) → length (entries s) ≤ MAX_LEN };

    ghost met_bounded: { (s : Self) (h : ℕ) (k : K) → length (way s h k) ≤ most_met (length (entries s)) };
}
