//! A bin that is a list.
ghost use Rattle.std.specs.Prelude.{◌≡◌, ◌+◌, ◌<◌, ◌≤◌, ◌++◌, ◌∷◌, [], length, map, reverse, MatchOption, Option, Some, None, IsSome, IsNone, IfOk, OnErr, IfErr, IfSome};
ghost use Rattle.std.specs.Option.{option_map, option_copied};
ghost use Rattle.std.specs.Arc.{arc_value};
ghost use Rattle.flurry_base.specs.Given.{IsNotInserted, old_of};
ghost use Rattle.flurry_bins.specs.Entries.{IsAscending, IsAscending-prop, AllBefore, NotBefore, list_way, entry_at, first_past, lent_bound, with_entry, with_value_at, IsInsertion};
ghost use Rattle.flurry_base.specs.Greatest.{greatest};
ghost use Rattle.flurry_bins.specs.Short.{list_way-short};
ghost use Rattle.flurry_bins.specs.Chain.{chain, chain_from, node_chain, entry_of};
ghost use Rattle.flurry_base.specs.declared.sizes.TheConstants.{MAX_LEN};

mod retain;

use super::entry::Entry;
use super::node::{BoxedNode, Link, Node, follow};
use super::ordered::Ordered;
use flurry_base::given::{NotInserted, Replaced};
use flurry_base::query::Query;
use std::alloc::{AllocError, Allocator, Global};
use std::cmp::Ordering;
use std::mem;
use std::sync::Arc;

/// The entries of a bin as a chain of nodes. It suits a few entries: a look-up visits each node before its place.
///
/// Dropping the bin walks along the chain, so that a long chain does not overflow the stack.
///
/// ```
/// let mut list = ListBin::new();
/// list.put_node(Node::of_pair(alloc, hash, key, value, 0)?);
/// ```
pub struct ListBin<K: Ord, V, A: Allocator = Global> {
    pub(crate) head: Link<K, V, A>,
    len: usize,
    ghost ascending: { IsAscending K.cmp (chain head) } by { IsAscending-prop K.cmp (chain head) },
    ghost counted: { len ≡ length (chain head) },
    ghost short: { len ≤ MAX_LEN },
}

impl<K: Ord, V, A: Allocator> ListBin<K, V, A> {
    ghost use Rattle.flurry_bins.specs.Bin.{entries_of_list};

    /// Creates an empty bin. Constant time.
    pub fn new() -> Self
        ensures { entries_of_list result ≡ [] }
    {
        ListBin { head: None, len: 0 }
    }

    /// Returns the greatest write number of the entries, or 0 if there are none. Linear time.
    pub fn greatest_number(&self) -> u64
        ensures { result ≡ greatest (map (λ e. e.number) (entries_of_list self.now)) }
    {
        greatest_in(follow(&self.head))
    }

    pub(crate) fn from_chain(head: Link<K, V, A>, len: usize) -> Self
        requires ascending { IsAscending K.cmp (chain head) }
        requires counted { len ≡ length (chain head) }
        requires short { len ≤ MAX_LEN }
        ensures { chain result.head ≡ chain head }
    {
        ListBin { head, len }
    }

    pub(crate) fn into_chain(self) -> (Link<K, V, A>, usize)
        ensures head { chain result.0 ≡ chain self.head }
        ensures len { result.1 ≡ length (chain self.head) }
        ensures short { result.1 ≤ MAX_LEN }
        ensures ascending { IsAscending K.cmp (chain self.head) }
    {
        let ListBin { head, len } = self;
        (head, len)
    }
}

impl<K: Ord + Drop, V: Drop, A: Allocator> ListBin<K, V, A> {
    ghost use Rattle.flurry_bins.specs.Bin.{entries_of_list};

    /// Removes the first node, and returns it, or `None` if the list is empty. Constant time.
    pub fn pop_front(&mut self) -> Option<BoxedNode<K, V, A>>
        ensures { MatchOption result
            ((entries_of_list self.old ≡ []) × (entries_of_list self.new ≡ []))
            (λ b. entries_of_list self.old ≡ entry_of b.value ∷ entries_of_list self.new) }
    {
        let node = self.head.take()?;
        let (node, behind) = detach_tail(node);
        self.head = behind;
        self.len -= 1;
        Some(node)
    }
}

// Puts a node in front of the chain `behind`.
pub(crate) fn prepend<K: Drop, V: Drop, A: Allocator>(
    mut node: BoxedNode<K, V, A>,
    behind: Link<K, V, A>,
) -> BoxedNode<K, V, A>
    ensures { node_chain result.value ≡ entry_of node.value ∷ chain behind }
{
    node.right = behind;
    node
}

// Detaches the first node of a chain from those behind it, and returns both.
pub(crate) fn detach_tail<K, V, A: Allocator>(
    mut node: BoxedNode<K, V, A>,
) -> (BoxedNode<K, V, A>, Link<K, V, A>)
    ensures entry { entry_of result.0.value ≡ entry_of node.value }
    ensures behind { node_chain node.value ≡ entry_of node.value ∷ chain result.1 }
{
    let behind = node.right.take();
    (node, behind)
}

// The nodes before a place, in reverse order, and those from the place on.
fn split_before<Q: Query<K>, K: Ord, V, A: Allocator>(
    head: Link<K, V, A>,
    hash: u64,
    key: Q,
) -> (Link<K, V, A>, Link<K, V, A>)
    ensures whole { reverse (chain result.0) ++ chain result.1 ≡ chain head }
    ensures before { AllBefore K.cmp hash (Q.stands_for key) (chain result.0) }
    ensures stops { NotBefore K.cmp hash (Q.stands_for key) (chain result.1) }
{
    let mut rest = head;
    let mut front = None;
    while let Some(mut node) = rest {
        if node.entry.compare_place(hash, key) != Ordering::Greater {
            return (front, Some(node));
        }
        rest = mem::replace(&mut node.right, front);
        front = Some(node);
    }
    (front, None)
}

// The nodes of the chain `front` in reverse order, and then those of the chain `back`.
fn prepend_reversed<K, V, A: Allocator>(front: Link<K, V, A>, back: Link<K, V, A>) -> Link<K, V, A>
    ensures { chain result ≡ reverse (chain front) ++ chain back }
{
    let mut from = front;
    let mut to = back;
    while let Some(mut node) = from {
        from = mem::replace(&mut node.right, to);
        to = Some(node);
    }
    to
}

// Sets the value at a place that no node of the chain is before: in the first node if it is at the place, and otherwise in a new node in
// front of the chain. Returns the old value, or `None` for a new node. If memory for the new node cannot be allocated, the chain is
// unchanged.
fn insert_first<K: Ord + Drop, V: Drop, A: Allocator + Copy>(
    rest: &mut Link<K, V, A>,
    alloc: A,
    hash: u64,
    key: K,
    value: Arc<V, A>,
    number: u64,
) -> Result<Option<Replaced<K, V, A>>, NotInserted<K, V, A>>
    requires ascending { IsAscending K.cmp (chain rest.old) }
    requires stops { NotBefore K.cmp hash key (chain rest.old) }
    ensures ok { IfOk result
        (λ r. IsInsertion K.cmp hash key value number (old_of r) (chain rest.old) (chain rest.new)) }
    ensures key { IfOk result (λ r. IfSome r (λ it. it.key ≡ key)) }
    ensures err { IfErr result (λ n. IsNotInserted key (arc_value value) n) }
    ensures same { OnErr result (chain rest.new ≡ chain rest.old) }
{
    if let Some(first) = rest {
        if first.entry.is_at(hash, &key) {
            let old = first.write(value, number);
            return Ok(Some(Replaced { key, old }));
        }
    }
    let node = Node::of_key(alloc, hash, key, value, number)?;
    *rest = Some(prepend(node, rest.take()));
    Ok(None)
}

// The entry at a place in the chain from a node on, and the number of nodes that were visited.
pub(crate) fn find_in<'a, Q: Query<K>, K: Ord, V, A: Allocator>(
    first: Option<&'a Node<K, V, A>>,
    hash: u64,
    key: Q,
) -> (Option<&'a Entry<K, V, A>>, u64)
    requires ascending { IsAscending K.cmp (chain_from first) }
    requires short { length (chain_from first) ≤ MAX_LEN }
    ensures found { option_copied result.0 ≡ entry_at K.cmp hash (Q.stands_for key) (chain_from first.entry) }
    ensures visits { result.1 ≡ length (list_way K.cmp hash (Q.stands_for key) (chain_from first.entry)) }
{
    let mut visits = 0;
    let mut link = first;
    while let Some(node) = link {
        visits += 1;
        match node.entry.compare_place(hash, key) {
            Ordering::Less => return (None, visits),
            Ordering::Equal => return (Some(&node.entry), visits),
            Ordering::Greater => link = follow(&node.right),
        }
    }
    (None, visits)
}

// The first entry that is past a bound, in the chain from a node on.
pub(crate) fn next_in<'a, K: Ord, V, A: Allocator>(
    first: Option<&'a Node<K, V, A>>,
    bound: Option<(u64, &K)>,
) -> Option<&'a Entry<K, V, A>>
    ensures { option_copied result ≡ first_past K.cmp (lent_bound bound.entry) (chain_from first.entry) }
{
    let mut link = first;
    while let Some(node) = link {
        if node.entry.is_past(bound) {
            return Some(&node.entry);
        }
        link = follow(&node.right);
    }
    None
}

// The greatest write number in the chain from a node on.
pub(crate) fn greatest_in<K, V, A: Allocator>(first: Option<&Node<K, V, A>>) -> u64
    ensures { result ≡ greatest (map (λ e. e.number) (chain_from first.entry)) }
{
    let mut greatest = 0;
    let mut link = first;
    while let Some(node) = link {
        greatest = node.entry.number.max(greatest);
        link = follow(&node.right);
    }
    greatest
}

impl<K: Ord + Drop, V: Drop, A: Allocator + Copy> ListBin<K, V, A> {
    ghost use Rattle.flurry_bins.specs.Bin.{entries_of_list};

    // Sets the value at a place, and returns the old value, or `None` if there was none. In that case memory for the key and a node is
    // taken; if it cannot be allocated, the list is unchanged.
    pub(crate) fn insert(
        &mut self,
        alloc: A,
        hash: u64,
        key: K,
        value: Arc<V, A>,
        number: u64,
    ) -> Result<Option<Replaced<K, V, A>>, NotInserted<K, V, A>>
        requires { length (entries_of_list self.old) < MAX_LEN }
        ensures ok { IfOk result (λ r.
            IsInsertion K.cmp hash key value number (old_of r) (entries_of_list self.old) (entries_of_list self.new)) }
        ensures key { IfOk result (λ r. IfSome r (λ it. it.key ≡ key)) }
        ensures err { IfErr result (λ n. IsNotInserted key (arc_value value) n) }
        ensures same { OnErr result (entries_of_list self.new ≡ entries_of_list self.old) }
    {
        let (front, mut rest) = split_before(self.head.take(), hash, &key);
        let reply = insert_first(&mut rest, alloc, hash, key, value, number);
        self.head = prepend_reversed(front, rest);
        let replaced = reply?;
        if replaced.is_none() {
            self.len += 1;
        }
        Ok(replaced)
    }
}

impl<K: Ord + Drop, V: Drop, A: Allocator> Drop for ListBin<K, V, A> {
    // Walks along the chain, so that a long one does not overflow the stack.
    fn drop(self) {
        let ListBin { head, len: _ } = self;
        let mut rest = head;
        while let Some(mut node) = rest {
            rest = node.right.take();
        }
    }
}

impl<K: Ord + Drop, V: Drop, A: Allocator> Ordered<K, V, A> for ListBin<K, V, A> {
    ghost use Rattle.flurry_bins.specs.Bin.{entries_of_list, ascending_of_list, short_of_list};

    type Boxed = Box<Node<K, V, A>, A>;

    type Shared = Arc<V, A>;

    type List = ListBin<K, V, A>;

    ghost entry_in = { λ b. entry_of b.value };

    ghost shared = { λ v. v };

    ghost listed = { λ b. entries_of_list b };

    ghost entries = { λ b. entries_of_list b };

    ghost way = { λ b h k. list_way K.cmp h k (entries_of_list b) };

    ghost most_met = { λ n. n };

    ghost ascending = { λ b. ascending_of_list b };

    ghost short = { λ b. short_of_list b };

    ghost met_bounded = { λ b h k. list_way-short K.cmp h k (entries_of_list b) };

    fn len(&self) -> usize {
        self.len
    }

    fn find<Q: Query<K>>(&self, hash: u64, key: Q) -> (Option<&Entry<K, V, A>>, u64) {
        find_in(follow(&self.head), hash, key)
    }

    fn next_after(&self, bound: Option<(u64, &K)>) -> Option<&Entry<K, V, A>> {
        next_in(follow(&self.head), bound)
    }

    fn write<Q: Query<K>>(&mut self, hash: u64, key: Q, value: Arc<V, A>, number: u64) -> Arc<V, A>
        requires { IsSome (entry_at K.cmp hash (Q.stands_for key) (entries_of_list self.old)) }
        ensures old { option_map (λ e. e.value) (entry_at K.cmp hash (Q.stands_for key) (entries_of_list self.old))
            ≡ Some result }
        ensures after { entries_of_list self.new
            ≡ with_value_at K.cmp hash (Q.stands_for key) value number (entries_of_list self.old) }
    {
        let (front, rest) = split_before(self.head.take(), hash, key);
        let Some(mut node) = rest else { unreachable!() };
        let old = node.write(value, number);
        self.head = prepend_reversed(front, Some(node));
        old
    }

    fn put_node(&mut self, node: BoxedNode<K, V, A>)
        requires absent { let e = entry_of node.value in
            IsNone (entry_at K.cmp e.hash (arc_value e.key) (entries_of_list self.old)) }
        requires room { length (entries_of_list self.old) < MAX_LEN }
        ensures { entries_of_list self.new ≡ with_entry K.cmp (entry_of node.value) (entries_of_list self.old) }
    {
        let entry = node.entry();
        let (front, rest) = split_before(self.head.take(), entry.hash, entry.key.as_ref());
        self.head = prepend_reversed(front, Some(prepend(node, rest)));
        self.len += 1;
    }

    fn remove<Q: Query<K>>(&mut self, hash: u64, key: Q) -> Link<K, V, A> {
        let (front, rest) = split_before(self.head.take(), hash, key);
        let Some(node) = rest else {
            self.head = prepend_reversed(front, None);
            return None;
        };
        if !node.entry.is_at(hash, key) {
            self.head = prepend_reversed(front, Some(node));
            return None;
        }
        let (node, behind) = detach_tail(node);
        self.head = prepend_reversed(front, behind);
        self.len -= 1;
        Some(node)
    }

    fn split(self, bit: u8) -> (Self, Self) {
        let ListBin { head, len: _ } = self;
        let mut rest = head;
        let mut low = None;
        let mut high = None;
        let mut low_len = 0;
        let mut high_len = 0;
        while let Some(mut node) = rest {
            if (node.entry.hash >> bit) & 1 == 0 {
                rest = mem::replace(&mut node.right, low);
                low = Some(node);
                low_len += 1;
            } else {
                rest = mem::replace(&mut node.right, high);
                high = Some(node);
                high_len += 1;
            }
        }
        let low = ListBin {
            head: prepend_reversed(low, None),
            len: low_len,
        };
        let high = ListBin {
            head: prepend_reversed(high, None),
            len: high_len,
        };
        (low, high)
    }

    fn into_list(self) -> ListBin<K, V, A> {
        self
    }

    fn from_list(list: ListBin<K, V, A>) -> Self
        ensures { entries_of_list result ≡ entries_of_list list }
    {
        list
    }
}
