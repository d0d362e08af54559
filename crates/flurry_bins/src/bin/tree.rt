//! A bin that is a red-black tree.
ghost use Rattle.std.specs.Prelude.{◌≡◌, ◌^◌, ◌*◌, ◌+◌, ◌<◌, ◌≤◌, ◌++◌, length, map, Option, Some, None, IfSome, IsSome, IsNone, IfOk, OnErr, IfErr};
ghost use Rattle.std.specs.Option.{option_map, option_copied};
ghost use Rattle.std.specs.Arc.{arc_value};
ghost use Rattle.flurry_base.specs.Given.{IsNotInserted, old_of};
ghost use Rattle.flurry_bins.specs.Entries.{IsAscending, IsAscending-prop, AllHashed, last_of, entry_at, first_past, lent_bound, with_entry, with_value_at, IsInsertion};
ghost use Rattle.flurry_bins.specs.Chain.{chain, entry_of, colour_of};
ghost use Rattle.flurry_base.specs.Greatest.{greatest};
ghost use Rattle.flurry_bins.specs.Balance.{red_root, red_over_red, leans_left, leans_right, with_black_root, balance_left, balance_right, balanced_left, balanced_right, put_tree};
ghost use Rattle.flurry_bins.specs.Tree as tree;
ghost use Rattle.flurry_bins.specs.Tree.{shape, shape_from, node_shape, inorder, IsRedBlack, IsRedBlack-prop, black_height, tree_way};
ghost use Rattle.flurry_bins.specs.WayBound.{way_bound, way_within};
ghost use Rattle.flurry_bins.specs.Rewrite.{tree_with_value, tree_value};
ghost use Rattle.flurry_bins.specs.TreeInsertion.{IsTreeInsertion};
ghost use Rattle.flurry_base.specs.declared.sizes.TheConstants.{MAX_LEN};

use super::entry::Entry;
use super::list::{ListBin, detach_tail, prepend};
use super::node::{BoxedNode, Colour, Link, Node, follow};
use super::ordered::Ordered;
use super::removal::remove_in;
use flurry_base::given::{NotInserted, Replaced};
use flurry_base::query::Query;
use std::alloc::{AllocError, Allocator, Global};
use std::cmp::Ordering;
use std::sync::Arc;

/// The entries of a bin as a red-black tree. A look-up among `n` entries visits at most twice as many nodes as `n + 1` has binary digits.
///
/// Its calls recurse no deeper than the height of the tree.
///
/// ```
/// let tree = TreeBin::from_list(list);
/// Ok(tree.len())
/// ```
#[derive(Drop)]
pub struct TreeBin<K: Ord, V, A: Allocator = Global> {
    pub(crate) root: Link<K, V, A>,
    pub(crate) len: usize,
    ghost ascending: { IsAscending K.cmp (inorder (shape root)) } by { IsAscending-prop K.cmp (inorder (shape root)) },
    ghost balanced: { IsRedBlack (shape root) } by { IsRedBlack-prop (shape root) },
    ghost counted: { len ≡ length (inorder (shape root)) },
    ghost short: { len ≤ MAX_LEN },
}

// The entry at a place in the tree below a node, and the number of nodes that were visited.
pub(crate) fn find_in<'a, Q: Query<K>, K: Ord, V, A: Allocator>(
    root: Option<&'a Node<K, V, A>>,
    hash: u64,
    key: Q,
) -> (Option<&'a Entry<K, V, A>>, u64)
    requires ascending { IsAscending K.cmp (inorder (shape_from root)) }
    requires short { length (inorder (shape_from root)) ≤ MAX_LEN }
    ensures found { option_copied result.0 ≡ entry_at K.cmp hash (Q.stands_for key) (inorder (shape_from root.entry)) }
    ensures visits { result.1 ≡ length (tree_way K.cmp hash (Q.stands_for key) (shape_from root.entry)) }
{
    let mut visits = 0;
    let mut link = root;
    while let Some(node) = link {
        visits += 1;
        match node.entry.compare_place(hash, key) {
            Ordering::Less => link = follow(&node.left),
            Ordering::Equal => return (Some(&node.entry), visits),
            Ordering::Greater => link = follow(&node.right),
        }
    }
    (None, visits)
}

// The node with this colour and the sides `left` and `right`.
pub(crate) fn link_children<K: Drop, V: Drop, A: Allocator>(
    colour: Colour,
    left: Link<K, V, A>,
    mut node: BoxedNode<K, V, A>,
    right: Link<K, V, A>,
) -> BoxedNode<K, V, A>
    ensures { node_shape result.value ≡ tree.fork colour (shape left) (entry_of node.value) (shape right) }
{
    node.colour = colour;
    node.left = left;
    node.right = right;
    node
}

// Detaches the sides of a node. Returns the left side, the node, and the right side.
pub(crate) fn take_children<K, V, A: Allocator>(
    mut node: BoxedNode<K, V, A>,
) -> (Link<K, V, A>, BoxedNode<K, V, A>, Link<K, V, A>)
    ensures entry { entry_of result.1.value ≡ entry_of node.value }
    ensures colour { colour_of result.1.value ≡ colour_of node.value }
    ensures sides { node_shape node.value
        ≡ tree.fork (colour_of node.value) (shape result.0) (entry_of node.value) (shape result.2) }
{
    let left = node.left.take();
    let right = node.right.take();
    (left, node, right)
}

pub(crate) fn has_red_root<K, V, A: Allocator>(link: &Link<K, V, A>) -> bool
    ensures { result ≡ red_root (shape link.now) }
{
    match link {
        None => false,
        Some(node) => node.colour == Colour::Red,
    }
}

// The tree with its root made black.
pub(crate) fn blacken<K, V, A: Allocator>(link: Link<K, V, A>) -> Link<K, V, A>
    ensures { shape result ≡ with_black_root (shape link) }
{
    match link {
        None => None,
        Some(mut node) => {
            node.colour = Colour::Black;
            Some(node)
        }
    }
}

// Balances a node and its sides, of which the left one may have a red root over a red child, and returns the root.
fn balance_left<K: Drop, V: Drop, A: Allocator>(
    left: BoxedNode<K, V, A>,
    node: BoxedNode<K, V, A>,
    right: Link<K, V, A>,
) -> BoxedNode<K, V, A>
    ensures { node_shape result.value
        ≡ balance_left (colour_of node.value) (node_shape left.value) (entry_of node.value) (shape right) }
{
    let colour = node.colour;
    let left_colour = left.colour;
    let (a, left, b) = take_children(left);
    if colour == Colour::Black && left_colour == Colour::Red {
        if has_red_root(&a) {
            let node = link_children(Colour::Black, b, node, right);
            return link_children(Colour::Red, blacken(a), left, Some(node));
        }
        if has_red_root(&b) {
            let Some(inner) = b else { unreachable!() };
            let (b, inner, d) = take_children(inner);
            let left = link_children(Colour::Black, a, left, b);
            let node = link_children(Colour::Black, d, node, right);
            return link_children(Colour::Red, Some(left), inner, Some(node));
        }
    }
    let left = link_children(left_colour, a, left, b);
    link_children(colour, Some(left), node, right)
}

// Balances a node and its sides, of which the right one may have a red root over a red child, and returns the root.
fn balance_right<K: Drop, V: Drop, A: Allocator>(
    left: Link<K, V, A>,
    node: BoxedNode<K, V, A>,
    right: BoxedNode<K, V, A>,
) -> BoxedNode<K, V, A>
    ensures { node_shape result.value
        ≡ balance_right (colour_of node.value) (shape left) (entry_of node.value) (node_shape right.value) }
{
    let colour = node.colour;
    let right_colour = right.colour;
    let (b, right, a) = take_children(right);
    if colour == Colour::Black && right_colour == Colour::Red {
        if has_red_root(&a) {
            let node = link_children(Colour::Black, left, node, b);
            return link_children(Colour::Red, Some(node), right, blacken(a));
        }
        if has_red_root(&b) {
            let Some(inner) = b else { unreachable!() };
            let (d, inner, b) = take_children(inner);
            let node = link_children(Colour::Black, left, node, d);
            let right = link_children(Colour::Black, b, right, a);
            return link_children(Colour::Red, Some(node), inner, Some(right));
        }
    }
    let right = link_children(right_colour, b, right, a);
    link_children(colour, left, node, Some(right))
}

// Whether the root of a tree is red and has a red child.
fn is_red_over_red<K, V, A: Allocator>(link: &Link<K, V, A>) -> bool
    ensures { result ≡ red_over_red (shape link.now) }
{
    match link {
        None => false,
        Some(node) => {
            node.colour == Colour::Red && (has_red_root(&node.left) || has_red_root(&node.right))
        }
    }
}

// Whether the root of a tree is black, and its left child is red and has a red child.
fn leans_left<K, V, A: Allocator>(root: &Link<K, V, A>) -> bool
    ensures { result ≡ leans_left (shape root.now) }
{
    match root {
        None => false,
        Some(node) => node.colour == Colour::Black && is_red_over_red(&node.left),
    }
}

// Whether the root of a tree is black, and its right child is red and has a red child.
fn leans_right<K, V, A: Allocator>(root: &Link<K, V, A>) -> bool
    ensures { result ≡ leans_right (shape root.now) }
{
    match root {
        None => false,
        Some(node) => node.colour == Colour::Black && is_red_over_red(&node.right),
    }
}

// Balances a tree in place whose left side may have a red root over a red child. Mostly it has not, and nothing is written.
fn settle_left<K: Drop, V: Drop, A: Allocator>(root: &mut Link<K, V, A>)
    ensures { shape root.new ≡ balanced_left (shape root.old) }
{
    if !leans_left(root) {
        return;
    }
    let Some(node) = root.take() else { return };
    let (left, node, right) = take_children(node);
    let Some(left) = left else { unreachable!() };
    *root = Some(balance_left(left, node, right));
}

// Balances a tree in place whose right side may have a red root over a red child. Mostly it has not, and nothing is written.
fn settle_right<K: Drop, V: Drop, A: Allocator>(root: &mut Link<K, V, A>)
    ensures { shape root.new ≡ balanced_right (shape root.old) }
{
    if !leans_right(root) {
        return;
    }
    let Some(node) = root.take() else { return };
    let (left, node, right) = take_children(node);
    let Some(right) = right else { unreachable!() };
    *root = Some(balance_right(left, node, right));
}

// Inserts a node into a tree. If the root was red, the new root may be red over a red child.
fn put_in<K: Ord + Drop, V: Drop, A: Allocator>(root: &mut Link<K, V, A>, node: BoxedNode<K, V, A>)
    ensures { shape root.new ≡ put_tree K.cmp (entry_of node.value) (shape root.old) }
{
    let Some(top) = root else {
        *root = Some(link_children(Colour::Red, None, node, None));
        return;
    };
    let entry = node.entry();
    if top.entry.compare_place(entry.hash, entry.key.as_ref()) == Ordering::Less {
        put_in(&mut top.left, node);
        settle_left(root);
    } else {
        put_in(&mut top.right, node);
        settle_right(root);
    }
}

// Replaces the value at a place, and returns the old value, or `None` if there is none.
fn write_in<Q: Query<K>, K: Ord + Drop, V: Drop, A: Allocator>(
    root: &mut Link<K, V, A>,
    hash: u64,
    key: Q,
    value: Arc<V, A>,
    number: u64,
) -> Option<Arc<V, A>>
    ensures old { result ≡ tree_value K.cmp hash (Q.stands_for key) (shape root.old) }
    ensures after { shape root.new ≡ tree_with_value K.cmp hash (Q.stands_for key) value number (shape root.old) }
{
    let Some(node) = root else { return None };
    match node.entry.compare_place(hash, key) {
        Ordering::Less => write_in(&mut node.left, hash, key, value, number),
        Ordering::Equal => Some(node.write(value, number)),
        Ordering::Greater => write_in(&mut node.right, hash, key, value, number),
    }
}

// Sets the value at a place, in one pass down the tree. Returns the old value, or `None` if a new node was inserted. If memory for the new
// node cannot be allocated, the tree is unchanged.
fn insert_in<K: Ord + Drop, V: Drop, A: Allocator + Copy>(
    root: &mut Link<K, V, A>,
    alloc: A,
    hash: u64,
    key: K,
    value: Arc<V, A>,
    number: u64,
) -> Result<Option<Replaced<K, V, A>>, NotInserted<K, V, A>>
    ensures ok { IfOk result (λ r.
        IsTreeInsertion K.cmp hash key value number (old_of r) (shape root.old) (shape root.new)) }
    ensures key { IfOk result (λ r. IfSome r (λ it. it.key ≡ key)) }
    ensures err { IfErr result (λ n. IsNotInserted key (arc_value value) n) }
    ensures same { OnErr result (shape root.new ≡ shape root.old) }
{
    let Some(top) = root else {
        let node = Node::of_key(alloc, hash, key, value, number)?;
        *root = Some(link_children(Colour::Red, None, node, None));
        return Ok(None);
    };
    match top.entry.compare_place(hash, &key) {
        Ordering::Less => {
            let replaced = insert_in(&mut top.left, alloc, hash, key, value, number)?;
            if replaced.is_none() {
                settle_left(root);
            }
            Ok(replaced)
        }
        Ordering::Equal => {
            let old = top.write(value, number);
            Ok(Some(Replaced { key, old }))
        }
        Ordering::Greater => {
            let replaced = insert_in(&mut top.right, alloc, hash, key, value, number)?;
            if replaced.is_none() {
                settle_right(root);
            }
            Ok(replaced)
        }
    }
}

// The first entry that is past a bound, in the tree below a node.
pub(crate) fn next_in<'a, K: Ord, V, A: Allocator>(
    root: Option<&'a Node<K, V, A>>,
    bound: Option<(u64, &K)>,
) -> Option<&'a Entry<K, V, A>>
    requires { IsAscending K.cmp (inorder (shape_from root)) }
    ensures { option_copied result ≡ first_past K.cmp (lent_bound bound.entry) (inorder (shape_from root.entry)) }
{
    let mut link = root;
    let mut best = None;
    while let Some(node) = link {
        if node.entry.is_past(bound) {
            best = Some(&node.entry);
            link = follow(&node.left);
        } else {
            link = follow(&node.right);
        }
    }
    best
}

// The last entry in the tree below a node.
fn last_in<'a, K, V, A: Allocator>(root: Option<&'a Node<K, V, A>>) -> Option<&'a Entry<K, V, A>>
    ensures { option_copied result ≡ last_of (inorder (shape_from root.entry)) }
{
    let mut link = root;
    let mut best = None;
    while let Some(node) = link {
        best = Some(&node.entry);
        link = follow(&node.right);
    }
    best
}

// The hash that all entries in the tree below a node have in common, if there is one: it is so if the first and the last entry have the
// same hash.
pub(crate) fn only_hash<'a, K: Ord, V, A: Allocator>(root: Option<&'a Node<K, V, A>>) -> Option<u64>
    requires { IsAscending K.cmp (inorder (shape_from root)) }
    ensures { IfSome result (λ h. AllHashed h (inorder (shape_from root.entry))) }
{
    let bound: Option<(u64, &'a K)> = None;
    let first = next_in(root, bound)?;
    let last = last_in(root)?;
    if first.hash == last.hash {
        Some(last.hash)
    } else {
        None
    }
}

// The greatest write number in the tree below a node.
pub(crate) fn greatest_in<K, V, A: Allocator>(root: Option<&Node<K, V, A>>) -> u64
    ensures { result ≡ greatest (map (λ e. e.number) (inorder (shape_from root.entry))) }
{
    let Some(node) = root else { return 0 };
    let left = greatest_in(follow(&node.left));
    let right = greatest_in(follow(&node.right));
    left.max(node.entry.number.max(right))
}

impl<K: Ord, V, A: Allocator> TreeBin<K, V, A> {
    ghost use Rattle.flurry_bins.specs.Bin.{entries_of_tree};

    /// Returns the greatest write number of the entries, or 0 if there are none. Linear time.
    pub fn greatest_number(&self) -> u64
        ensures { result ≡ greatest (map (λ e. e.number) (entries_of_tree self.now)) }
    {
        greatest_in(follow(&self.root))
    }
}

impl<K: Ord + Drop, V: Drop, A: Allocator + Copy> TreeBin<K, V, A> {
    ghost use Rattle.flurry_bins.specs.Bin.{entries_of_tree};

    // Sets the value at a place, and returns the old value, or `None` if there was none. In that case memory for the key and a node is
    // taken; if it cannot be allocated, the tree is unchanged.
    pub(crate) fn insert(
        &mut self,
        alloc: A,
        hash: u64,
        key: K,
        value: Arc<V, A>,
        number: u64,
    ) -> Result<Option<Replaced<K, V, A>>, NotInserted<K, V, A>>
        requires { length (entries_of_tree self.old) < MAX_LEN }
        ensures ok { IfOk result (λ r.
            IsInsertion K.cmp hash key value number (old_of r) (entries_of_tree self.old) (entries_of_tree self.new)) }
        ensures key { IfOk result (λ r. IfSome r (λ it. it.key ≡ key)) }
        ensures err { IfErr result (λ n. IsNotInserted key (arc_value value) n) }
        ensures same { OnErr result (entries_of_tree self.new ≡ entries_of_tree self.old) }
    {
        let replaced = insert_in(&mut self.root, alloc, hash, key, value, number)?;
        if replaced.is_none() {
            self.root = blacken(self.root.take());
            self.len += 1;
        }
        Ok(replaced)
    }
}

// The nodes of a tree as a chain, in front of the chain `behind`.
fn flatten_onto<K: Drop, V: Drop, A: Allocator>(
    root: Link<K, V, A>,
    behind: Link<K, V, A>,
) -> Link<K, V, A>
    ensures { chain result ≡ inorder (shape root) ++ chain behind }
{
    let Some(root) = root else {
        return behind;
    };
    let (left, root, right) = take_children(root);
    let behind = flatten_onto(right, behind);
    flatten_onto(left, Some(prepend(root, behind)))
}

// A tree of the first `count` nodes of a chain, with `blacks` black nodes on each path down, and the rest of the chain.
fn build_balanced<K: Drop, V: Drop, A: Allocator>(
    count: usize,
    blacks: u32,
    from: Link<K, V, A>,
) -> (Link<K, V, A>, Link<K, V, A>)
    requires enough { count ≤ length (chain from) }
    requires low { 2 ^ blacks ≤ count + 1 }
    requires high { count + 1 ≤ 2 * 2 ^ blacks }
    requires fits { count < 2 ^ 63 }
    ensures whole { inorder (shape result.0) ++ chain result.1 ≡ chain from }
    ensures counted { length (inorder (shape result.0)) ≡ count }
    ensures balanced { IsRedBlack (shape result.0) }
    ensures blacks { black_height (shape result.0) ≡ blacks }
{
    if count == 0 {
        return (None, from);
    }
    let before = count / 2;
    if blacks == 0 {
        let Some(node) = from else { unreachable!() };
        let (node, from) = detach_tail(node);
        return (Some(link_children(Colour::Red, None, node, None)), from);
    }
    let (left, from) = build_balanced(before, blacks - 1, from);
    let Some(node) = from else { unreachable!() };
    let (node, from) = detach_tail(node);
    let (right, from) = build_balanced(count - 1 - before, blacks - 1, from);
    (Some(link_children(Colour::Black, left, node, right)), from)
}

impl<K: Ord + Drop, V: Drop, A: Allocator> Ordered<K, V, A> for TreeBin<K, V, A> {
    ghost use Rattle.flurry_bins.specs.Bin.{entries_of_list, entries_of_tree, ascending_of_tree, short_of_tree};

    type Boxed = Box<Node<K, V, A>, A>;

    type Shared = Arc<V, A>;

    type List = ListBin<K, V, A>;

    ghost entry_in = { λ b. entry_of b.value };

    ghost shared = { λ v. v };

    ghost listed = { λ b. entries_of_list b };

    ghost entries = { λ b. entries_of_tree b };

    ghost way = { λ b h k. tree_way K.cmp h k (shape b.root) };

    ghost most_met = { way_bound };

    ghost ascending = { λ b. ascending_of_tree b };

    ghost short = { λ b. short_of_tree b };

    ghost met_bounded = { λ b h k. way_within K.cmp h k (shape b.root) b.balanced };

    fn len(&self) -> usize {
        self.len
    }

    fn find<Q: Query<K>>(&self, hash: u64, key: Q) -> (Option<&Entry<K, V, A>>, u64) {
        find_in(follow(&self.root), hash, key)
    }

    fn next_after(&self, bound: Option<(u64, &K)>) -> Option<&Entry<K, V, A>> {
        next_in(follow(&self.root), bound)
    }

    fn write<Q: Query<K>>(&mut self, hash: u64, key: Q, value: Arc<V, A>, number: u64) -> Arc<V, A>
        requires { IsSome (entry_at K.cmp hash (Q.stands_for key) (entries_of_tree self.old)) }
        ensures old { option_map (λ e. e.value) (entry_at K.cmp hash (Q.stands_for key) (entries_of_tree self.old))
            ≡ Some result }
        ensures after { entries_of_tree self.new
            ≡ with_value_at K.cmp hash (Q.stands_for key) value number (entries_of_tree self.old) }
    {
        let Some(old) = write_in(&mut self.root, hash, key, value, number) else {
            unreachable!()
        };
        old
    }

    fn put_node(&mut self, node: BoxedNode<K, V, A>)
        requires absent { let e = entry_of node.value in
            IsNone (entry_at K.cmp e.hash (arc_value e.key) (entries_of_tree self.old)) }
        requires room { length (entries_of_tree self.old) < MAX_LEN }
        ensures { entries_of_tree self.new ≡ with_entry K.cmp (entry_of node.value) (entries_of_tree self.old) }
    {
        put_in(&mut self.root, node);
        self.root = blacken(self.root.take());
        self.len += 1;
    }

    fn remove<Q: Query<K>>(&mut self, hash: u64, key: Q) -> Link<K, V, A> {
        let (node, _) = remove_in(&mut self.root, hash, key);
        if node.is_some() {
            self.len -= 1;
        }
        node
    }

    fn split(self, bit: u8) -> (Self, Self) {
        let (low, high) = self.into_list().split(bit);
        (Self::from_list(low), Self::from_list(high))
    }

    fn into_list(self) -> ListBin<K, V, A> {
        let TreeBin { root, len } = self;
        ListBin::from_chain(flatten_onto(root, None), len)
    }

    fn from_list(list: ListBin<K, V, A>) -> Self
        ensures { entries_of_tree result ≡ entries_of_list list }
    {
        let (head, len) = list.into_chain();
        let (root, _) = build_balanced(len, (len + 1).ilog2(), head);
        TreeBin { root, len }
    }
}
