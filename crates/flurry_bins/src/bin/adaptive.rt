//! A bin that is a list while it is small, and a tree otherwise.
ghost use Rattle.std.specs.Prelude.{◌≡◌, ◌<◌, ◌⊎◌, ◌||◌, ◌&&◌, ◌+◌, nat_le, [], length, map, false, Some, IsSome, IsNone, IfOk, OnErr, IfErr, IfSome};
ghost use Rattle.std.specs.Option.{option_map};
ghost use Rattle.std.specs.Arc.{arc_value};
ghost use Rattle.flurry_bins.specs.Chain.{chain, entry_of};
ghost use Rattle.flurry_base.specs.Given.{IsNotInserted, old_of};
ghost use Rattle.flurry_bins.specs.Entries.{entry_at, with_entry, with_value_at, without, with_bit, IsInsertion};
ghost use Rattle.flurry_base.specs.Greatest.{greatest};
ghost use Rattle.flurry_bins.specs.Tree.{shape, inorder};
ghost use Rattle.flurry_bins.specs.WayBound.{way_bound};
ghost use Rattle.flurry_bins.specs.Kind.{kind_entries, kind_is_tree};
ghost use Rattle.flurry_base.specs.BinSizes.{IsSized, IsSized-prop};
ghost use Rattle.flurry_base.specs.declared.sizes.TheConstants.{MIN_TREE_LEN, MAX_LIST_LEN, MAX_LEN};

mod kind;
mod nodes;
mod retain;

use super::entry::Entry;
use super::list::{self, ListBin};
use super::node::{BoxedNode, Link, Node};
use super::ordered::Ordered;
use super::tree;
use flurry_base::given::{NotInserted, Replaced};
use flurry_base::query::Query;
use flurry_base::sizes::{MAX_LIST_LEN, MIN_TREE_LEN};
use kind::Kind;
use nodes::{LoneNode, NodeList, NodeTree};
use std::alloc::{Allocator, Global};
use std::mem;
use std::sync::Arc;

/// The kind of a [`Bin`], and the number of its entries.
///
/// ```
/// match map.shape_of(hash) {
///     Shape::Empty => 0,
///     Shape::List(count) => count,
///     Shape::Tree(count) => count,
/// }
/// ```
#[derive(Clone, Copy, Debug, PartialEq, Eq)]
pub enum Shape {
    /// A list without entries.
    Empty,
    /// A list, with the number of its entries, which is at least one and at most nine.
    List(usize),
    /// A tree, with the number of its entries, which is at least seven.
    Tree(usize),
}

/// A list of at most nine nodes, or a tree of at least seven nodes. A look-up among `n` entries visits at most nine nodes, or twice as many
/// as `n + 1` has binary digits, whichever is more.
///
/// None of its public calls takes memory: a list and a tree are made of the same nodes, so each turns into the other in place.
///
/// - A list of nine nodes becomes a tree when a tenth node is inserted, or when it is planted by [`Bin::plant`].
/// - A tree that a removal leaves with six nodes becomes a list.
/// - The halves of a list are lists. A half of a tree is a tree if it has at least seven nodes, and a list otherwise.
/// - A list from which [`Ordered::from_list`] makes a bin becomes a tree if it has more than nine nodes.
///
/// ```
/// let mut bin = Bin::new();
/// bin.put_node(Node::of_pair(alloc, hash, key, value, 0)?);
/// Ok(bin.len())
/// ```
#[derive(Drop)]
pub struct Bin<K: Ord, V, A: Allocator = Global> {
    kind: Kind<K, V, A>,
    ghost sized: { IsSized (kind_is_tree kind) (length (kind_entries kind)) } by { IsSized-prop (kind_is_tree kind) (length (kind_entries kind)) },
}

#[tactic(auto, unfolding(crate::specs::Bin::entries_of_bin, crate::specs::Bin::is_tree))]
impl<K: Ord, V, A: Allocator> Bin<K, V, A> {
    ghost use Rattle.flurry_bins.specs.Bin.{entries_of_bin, is_tree};

    /// Creates an empty bin. Constant time.
    pub fn new() -> Self
        ensures entries { entries_of_bin result ≡ [] }
        ensures kind { is_tree result ≡ false }
    {
        Bin { kind: Kind::Empty }
    }

    /// Converts the bin into its nodes, linked as they are: the first one of a list, or the root of a tree, or `None` if there is none.
    /// Constant time.
    pub fn into_nodes(self) -> Option<BoxedNode<K, V, A>>
        ensures { (chain result ≡ entries_of_bin self) ⊎ (inorder (shape result) ≡ entries_of_bin self) }
    {
        let Bin { kind } = self;
        match kind {
            Kind::Empty => None,
            Kind::One(LoneNode { node, .. }) => Some(node),
            Kind::AsList(NodeList { head, .. }) => Some(head),
            Kind::AsTree(NodeTree { root, .. }) => Some(root),
        }
    }
}

#[tactic(auto, unfolding(crate::specs::Bin::entries_of_bin, crate::specs::Bin::is_tree))]
impl<K: Ord + Drop, V: Drop, A: Allocator> Bin<K, V, A> {
    ghost use Rattle.flurry_bins.specs.Bin.{entries_of_bin, is_tree, shape_of_bin};

    /// Returns whether the bin is a list or a tree, with the number of its entries. Constant time.
    pub fn shape(&self) -> Shape
        ensures { result ≡ shape_of_bin self.now }
    {
        match &self.kind {
            Kind::Empty => Shape::Empty,
            Kind::One(_lone) => Shape::List(1),
            Kind::AsList(list) => Shape::List(list.len),
            Kind::AsTree(tree) => Shape::Tree(tree.len),
        }
    }

    /// Returns the greatest write number of the entries, or 0 if there are none. Linear time.
    pub fn greatest_number(&self) -> u64
        ensures { result ≡ greatest (map (λ e. e.number) (entries_of_bin self.now)) }
    {
        match &self.kind {
            Kind::Empty => 0,
            Kind::One(lone) => lone.node.entry().number,
            Kind::AsList(list) => list::greatest_in(Some(list.head.as_ref())),
            Kind::AsTree(tree) => tree::greatest_in(Some(tree.root.as_ref())),
        }
    }

    /// Turns a list of nine nodes into a tree, and leaves any other bin as it is. Constant time. Takes no memory.
    pub fn plant(&mut self)
        ensures entries { entries_of_bin self.new ≡ entries_of_bin self.old }
        ensures kind { is_tree self.new ≡ (is_tree self.old || nat_le MAX_LIST_LEN (length (entries_of_bin self.old))) }
    {
        let kind = mem::replace(&mut self.kind, Kind::Empty);
        self.kind = kind.plant();
    }
}

#[tactic(auto, unfolding(crate::specs::Bin::entries_of_bin, crate::specs::Bin::is_tree))]
impl<K: Ord + Drop, V: Drop, A: Allocator + Copy> Bin<K, V, A> {
    ghost use Rattle.flurry_bins.specs.Bin.{entries_of_bin, is_tree};

    /// Sets the value at a hash and a key, in one pass down the bin. Returns the key that was passed in and the value that the key had, or
    /// `None` if the key is new. A list of nine nodes becomes a tree when it takes another.
    ///
    /// As many steps as a look-up. If the key is absent, memory for the key and for a node is taken; if it is present, the stored key
    /// stays.
    ///
    /// # Errors
    ///
    /// Returns the key and the value if memory for the key or for the node cannot be allocated. The entries are unchanged.
    pub fn insert(
        &mut self,
        alloc: A,
        hash: u64,
        key: K,
        value: Arc<V, A>,
        number: u64,
    ) -> Result<Option<Replaced<K, V, A>>, NotInserted<K, V, A>>
        requires { length (entries_of_bin self.old) < MAX_LEN }
        ensures ok { IfOk result (λ r.
            IsInsertion K.cmp hash key value number (old_of r) (entries_of_bin self.old) (entries_of_bin self.new)) }
        ensures key { IfOk result (λ r. IfSome r (λ it. it.key ≡ key)) }
        ensures err { IfErr result (λ n. IsNotInserted key (arc_value value) n) }
        ensures same { OnErr result (entries_of_bin self.new ≡ entries_of_bin self.old) }
        ensures kind { is_tree self.new
            ≡ (is_tree self.old || nat_le (MAX_LIST_LEN + 1) (length (entries_of_bin self.new))) }
    {
        let kind = mem::replace(&mut self.kind, Kind::Empty);
        let (kind, reply) = kind.insert(alloc, hash, key, value, number);
        self.kind = kind;
        reply
    }
}

#[tactic(auto, unfolding(crate::specs::Bin::entries_of_bin, crate::specs::Bin::is_tree, crate::specs::Bin::bin_way))]
impl<K: Ord + Drop, V: Drop, A: Allocator> Ordered<K, V, A> for Bin<K, V, A> {
    ghost use Rattle.flurry_bins.specs.Bin.{entries_of_bin, entries_of_list, is_tree, bin_way, bin_way-bounded, ascending_of_bin, short_of_bin};

    type Boxed = Box<Node<K, V, A>, A>;

    type Shared = Arc<V, A>;

    type List = ListBin<K, V, A>;

    ghost entry_in = { λ b. entry_of b.value };

    ghost shared = { λ v. v };

    ghost listed = { λ b. entries_of_list b };

    ghost entries = { λ b. entries_of_bin b };

    ghost way = { λ b h k. bin_way K.cmp h k b };

    ghost most_met = { way_bound };

    ghost ascending = { λ b. ascending_of_bin b };

    ghost short = { λ b. short_of_bin b };

    ghost met_bounded = { λ b h k. bin_way-bounded K.cmp h k b };

    fn len(&self) -> usize {
        match &self.kind {
            Kind::Empty => 0,
            Kind::One(_lone) => 1,
            Kind::AsList(list) => list.len,
            Kind::AsTree(tree) => tree.len,
        }
    }

    fn find<Q: Query<K>>(&self, hash: u64, key: Q) -> (Option<&Entry<K, V, A>>, u64) {
        match &self.kind {
            Kind::Empty => (None, 0),
            Kind::One(lone) => {
                if lone.hash != hash {
                    return (None, 1);
                }
                list::find_in(Some(lone.node.as_ref()), hash, key)
            }
            Kind::AsList(list) => list::find_in(Some(list.head.as_ref()), hash, key),
            Kind::AsTree(tree) => tree::find_in(Some(tree.root.as_ref()), hash, key),
        }
    }

    fn next_after(&self, bound: Option<(u64, &K)>) -> Option<&Entry<K, V, A>> {
        match &self.kind {
            Kind::One(lone) if lone.node.entry().is_past(bound) => Some(lone.node.entry()),
            Kind::Empty | Kind::One(_) => None,
            Kind::AsList(list) => list::next_in(Some(list.head.as_ref()), bound),
            Kind::AsTree(tree) => tree::next_in(Some(tree.root.as_ref()), bound),
        }
    }

    fn write<Q: Query<K>>(&mut self, hash: u64, key: Q, value: Arc<V, A>, number: u64) -> Arc<V, A>
        requires { IsSome (entry_at K.cmp hash (Q.stands_for key) (entries_of_bin self.old)) }
        ensures old { option_map (λ e. e.value) (entry_at K.cmp hash (Q.stands_for key) (entries_of_bin self.old))
            ≡ Some result }
        ensures after { entries_of_bin self.new
            ≡ with_value_at K.cmp hash (Q.stands_for key) value number (entries_of_bin self.old) }
        ensures kind { is_tree self.new ≡ is_tree self.old }
    {
        let kind = mem::replace(&mut self.kind, Kind::Empty);
        let (kind, old) = kind.write(hash, key, value, number);
        self.kind = kind;
        old
    }

    // A list of nine nodes becomes a tree.
    fn put_node(&mut self, node: BoxedNode<K, V, A>)
        requires absent { let e = entry_of node.value in
            IsNone (entry_at K.cmp e.hash (arc_value e.key) (entries_of_bin self.old)) }
        requires room { length (entries_of_bin self.old) < MAX_LEN }
        ensures after { entries_of_bin self.new ≡ with_entry K.cmp (entry_of node.value) (entries_of_bin self.old) }
        ensures kind { is_tree self.new ≡ (is_tree self.old || nat_le MAX_LIST_LEN (length (entries_of_bin self.old))) }
    {
        let kind = mem::replace(&mut self.kind, Kind::Empty);
        self.kind = kind.put_node(node);
    }

    // A tree that is left with six nodes becomes a list.
    fn remove<Q: Query<K>>(&mut self, hash: u64, key: Q) -> Link<K, V, A>
        ensures removed { option_map (λ b. entry_of b.value) result
            ≡ entry_at K.cmp hash (Q.stands_for key) (entries_of_bin self.old) }
        ensures after { entries_of_bin self.new ≡ without K.cmp hash (Q.stands_for key) (entries_of_bin self.old) }
        ensures kind { is_tree self.new
            ≡ (is_tree self.old && nat_le MIN_TREE_LEN (length (entries_of_bin self.new))) }
    {
        let kind = mem::replace(&mut self.kind, Kind::Empty);
        let (kind, node) = kind.remove(hash, key);
        self.kind = kind;
        node
    }

    // A half of a tree is a tree if it has at least seven nodes, and a half of a list is a list.
    fn split(self, bit: u8) -> (Self, Self)
        requires { bit < 64 }
        ensures low { entries_of_bin result.0 ≡ with_bit bit 0 (entries_of_bin self) }
        ensures high { entries_of_bin result.1 ≡ with_bit bit 1 (entries_of_bin self) }
        ensures low_kind { is_tree result.0
            ≡ (is_tree self && nat_le MIN_TREE_LEN (length (entries_of_bin result.0))) }
        ensures high_kind { is_tree result.1
            ≡ (is_tree self && nat_le MIN_TREE_LEN (length (entries_of_bin result.1))) }
    {
        let Bin { kind } = self;
        let (low, high) = kind.split(bit);
        (Bin { kind: low }, Bin { kind: high })
    }

    fn into_list(self) -> ListBin<K, V, A> {
        let Bin { kind } = self;
        kind.into_list()
    }

    // More than nine nodes become a tree.
    fn from_list(list: ListBin<K, V, A>) -> Self
        ensures entries { entries_of_bin result ≡ entries_of_list list }
        ensures kind { is_tree result ≡ nat_le (MAX_LIST_LEN + 1) (length (entries_of_list list)) }
    {
        Bin {
            kind: Kind::from_list(list, MAX_LIST_LEN + 1),
        }
    }
}
