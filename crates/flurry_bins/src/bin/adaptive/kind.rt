//! The nodes of a bin in the form that their number asks for: none, one, a list or a tree.
ghost use Rattle.std.specs.Prelude.{◌≡◌, ◌<◌, ◌≤◌, ◌||◌, ◌&&◌, ◌+◌, nat_le, length, true, false, Some, IsSome, IsNone, IfOk, OnErr, IfErr, IfSome};
ghost use Rattle.std.specs.Option.{option_map};
ghost use Rattle.std.specs.Arc.{arc_value};
ghost use Rattle.flurry_bins.specs.Chain.{chain, entry_of};
ghost use Rattle.flurry_base.specs.Given.{IsNotInserted, old_of};
ghost use Rattle.flurry_bins.specs.Entries.{entry_at, with_entry, with_value_at, without, with_bit, IsInsertion};
ghost use Rattle.flurry_bins.specs.Tree.{shape, node_shape, inorder};
ghost use Rattle.flurry_bins.specs.Kind.{kind_entries, kind_is_tree};
ghost use Rattle.flurry_base.specs.BinSizes.{IsSized};
ghost use Rattle.flurry_base.specs.declared.sizes.TheConstants.{MIN_TREE_LEN, MAX_LIST_LEN, MAX_LEN};

use super::nodes::{LoneNode, NodeList, NodeTree};
use crate::bin::list::{ListBin, prepend};
use crate::bin::node::{BoxedNode, Link};
use crate::bin::ordered::Ordered;
use crate::bin::tree::{self, TreeBin};
use flurry_base::given::{NotInserted, Replaced};
use flurry_base::query::Query;
use flurry_base::sizes::{MAX_LIST_LEN, MIN_TREE_LEN};
use std::alloc::{Allocator, Global};
use std::sync::Arc;

#[derive(Drop)]
pub(super) enum Kind<K: Ord, V, A: Allocator = Global> {
    Empty,
    One(LoneNode<K, V, A>),
    AsList(NodeList<K, V, A>),
    AsTree(NodeTree<K, V, A>),
}

impl<K: Ord + Drop, V: Drop, A: Allocator> Kind<K, V, A> {
    // The kind of a list of any length.
    pub(super) fn of_list(list: ListBin<K, V, A>) -> Kind<K, V, A>
        ensures entries { kind_entries result ≡ chain list.head }
        ensures kind { kind_is_tree result ≡ false }
    {
        let (head, len) = list.into_chain();
        let Some(head) = head else {
            return Kind::Empty;
        };
        if len == 1 {
            let hash = head.entry().hash;
            Kind::One(LoneNode { hash, node: head })
        } else {
            Kind::AsList(NodeList { len, head })
        }
    }

    // The kind of a tree that has at least one node.
    fn of_tree(tree: TreeBin<K, V, A>) -> Kind<K, V, A>
        requires { 0 < length (inorder (shape tree.root)) }
        ensures entries { kind_entries result ≡ inorder (shape tree.root) }
        ensures kind { kind_is_tree result ≡ true }
    {
        let TreeBin { root, len } = tree;
        let Some(root) = root else { unreachable!() };
        Kind::AsTree(NodeTree { len, root })
    }

    // The kind for the entries of `list`: a tree if there are at least `least_tree`, and a list otherwise.
    pub(super) fn from_list(list: ListBin<K, V, A>, least_tree: usize) -> Kind<K, V, A>
        requires { 0 < least_tree }
        ensures entries { kind_entries result ≡ chain list.head }
        ensures kind { kind_is_tree result ≡ nat_le least_tree (length (chain list.head)) }
    {
        if list.len() >= least_tree {
            Kind::of_tree(TreeBin::from_list(list))
        } else {
            Kind::of_list(list)
        }
    }

    // The entries as a list.
    pub(super) fn into_list(self) -> ListBin<K, V, A>
        ensures { chain result.head ≡ kind_entries self }
    {
        match self {
            Kind::Empty => ListBin::new(),
            Kind::One(lone) => {
                let mut list = ListBin::new();
                list.put_node(lone.node);
                list
            }
            Kind::AsList(list) => list.into_list(),
            Kind::AsTree(tree) => tree.into_tree().into_list(),
        }
    }

    // Turns a list of nine nodes into a tree, and leaves anything else as it is.
    pub(super) fn plant(self) -> Kind<K, V, A>
        ensures entries { kind_entries result ≡ kind_entries self }
        ensures kind { kind_is_tree result ≡ (kind_is_tree self || nat_le MAX_LIST_LEN (length (kind_entries self))) }
    {
        match self {
            Kind::Empty => Kind::Empty,
            Kind::One(lone) => Kind::One(lone),
            Kind::AsList(list) => Kind::from_list(list.into_list(), MAX_LIST_LEN),
            Kind::AsTree(tree) => Kind::AsTree(tree),
        }
    }

    // Inserts a node whose place is free. A list of nine nodes then becomes a tree.
    pub(super) fn put_node(self, node: BoxedNode<K, V, A>) -> Kind<K, V, A>
        requires absent { let e = entry_of node.value in
            IsNone (entry_at K.cmp e.hash (arc_value e.key) (kind_entries self)) }
        requires room { length (kind_entries self) < MAX_LEN }
        ensures entries { kind_entries result ≡ with_entry K.cmp (entry_of node.value) (kind_entries self) }
        ensures kind { kind_is_tree result ≡ (kind_is_tree self || nat_le MAX_LIST_LEN (length (kind_entries self))) }
    {
        match self {
            Kind::Empty => {
                let node = prepend(node, None);
                let hash = node.entry().hash;
                Kind::One(LoneNode { hash, node })
            }
            Kind::One(lone) => {
                let mut list = Kind::One(lone).into_list();
                list.put_node(node);
                Kind::of_list(list)
            }
            Kind::AsList(list) => {
                let mut list = list.into_list();
                list.put_node(node);
                Kind::from_list(list, MAX_LIST_LEN + 1)
            }
            Kind::AsTree(tree) => {
                let mut tree = tree.into_tree();
                tree.put_node(node);
                Kind::of_tree(tree)
            }
        }
    }

    // Removes the node at a place, and returns the rest and the node, if there is one. A tree that is left with six nodes then becomes a list.
    pub(super) fn remove<Q: Query<K>>(self, hash: u64, key: Q) -> (Kind<K, V, A>, Link<K, V, A>)
        ensures removed { option_map (λ b. entry_of b.value) result.1
            ≡ entry_at K.cmp hash (Q.stands_for key) (kind_entries self) }
        ensures entries { kind_entries result.0 ≡ without K.cmp hash (Q.stands_for key) (kind_entries self) }
        ensures kind { kind_is_tree result.0
            ≡ (kind_is_tree self && nat_le MIN_TREE_LEN (length (kind_entries result.0))) }
    {
        match self {
            Kind::Empty => (Kind::Empty, None),
            Kind::One(lone) => {
                if lone.is_at(hash, key) {
                    (Kind::Empty, Some(lone.node))
                } else {
                    (Kind::One(lone), None)
                }
            }
            Kind::AsList(list) => {
                let mut list = list.into_list();
                let node = list.remove(hash, key);
                (Kind::of_list(list), node)
            }
            Kind::AsTree(tree) => {
                let mut tree = tree.into_tree();
                let node = tree.remove(hash, key);
                if tree.len() < MIN_TREE_LEN {
                    (Kind::of_list(tree.into_list()), node)
                } else {
                    (Kind::of_tree(tree), node)
                }
            }
        }
    }

    // Replaces the value at a place that is taken, and returns the old value.
    pub(super) fn write<Q: Query<K>>(
        self,
        hash: u64,
        key: Q,
        value: Arc<V, A>,
        number: u64,
    ) -> (Kind<K, V, A>, Arc<V, A>)
        requires { IsSome (entry_at K.cmp hash (Q.stands_for key) (kind_entries self)) }
        ensures old { option_map (λ e. e.value) (entry_at K.cmp hash (Q.stands_for key) (kind_entries self))
            ≡ Some result.1 }
        ensures entries { kind_entries result.0 ≡ with_value_at K.cmp hash (Q.stands_for key) value number
            (kind_entries self) }
        ensures kind { kind_is_tree result.0 ≡ kind_is_tree self }
    {
        match self {
            Kind::Empty => unreachable!(),
            Kind::One(lone) => {
                let LoneNode { hash, mut node } = lone;
                let old = node.write(value, number);
                (Kind::One(LoneNode { hash, node }), old)
            }
            Kind::AsList(list) => {
                let mut list = list.into_list();
                let old = list.write(hash, key, value, number);
                (Kind::of_list(list), old)
            }
            Kind::AsTree(tree) => {
                let mut tree = tree.into_tree();
                let old = tree.write(hash, key, value, number);
                (Kind::of_tree(tree), old)
            }
        }
    }

    // Splits the entries into those whose hash has a 0 at bit `bit`, and those whose hash has a 1 there. A half of a tree is a tree if it has
    // at least seven nodes.
    pub(super) fn split(self, bit: u8) -> (Kind<K, V, A>, Kind<K, V, A>)
        requires bit { bit < 64 }
        requires sized { IsSized (kind_is_tree self) (length (kind_entries self)) }
        ensures low { kind_entries result.0 ≡ with_bit bit 0 (kind_entries self) }
        ensures high { kind_entries result.1 ≡ with_bit bit 1 (kind_entries self) }
        ensures low_kind { kind_is_tree result.0
            ≡ (kind_is_tree self && nat_le MIN_TREE_LEN (length (kind_entries result.0))) }
        ensures high_kind { kind_is_tree result.1
            ≡ (kind_is_tree self && nat_le MIN_TREE_LEN (length (kind_entries result.1))) }
    {
        match self {
            Kind::Empty => (Kind::Empty, Kind::Empty),
            Kind::One(lone) => {
                if (lone.hash >> bit) & 1 == 0 {
                    (Kind::One(lone), Kind::Empty)
                } else {
                    (Kind::Empty, Kind::One(lone))
                }
            }
            Kind::AsList(list) => {
                let (low, high) = list.into_list().split(bit);
                (Kind::of_list(low), Kind::of_list(high))
            }
            Kind::AsTree(tree) => tree.split(bit),
        }
    }
}

impl<K: Ord + Drop, V: Drop, A: Allocator + Copy> Kind<K, V, A> {
    // Sets the value at a place, and returns the old value, or `None` if a new node was inserted. More than nine nodes then become a tree. If
    // memory for the node cannot be allocated, the entries stay.
    pub(super) fn insert(
        self,
        alloc: A,
        hash: u64,
        key: K,
        value: Arc<V, A>,
        number: u64,
    ) -> (
        Kind<K, V, A>,
        Result<Option<Replaced<K, V, A>>, NotInserted<K, V, A>>,
    )
        requires { length (kind_entries self) < MAX_LEN }
        ensures ok { IfOk result.1 (λ r.
            IsInsertion K.cmp hash key value number (old_of r) (kind_entries self) (kind_entries result.0)) }
        ensures key { IfOk result.1 (λ r. IfSome r (λ it. it.key ≡ key)) }
        ensures err { IfErr result.1 (λ n. IsNotInserted key (arc_value value) n) }
        ensures same { OnErr result.1 (kind_entries result.0 ≡ kind_entries self) }
        ensures kind { kind_is_tree result.0
            ≡ (kind_is_tree self || nat_le (MAX_LIST_LEN + 1) (length (kind_entries result.0))) }
    {
        match self {
            Kind::AsTree(tree) => {
                let mut tree = tree.into_tree();
                let reply = tree.insert(alloc, hash, key, value, number);
                (Kind::of_tree(tree), reply)
            }
            few => {
                let mut list = few.into_list();
                let reply = list.insert(alloc, hash, key, value, number);
                (Kind::from_list(list, MAX_LIST_LEN + 1), reply)
            }
        }
    }
}

impl<K: Ord + Drop, V: Drop, A: Allocator> NodeTree<K, V, A> {
    // Splits a tree into the entries whose hash has a 0 at bit `bit`, and those whose hash has a 1 there. Each half is a tree if it has at
    // least seven nodes, and a list otherwise. A tree whose entries have one hash goes to one side as it is.
    fn split(self, bit: u8) -> (Kind<K, V, A>, Kind<K, V, A>)
        requires bit { bit < 64 }
        requires sized { MIN_TREE_LEN ≤ length (inorder (node_shape self.root.value)) }
        ensures low { kind_entries result.0 ≡ with_bit bit 0 (inorder (node_shape self.root.value)) }
        ensures high { kind_entries result.1 ≡ with_bit bit 1 (inorder (node_shape self.root.value)) }
        ensures low_kind { kind_is_tree result.0 ≡ nat_le MIN_TREE_LEN (length (kind_entries result.0)) }
        ensures high_kind { kind_is_tree result.1 ≡ nat_le MIN_TREE_LEN (length (kind_entries result.1)) }
    {
        let Some(hash) = tree::only_hash(Some(self.root.as_ref())) else {
            let (low, high) = self.into_tree().into_list().split(bit);
            return (
                Kind::from_list(low, MIN_TREE_LEN),
                Kind::from_list(high, MIN_TREE_LEN),
            );
        };
        if (hash >> bit) & 1 == 0 {
            (Kind::AsTree(self), Kind::Empty)
        } else {
            (Kind::Empty, Kind::AsTree(self))
        }
    }
}
