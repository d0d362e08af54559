//! The nodes of a bin, in one of three types, by how many nodes there are. Each type has one box and one number, so that a bin is small.
ghost use Rattle.std.specs.Prelude.{◌≡◌, ◌<◌, ◌≤◌, length};
ghost use Rattle.flurry_bins.specs.Chain.{chain, node_chain, entry_of};
ghost use Rattle.flurry_bins.specs.Entries.{IsAscending, IsAscending-prop, is_at};
ghost use Rattle.flurry_bins.specs.Tree.{shape, node_shape, inorder, IsRedBlack, IsRedBlack-prop};
ghost use Rattle.flurry_base.specs.declared.sizes.TheConstants.{MAX_LEN};

use crate::bin::list::ListBin;
use crate::bin::node::{BoxedNode, Node};
use crate::bin::tree::TreeBin;
use flurry_base::query::Query;
use std::alloc::{Allocator, Global};
use std::cmp::Ordering;

// A node with its hash beside it, so that a look-up of another hash does not touch the node. No other node is linked behind it.
#[derive(Drop)]
pub(super) struct LoneNode<K: Ord, V, A: Allocator = Global> {
    pub(super) hash: u64,
    pub(super) node: BoxedNode<K, V, A>,
    ghost hashed: { hash ≡ (entry_of node.value).hash },
    ghost alone: { length (node_chain node.value) ≡ 1 },
}

impl<K: Ord + Drop, V: Drop, A: Allocator> LoneNode<K, V, A> {
    // Whether the node is the one of a hash and a key.
    pub(super) fn is_at<Q: Query<K>>(&self, hash: u64, key: Q) -> bool
        ensures { result ≡ is_at K.cmp hash (Q.stands_for key) (entry_of self.now.node.value) }
    {
        self.hash == hash && key.compare(self.node.entry().key.as_ref()) == Ordering::Equal
    }
}

// A list of at least one node.
#[derive(Drop)]
pub(super) struct NodeList<K: Ord, V, A: Allocator = Global> {
    pub(super) len: usize,
    pub(super) head: BoxedNode<K, V, A>,
    ghost ascending: { IsAscending K.cmp (node_chain head.value) } by { IsAscending-prop K.cmp (node_chain head.value) },
    ghost counted: { len ≡ length (node_chain head.value) },
    ghost short: { len ≤ MAX_LEN },
}

impl<K: Ord, V, A: Allocator> NodeList<K, V, A> {
    pub(super) fn into_list(self) -> ListBin<K, V, A>
        ensures { chain result.head ≡ node_chain self.head.value }
    {
        ListBin::from_chain(Some(self.head), self.len)
    }
}

// A tree of at least one node.
#[derive(Drop)]
pub(super) struct NodeTree<K: Ord, V, A: Allocator = Global> {
    pub(super) len: usize,
    pub(super) root: BoxedNode<K, V, A>,
    ghost ascending: { IsAscending K.cmp (inorder (node_shape root.value)) } by { IsAscending-prop K.cmp (inorder (node_shape root.value)) },
    ghost balanced: { IsRedBlack (node_shape root.value) } by { IsRedBlack-prop (node_shape root.value) },
    ghost counted: { len ≡ length (inorder (node_shape root.value)) },
    ghost short: { len ≤ MAX_LEN },
}

impl<K: Ord, V, A: Allocator> NodeTree<K, V, A> {
    pub(super) fn into_tree(self) -> TreeBin<K, V, A>
        ensures { shape result.root ≡ node_shape self.root.value }
    {
        TreeBin {
            root: Some(self.root),
            len: self.len,
        }
    }
}
