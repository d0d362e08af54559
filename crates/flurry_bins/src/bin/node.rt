//! A boxed entry, with room for two links and a colour, so that the same node serves in a list and in a tree.
ghost use Rattle.std.specs.Prelude.{◌≡◌, IfOk, IfErr};
ghost use Rattle.std.specs.Arc.{arc_value};
ghost use Rattle.flurry_bins.specs.Chain.{chain, chain_from, entry_of, node_with_entry};
ghost use Rattle.flurry_base.specs.Given.{IsNotInserted};
ghost use Rattle.flurry_bins.specs.Entries.{IsEntryOf, with_hash, with_value};
ghost use Rattle.flurry_bins.specs.Tree.{shape, shape_from};

use super::entry::Entry;
use flurry_base::given::{Given, NotInserted};
use std::alloc::{AllocError, Allocator, Global};
use std::mem;
use std::sync::Arc;

/// The colour of a node in a red-black tree.
///
/// ```
/// match colour {
///     Colour::Red => 0,
///     Colour::Black => 1,
/// }
/// ```
#[derive(Clone, Copy, Debug, PartialEq, Eq)]
pub enum Colour {
    /// The red colour: a red node has no red child.
    Red,
    /// The black colour: a black node counts for the height of the tree.
    Black,
}

/// A node in a box of its own.
///
/// ```
/// let node: BoxedNode<u64, u64> = Node::of_pair(alloc, hash, key, value, 0)?;
/// Ok(node.entry().hash)
/// ```
pub type BoxedNode<K, V, A = Global> = Box<Node<K, V, A>, A>;

/// A link to a node, or `None`.
pub(crate) type Link<K, V, A> = Option<Box<Node<K, V, A>, A>>;

/// An entry in a box of its own, linked into at most one bin.
///
/// ```
/// let node = Node::of_pair(alloc, hash, key, value, 0)?;
/// let Entry { value, .. } = Box::into_inner(node).into_entry();
/// Ok(*value)
/// ```
#[derive(Drop)]
pub struct Node<K, V, A: Allocator = Global> {
    // The fields that a walk along a list reads come first in memory.
    pub(crate) right: Option<Box<Node<K, V, A>, A>>,
    pub(crate) entry: Entry<K, V, A>,
    pub(crate) left: Option<Box<Node<K, V, A>, A>>,
    pub(crate) colour: Colour,
}

impl<K: Drop, V: Drop, A: Allocator> Node<K, V, A> {
    /// Creates a node that is in no bin yet. Constant time. Takes memory for one node.
    ///
    /// # Errors
    ///
    /// Returns [`AllocError`] if memory for the node cannot be allocated. The entry is dropped.
    pub fn new(alloc: A, entry: Entry<K, V, A>) -> Result<BoxedNode<K, V, A>, AllocError>
        ensures { IfOk result (λ b. entry_of b.value ≡ entry) }
    {
        Ok(Box::new(
            alloc,
            Node {
                right: None,
                entry,
                left: None,
                colour: Colour::Red,
            },
        )?)
    }

    /// Creates a node of a pair that is in no bin yet. Constant time. Takes memory for the key, the value and the node.
    ///
    /// # Errors
    ///
    /// Returns [`AllocError`] if memory cannot be allocated. The key and the value are dropped.
    pub fn of_pair(
        alloc: A,
        hash: u64,
        key: K,
        value: V,
        number: u64,
    ) -> Result<BoxedNode<K, V, A>, AllocError>
    where
        A: Copy,
        ensures hash { IfOk result (λ b. (entry_of b.value).hash ≡ hash) }
        ensures key { IfOk result (λ b. arc_value (entry_of b.value).key ≡ key) }
        ensures value { IfOk result (λ b. arc_value (entry_of b.value).value ≡ value) }
        ensures number { IfOk result (λ b. (entry_of b.value).number ≡ number) }
    {
        let value = Arc::new(alloc, value)?;
        match Node::of_key(alloc, hash, key, value, number) {
            Ok(node) => Ok(node),
            Err(_) => Err(AllocError),
        }
    }

    /// Creates a node of a key, and of a value that is in an `Arc` already. The node is in no bin yet. Constant time. Takes memory for the
    /// key and the node.
    ///
    /// # Errors
    ///
    /// Returns the key and the value if memory cannot be allocated.
    pub fn of_key(
        alloc: A,
        hash: u64,
        key: K,
        value: Arc<V, A>,
        number: u64,
    ) -> Result<BoxedNode<K, V, A>, NotInserted<K, V, A>>
    where
        A: Copy,
        ensures ok { IfOk result (λ b. IsEntryOf hash key value number (entry_of b.value)) }
        ensures err { IfErr result (λ n. IsNotInserted key (arc_value value) n) }
    {
        let key = match Arc::new(alloc, key) {
            Ok(key) => key,
            Err(failed) => {
                return Err(NotInserted {
                    key: Given::Plain(failed.value),
                    value: Given::Shared(value),
                });
            }
        };
        let entry = Entry {
            hash,
            key,
            value,
            number,
        };
        Node::of_entry(alloc, entry)
    }

    // A node of an entry, or the entry's key and value if memory for the node cannot be allocated.
    fn of_entry(alloc: A, entry: Entry<K, V, A>) -> Result<BoxedNode<K, V, A>, NotInserted<K, V, A>>
        ensures ok { IfOk result (λ b. entry_of b.value ≡ entry) }
        ensures err { IfErr result (λ n. IsNotInserted (arc_value entry.key) (arc_value entry.value) n) }
    {
        let node = Node {
            right: None,
            entry,
            left: None,
            colour: Colour::Red,
        };
        match Box::new(alloc, node) {
            Ok(node) => Ok(node),
            Err(failed) => Err(failed.value.into_not_inserted()),
        }
    }

    /// Converts the node into its key and its value. Constant time.
    pub fn into_not_inserted(self) -> NotInserted<K, V, A>
        ensures { let e = entry_of self in IsNotInserted (arc_value e.key) (arc_value e.value) result }
    {
        let Entry { key, value, .. } = self.into_entry();
        NotInserted {
            key: Given::Shared(key),
            value: Given::Shared(value),
        }
    }

    /// Returns a reference to the entry. Constant time.
    pub fn entry(&self) -> &Entry<K, V, A>
        ensures { result.now ≡ entry_of self.now }
    {
        &self.entry
    }

    // Replaces the value and its write number, and returns the old value.
    pub(crate) fn write(&mut self, value: Arc<V, A>, number: u64) -> Arc<V, A>
        ensures old { result ≡ (entry_of self.old).value }
        ensures after { self.new ≡ node_with_entry self.old (with_value (entry_of self.old) value number) }
    {
        let entry = &mut self.entry;
        entry.number = number;
        mem::replace(&mut entry.value, value)
    }

    /// Sets the hash of the entry. Constant time.
    pub fn rehash(&mut self, hash: u64)
        ensures { self.new ≡ node_with_entry self.old (with_hash (entry_of self.old) hash) }
    {
        let entry = &mut self.entry;
        entry.hash = hash;
    }

    /// Consumes the node, and returns its entry. Constant time.
    pub fn into_entry(self) -> Entry<K, V, A>
        ensures { result ≡ entry_of self }
    {
        self.entry
    }
}

// The node to which a link leads, or `None`.
pub(crate) fn follow<'a, K, V, A: Allocator>(link: &'a Link<K, V, A>) -> Option<&'a Node<K, V, A>>
    ensures chain { chain_from result ≡ chain link.now }
    ensures tree { shape_from result ≡ shape link.now }
{
    match link {
        None => None,
        Some(node) => Some(node.as_ref()),
    }
}
