//! Cloning an owned map, into a map that shares its keys and values.
ghost use Rattle.std.specs.Prelude.{◌≡◌, length, IfOk};
ghost use Rattle.std.specs.Arc.{arc_value};
ghost use Rattle.flurry_bins.specs.Chain.{entry_of};
ghost use Rattle.flurry_base.specs.FiniteMap.{IsFiniteMap};
ghost use Rattle.flurry_seq.specs.Growth.{bins_for, IsTableFrom};

use crate::seq_map::SeqMap;
use flurry_base::hash::KeyHasher;
use flurry_bins::bin::{Entry, Node};
use std::alloc::{AllocError, Allocator};
use std::sync::Arc;

// A node with the entry's hash, and with clones of the `Arc`s of its key and its value.
fn shared_node<K: Drop, V: Drop, A: Allocator + Copy>(
    alloc: A,
    entry: &Entry<K, V, A>,
) -> Result<Box<Node<K, V, A>, A>, AllocError>
    ensures hash { IfOk result (λ b. (entry_of b.value).hash ≡ entry.now.hash) }
    ensures key { IfOk result (λ b. arc_value (entry_of b.value).key ≡ arc_value entry.now.key) }
    ensures value { IfOk result (λ b. arc_value (entry_of b.value).value ≡ arc_value entry.now.value) }
    ensures number { IfOk result (λ b. (entry_of b.value).number ≡ 0) }
{
    let key = Arc::try_clone(&entry.key)?;
    let value = Arc::try_clone(&entry.value)?;
    let entry = Entry {
        hash: entry.hash,
        key,
        value,
        number: 0,
    };
    Node::new(alloc, entry)
}

impl<K: Ord + Drop, V: Drop, S: KeyHasher<K>, A: Allocator + Copy> SeqMap<K, V, S, A> {
    /// Returns another map with the same pairs and the same hasher. It has a table of its own, with room for as many pairs, and shares the
    /// stored keys and the values, none of which is copied or hashed again.
    ///
    /// One insertion for each pair.
    ///
    /// # Errors
    ///
    /// Returns [`AllocError`] if memory cannot be allocated, or if the `Arc` of a key or of a value has as many owners as can be counted.
    pub fn try_clone(&self) -> Result<Self, AllocError>
    where
        S: Copy + Drop,
        ensures pairs { IfOk result (λ m. m.pairs ≡ self.now.pairs) }
        ensures ascend { IsFiniteMap K.cmp self.now.pairs }
        ensures hasher { IfOk result (λ m. m.hasher ≡ self.now.hasher) }
        ensures bins { IfOk result (λ m. IsTableFrom (bins_for (length self.now.pairs)) (length m.pairs) m.bins) }
    {
        let mut copy = SeqMap::with_capacity_and_hasher(
            *self.allocator(),
            self.len(),
            self.hasher,
        )?;
        for entry in self.entries() {
            let node = shared_node(*self.allocator(), entry)?;
            copy.add(node)?;
        }
        Ok(copy)
    }
}
