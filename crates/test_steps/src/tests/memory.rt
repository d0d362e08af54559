//! Requests for memory of bins, slots and worlds. In a bin, a node makes one request, and no other call makes any. Each request of a node
//! fails in turn, and the calls of bins run while every request fails; likewise for slots and for worlds.

mod drops;
mod kinds;
mod losses;
mod slot;
mod world;
mod world_rows;

use super::{Memory, assert_same, assert_same_at, metered};
use flurry_bins::bin::{Bin, Entry, ListBin, Node, Ordered, Shape, TreeBin};
use metered_alloc::MeteredAlloc;
use std::alloc::{AllocError, Allocator, Global};
use std::process::Abort;
use std::sync::Arc;

// A bin of numbers. Its allocator is a parameter, because a proof over `Memory` unfolds it in each step.
type NumberBin<A> = Bin<u64, u64, A>;

type BoxedNode<A> = Box<Node<u64, u64, A>, A>;

// Returns a node of a key whose hash is its last bit.
fn node<A: Allocator + Copy>(memory: A, key: u64) -> Result<BoxedNode<A>, AllocError> {
    let entry = Entry {
        hash: key % 2,
        key: Arc::new(memory, key)?,
        value: Arc::new(memory, key)?,
        number: 1,
    };
    Node::new(memory, entry)
}

// Returns the nodes of the keys below `count`.
fn nodes<A: Allocator + Copy>(memory: A, count: u64) -> Result<Vec<BoxedNode<A>, A>, AllocError> {
    let mut nodes = Vec::new(memory);
    for key in 0..count {
        nodes.push(node(memory, key)?)?;
    }
    Ok(nodes)
}

// Inserts those nodes whose keys are absent.
fn put_all<A: Allocator>(bin: &mut NumberBin<A>, nodes: Vec<BoxedNode<A>, A>) {
    for node in nodes {
        let entry = node.entry();
        if bin.find(entry.hash, entry.key.as_ref()).0.is_none() && bin.len() < 1000 {
            bin.put_node(node);
        }
    }
}

// Returns a list of the nodes.
fn list_of<A: Allocator>(nodes: Vec<BoxedNode<A>, A>) -> ListBin<u64, u64, A> {
    let mut list = ListBin::new();
    for node in nodes {
        let entry = node.entry();
        if list.find(entry.hash, entry.key.as_ref()).0.is_none() && list.len() < 1000 {
            list.put_node(node);
        }
    }
    list
}

// Makes the node of an entry while its only request fails. Returns whether the request was made, and whether there is no node.
fn refused_node<A: Allocator + Copy>(
    metered: &MeteredAlloc<Global>,
    memory: A,
) -> Result<(bool, bool), AllocError> {
    let entry = Entry {
        hash: 1,
        key: Arc::new(memory, 7)?,
        value: Arc::new(memory, 8)?,
        number: 1,
    };
    metered.refuse_at(0);
    let failed = Node::new(memory, entry).is_err();
    let refused = metered.was_refused();
    metered.refuse_nothing();
    Ok((refused, failed))
}

// Makes an entry and its node while the request numbered `k` fails. Returns whether the request was made, and whether there is no node.
fn refused_entry<A: Allocator + Copy>(
    metered: &MeteredAlloc<Global>,
    memory: A,
    k: u64,
) -> (bool, bool) {
    metered.refuse_at(k);
    let failed = node(memory, 7).is_err();
    let refused = metered.was_refused();
    metered.refuse_nothing();
    (refused, failed)
}

#[test]
fn a_node(rt: HostRuntime) {
    let rt = &rt;
    let memory = metered(rt, rt.alloc());
    assert_same(
        rt,
        refused_node(memory, memory).expect(rt, "memory"),
        (true, true),
    );
    assert_same(rt, memory.live_blocks(), 0);
    for k in 0..4u64 {
        let refused = k < 3;
        assert_same_at(rt, k, refused_entry(memory, memory, k), (refused, refused));
        assert_same_at(rt, k, memory.live_blocks(), 0);
    }
}

// Returns a bin into which the nodes of the keys below `count` were inserted while every request fails.
fn bin_of<A: Allocator + Copy>(
    metered: &MeteredAlloc<Global>,
    memory: A,
    count: u64,
) -> Result<NumberBin<A>, AllocError> {
    let nodes = nodes(memory, count)?;
    metered.refuse_from(0);
    let mut bin = Bin::new();
    put_all(&mut bin, nodes);
    Ok(bin)
}

// Replaces the value of the key 4, if the bin has it, and returns the old value.
fn replaced<A: Allocator>(bin: &mut NumberBin<A>, value: Arc<u64, A>) -> Option<u64> {
    if bin.find(0, &4).0.is_none() {
        return None;
    }
    Some(*bin.write(0, &4, value, 2))
}

// Splits a bin of 23 keys, and makes a bin of the list of its lower half.
fn splits_a_bin<A: Allocator>(rt: &impl Abort, bin: NumberBin<A>) {
    let (low, high) = bin.split(0);
    assert_same(
        rt,
        (low.shape(), high.shape()),
        (Shape::Tree(12), Shape::Tree(11)),
    );
    let list = low.into_list();
    assert_same(rt, list.len(), 12);
    let low: NumberBin<A> = Bin::from_list(list);
    assert_same(rt, low.shape(), Shape::Tree(12));
}

// Calls of a bin of 24 keys.
fn calls_of_a_bin<A: Allocator + Copy>(
    rt: &impl Abort,
    metered: &MeteredAlloc<Global>,
    memory: A,
) -> Result<(), AllocError> {
    let value = Arc::new(memory, 50)?;
    let mut bin = bin_of(metered, memory, 24)?;
    assert_same(rt, bin.shape(), Shape::Tree(24));
    assert_same(rt, bin.next_after(Some((0, &4))).is_some(), true);
    assert_same(rt, replaced(&mut bin, value), Some(4));
    assert_same(rt, bin.remove(1, &5).is_some(), true);
    splits_a_bin(rt, bin);
    Ok(())
}

#[test]
fn a_bin_asks_for_nothing(rt: HostRuntime) {
    let rt = &rt;
    let memory = metered(rt, rt.alloc());
    calls_of_a_bin(rt, memory, memory).expect(rt, "memory");
    assert_same(rt, (memory.requests(), memory.live_blocks()), (0, 0));
}

// Makes a tree of a bin of 9 keys, and a list again.
fn plants<A: Allocator>(rt: &impl Abort, bin: &mut NumberBin<A>) {
    assert_same(rt, bin.shape(), Shape::List(9));
    bin.plant();
    assert_same(rt, bin.shape(), Shape::Tree(9));
    for key in [0, 2, 4] {
        assert_same(rt, bin.remove(0, &key).is_some(), true);
    }
    assert_same(rt, bin.shape(), Shape::List(6));
}

#[test]
fn planting_asks_for_nothing(rt: HostRuntime) {
    let rt = &rt;
    let memory = metered(rt, rt.alloc());
    plants(rt, &mut bin_of(memory, memory, 9).expect(rt, "memory"));
    assert_same(rt, (memory.requests(), memory.live_blocks()), (0, 0));
}

// Splits a tree of 18 keys, and the list of its higher half.
fn splits_a_tree<A: Allocator>(rt: &impl Abort, tree: TreeBin<u64, u64, A>) {
    let (low, high) = tree.split(0);
    assert_same(rt, (low.len(), high.len()), (8, 10));
    let (none, list) = high.into_list().split(0);
    assert_same(rt, (none.len(), list.len()), (0, 10));
}

// Calls of a list of 20 nodes, and of the tree that is made of it.
fn calls_of_a_list<A: Allocator>(rt: &impl Abort, nodes: Vec<BoxedNode<A>, A>) {
    let mut list = list_of(nodes);
    assert_same(rt, list.find(1, &19).1, 20);
    assert_same(rt, list.remove(0, &0).is_some(), true);
    let mut tree: TreeBin<u64, u64, A> = TreeBin::from_list(list);
    assert_same(rt, tree.len(), 19);
    assert_same(rt, tree.remove(0, &2).is_some(), true);
    splits_a_tree(rt, tree);
}

#[test]
fn lists_and_trees_ask_for_nothing(rt: HostRuntime) {
    let rt = &rt;
    let memory = metered(rt, rt.alloc());
    let nodes = nodes(memory, 20).expect(rt, "memory");
    memory.refuse_from(0);
    calls_of_a_list(rt, nodes);
    assert_same(rt, (memory.requests(), memory.live_blocks()), (0, 0));
}
