//! Bins and hashes where nothing fails, through their traits, and the depths of large bins.
ghost use Rattle.std.specs.Prelude.{◌≡◌};
ghost use Rattle.std.specs.Arc.{arc_value};
ghost use Rattle.flurry_bins.specs.Chain.{entry_of};

mod insertions;
mod slots;

use super::assert_same;
use flurry_base::hash::{
    DefaultHashBuilder, KeyHasher, LowHashBuilder, MaxHashBuilder, ZeroHashBuilder,
};
use flurry_base::sizes::stride;
use flurry_bins::bin::{Bin, Entry, ListBin, Node, Ordered, Shape, TreeBin};
use std::hash::{Hash, Hasher};
use std::process::Abort;
use std::sync::Arc;

fn node<K: Drop>(rt: &(impl Abort + AllocGlobal), hash: u64, key: K) -> Box<Node<K, u64>>
    ensures hash { (entry_of result.value).hash ≡ hash }
    ensures key { arc_value (entry_of result.value).key ≡ key }
{
    let entry = Entry {
        hash,
        key: Arc::new(rt.alloc(), key).expect(rt, "memory for the key"),
        value: Arc::new(rt.alloc(), 1).expect(rt, "memory for the value"),
        number: 1,
    };
    Node::new(rt.alloc(), entry).expect(rt, "memory for the node")
}

// Returns a list of the keys below `count`. They are inserted from the greatest down, so that each goes to the front.
fn list_of(rt: &(impl Abort + AllocGlobal), count: u64) -> ListBin<u64, u64> {
    let mut list = ListBin::new();
    for i in 0..count {
        let key = count - 1 - i;
        if list.find(0, &key).0.is_none() && list.len() < 1_000_000 {
            list.put_node(node(rt, 0, key));
        }
    }
    list
}

// Returns a tree of the keys below `count`, inserted in ascending order.
fn tree_of(rt: &(impl Abort + AllocGlobal), count: u64) -> TreeBin<u64, u64> {
    let mut tree = TreeBin::from_list(ListBin::new());
    for key in 0..count {
        if tree.find(7, &key).0.is_none() && tree.len() < 1_000_000 {
            tree.put_node(node(rt, 7, key));
        }
    }
    tree
}

// Returns the greatest number of nodes that a look-up of one of the keys visits, or `None` if one of the keys is absent.
fn most_visits(tree: &TreeBin<u64, u64>, count: u64, odd_alone: bool) -> Option<u64> {
    let mut most = 0;
    for key in 0..count {
        if !odd_alone || key % 2 == 1 {
            let (found, visits) = tree.find(7, &key);
            if found.is_none() {
                return None;
            }
            most = visits.max(most);
        }
    }
    Some(most)
}

// Removes the even keys below `count`.
fn remove_even(tree: &mut TreeBin<u64, u64>, count: u64) {
    for key in 0..count {
        if key % 2 == 0 {
            let _gone = tree.remove(7, &key);
        }
    }
}

// Inserts those keys below `count` that are absent.
fn put_below(rt: &(impl Abort + AllocGlobal), bin: &mut Bin<u64, u64>, count: u64) {
    for key in 0..count {
        if bin.find(0, &key).0.is_none() && bin.len() < 1000 {
            bin.put_node(node(rt, 0, key));
        }
    }
}

// Returns a bin of a thousand signed keys with one hash.
fn signed_bin(rt: &(impl Abort + AllocGlobal)) -> Bin<i32, u64> {
    let mut bin = Bin::new();
    for key in 0i32..1000 {
        let hash = ZeroHashBuilder.hash_one(&key);
        if bin.find(hash, &key).0.is_none() && bin.len() < 1000 {
            bin.put_node(node(rt, hash, key));
        }
    }
    bin
}

// Removes those keys below `count` that are present.
fn remove_below(bin: &mut Bin<u64, u64>, count: u64) {
    for key in 0..count {
        let _gone = bin.remove(0, &key);
    }
}

#[test]
fn list_keeps_order(rt: HostRuntime) {
    let rt = &rt;
    let mut list: ListBin<u64, u64> = ListBin::new();
    for i in 0u64..9 {
        let key = (i * 4) % 9;
        if list.find(0, &key).0.is_none() && list.len() < 100 {
            list.put_node(node(rt, 0, key));
        }
    }
    assert_same(rt, list.len(), 9);
    let (_, visits) = list.find(0, &8);
    assert_same(rt, visits, 9);
    let gone = list.remove(0, &3);
    assert_same(rt, gone.is_some(), true);
    assert_same(rt, list.len(), 8);
    let (low, high) = list.split(0);
    assert_same(rt, low.len(), 8);
    assert_same(rt, high.len(), 0);
}

// Returns the key of a node, if there is one.
fn key_of(node: Option<Box<Node<u64, u64>>>) -> Option<u64> {
    match node {
        Some(node) => Some(*node.entry().key),
        None => None,
    }
}

// A list gives its nodes from the front on.
#[test]
fn nodes_of_a_list(rt: HostRuntime) {
    let rt = &rt;
    let mut list = list_of(rt, 2);
    assert_same(rt, key_of(list.pop_front()), Some(0));
    assert_same(rt, list.len(), 1);
    assert_same(rt, key_of(list.pop_front()), Some(1));
    assert_same(rt, key_of(list.pop_front()), None);
    assert_same(rt, list.len(), 0);
}

#[test]
fn a_node_with_another_hash(rt: HostRuntime) {
    let mut lone = node(&rt, 3, 5u64);
    lone.rehash(9);
    assert_same(&rt, (lone.entry().hash, *lone.entry().key), (9, 5));
}

#[test]
fn tree_stays_shallow(rt: HostRuntime) {
    let rt = &rt;
    let mut tree = tree_of(rt, 50_000);
    assert_same(rt, tree.len(), 50_000);
    let visits = most_visits(&tree, 50_000, false).expect(rt, "each key is there");
    assert_same(rt, visits <= 32, true);
    remove_even(&mut tree, 50_000);
    assert_same(rt, tree.len(), 25_000);
    assert_same(rt, tree.find(7, &0).0.is_none(), true);
    let visits = most_visits(&tree, 50_000, true).expect(rt, "each odd key is there");
    assert_same(rt, visits <= 30, true);
    assert_same(rt, tree.into_list().len(), 25_000);
}

#[test]
fn signed_keys_in_one_bin(rt: HostRuntime) {
    let rt = &rt;
    let bin = signed_bin(rt);
    assert_same(rt, bin.shape(), Shape::Tree(1000));
    for key in 0i32..1000 {
        let (found, visits) = bin.find(0, &key);
        assert_same(rt, found.is_some(), true);
        assert_same(rt, visits <= 20, true);
    }
}

#[test]
fn shapes_of_a_bin_that_grows_and_shrinks(rt: HostRuntime) {
    let rt = &rt;
    let mut bin: Bin<u64, u64> = Bin::new();
    assert_same(rt, bin.shape(), Shape::Empty);
    put_below(rt, &mut bin, 8);
    bin.plant();
    assert_same(rt, bin.shape(), Shape::List(8));
    put_below(rt, &mut bin, 9);
    assert_same(rt, bin.shape(), Shape::List(9));
    put_below(rt, &mut bin, 10);
    assert_same(rt, bin.shape(), Shape::Tree(10));
    remove_below(&mut bin, 3);
    assert_same(rt, bin.shape(), Shape::Tree(7));
    remove_below(&mut bin, 3);
    assert_same(rt, bin.shape(), Shape::Tree(7));
    remove_below(&mut bin, 4);
    assert_same(rt, bin.shape(), Shape::List(6));
    put_below(rt, &mut bin, 3);
    assert_same(rt, bin.shape(), Shape::List(9));
    bin.plant();
    assert_same(rt, bin.shape(), Shape::Tree(9));
}

#[test]
fn shapes_of_halves_and_of_lists(rt: HostRuntime) {
    let rt = &rt;
    let few: Bin<u64, u64> = Bin::from_list(list_of(rt, 9));
    assert_same(rt, few.shape(), Shape::List(9));
    let (low, high) = few.split(0);
    assert_same(rt, low.shape(), Shape::List(9));
    assert_same(rt, high.shape(), Shape::Empty);
    let many: Bin<u64, u64> = Bin::from_list(list_of(rt, 10));
    assert_same(rt, many.shape(), Shape::Tree(10));
    let (low, high) = many.split(63);
    assert_same(rt, low.shape(), Shape::Tree(10));
    assert_same(rt, high.shape(), Shape::Empty);
}

// Returns a bin of twelve keys, after it has kept those below `bound`.
fn kept_below(rt: &(impl Abort + AllocGlobal), bound: u64) -> Bin<u64, u64> {
    let mut bin: Bin<u64, u64> = Bin::from_list(list_of(rt, 12));
    bin.retain(&mut |key: &u64, _: &u64| *key < bound);
    bin
}

#[test]
fn shapes_of_what_is_kept(rt: HostRuntime) {
    let rt = &rt;
    assert_same(rt, kept_below(rt, 12).shape(), Shape::Tree(12));
    assert_same(rt, kept_below(rt, 8).shape(), Shape::Tree(8));
    assert_same(rt, kept_below(rt, 7).shape(), Shape::Tree(7));
    assert_same(rt, kept_below(rt, 6).shape(), Shape::List(6));
    assert_same(rt, kept_below(rt, 0).shape(), Shape::Empty);
}

#[test]
fn values_of_a_bin(rt: HostRuntime) {
    let rt = &rt;
    let mut bin: Bin<u64, u64> = Bin::from_list(list_of(rt, 12));
    if bin.find(0, &5).0.is_some() {
        let old = bin.write(0, &5, Arc::new(rt.alloc(), 50).expect(rt, "memory"), 2);
        assert_same(rt, *old, 1);
    }
    let entry = bin.find(0, &5).0.expect(rt, "the entry is there");
    assert_same(rt, *entry.value, 50);
    assert_same(rt, entry.number, 2);
    let next = bin.next_after(Some((0, &5)));
    assert_same(rt, *next.expect(rt, "an entry follows").key, 6);
    assert_same(rt, bin.into_list().len(), 12);
}

#[test]
fn a_million_nodes_are_dropped(rt: HostRuntime) {
    let rt = &rt;
    let list = list_of(rt, 1_000_000);
    assert_same(rt, list.len(), 1_000_000);
    let bin: Bin<u64, u64> = Bin::from_list(list);
    assert_same(rt, bin.shape(), Shape::Tree(1_000_000));
    drop(bin);
    let list = list_of(rt, 1_000_000);
    assert_same(rt, list.len(), 1_000_000);
    drop(list);
}

#[test]
fn hashes(rt: HostRuntime) {
    let rt = &rt;
    assert_same(rt, LowHashBuilder.hash_one(&7), 7);
    assert_same(rt, ZeroHashBuilder.hash_one(&7u8), 0);
    assert_same(rt, MaxHashBuilder.hash_one(&7u8), u64::MAX);
    let builder = DefaultHashBuilder::with_seed(3);
    assert_same(rt, builder.hash_one(&5u32), builder.hash_one(&5u32));
    let mut hasher = builder.build_hasher();
    5u32.hash(&mut hasher);
    assert_same(rt, builder.hash_one(&5u32), hasher.finish());
}

// Returns the text of a builder.
fn text_of(rt: &(impl Abort + AllocGlobal), builder: &DefaultHashBuilder) -> String {
    format!(in rt.alloc(); "{builder:?}").expect(rt, "memory for the text")
}

#[test]
fn debug_text_of_a_builder(rt: HostRuntime) {
    let rt = &rt;
    let zero = text_of(rt, &DefaultHashBuilder::default());
    assert_same(rt, zero.as_str(), "DefaultHashBuilder { seed: 0 }");
    let seven = text_of(rt, &DefaultHashBuilder::with_seed(7));
    assert_same(rt, seven.as_str(), "DefaultHashBuilder { seed: 7 }");
}

#[test]
fn the_greatest_number_of_a_bin(rt: HostRuntime) {
    let rt = &rt;
    let mut bin: Bin<u64, u64> = Bin::new();
    for key in 0u64..20 {
        if bin.find(3, &key).0.is_none() && bin.len() < 100 {
            let made = Node::of_pair(rt.alloc(), 3, key, key, (key * 7) % 20);
            bin.put_node(made.expect(rt, "memory for the node"));
        }
    }
    assert_same(rt, bin.greatest_number(), 19);
    let empty: Bin<u64, u64> = Bin::new();
    assert_same(rt, empty.greatest_number(), 0);
}

#[test]
fn strides(rt: HostRuntime) {
    let rt = &rt;
    assert_same(rt, stride(1024, 4), 32);
    assert_same(rt, stride(1024, 1), 1024);
    assert_same(rt, stride(1024, 0), 1024);
    assert_same(rt, stride(8, 1), 16);
}
