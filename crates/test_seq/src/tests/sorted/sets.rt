//! Sets as lists of elements, and back.
ghost use Rattle.std.specs.Prelude.{◌≡◌, IfOk};

use super::assert_same;
use flurry_base::hash::LowHashBuilder;
use flurry_seq_pairs::SortedItems;
use flurry_seq_pairs::set::{from_items, to_sorted_items};
use flurry_seq_set::SeqSet;
use std::alloc::AllocError;
use std::process::Abort;

// It is known here without a proof that the clones of numbers equal the numbers.
fn listed(set: &SeqSet<u64, LowHashBuilder>) -> Result<SortedItems<u64>, AllocError>
    ensures elements { IfOk result (λ list. list.0.items ≡ set.now.elements) }
{
    to_sorted_items(set)
}

// Returns a list of elements.
fn list_of<const N: usize>(
    rt: &(impl Abort + AllocGlobal),
    elements: [u64; N],
) -> SortedItems<u64> {
    SortedItems(Vec::from_array(rt.alloc(), elements).expect(rt, "memory for the list"))
}

#[test]
fn an_element_that_comes_twice(rt: HostRuntime) {
    let rt = &rt;
    let made = from_items(list_of(rt, [2, 1, 2]), LowHashBuilder);
    let set = made.expect(rt, "memory for the set");
    assert_same(rt, set.len(), 2);
    let list = listed(&set).expect(rt, "memory for the list");
    assert_same(rt, list, list_of(rt, [1, 2]));
}

// Returns a list of the numbers below 2,000.
fn many(rt: &(impl Abort + AllocGlobal)) -> Vec<u64> {
    let mut list = Vec::new(rt.alloc());
    for number in 0..2000u64 {
        list.push(number).expect(rt, "memory for the list");
    }
    list
}

#[test]
fn many_elements_there_and_back(rt: HostRuntime) {
    let rt = &rt;
    let set = from_items(SortedItems(many(rt)), LowHashBuilder).expect(rt, "memory for the set");
    assert_same(rt, set.len(), 2000);
    let list = listed(&set).expect(rt, "memory for the list");
    assert_same(rt, list.0 == many(rt), true);
}
