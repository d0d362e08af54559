//! Sorted lists, and what their tests share.

mod maps;
mod memory;
mod sets;
mod texts;

use super::assert_same;
use flurry_base::hash::LowHashBuilder;
use flurry_seq::SeqMap;
use std::process::Abort;

// Returns the map of `pairs`. Of a key that comes twice, it has the later value.
fn map_of<const N: usize>(
    rt: &(impl Abort + AllocGlobal),
    pairs: [(u64, u64); N],
) -> SeqMap<u64, u64, LowHashBuilder> {
    let list = Vec::from_array(rt.alloc(), pairs).expect(rt, "memory for the pairs");
    SeqMap::from_list(rt.alloc(), list, LowHashBuilder).expect(rt, "memory for the map")
}

// Returns the map that is written and read back.
fn five(rt: &(impl Abort + AllocGlobal)) -> SeqMap<u64, u64, LowHashBuilder> {
    map_of(rt, [(0, 4), (1, 3), (2, 2), (3, 1), (4, 0)])
}
