//! Insertions that go one way down a bin.

use super::super::metered;
use super::assert_same;
use flurry_bins::bin::{Bin, Ordered, Shape};
use flurry_bins_insertion::table::{Inserted, insert_pair_in_bin};
use metered_alloc::MeteredAlloc;
use std::alloc::{AllocError, Allocator, Global};
use std::process::Abort;
use std::sync::Arc;

// The value that the key had, if any, and whether the bin asks for a larger table.
type Reply = (Option<u64>, bool);

// Inserts a key with the hash 3 into a bin of a table of `bins` bins. The allocator is a parameter, because a proof over that of a test
// unfolds it in each step.
fn insert<A: Allocator + Copy>(
    bin: &mut Bin<u64, u64, A>,
    memory: A,
    key: u64,
    value: u64,
    bins: usize,
) -> Result<Reply, AllocError> {
    if bin.len() >= 1000 {
        return Err(AllocError);
    }
    let value = Arc::new(memory, value)?;
    match insert_pair_in_bin(bin, memory, 3, key, value, 0, bins) {
        Ok(Inserted::New { asks_for_growth }) => Ok((None, asks_for_growth)),
        Ok(Inserted::Replaced(replaced)) => Ok((Some(*replaced.old), false)),
        Err(_) => Err(AllocError),
    }
}

// Returns a bin of `count` even keys, each with itself as its value, in a table of `bins` bins.
fn bin_of<A: Allocator + Copy>(
    memory: A,
    count: u64,
    bins: usize,
) -> Result<Bin<u64, u64, A>, AllocError> {
    let mut bin = Bin::new();
    for i in 0..count {
        let key = (i.wrapping_mul(7) % count).wrapping_mul(2);
        insert(&mut bin, memory, key, key, bins)?;
    }
    Ok(bin)
}

fn value_at<A: Allocator>(bin: &Bin<u64, u64, A>, key: u64) -> Option<u64> {
    match bin.find(3, &key).0 {
        Some(entry) => Some(*entry.value),
        None => None,
    }
}

// Inserts into a bin of the even keys below 16.
fn insert_more<A: Allocator + Copy>(
    rt: &impl Abort,
    bin: &mut Bin<u64, u64, A>,
    memory: A,
) -> Result<(), AllocError> {
    assert_same(rt, bin.shape(), Shape::List(8));
    assert_same(rt, insert(bin, memory, 6, 60, 16)?, (Some(6), false));
    assert_same(rt, insert(bin, memory, 7, 7, 16)?, (None, true));
    assert_same(rt, bin.shape(), Shape::List(9));
    assert_same(rt, insert(bin, memory, 1, 1, 16)?, (None, false));
    assert_same(rt, bin.shape(), Shape::Tree(10));
    assert_same(rt, insert(bin, memory, 6, 61, 16)?, (Some(60), false));
    assert_same(rt, bin.shape(), Shape::Tree(10));
    assert_same(rt, value_at(bin, 6), Some(61));
    assert_same(rt, value_at(bin, 7), Some(7));
    Ok(())
}

// Returns the shape of a bin of `count` keys in a table of `bins` bins.
fn shape_of<A: Allocator + Copy>(memory: A, count: u64, bins: usize) -> Result<Shape, AllocError> {
    let bin = bin_of(memory, count, bins)?;
    Ok(bin.shape())
}

#[test]
fn a_bin_that_grows_by_insertions(rt: HostRuntime) {
    let rt = &rt;
    let mut bin = bin_of(rt.alloc(), 8, 16).expect(rt, "memory");
    insert_more(rt, &mut bin, rt.alloc()).expect(rt, "memory");
    assert_same(
        rt,
        shape_of(rt.alloc(), 8, 64).expect(rt, "memory"),
        Shape::List(8),
    );
    assert_same(
        rt,
        shape_of(rt.alloc(), 9, 64).expect(rt, "memory"),
        Shape::Tree(9),
    );
}

// Asserts that a bin has the shape, the value of the key and the live blocks that it had, and its `count` even keys.
fn stands<A: Allocator>(
    rt: &impl Abort,
    metered: &MeteredAlloc<Global>,
    bin: &Bin<u64, u64, A>,
    (count, key): (u64, u64),
    before: (Shape, Option<u64>, u64),
) {
    let now = (bin.shape(), value_at(bin, key), metered.live_blocks());
    assert_same(rt, now, before);
    for i in 0..count {
        let even = i.wrapping_mul(2);
        assert_same(rt, value_at(bin, even), Some(even));
    }
}

// Inserts a key into a bin of `count` even keys, where the request numbered `k` fails, and returns whether that request was made. If it
// was, the bin is unchanged.
fn refused_in<A: Allocator + Copy>(
    rt: &impl Abort,
    metered: &MeteredAlloc<Global>,
    memory: A,
    bin: &mut Bin<u64, u64, A>,
    (count, key, k): (u64, u64, u64),
) -> bool {
    let before = (bin.shape(), value_at(bin, key), metered.live_blocks());
    metered.refuse_at(k);
    let reply = insert(bin, memory, key, 1000, 64);
    let refused = metered.was_refused();
    metered.refuse_nothing();
    if refused {
        assert_same(rt, reply.is_err(), true);
        stands(rt, metered, bin, (count, key), before);
    } else {
        assert_same(rt, reply.ok(), Some((before.1, false)));
        assert_same(rt, value_at(bin, key), Some(1000));
    }
    refused
}

// Makes the requests of an insertion into a bin of `count` even keys fail in turn. There are `requests` of them.
fn refuse_each<A: Allocator + Copy>(
    rt: &impl Abort,
    metered: &MeteredAlloc<Global>,
    memory: A,
    (count, key, requests): (u64, u64, u64),
) {
    for k in 0..4u64 {
        let mut bin = bin_of(memory, count, 64).expect(rt, "memory for the bin");
        let refused = refused_in(rt, metered, memory, &mut bin, (count, key, k));
        assert_same(rt, (count, key, k, refused), (count, key, k, k < requests));
    }
    assert_same(rt, metered.live_blocks(), 0);
}

// There are three requests for an absent key, and one for a present one.
#[test]
fn refused_insertions(rt: HostRuntime) {
    let rt = &rt;
    let memory = metered(rt, rt.alloc());
    for count in [0u64, 1, 2, 8, 9, 30] {
        refuse_each(rt, memory, memory, (count, 1, 3));
        let requests = if count > 2 { 1 } else { 3 };
        refuse_each(rt, memory, memory, (count, 4, requests));
    }
}
