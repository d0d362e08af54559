//! First tables and larger ones.

use super::{
    NumberMap, Refused, adds, assert_same, assert_same_at, map_of, metered, number_at, refuse_each,
    size_of, taken,
};
use flurry_base::hash::{DefaultHashBuilder, KeyHasher, LowHashBuilder, ZeroHashBuilder};
use flurry_bins::bin::Shape;
use flurry_seq::SeqMap;
use metered_alloc::MeteredAlloc;
use std::alloc::{AllocError, Allocator, Global};
use std::process::Abort;

// Creates a map with room for `capacity` pairs, and returns the numbers of its bins and pairs, or `None` if this fails.
fn size_for<A: Allocator + Copy>(memory: A, capacity: usize) -> Option<(usize, usize)> {
    match SeqMap::with_capacity_and_hasher(memory, capacity, LowHashBuilder) {
        Ok(map) => Some(size_of(&map)),
        Err(_) => None,
    }
}

#[test]
fn with_capacity(rt: HostRuntime) {
    let rt = &rt;
    let memory = metered(rt, rt.alloc());
    memory.refuse_from(0);
    assert_same(rt, size_for(memory, 0), Some((0, 0)));
    assert_same(rt, memory.requests(), 0);
    assert_same(rt, size_for(memory, 5), None);
    assert_same(rt, memory.live_blocks(), 0);
    memory.refuse_nothing();
    assert_same(rt, size_for(memory, 5), Some((8, 0)));
    assert_same(rt, memory.requests(), 1);
}

// Creates a map with room for five pairs and the default hasher, and returns whether this fails.
fn default_is_refused<A: Allocator + Copy>(memory: A) -> bool {
    let map: Result<SeqMap<u64, u64, DefaultHashBuilder, A>, AllocError> = SeqMap::with_capacity(
        memory, 5,
    );
    map.is_err()
}

// The same with the default hasher.
#[test]
fn with_capacity_and_the_default_hasher(rt: HostRuntime) {
    let rt = &rt;
    let memory = metered(rt, rt.alloc());
    memory.refuse_from(0);
    assert_same(rt, default_is_refused(memory), true);
    assert_same(rt, memory.live_blocks(), 0);
}

// Reserves room for 32 pairs while the request numbered `k` fails. Returns whether that request was made and the call failed.
fn reserve_is_refused<A: Allocator + Copy>(
    metered: &MeteredAlloc<Global>,
    map: &mut NumberMap<LowHashBuilder, A>,
    k: u64,
) -> bool {
    metered.refuse_at(k);
    let failed = map.reserve(32).is_err();
    let refused = metered.was_refused();
    metered.refuse_nothing();
    refused && failed
}

// Asserts that a map of `bins` bins and the pairs of the keys below `pairs` is as it was, and has the memory that it had, after a `reserve`
// whose only request failed, and has 128 bins after a second one.
fn stays_where_refused<A: Allocator + Copy>(
    rt: &impl Abort,
    metered: &MeteredAlloc<Global>,
    memory: A,
    bins: usize,
    pairs: u64,
) {
    let mut map = map_of(rt, memory, pairs);
    let before = (metered.live_blocks(), metered.live_bytes());
    assert_same(rt, reserve_is_refused(metered, &mut map, 0), true);
    assert_same(rt, size_of(&map), (bins, pairs as usize));
    assert_same(rt, (metered.live_blocks(), metered.live_bytes()), before);
    assert_same(rt, reserve_is_refused(metered, &mut map, 1), false);
    assert_same(rt, map.capacity(), 128);
}

#[test]
fn refused_reserve_leaves_the_map(rt: HostRuntime) {
    let rt = &rt;
    let memory = metered(rt, rt.alloc());
    for (bins, pairs) in [(0, 0), (16, 1)] {
        stays_where_refused(rt, memory, memory, bins, pairs);
    }
    assert_same(rt, memory.live_blocks(), 0);
}

// Inserts an absent key while the request numbered `k`, which is for a larger table, fails. The insertion does not fail.
fn adds_without_a_table<S: KeyHasher<u64>, A: Allocator + Copy>(
    rt: &impl Abort,
    metered: &MeteredAlloc<Global>,
    map: &mut NumberMap<S, A>,
    (key, value): (u64, u64),
    k: u64,
) {
    metered.refuse_at(k);
    let answer = map.insert(key, value);
    let refused = metered.was_refused();
    metered.refuse_nothing();
    assert_same_at(rt, k, refused, true);
    assert_same_at(rt, k, taken(answer.expect(rt, "memory for the pair")), None);
}

// Fills a map up to its threshold, and past it while memory for the larger table is refused.
fn fills_a_table<A: Allocator + Copy>(rt: &impl Abort, metered: &MeteredAlloc<Global>, memory: A) {
    let mut map: NumberMap<LowHashBuilder, A> = SeqMap::with_hasher(memory, LowHashBuilder);
    adds(rt, &mut map, 42, 0);
    for key in 0..10u64 {
        adds(rt, &mut map, key, 42);
    }
    let before = metered.live_blocks();
    adds_without_a_table(rt, metered, &mut map, (10, 42), 3);
    assert_same(rt, size_of(&map), (16, 12));
    assert_same(rt, metered.live_blocks().checked_sub(before), Some(3));
    assert_same(rt, number_at(&map, 10), Some(42));
    adds(rt, &mut map, 11, 42);
    assert_same(rt, size_of(&map), (32, 13));
}

// The twelfth pair makes requests for its key, its value and its node, and then for the larger table.
#[test]
fn row_15(rt: HostRuntime) {
    let memory = metered(&rt, rt.alloc());
    fills_a_table(&rt, memory, memory);
}

// Puts ten keys of one hash into a map, and refuses the ninth the larger table that its bin asks for.
fn keeps_its_table<A: Allocator + Copy>(
    rt: &impl Abort,
    metered: &MeteredAlloc<Global>,
    memory: A,
) {
    let mut map: NumberMap<ZeroHashBuilder, A> = SeqMap::with_hasher(memory, ZeroHashBuilder);
    for key in 0..8u64 {
        adds(rt, &mut map, key, key);
    }
    adds_without_a_table(rt, metered, &mut map, (8, 8), 3);
    assert_same(rt, (map.capacity(), map.shape_of(0)), (16, Shape::List(9)));
    assert_same(rt, number_at(&map, 8), Some(8));
    adds(rt, &mut map, 9, 9);
    assert_same(rt, (map.capacity(), map.shape_of(0)), (16, Shape::Tree(10)));
}

// The ninth key of one hash asks for 128 bins, by one request. The tenth key makes the list a tree in a table of any size.
#[test]
fn refused_growth_keeps_insert(rt: HostRuntime) {
    let rt = &rt;
    let memory = metered(rt, rt.alloc());
    keeps_its_table(rt, memory, memory);
    assert_same(rt, memory.live_blocks(), 0);
}

// Fills one bin of a map, whose growth is refused.
fn fills_a_bin<A: Allocator + Copy>(rt: &impl Abort, metered: &MeteredAlloc<Global>, memory: A) {
    let mut map = map_of(rt, memory, 4);
    for k in 1..8u64 {
        adds(rt, &mut map, 16 * k, k);
    }
    assert_same(rt, size_of(&map), (16, 11));
    adds_without_a_table(rt, metered, &mut map, (128, 8), 3);
    assert_same(rt, size_of(&map), (32, 12));
}

// Of eleven pairs in 16 bins, eight are in one bin. The ninth of that bin asks for 128 bins, and is refused them. Then the count,
// which is the threshold, asks for 32 bins.
#[test]
fn count_grows_after_a_refused_growth(rt: HostRuntime) {
    let memory = metered(&rt, rt.alloc());
    fills_a_bin(&rt, memory, memory);
}

// Fills a map past its threshold while memory for a larger table is refused, and then once with it.
fn fills_without_room<A: Allocator + Copy>(
    rt: &impl Abort,
    metered: &MeteredAlloc<Global>,
    memory: A,
) {
    let mut map = map_of(rt, memory, 11);
    for key in 11..24u64 {
        metered.refuse_from(3);
        adds(rt, &mut map, key, key);
        metered.refuse_nothing();
    }
    assert_same(rt, size_of(&map), (16, 24));
    adds(rt, &mut map, 24, 24);
    assert_same(rt, size_of(&map), (64, 25));
}

// Thirteen insertions reach or pass the threshold of 16 bins, and for none of them memory for a larger table can be allocated. The next
// insertion doubles the table twice.
#[test]
fn count_grows_until_there_is_room(rt: HostRuntime) {
    let memory = metered(&rt, rt.alloc());
    fills_without_room(&rt, memory, memory);
}

// The insertion that grows a map of eleven pairs to 32 bins.
struct Grows;

impl Refused for Grows {
    fn run_refusing<A: Allocator + Copy>(
        &self,
        rt: &impl Abort,
        metered: &MeteredAlloc<Global>,
        memory: A,
        k: u64,
    ) -> bool {
        let mut map = map_of(rt, memory, 11);
        metered.refuse_at(k);
        let is_new = match map.insert(11, 11) {
            Ok(old) => Some(old.is_none()),
            Err(_) => None,
        };
        let refused = metered.was_refused();
        metered.refuse_nothing();
        let len = if is_new.is_none() { 11 } else { 12 };
        let bins = if refused { 16 } else { 32 };
        assert_same_at(rt, k, size_of(&map), (bins, len));
        assert_same_at(rt, k, map.contains_key(&11), is_new.is_some());
        assert_same_at(rt, k, refused || is_new == Some(true), true);
        refused
    }
}

#[test]
fn each_request_of_a_growing_insert(rt: HostRuntime) {
    refuse_each(&rt, rt.alloc(), &Grows);
}
