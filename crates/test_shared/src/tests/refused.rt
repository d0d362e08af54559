//! Calls of a shared map in which a request for memory fails.

use super::threads::insert_in_threads;
use super::workers::count_own;
use super::{Memory, assert_same, insert, metered};
use flurry_base::hash::{DefaultHashBuilder, LowHashBuilder};
use flurry_seq::SeqMap;
use flurry_shared::HashMap;
use metered_alloc::MeteredAlloc;
use std::alloc::{AllocError, Allocator, Global};
use std::process::Abort;
use std::sync::Wait;
use std::thread::Threads;

// A map of numbers. Its allocator is a parameter, because a proof over `Memory` would have to unfold it in each step.
type Numbers<A> = HashMap<u64, u64, LowHashBuilder, A>;

type DefaultNumbers<A> = HashMap<u64, u64, DefaultHashBuilder, A>;

// An owned map of numbers.
type Owned<A> = SeqMap<u64, u64, LowHashBuilder, A>;

// A call that may fail to allocate memory.
#[derive(Clone, Copy)]
enum Call {
    Insert,
    Replace,
    TryInsert,
    Compute,
    ComputeNew,
    ComputeNothing,
    ComputePresent,
    ComputeGone,
    MergeNew,
    Merge,
    Update,
    ReplaceIf,
    RemoveIf,
    GetOrInsert,
    Get,
    Reserve(usize),
    Clear,
}

// Returns whether a call succeeded. What it returned is dropped here, since each drop in the body of the calls would make its proof longer.
pub(super) fn succeeded<T: Drop>(answer: Result<T, AllocError>) -> bool {
    answer.is_ok()
}

// Makes the call, of key 99 or of the key 0, and returns whether it succeeded.
fn is_done<A: Allocator + Copy, R: Wait>(rt: &R, map: &Numbers<A>, call: Call) -> bool {
    match call {
        Call::Insert => succeeded(map.insert(rt, 99, 1)),
        Call::Replace => succeeded(map.insert(rt, 0, 1)),
        Call::TryInsert => succeeded(map.try_insert(rt, 99, 1)),
        Call::Compute => succeeded(map.compute_if_present(rt, &0, |_, _| Some(1))),
        Call::ComputeNew => succeeded(map.compute(rt, 99, |_, _| Some(1))),
        Call::ComputeNothing => succeeded(map.compute(rt, 99, |_, _| None)),
        Call::ComputePresent => succeeded(map.compute(rt, 0, |_, _| Some(1))),
        Call::ComputeGone => succeeded(map.compute(rt, 0, |_, _| None)),
        Call::MergeNew => succeeded(map.merge(rt, 99, 1, |_, _| None)),
        Call::Merge => succeeded(map.merge(rt, 0, 1, |_, new| Some(new))),
        Call::Update => succeeded(map.update(rt, &0, |_, _| 1)),
        Call::ReplaceIf => succeeded(map.replace_if(rt, &0, |_, _| true, 1)),
        Call::RemoveIf => map.remove_if(rt, &0, |_, _| true).is_some(),
        Call::GetOrInsert => succeeded(map.get_or_insert_with(rt, 99, |_| 1)),
        Call::Get => succeeded(map.get(rt, &0)),
        Call::Reserve(pairs) => succeeded(map.reserve(rt, pairs)),
        Call::Clear => {
            map.clear(rt);
            true
        }
    }
}

// Inserts the keys below `count`, each with itself as its value.
fn fill<A: Allocator + Copy, R: Abort + Wait>(rt: &R, map: &Numbers<A>, count: u64) {
    for key in 0..count {
        insert(rt, map, key, key);
    }
}

// Returns a map of the keys below `count`, each with itself as its value.
fn numbers<A: Allocator + Copy, R: Abort + Wait>(rt: &R, alloc: A, count: u64) -> Numbers<A> {
    let map = HashMap::with_hasher(alloc, LowHashBuilder);
    fill(rt, &map, count);
    map
}

// What a call did while a request failed: whether that request was made, whether the call succeeded, whether the earlier pairs are present,
// and the number of pairs; and then, made again with memory: whether it succeeded, and how many requests it made.
type Seen = ((bool, bool, bool, usize), (bool, u64));

// Makes the call while the request numbered `k` fails, and again, on a map of `keys` keys in this memory.
fn refuse_in<A: Allocator + Copy, R: Wait>(
    rt: &R,
    metered: &MeteredAlloc<Global>,
    k: u64,
    map: &Numbers<A>,
    keys: u64,
    call: Call,
) -> Seen {
    metered.refuse_at(k);
    let done = is_done(rt, map, call);
    let refused = metered.was_refused();
    let stand = count_own(rt, map, 0, keys) == keys;
    let len = map.len(rt);
    metered.refuse_nothing();
    let done_again = is_done(rt, map, call);
    (
        (refused, done, stand, len),
        (done_again, metered.requests()),
    )
}

// Does the same as `refuse_in`, on a map that is created for the call.
fn call_without<R: Abort + Wait>(
    rt: &R,
    memory: Memory,
    (keys, call): (u64, Call),
    k: u64,
) -> Seen {
    refuse_in(rt, memory, k, &numbers(rt, memory, keys), keys, call)
}

// Makes each of `requests` requests of the call fail in turn, on a map of `keys` keys: the call fails, and the pairs stay. Made again, it
// succeeds.
fn refuse_each<R: Abort + Wait>(rt: &R, memory: Memory, (keys, call): (u64, Call), requests: u64) {
    for k in 0..requests {
        let (seen, (done_again, _)) = call_without(rt, memory, (keys, call), k);
        let wanted = (true, false, true, keys as usize);
        assert_same(rt, (k, seen, done_again), (k, wanted, true));
        assert_same(rt, memory.live_blocks(), 0);
    }
    let ((refused, done, _, _), _) = call_without(rt, memory, (keys, call), requests);
    assert_same(rt, (refused, done), (false, true));
}

// A table takes two requests, and the board and the seats of the growth that fills it five more. Room for 100 pairs is 256 bins and one
// growth, or five growths from 16 bins.
#[test]
fn each_request_of_a_call(rt: HostRuntime) {
    let memory = metered(&rt, rt.alloc());
    for (keys, call, requests) in [
        (0, Call::Insert, 5),
        (1, Call::Insert, 3),
        (1, Call::Replace, 1),
        (0, Call::TryInsert, 5),
        (1, Call::TryInsert, 3),
        (0, Call::Compute, 0),
        (1, Call::Compute, 1),
        (1, Call::Get, 0),
        (0, Call::Reserve(100), 9),
        (1, Call::Reserve(100), 35),
        (0, Call::Clear, 0),
        (1, Call::Clear, 0),
    ] {
        refuse_each(&rt, memory, (keys, call), requests);
    }
}

// A new key takes what an insertion of it takes, and a present one the `Arc` of its new value. Where no value is to stand, a computation
// takes no more than a first table.
#[test]
fn each_request_of_a_call_by_a_function(rt: HostRuntime) {
    let memory = metered(&rt, rt.alloc());
    for (keys, call, requests) in [
        (0, Call::ComputeNew, 5),
        (1, Call::ComputeNew, 3),
        (0, Call::ComputeNothing, 2),
        (1, Call::ComputeNothing, 0),
        (1, Call::ComputePresent, 1),
        (1, Call::ComputeGone, 0),
        (0, Call::MergeNew, 5),
        (1, Call::MergeNew, 3),
        (1, Call::Merge, 1),
        (0, Call::Update, 0),
        (1, Call::Update, 1),
        (0, Call::ReplaceIf, 0),
        (1, Call::ReplaceIf, 1),
        (1, Call::RemoveIf, 0),
        (0, Call::GetOrInsert, 5),
        (1, Call::GetOrInsert, 3),
    ] {
        refuse_each(&rt, memory, (keys, call), requests);
    }
}

// If memory for the larger table, its board or a seat cannot be allocated, the insertion is done in the old table.
#[test]
fn a_larger_table_of_an_insertion(rt: HostRuntime) {
    let rt = &rt;
    let memory = metered(rt, rt.alloc());
    for k in 3..10u64 {
        let (seen, _) = call_without(rt, memory, (11, Call::Insert), k);
        assert_same(rt, (k, seen), (k, (true, true, true, 12)));
    }
}

// Two growths, to 32 and to 64 bins, take seven requests each. A growth that is refused leaves neither a table nor a board nor seats: the
// next attempt makes all of its requests.
#[test]
fn a_refused_growth_leaves_nothing(rt: HostRuntime) {
    let rt = &rt;
    let memory = metered(rt, rt.alloc());
    for k in 0..14u64 {
        let asked = if k < 7 { 14 } else { 7 };
        let (seen, again) = call_without(rt, memory, (11, Call::Reserve(1)), k);
        assert_same(rt, (k, seen), (k, (true, false, true, 11)));
        assert_same(rt, (k, again), (k, (true, asked)));
    }
}

// Returns whether a call succeeded while the request numbered `k` failed, and how many blocks more or fewer there are after it.
fn blocks_left<A: Allocator + Copy, R: Wait>(
    rt: &R,
    metered: &MeteredAlloc<Global>,
    k: u64,
    map: &Numbers<A>,
    call: Call,
) -> (bool, u64) {
    let before = metered.live_blocks();
    metered.refuse_at(k);
    let done = is_done(rt, map, call);
    metered.refuse_nothing();
    (done, metered.live_blocks().abs_diff(before))
}

fn blocks_left_in_new<R: Abort + Wait>(rt: &R, memory: Memory, k: u64) -> (bool, u64) {
    blocks_left(rt, memory, k, &numbers(rt, memory, 11), Call::Reserve(1))
}

// Nor does it keep memory as long as the map lives.
#[test]
fn a_refused_growth_keeps_no_block(rt: HostRuntime) {
    let rt = &rt;
    let memory = metered(rt, rt.alloc());
    for k in 0..7u64 {
        assert_same(rt, (k, blocks_left_in_new(rt, memory, k)), (k, (false, 0)));
    }
}

// Returns a map with room for `capacity` numbers.
fn map_with_room<A: Allocator + Copy>(
    memory: A,
    capacity: usize,
) -> Result<Numbers<A>, AllocError> {
    HashMap::with_capacity_and_hasher(memory, capacity, LowHashBuilder)
}

// Returns a map with room for five numbers, and the default hasher.
fn map_with_room_by_default<A: Allocator + Copy>(
    memory: A,
) -> Result<DefaultNumbers<A>, AllocError> {
    HashMap::with_capacity(memory, 5)
}

#[test]
fn a_map_with_room(rt: HostRuntime) {
    let rt = &rt;
    let memory = metered(rt, rt.alloc());
    for k in 0..3u64 {
        memory.refuse_at(k);
        assert_same(rt, (k, succeeded(map_with_room(memory, 5))), (k, k == 2));
        memory.refuse_nothing();
        assert_same(rt, memory.live_blocks(), 0);
    }
}

// A map with room and the default hasher, which takes no memory.
#[test]
fn a_map_with_room_by_default(rt: HostRuntime) {
    let rt = &rt;
    let memory = metered(rt, rt.alloc());
    for k in 0..3u64 {
        memory.refuse_at(k);
        assert_same(
            rt,
            (k, succeeded(map_with_room_by_default(memory))),
            (k, k == 2),
        );
        memory.refuse_nothing();
        assert_same(rt, memory.live_blocks(), 0);
    }
}

// Returns an owned map of three keys, each with itself as its value.
fn three_keys<A: Allocator + Copy>(rt: &impl Abort, alloc: A) -> Owned<A> {
    let mut map = SeqMap::with_hasher(alloc, LowHashBuilder);
    for key in 0..3u64 {
        map.insert(key, key).expect(rt, "memory for the pair");
    }
    map
}

// Asserts that the map that could not be shared still has its room and its three keys.
fn has_three_keys<A: Allocator + Copy>(rt: &impl Abort, map: &Owned<A>, k: u64) {
    assert_same(rt, (k, map.len(), map.capacity()), (k, 3, 16));
    assert_same(rt, *map == three_keys(rt, *map.allocator()), true);
}

// Shares an owned map of three keys while the request numbered `k` fails, and checks that it comes back with its pairs.
fn share_without<R: Abort + Wait>(rt: &R, memory: Memory, k: u64) {
    let map = three_keys(rt, memory);
    memory.refuse_at(k);
    let answer = HashMap::from_seq(rt, map);
    memory.refuse_nothing();
    match answer {
        Ok(_) => panic!(rt; "the request was refused"),
        Err(map) => has_three_keys(rt, &map, k),
    }
}

// Memory for each of the two tables of a shared map cannot be allocated.
#[test]
fn the_tables_of_a_shared_map(rt: HostRuntime) {
    let rt = &rt;
    let memory = metered(rt, rt.alloc());
    for k in 0..2u64 {
        share_without(rt, memory, k);
    }
    assert_same(rt, memory.live_blocks(), 0);
}

// Makes an owned map of a shared one, and returns whether that succeeded.
fn is_owned_again<A: Allocator + Copy, R: Wait>(rt: &R, map: Numbers<A>) -> bool {
    map.into_seq(rt).is_ok()
}

// Does the same with a map of three keys while the request numbered `k` fails.
fn is_owned_without<R: Abort + Wait>(rt: &R, memory: Memory, k: u64) -> bool {
    let map = numbers(rt, memory, 3);
    memory.refuse_at(k);
    let done = is_owned_again(rt, map);
    memory.refuse_nothing();
    done
}

// The owned map that a shared map becomes requests memory for its table and for a node of each pair.
#[test]
fn the_requests_of_an_owned_map_again(rt: HostRuntime) {
    let rt = &rt;
    let memory = metered(rt, rt.alloc());
    for k in 0..5u64 {
        let done = is_owned_without(rt, memory, k);
        assert_same(rt, (k, done), (k, k == 4));
        assert_same(rt, memory.live_blocks(), 0);
    }
}

// Four threads insert into a map of sixteen pairs while this memory runs out.
fn run_out<A: Allocator + Copy + Send + Sync, R: Abort + Threads + Wait + Sync>(
    rt: &R,
    memory: &MeteredAlloc<Global>,
    k: u64,
    map: &Numbers<A>,
) {
    memory.refuse_from(k);
    insert_in_threads(rt, map, 4, 1000, 1000);
    memory.refuse_nothing();
    assert_same(rt, (k, count_own(rt, map, 0, 16)), (k, 16));
    let there = count_own(rt, map, 0, 4000);
    assert_same(rt, (k, map.len(rt) as u64), (k, there));
}

// Four threads insert while memory runs out. The earlier pairs stay, and the count is that of the keys that are present.
#[test]
fn threads_without_memory(rt: HostRuntime) {
    let rt = &rt;
    let memory = metered(rt, rt.alloc());
    for k in [0u64, 100, 1000] {
        run_out(rt, memory, k, &numbers(rt, memory, 16));
        assert_same(rt, memory.live_blocks(), 0);
    }
}

// Inserts a thousand pairs, and returns how many requests were made up to the last of them. Later ones are counted from 0 on.
fn requests_up_to_here<A: Allocator + Copy, R: Abort + Wait>(
    rt: &R,
    metered: &MeteredAlloc<Global>,
    map: &Numbers<A>,
) -> u64 {
    fill(rt, map, 1000);
    let asked = metered.requests();
    metered.refuse_nothing();
    asked
}

// Creates a map with room for a thousand pairs, inserts them, and makes an owned map of it. Returns how many requests were made up to the
// last insertion, and whether the owned map was made.
fn fills_and_owns<R: Abort + Wait>(rt: &R, memory: Memory) -> (u64, bool) {
    let map = map_with_room(memory, 1000).expect(rt, "memory for the map");
    let asked = requests_up_to_here(rt, memory, &map);
    (asked, is_owned_again(rt, map))
}

// A map with room for a thousand pairs asks for no further table, nor does the owned one that it becomes.
#[test]
fn room_is_made_once(rt: HostRuntime) {
    let rt = &rt;
    let memory = metered(rt, rt.alloc());
    let seen = fills_and_owns(rt, memory);
    assert_same(rt, (seen, memory.requests()), ((3002, true), 1001));
}

// Large tables are made, where there is memory.
#[test]
fn much_room(rt: HostRuntime) {
    let rt = &rt;
    let map: HashMap<u64, u64> = HashMap::with_capacity(rt.alloc(), 5000).expect(rt, "memory");
    map.reserve(rt, 40_000).expect(rt, "memory");
    assert_same(rt, map.len(rt), 0);
}

// Memory for a table is asked for up to 2^30 bins. It is refused, so the test takes none.
#[test]
fn room_of_each_size(rt: HostRuntime) {
    let rt = &rt;
    let memory = metered(rt, rt.alloc());
    for pairs in [100_001, 1_000_000, 10_000_000, 100_000_000, 500_000_000] {
        memory.refuse_at(0);
        let made = succeeded(map_with_room(memory, pairs));
        assert_same(rt, (pairs, made, memory.requests()), (pairs, false, 1));
        memory.refuse_nothing();
    }
}
