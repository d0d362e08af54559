//! The allocator that refuses requests: which it refuses, what it counts, and types and threads over it.

use metered_alloc::MeteredAlloc;
use std::alloc::{AllocError, Allocator, Global};
use std::fmt::Debug;
use std::process::Abort;
use std::sync::{Arc, RwLock, Wait};
use std::thread;
use std::thread::Threads;

// A type that a crate defines itself, generic in the allocator.
#[derive(Drop)]
struct Link<K, A: Allocator> {
    key: Arc<K, A>,
    next: Option<Box<Arc<K, A>, A>>,
}

impl<K: Drop, A: Allocator + Copy> Link<K, A> {
    fn new(memory: A, key: K) -> Result<Link<K, A>, AllocError> {
        let key = Arc::new(memory, key)?;
        let again = Arc::try_clone(&key)?;
        let next = Box::new(memory, again)?;
        Ok(Link {
            key,
            next: Some(next),
        })
    }
}

fn three<A: Allocator + Copy>(memory: A) -> Result<usize, AllocError> {
    let mut numbers = Vec::new(memory);
    for i in 0..9u8 {
        numbers.push(i)?;
    }
    let boxed = Box::new(memory, 7u8)?;
    let shared = Arc::new(memory, *boxed)?;
    numbers.push(*shared)?;
    Ok(numbers.len())
}

// Asserts that a value is the expected one. A test with many assertions calls this, because each `assert_eq!` in its own body makes its
// proof longer.
fn assert_same<T: PartialEq + Debug + Drop>(rt: &impl Abort, seen: T, wanted: T) {
    assert_eq!(rt; seen, wanted);
}

// Returns what `three` returns if the request numbered `k` fails, and whether it made that request.
fn three_without(memory: &MeteredAlloc<Global>, k: u64) -> (Result<usize, AllocError>, bool) {
    memory.refuse_during(k, || three(memory))
}

// `three` makes four requests.
#[test]
fn each_request_is_refused_in_turn(rt: HostRuntime) {
    let rt = &rt;
    let memory = &MeteredAlloc::new(rt.alloc());
    for k in 0..4u64 {
        let seen = three_without(memory, k);
        assert_same(rt, (k, seen), (k, (Err(AllocError), true)));
        assert_same(rt, memory.live_blocks(), 0);
    }
    assert_same(rt, three_without(memory, 4), (Ok(10), false));
}

// A list of nine numbers.
fn nine<A: Allocator + Copy>(memory: A) -> Result<Vec<u8, A>, AllocError> {
    let mut numbers = Vec::new(memory);
    for i in 0..9u8 {
        numbers.push(i)?;
    }
    Ok(numbers)
}

// Asserts that each request of some calls fails.
fn refuses_all(
    rt: &impl Abort,
    memory: &MeteredAlloc<Global>,
    numbers: &mut Vec<u8, &MeteredAlloc<Global>>,
) {
    assert_same(rt, (memory.requests(), memory.was_refused()), (2, false));
    assert_same(rt, boxed(memory, 1), Err(AllocError));
    assert_same(rt, boxed(memory, 1), Err(AllocError));
    assert_same(rt, numbers.reserve(100).is_err(), true);
    assert_same(rt, (numbers.len(), memory.was_refused()), (9, true));
}

#[test]
fn all_from_one_on_are_refused(rt: HostRuntime) {
    let rt = &rt;
    let memory = &MeteredAlloc::new(rt.alloc());
    memory.refuse_from(2);
    let mut numbers = nine(memory).expect(rt, "two requests");
    refuses_all(rt, memory, &mut numbers);
    memory.refuse_nothing();
    assert_same(rt, numbers.reserve(100).is_err(), false);
    assert_same(rt, memory.requests(), 1);
}

// Creates a `Link`, which takes two requests, while the request numbered `k` fails, and checks what was created.
fn makes_link<A: Allocator + Copy>(
    rt: &impl Abort,
    metered: &MeteredAlloc<Global>,
    memory: A,
    k: u64,
) {
    let (answer, refused) = metered.refuse_during(k, || Link::new(memory, 7u64));
    assert_same(rt, (refused, answer.is_err()), (k < 2, k < 2));
    if let Ok(link) = answer {
        assert_same(
            rt,
            (metered.live_blocks(), metered.live_bytes() > 16),
            (2, true),
        );
        assert_same(rt, (*link.key, link.next.is_some()), (7, true));
    }
}

#[test]
fn a_type_of_ones_own(rt: HostRuntime) {
    let memory = &MeteredAlloc::new(rt.alloc());
    for k in 0..3u64 {
        makes_link(&rt, memory, memory, k);
    }
    assert_same(&rt, memory.live_blocks(), 0);
}

fn on_two<A: Allocator + Copy + Send + Sync>(
    rt: &impl Threads,
    memory: A,
) -> Result<(u64, u64), AllocError> {
    let shared = Arc::new(memory, 3u64)?;
    let theirs = Arc::try_clone(&shared)?;
    let (one, two) = thread::join(rt, || boxed(memory, *theirs), || boxed(memory, *shared));
    Ok((one?, two?))
}

fn boxed<A: Allocator + Copy>(memory: A, number: u64) -> Result<u64, AllocError> {
    Ok(*Box::new(memory, number)?)
}

// Returns what `on_two` returns if the request numbered `k` fails, and whether that request was made.
fn on_two_without(
    rt: &impl Threads,
    memory: &MeteredAlloc<Global>,
    k: u64,
) -> (Result<(u64, u64), AllocError>, bool) {
    memory.refuse_during(k, || on_two(rt, memory))
}

// `on_two` makes three requests.
#[test]
fn threads_share_it(rt: HostRuntime) {
    let rt = &rt;
    let memory = &MeteredAlloc::new(rt.alloc());
    for k in 0..3u64 {
        let seen = on_two_without(rt, memory, k);
        assert_same(rt, (k, seen), (k, (Err(AllocError), true)));
    }
    assert_same(rt, on_two_without(rt, memory, 3), (Ok((3, 3)), false));
}

#[test]
fn a_leaked_one_goes_to_a_spawned_thread(rt: HostRuntime) {
    let rt = &rt;
    let memory = MeteredAlloc::leak(rt.alloc()).expect(rt, "memory for the allocator");
    memory.refuse_at(1);
    let child = thread::spawn(rt, move || (boxed(memory, 1), boxed(memory, 2)));
    let seen = child.expect(rt, "the thread is started").join(rt);
    assert_same(rt, seen, (Ok(1), Err(AllocError)));
}

// A shared type that a crate defines itself. The list in its lock and its keys come from one allocator.
#[derive(Drop)]
struct Shelf<K, A: Allocator> {
    keys: RwLock<Vec<Arc<K, A>, A>>,
    memory: A,
}

impl<K: Drop, A: Allocator + Copy> Shelf<K, A> {
    fn new(memory: A) -> Shelf<K, A> {
        Shelf {
            keys: RwLock::new(Vec::new(memory)),
            memory,
        }
    }

    fn put(&self, rt: &impl Wait, key: K) -> Result<usize, AllocError> {
        let key = Arc::new(self.memory, key)?;
        let mut keys = self.keys.write(rt);
        keys.push(key)?;
        Ok(keys.len())
    }
}

fn one_put<A: Allocator + Copy + Send + Sync, R: Threads + Wait + Sync>(
    rt: &R,
    shelf: &Shelf<u64, A>,
) -> Result<usize, AllocError> {
    thread::scope(thread::scope_env(), rt, |s| {
        let child = s.spawn(|| shelf.put(rt, 3));
        match child {
            Ok(child) => child.join(rt),
            Err(_) => Err(AllocError),
        }
    })
}

#[test]
fn threads_share_a_type_over_it(rt: HostRuntime) {
    let rt = &rt;
    let memory = MeteredAlloc::leak(rt.alloc()).expect(rt, "memory for the allocator");
    let shelf: &Shelf<u64, &'static MeteredAlloc<Global>> = &Shelf::new(memory);
    memory.refuse_at(2);
    let (one, two) = thread::join(rt, || shelf.put(rt, 1), || shelf.put(rt, 2));
    assert_same(rt, one.is_err() != two.is_err(), true);
    assert_same(rt, memory.was_refused(), true);
    assert_same(rt, one_put(rt, shelf), Ok(2));
}
