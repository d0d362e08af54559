//! Threads that insert into one shared map.

use super::{assert_same, output, tells_usage};
use flurry_base::hash::KeyHasher;
use flurry_run_words::run_words;
use flurry_run_words::threads::{fill, insert_in_threads};
use flurry_shared::HashMap;
use std::process::Abort;
use std::sync::Wait;
use std::sync::atomic::{AtomicBool, AtomicU64, Ordering};
use std::thread;
use std::thread::Threads;

// The most turns that one hash waits for the others.
const TURNS: u32 = 1_000_000;

// How many of three hashes have begun, and whether one waited in vain for the others.
#[derive(Drop)]
struct Crowd {
    begun: AtomicU64,
    missed: AtomicBool,
}

impl Crowd {
    fn new() -> Self {
        Crowd {
            begun: AtomicU64::new(0),
            missed: AtomicBool::new(false),
        }
    }

    // Says that a hash has begun, and waits until three have.
    fn begin(&self) {
        self.begun.fetch_add(1, Ordering::SeqCst);
        for _ in 0..TURNS {
            if self.begun.load(Ordering::SeqCst) >= 3 {
                return;
            }
            thread::yield_now();
        }
        self.missed.store(true, Ordering::SeqCst);
    }
}

// Gives each key itself, once the hashes of three keys have begun.
#[derive(Clone, Copy)]
struct CrowdHasher<'m> {
    crowd: &'m Crowd,
}

impl<'m> KeyHasher<u64> for CrowdHasher<'m> {
    ghost use Rattle.flurry_base.specs.Hashing.{same_number};

    ghost hash_of = { λ s k. k };

    ghost alike = { λ s x y e. same_number x y e };

    fn hash_one(&self, key: &u64) -> u64 {
        self.crowd.begin();
        *key
    }
}

// Three keys are inserted by three threads at the same time.
#[test]
fn three_threads_at_once(rt: HostRuntime) {
    let rt = &rt;
    let crowd = Crowd::new();
    let map = HashMap::with_hasher(rt.alloc(), CrowdHasher { crowd: &crowd });
    assert_same(rt, insert_in_threads(rt, &map, 3, 1), true);
    assert_same(rt, map.len(rt), 3);
    assert_same(rt, crowd.missed.load(Ordering::SeqCst), false);
}

// The same by the function that the program calls.
#[test]
fn a_map_is_filled_by_three_threads(rt: HostRuntime) {
    let rt = &rt;
    let crowd = Crowd::new();
    let map = HashMap::with_hasher(rt.alloc(), CrowdHasher { crowd: &crowd });
    assert_same(rt, fill(rt, map, 3, 1), Some(3));
    assert_same(rt, crowd.missed.load(Ordering::SeqCst), false);
}

// Asserts that `threads` threads with `keys` keys each leave a map of the length `length`.
fn leave(
    rt: &(impl Abort + AllocGlobal + Threads + Wait + Sync),
    threads: &str,
    keys: &str,
    length: &[u8],
) {
    let mut lines = b"".as_slice();
    let mut output = output(rt);
    let words = ["threads", threads, keys];
    assert_same(
        rt,
        run_words(rt, rt.alloc(), &words, &mut lines, &mut output),
        0,
    );
    assert_same(rt, output.get_ref().as_slice(), length);
}

#[test]
fn row_20_threads(rt: HostRuntime) {
    leave(&rt, "4", "1000", b"4000\n".as_slice());
}

#[test]
fn least_and_most_threads(rt: HostRuntime) {
    let rt = &rt;
    leave(rt, "1", "0", b"0\n".as_slice());
    leave(rt, "64", "10", b"640\n".as_slice());
    leave(rt, "1", "100000", b"100000\n".as_slice());
}

#[test]
fn other_numbers(rt: HostRuntime) {
    let rt = &rt;
    for (threads, keys) in [
        ("0", "9"),
        ("65", "9"),
        ("4", "100001"),
        ("04", "9"),
        ("4", "-1"),
        ("", "9"),
    ] {
        tells_usage(rt, &["threads", threads, keys]);
    }
    tells_usage(rt, &["threads"]);
    tells_usage(rt, &["threads", "4"]);
    tells_usage(rt, &["threads", "4", "9", "9"]);
}
