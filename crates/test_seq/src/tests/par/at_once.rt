//! Pieces that are built at once.

use super::assert_same;
use flurry_base::hash::KeyHasher;
use flurry_seq::SeqMap;
use flurry_seq_par::{map, set};
use flurry_seq_set::SeqSet;
use std::sync::atomic::{AtomicBool, AtomicU64, Ordering};
use std::thread;

// The most turns that one hash waits for the other.
const TURNS: u32 = 1_000_000;

// How many hashes have begun, and whether one waited in vain for a second.
#[derive(Drop)]
struct Pair {
    begun: AtomicU64,
    missed: AtomicBool,
}

impl Pair {
    fn new() -> Self {
        Pair {
            begun: AtomicU64::new(0),
            missed: AtomicBool::new(false),
        }
    }

    // Says that a hash has begun, and waits until two have.
    fn begin(&self) {
        self.begun.fetch_add(1, Ordering::SeqCst);
        for _ in 0..TURNS {
            if self.begun.load(Ordering::SeqCst) >= 2 {
                return;
            }
            thread::yield_now();
        }
        self.missed.store(true, Ordering::SeqCst);
    }

    fn has_met(&self) -> bool {
        !self.missed.load(Ordering::SeqCst)
    }
}

// Gives each key itself, once two hashes have begun.
#[derive(Clone, Copy)]
struct PairHasher<'m> {
    pair: &'m Pair,
}

impl<'m> KeyHasher<u64> for PairHasher<'m> {
    ghost use Rattle.flurry_base.specs.Hashing.{same_number};

    ghost hash_of = { λ s k. k };

    ghost alike = { λ s x y e. same_number x y e };

    fn hash_one(&self, key: &u64) -> u64 {
        self.pair.begin();
        *key
    }
}

// Two pieces of one pair each are built by two threads.
#[test]
fn pieces_at_once(rt: HostRuntime) {
    let rt = &rt;
    let pair = Pair::new();
    let hasher = PairHasher { pair: &pair };
    let list = Vec::from_array(rt.alloc(), [(0u64, 5u64), (1, 7)]).expect(rt, "memory");
    let built = map::from_par_list(rt, rt.alloc(), list, hasher, 1).expect(rt, "memory");
    assert_same(rt, pair.has_met(), true);
    assert_same(rt, built.len(), 2);
}

#[test]
fn elements_at_once(rt: HostRuntime) {
    let rt = &rt;
    let pair = Pair::new();
    let hasher = PairHasher { pair: &pair };
    let list = Vec::from_array(rt.alloc(), [0u64, 1]).expect(rt, "memory");
    let built = set::from_par_list(rt, rt.alloc(), list, hasher, 1).expect(rt, "memory");
    assert_same(rt, pair.has_met(), true);
    assert_same(rt, built.len(), 2);
}

// The pieces by which a map is extended.
#[test]
fn pieces_of_an_extension_at_once(rt: HostRuntime) {
    let rt = &rt;
    let pair = Pair::new();
    let hasher = PairHasher { pair: &pair };
    let mut extended: SeqMap<u64, u64, PairHasher> = SeqMap::with_hasher(rt.alloc(), hasher);
    let list = Vec::from_array(rt.alloc(), [(0u64, 5u64), (1, 7)]).expect(rt, "memory");
    map::par_extend(rt, &mut extended, list, 1).expect(rt, "memory");
    assert_same(rt, pair.has_met(), true);
    assert_same(rt, extended.len(), 2);
}

#[test]
fn elements_of_an_extension_at_once(rt: HostRuntime) {
    let rt = &rt;
    let pair = Pair::new();
    let hasher = PairHasher { pair: &pair };
    let mut extended: SeqSet<u64, PairHasher> = SeqSet::with_hasher(rt.alloc(), hasher);
    let list = Vec::from_array(rt.alloc(), [0u64, 1]).expect(rt, "memory");
    set::par_extend(rt, &mut extended, list, 1).expect(rt, "memory");
    assert_same(rt, pair.has_met(), true);
    assert_same(rt, extended.len(), 2);
}
