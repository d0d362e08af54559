//! Pieces that are inserted at once.

use super::{assert_same, has_sums};
use flurry_base::hash::KeyHasher;
use flurry_shared::HashMap;
use flurry_shared_par::{map, set};
use flurry_shared_set::HashSet;
use std::sync::atomic::{AtomicBool, AtomicU64, Ordering};
use std::thread;

// The most turns that one hash waits for the others.
const TURNS: u32 = 1_000_000;

// How many hashes wait for one another, how many have begun, and whether one waited in vain.
#[derive(Drop)]
struct Crowd {
    size: u64,
    begun: AtomicU64,
    missed: AtomicBool,
}

impl Crowd {
    fn new(size: u64) -> Self {
        Crowd {
            size,
            begun: AtomicU64::new(0),
            missed: AtomicBool::new(false),
        }
    }

    // Says that a hash has begun, and waits until all have.
    fn begin(&self) {
        self.begun.fetch_add(1, Ordering::SeqCst);
        for _ in 0..TURNS {
            if self.begun.load(Ordering::SeqCst) >= self.size {
                return;
            }
            thread::yield_now();
        }
        self.missed.store(true, Ordering::SeqCst);
    }

    fn has_met(&self) -> bool {
        !self.missed.load(Ordering::SeqCst)
    }
}

// Gives each key itself, once as many hashes have begun as wait for one another.
#[derive(Clone, Copy)]
struct CrowdHasher<'m> {
    crowd: &'m Crowd,
}

impl<'m> KeyHasher<u64> for CrowdHasher<'m> {
    ghost use Rattle.flurry_base.specs.Hashing.{same_number};

    ghost hash_of = { λ s k. k };

    ghost alike = { λ s x y e. same_number x y e };

    fn hash_one(&self, key: &u64) -> u64 {
        self.crowd.begin();
        *key
    }
}

#[test]
fn pieces_at_once(rt: HostRuntime) {
    let rt = &rt;
    let crowd = Crowd::new(2);
    let hasher = CrowdHasher { crowd: &crowd };
    let map = HashMap::with_hasher(rt.alloc(), hasher).with_processors(2);
    let list = Vec::from_array(rt.alloc(), [(0u64, 5u64), (1, 7)]).expect(rt, "memory");

    map::par_extend(&map, rt, list, 1).expect(rt, "memory");

    assert_same(rt, crowd.has_met(), true);
    has_sums(rt, &map, (2, 1, 12));
}

// As many threads take pieces as the map has processors.
#[test]
fn three_pieces_at_once(rt: HostRuntime) {
    let rt = &rt;
    let crowd = Crowd::new(3);
    let hasher = CrowdHasher { crowd: &crowd };
    let map = HashMap::with_hasher(rt.alloc(), hasher).with_processors(3);
    let list = Vec::from_array(rt.alloc(), [(0u64, 5u64), (1, 7), (2, 9)]).expect(rt, "memory");

    map::par_extend(&map, rt, list, 1).expect(rt, "memory");

    assert_same(rt, crowd.has_met(), true);
    has_sums(rt, &map, (3, 3, 21));
}

#[test]
fn elements_at_once(rt: HostRuntime) {
    let rt = &rt;
    let crowd = Crowd::new(2);
    let hasher = CrowdHasher { crowd: &crowd };
    let set = HashSet::with_hasher(rt.alloc(), hasher).with_processors(2);
    let list = Vec::from_array(rt.alloc(), [0u64, 1]).expect(rt, "memory");

    set::par_extend(&set, rt, list, 1).expect(rt, "memory");

    assert_same(rt, crowd.has_met(), true);
    assert_same(rt, set.len(rt), 2);
}
