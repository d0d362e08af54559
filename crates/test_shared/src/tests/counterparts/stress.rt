//! Two maps and a list, which threads change together.

use super::assert_same;
use flurry_shared::HashMap;
use std::alloc::Global;
use std::process::Abort;
use std::sync::atomic::{AtomicU64, Ordering};
use std::sync::{Mutex, Wait};
use std::thread;
use std::thread::Threads;

// The number of keys, and the number of turns of a thread.
const KEYS: u64 = 4096;

const TURNS: u32 = 5000;

// Two maps, the value in both of each key that is present, and how often they were otherwise.
#[derive(Drop)]
struct Both {
    first: HashMap<u64, u64>,
    second: HashMap<u64, u64>,
    values: Mutex<Vec<Option<(u64, u64)>>>,
    failures: AtomicU64,
}

// What a thread does at the keys that it draws.
#[derive(Clone, Copy)]
enum Deed {
    Insert,
    Remove,
    Find,
}

// Inserts a key that is absent, and returns whether it was absent and is found then.
fn put<R: Wait>(rt: &R, map: &HashMap<u64, u64>, key: u64, value: u64) -> bool {
    !map.contains_key(rt, &key)
        && map.insert(rt, key, value).is_ok_and(|old| old.is_none())
        && found(rt, map, key) == Some(value)
}

// Removes a key, and returns whether it was present and is not found then.
fn take<R: Wait>(rt: &R, map: &HashMap<u64, u64>, key: u64) -> bool {
    map.remove(rt, &key).is_some() && !map.contains_key(rt, &key)
}

// Returns the value at a key.
fn found<R: Wait>(rt: &R, map: &HashMap<u64, u64>, key: u64) -> Option<u64> {
    map.get(rt, &key).ok().flatten().map(|value| *value)
}

impl Both {
    // Does the deed at a key of which the list has `values`. Returns what the list then has, and whether the maps agreed with it.
    fn does<R: Wait>(
        &self,
        rt: &R,
        deed: Deed,
        key: u64,
        values: Option<(u64, u64)>,
        value: u64,
    ) -> (Option<(u64, u64)>, bool) {
        let (first, second) = (&self.first, &self.second);
        match deed {
            Deed::Insert => {
                let is_new = (put(rt, first, key, value), put(rt, second, key, !value));
                let was_absent = values.is_none();
                (
                    values.or(Some((value, !value))),
                    is_new == (was_absent, was_absent),
                )
            }
            Deed::Remove => {
                let is_gone = (take(rt, first, key), take(rt, second, key));
                let was_present = values.is_some();
                (None, is_gone == (was_present, was_present))
            }
            Deed::Find => {
                let seen = (found(rt, first, key), found(rt, second, key));
                let wanted = (values.map(|it| it.0), values.map(|it| it.1));
                (values, seen == wanted)
            }
        }
    }

    // Does the deed at a key, while no other thread does one.
    fn do_alone<R: Wait>(&self, rt: &R, deed: Deed, key: u64, value: u64) {
        let mut values = self.values.lock(rt);
        let stands = values.get(key as usize).copied().flatten();
        let (then, agrees) = self.does(rt, deed, key, stands, value);
        if let Some(place) = values.get_mut(key as usize) {
            *place = then;
        }
        if !agrees {
            self.failures.fetch_add(1, Ordering::SeqCst);
        }
    }

    // Does the deed at keys that are drawn.
    fn do_often<R: Wait>(&self, rt: &R, deed: Deed, seed: u64) {
        let mut drawn = seed;
        for _ in 0..TURNS {
            drawn = drawn
                .wrapping_mul(6_364_136_223_846_793_005)
                .wrapping_add(1_442_695_040_888_963_407);
            self.do_alone(rt, deed, (drawn >> 33) % KEYS, drawn);
        }
    }

    // Returns how many keys the list has.
    fn count<R: Wait>(&self, rt: &R) -> usize {
        let values = self.values.lock(rt);
        values.iter().filter(|it| it.is_some()).count()
    }
}

// Twelve threads insert, remove and look.
fn work_in_threads<R: Threads + Wait + Sync>(rt: &R, both: &Both) {
    thread::scope(thread::scope_env(), rt, |scope| {
        for seed in 0..12u64 {
            let deed = match seed % 3 {
                0 => Deed::Insert,
                1 => Deed::Remove,
                _ => Deed::Find,
            };
            if scope.spawn(move || both.do_often(rt, deed, seed)).is_err() {
                both.do_often(rt, deed, seed);
            }
        }
    });
}

// Returns a list with no values.
fn no_values(rt: &impl Abort, alloc: Global) -> Vec<Option<(u64, u64)>> {
    let mut list = Vec::new(alloc);
    for _ in 0..KEYS {
        list.push(None).expect(rt, "memory");
    }
    list
}

fn agree<R: Abort + Threads + Wait + Sync>(rt: &R, both: &Both) {
    work_in_threads(rt, both);
    assert_same(rt, both.failures.load(Ordering::SeqCst), 0);
    let count = both.count(rt);
    assert_same(
        rt,
        (both.first.len(rt), both.second.len(rt)),
        (count, count),
    )
}

// At each key both maps have what the list has.
#[test]
fn two_maps_beside_a_list(rt: HostRuntime) {
    let rt = &rt;
    let both = Both {
        first: HashMap::new(rt.alloc()),
        second: HashMap::new(rt.alloc()),
        values: Mutex::new(no_values(rt, rt.alloc())),
        failures: AtomicU64::new(0),
    };
    agree(rt, &both)
}
