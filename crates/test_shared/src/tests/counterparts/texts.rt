//! Threads that insert the same texts.

use super::assert_same;
use flurry_shared::HashMap;
use std::alloc::Global;
use std::process::Abort;
use std::sync::Wait;
use std::thread;
use std::thread::Threads;

// What the threads share.
#[derive(Drop)]
struct Shared {
    map: HashMap<String, u64>,
}

fn numeral(rt: &impl Abort, alloc: Global, number: u64) -> String {
    format!(in alloc; "{number}").expect(rt, "memory")
}

// Inserts the decimal digits of each number below 64, with one value.
fn insert_numerals<R: Abort + Wait>(rt: &R, alloc: Global, map: &HashMap<String, u64>, value: u64) {
    for number in 0..64u64 {
        map.insert(rt, numeral(rt, alloc, number), value)
            .expect(rt, "memory");
    }
}

// Inserts in two threads.
fn insert_in_threads<R: Abort + Threads + Wait + Sync>(rt: &R, alloc: Global, shared: &Shared) {
    thread::join(
        rt,
        move || insert_numerals(rt, alloc, &shared.map, 0),
        move || insert_numerals(rt, alloc, &shared.map, 1),
    );
}

// Returns how many of the texts have the value 0 or 1.
fn count_written<R: Abort + Wait>(rt: &R, alloc: Global, map: &HashMap<String, u64>) -> u64 {
    let mut written = 0u64;
    for number in 0..64u64 {
        let numeral = numeral(rt, alloc, number);
        let value = map.get(rt, numeral.as_str()).expect(rt, "memory");
        if value.is_some_and(|value| *value <= 1) {
            written = written.saturating_add(1);
        }
    }
    written
}

// Each text has the value of one of the threads.
#[test]
fn two_threads_insert_the_same_texts(rt: HostRuntime) {
    let rt = &rt;
    let shared = &Shared {
        map: HashMap::new(rt.alloc()),
    };
    let map = &shared.map;
    insert_in_threads(rt, rt.alloc(), shared);
    assert_same(rt, count_written(rt, rt.alloc(), map), 64);
    assert_same(rt, map.len(rt), 64);
}
