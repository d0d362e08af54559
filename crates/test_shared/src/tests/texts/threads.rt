//! Look-ups by text while other threads insert, and the table grows.

use super::{PRESENT, assert_same, string_of};
use flurry_shared::HashMap;
use std::alloc::Global;
use std::process::Abort;
use std::sync::Wait;
use std::sync::atomic::{AtomicU64, Ordering};
use std::thread;
use std::thread::Threads;

// Inserts the decimal digits of each number below 500.
fn insert_numerals<R: Abort + Wait>(rt: &R, alloc: Global, map: &HashMap<String, u64>) {
    for number in 0..500u64 {
        let numeral = format!(in alloc; "{number}").expect(rt, "memory");
        map.insert(rt, numeral, number).expect(rt, "memory");
    }
}

// What the threads share: the map, and how often a text that is there was missed.
#[derive(Drop)]
struct Shared {
    map: HashMap<String, u64>,
    missed: AtomicU64,
}

// Looks many times for the texts that are there throughout, and counts those that it misses.
fn count_missed<R: Wait>(rt: &R, shared: &Shared) {
    for _ in 0..500u32 {
        for text in PRESENT {
            if !shared.map.contains_key(rt, text) {
                shared.missed.fetch_add(1, Ordering::SeqCst);
            }
        }
    }
}

// Looks in two threads for the texts that are there, while a third inserts others.
fn look_beside_insertions<R: Abort + Threads + Wait + Sync>(
    rt: &R,
    alloc: Global,
    shared: &Shared,
) {
    thread::scope(thread::scope_env(), rt, |scope| {
        for _ in 0..2u32 {
            let child = scope.spawn(move || count_missed(rt, shared));
            if child.is_err() {
                count_missed(rt, shared);
            }
        }
        insert_numerals(rt, alloc, &shared.map);
    });
}

// Inserts the texts that are there throughout.
fn insert_texts<R: Abort + Wait>(rt: &R, alloc: Global, map: &HashMap<String, u64>) {
    for text in PRESENT {
        map.insert(rt, string_of(rt, alloc, text), 0)
            .expect(rt, "memory");
    }
}

// Asserts that no text was missed, and that all are there.
fn has_all<R: Abort + Wait>(rt: &R, shared: &Shared) {
    assert_same(rt, shared.missed.load(Ordering::SeqCst), 0);
    assert_same(rt, shared.map.len(rt), 506);
    assert_same(rt, shared.map.contains_key(rt, "499"), true)
}

#[test]
fn texts_are_found_while_the_table_grows(rt: HostRuntime) {
    let rt = &rt;
    let shared = Shared {
        map: HashMap::new(rt.alloc()),
        missed: AtomicU64::new(0),
    };
    insert_texts(rt, rt.alloc(), &shared.map);
    look_beside_insertions(rt, rt.alloc(), &shared);
    has_all(rt, &shared)
}
