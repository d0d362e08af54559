//! Threads that share one map.
ghost use Rattle.std.specs.Prelude.{◌≤◌, OnErr, IfOk, IsTrue};
ghost use Rattle.flurry_run_lines.specs.Runs.{UnlessWriteFailed};
ghost use Rattle.flurry_run_words.specs.Threads.{TellsLength};
ghost use Rattle.flurry_run_words.specs.declared.threads.TheConstants.{MAX_THREADS, MAX_KEYS};

use flurry_base::hash::KeyHasher;
use flurry_run_lines::ends::out_of_memory;
use flurry_run_streams::Sink;
use flurry_shared::HashMap;
use std::alloc::Allocator;
use std::sync::Wait;
use std::sync::atomic::{AtomicBool, Ordering};
use std::thread::Threads;
use std::{io, thread};

/// The greatest number of threads that [`thread_lines`] can be asked for.
pub const MAX_THREADS: u64 = 64;

/// The greatest number of keys that each thread of [`thread_lines`] can be asked to insert.
pub const MAX_KEYS: u64 = 100_000;

/// Inserts `keys` keys in each of `threads` threads into one map, writes the number of keys that the map then has, and returns the
/// program's status.
///
/// Thread t, counted from 0, inserts the keys from t times `keys` on, each with itself as its value. If a thread cannot be started, the
/// caller's thread inserts its keys. If memory for a key cannot be allocated, `out of memory` is written in place of the length, and the
/// status is 3. If a write or a flush fails, the status is 1. Otherwise it is 0.
pub fn thread_lines<R: Threads + Wait + Sync, W: Sink, A: Allocator + Send + Sync>(
    rt: &R,
    alloc: A,
    threads: u64,
    keys: u64,
    writer: &mut W,
) -> u8
    requires threads { threads ≤ MAX_THREADS }
    requires keys { keys ≤ MAX_KEYS }
    ensures { UnlessWriteFailed (W.has_failed writer.new) result
        (TellsLength (W.contents writer.old) (W.flushed writer.new) result) }
{
    // The map borrows the allocator, so that it has the same size for any allocator.
    let map = HashMap::new(&alloc).with_processors(threads as usize);
    match print_len(fill(rt, map, threads, keys), writer) {
        Ok(status) => match writer.flush() {
            Ok(()) => status,
            Err(_) => 1,
        },
        Err(_) => 1,
    }
}

// Writes the number of keys, or that memory could not be allocated.
fn print_len<W: Sink>(length: Option<usize>, writer: &mut W) -> io::Result<u8>
    ensures failed { OnErr result (IsTrue (W.has_failed writer.new)) }
    ensures length { IfOk result (TellsLength (W.contents writer.old) (W.contents writer.new)) }
{
    match length {
        Some(length) => {
            writer.write_line(length)?;
            Ok(0)
        }
        None => out_of_memory(writer),
    }
}

/// Inserts `keys` keys in each of `threads` threads into a map, by [`insert_in_threads`], and returns the number of keys that it then has.
/// Returns `None` if memory for a key cannot be allocated.
pub fn fill<
    S: KeyHasher<u64> + Sync + Drop,
    R: Threads + Wait + Sync,
    A: Allocator + Copy + Send + Sync,
>(rt: &R, map: HashMap<u64, u64, S, A>, threads: u64, keys: u64) -> Option<usize> {
    if insert_in_threads(rt, &map, threads, keys) {
        Some(map.len(rt))
    } else {
        None
    }
}

/// Inserts `keys` keys in each of `threads` threads, as [`thread_lines`] does, and returns `true` if all were inserted.
///
/// If memory for a key cannot be allocated, its thread stops there; the keys inserted before stay.
pub fn insert_in_threads<
    S: KeyHasher<u64> + Sync,
    R: Threads + Wait + Sync,
    A: Allocator + Copy + Send + Sync,
>(rt: &R, map: &HashMap<u64, u64, S, A>, threads: u64, keys: u64) -> bool {
    let refused = AtomicBool::new(false);
    let refused_to_all = &refused;
    thread::scope(thread::scope_env(), rt, |scope| {
        for number in 0..threads {
            let first = number.saturating_mul(keys);
            let child = scope.spawn(move || insert_keys(rt, map, first, keys, refused_to_all));
            if child.is_err() {
                insert_keys(rt, map, first, keys, refused_to_all);
            }
        }
    });
    !refused.load(Ordering::SeqCst)
}

// Inserts `keys` keys from `first` on. If memory for one cannot be allocated, it stops there and sets `refused`.
fn insert_keys<S: KeyHasher<u64>, R: Wait, A: Allocator + Copy>(
    rt: &R,
    map: &HashMap<u64, u64, S, A>,
    first: u64,
    keys: u64,
    refused: &AtomicBool,
) {
    for key in first..first.saturating_add(keys) {
        if map.insert(rt, key, key).is_err() {
            refused.store(true, Ordering::SeqCst);
            return;
        }
    }
}
