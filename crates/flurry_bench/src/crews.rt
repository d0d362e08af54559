//! The threads that do the work on a map: the caller's thread alone, or several threads.

use crate::subjects::Subject;
use crate::workloads::{Part, Work};
use std::sync::Wait;
use std::sync::atomic::{AtomicU64, Ordering};
use std::thread;
use std::thread::Threads;

/// The amount of work that all threads do together.
#[derive(Clone, Copy)]
pub struct Size {
    /// The number of keys of the map.
    pub keys: u64,
    /// The number of calls of a look-up or a mix.
    pub calls: u64,
}

impl Size {
    /// Returns the number of calls of `work`, in all threads together.
    pub fn calls_of(self, work: Work) -> u64 {
        match work {
            Work::Insert | Work::Remove => self.keys,
            Work::Hit | Work::Miss | Work::Mix(_) => self.calls,
        }
    }

    // Returns the part of thread `number`, counted from 0. The part of the last thread also has the keys that the division leaves over.
    fn part(self, number: u64, threads: u64) -> Part {
        let share = self.keys / threads.max(1);
        let first = share.saturating_mul(number);
        let own = if number.saturating_add(1) == threads {
            self.keys.saturating_sub(first)
        } else {
            share
        };
        Part {
            number,
            keys: self.keys,
            first,
            own,
            calls: self.calls / threads.max(1),
        }
    }
}

/// Does all of the work in the caller's thread, and returns the number of calls that returned a wrong result or for which memory could not
/// be allocated.
pub fn work_alone<R: Wait, S: Subject>(rt: &R, map: &S, work: Work, size: Size) -> u64 {
    work.run(rt, map, size.part(0, 1))
}

/// Does the work in `threads` threads, and returns the number of calls that returned a wrong result or for which memory could not be
/// allocated.
///
/// If `threads` is 1, the work is done in the caller's thread. A thread that cannot be started counts as one such call.
pub fn work_together<R: Threads + Wait + Sync, S: Subject + Sync>(
    rt: &R,
    map: &S,
    work: Work,
    size: Size,
    threads: u64,
) -> u64 {
    if threads == 1 {
        return work_alone(rt, map, work, size);
    }
    let wrong = AtomicU64::new(0);
    let all_wrong = &wrong;
    thread::scope(thread::scope_env(), rt, |scope| {
        for number in 0..threads {
            let part = size.part(number, threads);
            let child = scope.spawn(move || {
                all_wrong.fetch_add(work.run(rt, map, part), Ordering::SeqCst);
            });
            if child.is_err() {
                all_wrong.fetch_add(1, Ordering::SeqCst);
            }
        }
    });
    wrong.load(Ordering::SeqCst)
}
