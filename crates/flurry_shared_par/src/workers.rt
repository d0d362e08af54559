//! Threads that insert the items of a list into one map or set at once.
ghost use Rattle.std.specs.Prelude.{◌≡◌, All, IfOk, Ok, Result, max, min};
ghost use Rattle.std.specs.declared.alloc.AllocError.{AllocError};

use crate::queue::Queue;
use std::alloc::{AllocError, Allocator};
use std::sync::Wait;
use std::thread;
use std::thread::Threads;

/// The greatest number of workers that one call starts.
pub const MAX_WORKERS: usize = 64;

// What threads insert items into.
pub(crate) trait Put<T> {
    // What an insertion of an item returns, be it an error.
    ghost put_gives: { Self → T → Result (Unit {0}) AllocError → Type 0 };

    // Inserts an item. If that fails, the item is dropped.
    fn put(&self, item: T) -> Result<(), AllocError>
        ensures { put_gives self.now item result };
}

// Returns the number of workers that are started for `processors`; `0` means 1.
fn workers_for(processors: usize) -> usize
    ensures { result ≡ min (max processors 1) MAX_WORKERS }
{
    processors.max(1).min(MAX_WORKERS)
}

// Inserts the items of `list`, by as many workers as are started for `processors`. They take pieces of `part` items, where `0` means 1,
// until none is left. All workers have ended when it returns.
//
// If memory for a piece cannot be allocated, if an item cannot be inserted, or if a worker cannot be started, no further piece is taken:
// the other workers insert the rest of the pieces that they have, all other items are dropped, and the error is returned.
pub(crate) fn put_all<
    T: Drop + Send,
    P: Put<T> + Sync,
    A: Allocator + Copy + Send + Sync,
    R: Threads + Wait + Sync,
>(rt: &R, into: &P, list: Vec<T, A>, part: usize, processors: usize) -> Result<(), AllocError> {
    let queue = Queue::new(list, part);
    work_together(rt, into, &queue, workers_for(processors));
    queue.end()
}

// Starts `workers` workers, and waits until they have ended.
fn work_together<
    T: Drop + Send,
    P: Put<T> + Sync,
    A: Allocator + Copy + Send + Sync,
    R: Threads + Wait + Sync,
>(rt: &R, into: &P, queue: &Queue<T, A>, workers: usize) {
    thread::scope(thread::scope_env(), rt, |scope| {
        for _ in 0..workers {
            if scope.spawn(move || work(rt, into, queue)).is_err() {
                queue.refuse();
                break;
            }
        }
    });
}

// Does the work of one worker.
fn work<T: Drop, P: Put<T>, A: Allocator + Copy, R: Wait>(rt: &R, into: &P, queue: &Queue<T, A>) {
    if put_pieces(rt, into, queue).is_err() {
        queue.refuse();
    }
}

// Takes pieces, and inserts their items, until none is left, or one fails.
fn put_pieces<T: Drop, P: Put<T>, A: Allocator + Copy, R: Wait>(
    rt: &R,
    into: &P,
    queue: &Queue<T, A>,
) -> Result<(), AllocError> {
    for _ in rt.forever() {
        let Some(piece) = queue.take(rt)? else {
            return Ok(());
        };
        put_piece(into, piece)?;
    }
    unreachable!()
}

// Inserts the items of a piece, until one fails.
fn put_piece<T: Drop, P: Put<T>, A: Allocator>(into: &P, piece: Vec<T, A>) -> Result<(), AllocError>
    ensures { IfOk result (λ u. All (λ item. P.put_gives into.now item (Ok u)) piece.items) }
{
    for item in piece {
        into.put(item)?;
    }
    Ok(())
}
