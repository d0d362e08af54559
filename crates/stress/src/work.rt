//! The calls of one thread, and what it records of them.

use crate::random::Random;
use crate::subjects::Subject;
use crate::words::Words;
use std::alloc::{AllocError, Global};
use std::sync::Wait;
use std::sync::atomic::{AtomicU64, Ordering};
use std::thread;
use stress_judge::calls::{Call, Event};

/// The number of keys beside the few, which are inserted so that the table grows.
pub const SPREAD: u64 = 1000;

// The number of keys that are inserted one after another.
const BURST: u64 = 24;

// The number of times that a thread looks whether the others have come, before it starts without them.
const PATIENCE: u64 = 10_000;

/// A thread of a round.
#[derive(Clone, Copy)]
pub struct Place {
    pub round: u64,
    pub thread: u64,
}

/// What all threads of a round draw on: the tickets, and the number of threads that have come.
#[derive(Drop)]
pub struct Counters {
    tickets: AtomicU64,
    came: AtomicU64,
}

impl Counters {
    pub fn new() -> Counters {
        Counters {
            tickets: AtomicU64::new(1),
            came: AtomicU64::new(0),
        }
    }

    fn ticket(&self) -> u64 {
        self.tickets.fetch_add(1, Ordering::SeqCst)
    }

    // Waits a while for the other threads, so that the calls of all overlap. A thread that could not be started does not come.
    fn come(&self, threads: u64) {
        self.came.fetch_add(1, Ordering::SeqCst);
        for _ in 0..PATIENCE {
            if self.came.load(Ordering::SeqCst) >= threads {
                break;
            }
            thread::yield_now();
        }
    }
}

/// The calls that a thread has made, in their order.
#[derive(Drop)]
pub struct Worker<'r, R, M> {
    rt: &'r R,
    map: &'r M,
    counters: &'r Counters,
    thread: u64,
    random: Random,
    written: u64,
    events: Vec<Event>,
}

impl<'r, R: Wait, M: Subject> Worker<'r, R, M> {
    // Returns a value that no other call of the round writes.
    fn value(&mut self) -> u64 {
        self.written = self.written.wrapping_add(1);
        self.written.wrapping_mul(64).wrapping_add(self.thread)
    }

    // Makes a call and records it.
    fn call(&mut self, key: u64, call: Call) -> Result<(), AllocError> {
        let start = self.counters.ticket();
        let reply = self.map.call(self.rt, key, call)?;
        let end = self.counters.ticket();
        self.events.push(Event {
            key,
            thread: self.thread,
            start,
            end,
            call,
            reply,
        })?;
        Ok(())
    }

    // Draws a call of one key.
    fn draw(&mut self) -> Call {
        let value = self.value();
        match self.random.below(30) {
            0..=2 => Call::Get,
            3 => Call::GetKeyValue,
            4 => Call::ContainsKey,
            5..=8 => Call::Insert(value),
            9..=11 => Call::TryInsert(value),
            12..=14 => Call::Remove,
            15 => Call::RemoveEntry,
            16..=18 => Call::ComputeIfPresent(Some(value)),
            19 => Call::ComputeIfPresent(None),
            20..=22 => Call::Compute(Some(value)),
            23 => Call::Compute(None),
            24 | 25 => Call::Merge(value),
            26 | 27 => Call::Update(value),
            28 => Call::RemoveEven,
            _ => Call::ReplaceEven(value),
        }
    }

    // Inserts keys beside the few.
    fn burst(&mut self, keys: u64) -> Result<(), AllocError> {
        for _ in 0..BURST {
            let key = keys.wrapping_add(self.random.below(SPREAD));
            let value = self.value();
            self.call(key, Call::Insert(value))?;
        }
        Ok(())
    }

    // Makes one call of a few keys, or now and then those that make the table grow.
    fn step(&mut self, keys: u64) -> Result<(), AllocError> {
        match self.random.below(64) {
            0 | 1 => self.burst(keys),
            2 => {
                let additional = self.random.below(200) as usize;
                self.map.grow(self.rt, additional)
            }
            _ => {
                let key = self.random.below(keys);
                let call = self.draw();
                self.call(key, call)
            }
        }
    }
}

/// Makes the calls of one thread in one round, and returns them.
///
/// # Errors
///
/// Returns [`AllocError`] if memory cannot be allocated.
pub fn work<R: Wait, M: Subject>(
    rt: &R,
    alloc: Global,
    map: &M,
    counters: &Counters,
    words: Words,
    place: Place,
) -> Result<Vec<Event>, AllocError> {
    let mut worker = Worker {
        rt,
        map,
        counters,
        thread: place.thread,
        random: Random::new(words.seed, place.round, place.thread),
        written: 0,
        events: Vec::new(alloc),
    };
    counters.come(words.threads);
    for _ in 0..words.calls {
        worker.step(words.keys)?;
    }
    Ok(worker.events)
}

/// Looks each key up, in the caller's thread, and returns these calls.
///
/// # Errors
///
/// Returns [`AllocError`] if memory cannot be allocated.
pub fn look_up_all<R: Wait, M: Subject>(
    rt: &R,
    alloc: Global,
    map: &M,
    counters: &Counters,
    keys: u64,
) -> Result<Vec<Event>, AllocError> {
    let mut worker = Worker {
        rt,
        map,
        counters,
        thread: 0,
        random: Random::new(0, 0, 0),
        written: 0,
        events: Vec::new(alloc),
    };
    for key in 0..keys.wrapping_add(SPREAD) {
        worker.call(key, Call::Get)?;
    }
    Ok(worker.events)
}
