//! Threads that ask a rate limiter for tokens, and evict full buckets at the same time.
#![tactic(auto)]

mod bucket;
mod limiter;

use bucket::Rules;
use limiter::Limiter;
use std::alloc::{AllocError, Global};
use std::sync::Wait;
use std::thread::Threads;
use std::{io, thread};

const KEYS: [&str; 4] = ["ann", "bob", "cyd", "dee"];

const THREADS: usize = 4;

// Asks once for a token of each key.
fn ask_for_each<R: Wait>(
    rt: &R,
    alloc: Global,
    limiter: &Limiter,
    now: u64,
) -> Result<(), AllocError> {
    for key in KEYS {
        limiter.allow(rt, alloc, key, now)?;
    }
    Ok(())
}

// Asks for more tokens than there are, and evicts in between. The limiter counts what it grants.
fn ask<R: Wait>(rt: &R, alloc: Global, limiter: &Limiter, now: u64) -> Result<(), AllocError> {
    for _ in 0..100 {
        ask_for_each(rt, alloc, limiter, now)?;
        limiter.evict(rt, now)?;
    }
    Ok(())
}

// Asks in several threads at the same time, and returns how many tokens all of them got.
fn ask_in_threads<R: Threads + Wait + Sync>(
    rt: &R,
    alloc: Global,
    limiter: &Limiter,
    now: u64,
) -> u64 {
    let before = limiter.granted();
    thread::scope(thread::scope_env(), rt, |scope| {
        for _ in 0..THREADS {
            let child = scope.spawn(move || ask(rt, alloc, limiter, now));
            if child.is_err() {
                let _ = ask(rt, alloc, limiter, now);
            }
        }
    });
    limiter.granted().saturating_sub(before)
}

fn main(rt: HostRuntime) -> io::Result<()> {
    let limiter = Limiter::new(rt.alloc(), Rules::new(100, 10), THREADS);
    // A token is added every 10 ms, so there are 5 for each key after 50 ms, and all 100 after a second.
    for now in [0u64, 50, 1050] {
        let granted = ask_in_threads(&rt, rt.alloc(), &limiter, now);
        let is_exhausted = limiter.is_exhausted(&rt, now)?;
        println!(rt; "at {now}: {granted} granted, exhausted: {is_exhausted}")?;
    }
    println!(rt; "at 1550: {} left", limiter.left(&rt, 1550)?)?;
    for now in [1550u64, 2050] {
        limiter.evict(&rt, now)?;
        println!(rt; "evicted at {now}: {} keys", limiter.len(&rt))?;
    }
    Ok(())
}
