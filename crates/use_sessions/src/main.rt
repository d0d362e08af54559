//! Threads that open, touch and expire sessions at the same time.
#![tactic(auto)]

mod sessions;

use sessions::Sessions;
use std::sync::Wait;
use std::sync::atomic::{AtomicU64, Ordering};
use std::thread::Threads;
use std::{io, thread};

// The number of sessions that a thread opens or touches.
const EACH: u64 = 500;

// The work of one thread.
#[derive(Clone, Copy)]
enum Work {
    // Opens `EACH` sessions, from this number on.
    Open(u64),
    // Touches `EACH` sessions, from this number on.
    Touch(u64),
    // Expires the sessions that were last seen before this time.
    Expire(u64),
}

// Does the work of one thread, and counts the sessions that were new when opened, or open when touched.
fn do_work<R: Wait>(rt: &R, sessions: &Sessions, work: Work, count: &AtomicU64) {
    let (first, opens) = match work {
        Work::Open(first) => (first, true),
        Work::Touch(first) => (first, false),
        Work::Expire(time) => {
            let _ = sessions.expire(rt, time);
            return;
        }
    };
    for id in first..first.saturating_add(EACH) {
        let is_done = if opens {
            matches!(sessions.open(rt, id, 1), Ok(true))
        } else {
            matches!(sessions.touch(rt, id, 9), Ok(Some(_)))
        };
        if is_done {
            count.fetch_add(1, Ordering::SeqCst);
        }
    }
}

// Does each of `works` in a thread of its own, and returns how many sessions all of them have counted.
fn in_threads<R: Threads + Wait + Sync>(rt: &R, sessions: &Sessions, works: &[Work]) -> u64 {
    let counted = AtomicU64::new(0);
    let count = &counted;
    thread::scope(thread::scope_env(), rt, |scope| {
        for work in works {
            let work = *work;
            let child = scope.spawn(move || do_work(rt, sessions, work, count));
            if child.is_err() {
                do_work(rt, sessions, work, count);
            }
        }
    });
    counted.load(Ordering::SeqCst)
}

fn main(rt: HostRuntime) -> io::Result<()> {
    let sessions = Sessions::new(rt.alloc(), 4);
    let opens = [Work::Open(0), Work::Open(500)];
    let opened = in_threads(&rt, &sessions, &opens);
    println!(rt; "opened: {opened}, open: {}", sessions.count(&rt))?;

    // Which sessions are touched before they can expire depends on the threads. That none of these expires does not.
    let works = [Work::Touch(0), Work::Expire(5), Work::Touch(500)];
    let touched = in_threads(&rt, &sessions, &works);
    let open = sessions.count(&rt) as u64;
    println!(rt; "touched and not open: {}", touched.saturating_sub(open))?;
    println!(rt; "open and not touched: {}", open.saturating_sub(touched))?;

    sessions.expire(&rt, 10)?;
    let left = sessions.list(&rt, rt.alloc())?;
    println!(rt; "open at the end: {}", left.0.len())
}
