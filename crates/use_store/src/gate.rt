//! A gate, at which a thread waits until others have done their work.

use std::sync::atomic::{AtomicBool, Ordering};
use std::sync::{Condvar, Mutex, Wait};

/// Counts the commands that are done, and says whether nobody reads the replies any more.
#[derive(Drop)]
pub struct Gate {
    done: Mutex<u64>,
    changed: Condvar,
    is_broken: AtomicBool,
}

impl Gate {
    /// Creates a gate at which no command is done.
    pub fn new() -> Self {
        Gate {
            done: Mutex::new(0),
            changed: Condvar::new(),
            is_broken: AtomicBool::new(false),
        }
    }

    /// Counts one more command.
    pub fn pass<R: Wait>(&self, rt: &R) {
        let mut done = self.done.lock(rt);
        *done = (*done).saturating_add(1);
        drop(done);
        self.changed.notify_all();
    }

    /// Waits until `commands` commands are done.
    pub fn wait_for<R: Wait>(&self, rt: &R, commands: u64) {
        let done = self
            .changed
            .wait_while(rt, self.done.lock(rt), |done| *done < commands);
        drop(done);
    }

    /// Notes that nobody reads the replies any more.
    pub fn set_broken(&self) {
        self.is_broken.store(true, Ordering::SeqCst);
    }

    /// Returns `true` if nobody reads the replies any more.
    pub fn is_broken(&self) -> bool {
        self.is_broken.load(Ordering::SeqCst)
    }
}
