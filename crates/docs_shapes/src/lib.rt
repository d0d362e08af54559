//! Threads that share a map in a struct of the caller's, one function for each shape. The answer beside each shows that what its threads
//! share or own may cross threads.
#![tactic(auto)]

use crossbeam_channel::{Receiver, Sender};
use flurry::HashMap;
use std::alloc::{AllocError, Global};
use std::sync::atomic::{AtomicBool, AtomicU64, Ordering};
use std::sync::{Condvar, Mutex, Wait};
use std::thread;
use std::thread::Threads;

/// A map in a struct.
#[derive(Drop)]
pub struct Visits {
    map: HashMap<u64, u64>,
}

impl Visits {
    /// Notes a visit, and returns `true` if it was the first one.
    pub fn visit<R: Wait>(&self, rt: &R, id: u64, time: u64) -> bool {
        matches!(self.map.insert(rt, id, time), Ok(None))
    }
}

/// Notes each visit in a thread of its own.
pub fn share_struct<R: Threads + Wait + Sync>(rt: &R, visits: &Visits, ids: &[u64]) {
    thread::scope(thread::scope_env(), rt, |scope| {
        for id in ids {
            let id = *id;
            let child = scope.spawn(move || visits.visit(rt, id, 1));
            drop(child);
        }
    });
}

/// A map in a struct, with an atomic number beside it.
#[derive(Drop)]
pub struct CountedVisits {
    visits: Visits,
    first: AtomicU64,
}

impl CountedVisits {
    /// Notes a visit, and counts it if it was the first one.
    pub fn visit<R: Wait>(&self, rt: &R, id: u64, time: u64) {
        if self.visits.visit(rt, id, time) {
            self.first.fetch_add(1, Ordering::SeqCst);
        }
    }
}

/// Notes and counts each visit in a thread of its own.
pub fn share_count<R: Threads + Wait + Sync>(rt: &R, visits: &CountedVisits, ids: &[u64]) {
    thread::scope(thread::scope_env(), rt, |scope| {
        for id in ids {
            let id = *id;
            let child = scope.spawn(move || visits.visit(rt, id, 1));
            drop(child);
        }
    });
}

/// A map in a struct, with a lock and a condition beside it.
#[derive(Drop)]
pub struct AwaitedVisits {
    visits: Visits,
    done: Mutex<u64>,
    changed: Condvar,
}

impl AwaitedVisits {
    /// Notes a visit, and wakes who waits for it.
    pub fn visit<R: Wait>(&self, rt: &R, id: u64, time: u64) {
        self.visits.visit(rt, id, time);
        let mut done = self.done.lock(rt);
        *done = (*done).saturating_add(1);
        drop(done);
        self.changed.notify_all();
    }

    /// Waits until `visits` visits are noted.
    pub fn wait_for<R: Wait>(&self, rt: &R, visits: u64) {
        let done = self
            .changed
            .wait_while(rt, self.done.lock(rt), |done| *done < visits);
        drop(done);
    }
}

/// Notes each visit in a thread of its own, which waits until the first one is noted.
pub fn share_lock<R: Threads + Wait + Sync>(rt: &R, visits: &AwaitedVisits, ids: &[u64]) {
    thread::scope(thread::scope_env(), rt, |scope| {
        for id in ids {
            let id = *id;
            let child = scope.spawn(move || {
                visits.visit(rt, id, 1);
                visits.wait_for(rt, 1)
            });
            drop(child);
        }
    });
}

/// Two maps in a struct: the name of each visitor, and the visitor of each name.
#[derive(Drop)]
pub struct Names {
    names: HashMap<u64, String>,
    visitors: HashMap<String, u64>,
}

impl Names {
    /// Names a visitor.
    pub fn name<R: Wait>(
        &self,
        rt: &R,
        alloc: Global,
        id: u64,
        name: &str,
    ) -> Result<(), AllocError> {
        self.names.insert(rt, id, String::from_str(alloc, name)?)?;
        self.visitors
            .insert(rt, String::from_str(alloc, name)?, id)?;
        Ok(())
    }

    /// Returns `true` if the visitor has a name, which depends on other threads.
    pub fn has_name<R: Wait>(&self, rt: &R, id: u64) -> bool {
        self.names.contains_key(rt, &id)
    }
}

/// Gives each of these visitors the same name.
pub fn name_all<R: Wait>(rt: &R, alloc: Global, names: &Names, ids: &[u64], name: &str) {
    for id in ids {
        let _ = names.name(rt, alloc, *id, name);
    }
}

/// Notes a visit of each of these visitors that has a name.
pub fn visit_named<R: Wait>(rt: &R, visits: &Visits, names: &Names, ids: &[u64]) {
    for id in ids {
        if names.has_name(rt, *id) {
            visits.visit(rt, *id, 1);
        }
    }
}

/// Names visitors in one thread, and notes visits of those that have a name in another. One shares a struct, and one shares two.
pub fn share_two<R: Threads + Wait + Sync>(
    rt: &R,
    alloc: Global,
    visits: &Visits,
    names: &Names,
    ids: &[u64],
    name: &str,
) {
    thread::scope(thread::scope_env(), rt, |scope| {
        let namer = scope.spawn(move || name_all(rt, alloc, names, ids, name));
        let visitor = scope.spawn(move || visit_named(rt, visits, names, ids));
        drop(namer);
        drop(visitor);
    });
}

/// Gives a visitor each of these names in turn, and notes in `failed` if memory for one cannot be allocated.
pub fn rename<R: Wait>(
    rt: &R,
    alloc: Global,
    names: &Names,
    id: u64,
    texts: &[String],
    failed: &AtomicBool,
) {
    for text in texts {
        if names.name(rt, alloc, id, text.as_str()).is_err() {
            failed.store(true, Ordering::SeqCst);
        }
    }
}

/// Renames two visitors, each in a thread of its own, and returns `true` if memory could be allocated. A list of texts and a flag are
/// shared beside the struct.
pub fn share_texts<R: Threads + Wait + Sync>(
    rt: &R,
    alloc: Global,
    names: &Names,
    texts: &[String],
) -> bool {
    let has_failed = AtomicBool::new(false);
    let failed = &has_failed;
    thread::scope(thread::scope_env(), rt, |scope| {
        for id in 0..2u64 {
            let child = scope.spawn(move || rename(rt, alloc, names, id, texts, failed));
            drop(child);
        }
    });
    !has_failed.load(Ordering::SeqCst)
}

/// What one thread owns: where its visits come from, and where those that are first go.
#[derive(Drop)]
pub struct Ends {
    visits: Receiver<u64>,
    first: Sender<u64>,
}

/// Notes the visits that come, and hands on those that are first.
pub fn note_all<R: Wait>(rt: &R, visits: &Visits, ends: Ends) {
    for id in ends.visits.iter(rt) {
        if visits.visit(rt, id, 1) {
            let _ = ends.first.send(rt, id);
        }
    }
}

/// Notes visits in threads, each of which owns ends of channels.
pub fn own_ends<R: Threads + Wait + Sync>(rt: &R, visits: &Visits, ends: Vec<Ends>) {
    thread::scope(thread::scope_env(), rt, move |scope| {
        for ends in ends {
            let child = scope.spawn(move || note_all(rt, visits, ends));
            drop(child);
        }
    });
}

/// A lock and an atomic number, without a map.
#[derive(Drop)]
pub struct Progress {
    noted: AtomicU64,
    last: Mutex<u64>,
}

/// Hands on all visits, and notes how many there were and which was the last.
pub fn hand_on_all<R: Wait>(rt: &R, progress: &Progress, ends: Ends) {
    for id in ends.visits.iter(rt) {
        progress.noted.fetch_add(1, Ordering::SeqCst);
        *progress.last.lock(rt) = id;
        let _ = ends.first.send(rt, id);
    }
}

/// Hands on visits in threads, each of which owns ends of channels. No map crosses, so there is no answer.
pub fn share_no_map<R: Threads + Wait + Sync>(rt: &R, progress: &Progress, ends: Vec<Ends>) {
    thread::scope(thread::scope_env(), rt, move |scope| {
        for ends in ends {
            let child = scope.spawn(move || hand_on_all(rt, progress, ends));
            drop(child);
        }
    });
}

/// What one thread is given: a struct of its own, which borrows the one with the map.
#[derive(Drop)]
pub struct Desk<'s> {
    visits: &'s Visits,
    noted: u64,
}

impl Desk<'_> {
    /// Notes each visit, and returns how many were the first of their visitors.
    pub fn note_each<R: Wait>(mut self, rt: &R, ids: &[u64]) -> u64 {
        for id in ids {
            if self.visits.visit(rt, *id, 1) {
                self.noted = self.noted.saturating_add(1);
            }
        }
        self.noted
    }
}

/// Notes the visits in two threads, each of which owns a struct that borrows the map.
pub fn own_borrower<R: Threads + Wait + Sync>(rt: &R, visits: &Visits, ids: &[u64]) {
    thread::scope(thread::scope_env(), rt, |scope| {
        for noted in 0..2u64 {
            let desk = Desk { visits, noted };
            let child = scope.spawn(move || desk.note_each(rt, ids));
            drop(child);
        }
    });
}

/// What one thread is given: a struct that is `Copy` and has an allocator.
#[derive(Clone, Copy)]
pub struct Naming {
    alloc: Global,
    id: u64,
}

impl Naming {
    /// Names the visitor, and returns `true` if memory could be allocated.
    pub fn name<R: Wait>(self, rt: &R, names: &Names) -> bool {
        names.name(rt, self.alloc, self.id, "guest").is_ok()
    }
}

/// Names two visitors, each in a thread of its own, which has a copy of a struct with an allocator.
pub fn own_copy<R: Threads + Wait + Sync>(rt: &R, alloc: Global, names: &Names) {
    thread::scope(thread::scope_env(), rt, |scope| {
        for id in 0..2u64 {
            let naming = Naming { alloc, id };
            let child = scope.spawn(move || naming.name(rt, names));
            drop(child);
        }
    });
}
