//! What a thread does with a map. Each result is checked.

use crate::keys::{Draws, key_of};
use crate::subjects::Subject;
use std::sync::Wait;

// The first index of the keys for look-ups that miss.
const ABSENT: u64 = 1 << 40;

// The first index of the keys for the changes in a mix, and the number of them for each thread, which is more than it makes calls.
const FRESH: u64 = 1 << 41;

const FRESH_OF_A_THREAD: u64 = 1 << 32;

/// The work that is done on a map. The map has all its keys, except before [`Work::Insert`], which inserts them, and after
/// [`Work::Remove`], which removes them.
#[derive(Clone, Copy, PartialEq, Eq)]
pub enum Work {
    Insert,
    Hit,
    Miss,
    /// Look-ups that hit, with this number of changes in a hundred calls. A change inserts a new key, and the next change removes it.
    Mix(u64),
    Remove,
}

/// The part of a work that one thread does.
#[derive(Clone, Copy)]
pub struct Part {
    /// The number of the thread, counted from 0.
    pub number: u64,
    /// The number of keys of the map.
    pub keys: u64,
    /// The first index of the part's own keys.
    pub first: u64,
    /// The number of the part's own keys.
    pub own: u64,
    /// The number of calls of a look-up or a mix.
    pub calls: u64,
}

impl Work {
    /// Does the part of the work, and returns the number of calls that returned a wrong result or for which memory could not be allocated.
    pub fn run<R: Wait, S: Subject>(self, rt: &R, map: &S, part: Part) -> u64 {
        match self {
            Work::Insert => insert_own(rt, map, part),
            Work::Hit => look_up(rt, map, part),
            Work::Miss => miss(rt, map, part),
            Work::Mix(changes) => mix(rt, map, part, changes),
            Work::Remove => remove_own(rt, map, part),
        }
    }
}

fn insert_own<R: Wait, S: Subject>(rt: &R, map: &S, part: Part) -> u64 {
    let mut wrong = 0u64;
    for index in part.first..part.first.saturating_add(part.own) {
        if !matches!(map.insert(rt, key_of(index), index), Ok(None)) {
            wrong = wrong.saturating_add(1);
        }
    }
    wrong
}

fn remove_own<R: Wait, S: Subject>(rt: &R, map: &S, part: Part) -> u64 {
    let mut wrong = 0u64;
    for index in part.first..part.first.saturating_add(part.own) {
        if !is_value(map.remove(rt, key_of(index)), index) {
            wrong = wrong.saturating_add(1);
        }
    }
    wrong
}

fn look_up<R: Wait, S: Subject>(rt: &R, map: &S, part: Part) -> u64 {
    let mut draws = Draws::new(part.number);
    let mut wrong = 0u64;
    for _ in 0..part.calls {
        let index = draws.below(part.keys);
        if !is_value(map.get(rt, key_of(index)), index) {
            wrong = wrong.saturating_add(1);
        }
    }
    wrong
}

fn miss<R: Wait, S: Subject>(rt: &R, map: &S, part: Part) -> u64 {
    let mut draws = Draws::new(part.number);
    let mut wrong = 0u64;
    for _ in 0..part.calls {
        let index = draws.below(part.keys).wrapping_add(ABSENT);
        if !matches!(map.get(rt, key_of(index)), Ok(None)) {
            wrong = wrong.saturating_add(1);
        }
    }
    wrong
}

fn mix<R: Wait, S: Subject>(rt: &R, map: &S, part: Part, changes: u64) -> u64 {
    let mut draws = Draws::new(part.number);
    let mut fresh = Fresh {
        index: FRESH.wrapping_add(part.number.wrapping_mul(FRESH_OF_A_THREAD)),
        present: false,
    };
    let mut wrong = 0u64;
    for _ in 0..part.calls {
        let right = if draws.below(100) < changes {
            fresh.change(rt, map)
        } else {
            let index = draws.below(part.keys);
            is_value(map.get(rt, key_of(index)), index)
        };
        if !right {
            wrong = wrong.saturating_add(1);
        }
    }
    if fresh.present && !fresh.change(rt, map) {
        wrong = wrong.saturating_add(1);
    }
    wrong
}

// The index of the key of a part's next change, and whether this key is in the map.
#[derive(Drop)]
struct Fresh {
    index: u64,
    present: bool,
}

impl Fresh {
    // Inserts the key or removes it, and returns `true` if the map returned what it should.
    fn change<R: Wait, S: Subject>(&mut self, rt: &R, map: &S) -> bool {
        let index = self.index;
        if self.present {
            self.present = false;
            self.index = index.wrapping_add(1);
            is_value(map.remove(rt, key_of(index)), index)
        } else {
            self.present = true;
            matches!(map.insert(rt, key_of(index), index), Ok(None))
        }
    }
}

// Whether `answer` is `value`.
fn is_value<E: Drop>(answer: Result<Option<u64>, E>, value: u64) -> bool {
    match answer {
        Ok(Some(found)) => found == value,
        _ => false,
    }
}
