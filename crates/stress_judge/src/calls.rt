//! Calls of one key, as a thread records them.

use std::fmt::{self, Display, Formatter};

/// A call of one key, with the value that it writes.
#[derive(Clone, Copy, PartialEq, Eq)]
pub enum Call {
    Get,
    GetKeyValue,
    ContainsKey,
    Insert(u64),
    TryInsert(u64),
    Remove,
    RemoveEntry,
    /// A `compute_if_present` whose function returns this.
    ComputeIfPresent(Option<u64>),
    /// A `compute` whose function returns this.
    Compute(Option<u64>),
    /// A `merge` of this value by [`merged`].
    Merge(u64),
    /// An `update` whose function returns this new value.
    Update(u64),
    /// A `remove_if` of an even value.
    RemoveEven,
    /// A `replace_if` of an even value by this one.
    ReplaceEven(u64),
}

/// What `compute` or `merge` did, with the value that it wrote or removed.
#[derive(Clone, Copy, PartialEq, Eq)]
pub enum Outcome {
    Absent,
    Added(u64),
    Changed(u64),
    Removed(u64),
}

/// What a call returned.
#[derive(Clone, Copy, PartialEq, Eq)]
pub enum Reply {
    /// Whether the map had the key.
    Presence(bool),
    /// The value that the key had.
    Value(Option<u64>),
    /// The stored key, and the value that it had.
    Pair(Option<(u64, u64)>),
    /// The value that `try_insert` has inserted.
    Added(u64),
    /// The two values of the error that `try_insert` returns if the key is present.
    Kept {
        current: u64,
        not_inserted: u64,
    },
    /// The value on which `compute_if_present` or `update` called its function, if it did, and the value that it returned.
    Computed {
        seen: Option<u64>,
        returned: Option<u64>,
    },
    /// The value on which `compute` or `merge` called its function, if there was one, and what it did.
    Altered {
        seen: Option<u64>,
        outcome: Outcome,
    },
}

impl Call {
    /// Returns the reply of the call if the key has the value `now`, and the value of the key after it, where `None` means that the key is
    /// absent.
    pub fn on(self, key: u64, now: Option<u64>) -> (Reply, Option<u64>) {
        match self {
            Call::Get => (Reply::Value(now), now),
            Call::GetKeyValue => (pair_of(key, now), now),
            Call::ContainsKey => (Reply::Presence(now.is_some()), now),
            Call::Insert(value) => (Reply::Value(now), Some(value)),
            Call::TryInsert(value) => added(value, now),
            Call::Remove => (Reply::Value(now), None),
            Call::RemoveEntry => (pair_of(key, now), None),
            Call::ComputeIfPresent(new) => computed(now, new),
            Call::Compute(new) => altered(now, new),
            Call::Merge(value) => altered(now, merged(now, value)),
            Call::Update(value) => computed(now, Some(value)),
            Call::RemoveEven => replaced(now, None),
            Call::ReplaceEven(value) => replaced(now, Some(value)),
        }
    }

    /// Returns the value that the call may write.
    pub fn value(self) -> Option<u64> {
        match self {
            Call::Insert(value) | Call::TryInsert(value) => Some(value),
            Call::ComputeIfPresent(new) | Call::Compute(new) => new,
            Call::Merge(value) | Call::Update(value) | Call::ReplaceEven(value) => Some(value),
            _ => None,
        }
    }
}

// Returns the reply that has the stored key and the value `now`.
fn pair_of(key: u64, now: Option<u64>) -> Reply {
    match now {
        Some(value) => Reply::Pair(Some((key, value))),
        None => Reply::Pair(None),
    }
}

// Returns the reply of `try_insert` and the value after it.
fn added(value: u64, now: Option<u64>) -> (Reply, Option<u64>) {
    match now {
        Some(current) => {
            let not_inserted = value;
            (
                Reply::Kept {
                    current,
                    not_inserted,
                },
                now,
            )
        }
        None => (Reply::Added(value), Some(value)),
    }
}

// Returns the reply of `compute_if_present` or `update`, whose function returns `new`, and the value after it.
fn computed(now: Option<u64>, new: Option<u64>) -> (Reply, Option<u64>) {
    let returned = if now.is_some() { new } else { None };
    let seen = now;
    (Reply::Computed { seen, returned }, returned)
}

/// Returns the value that a `merge` of `value` leaves: `value`, or none where the value `now` is odd.
pub fn merged(now: Option<u64>, value: u64) -> Option<u64> {
    match now {
        Some(old) if !is_even(old) => None,
        _ => Some(value),
    }
}

/// Returns `true` if `remove_if` and `replace_if` take this value away.
pub fn is_even(value: u64) -> bool {
    value % 2 == 0
}

// Returns the reply of `compute` or `merge`, after which the value is `new`, and that value.
fn altered(now: Option<u64>, new: Option<u64>) -> (Reply, Option<u64>) {
    let outcome = match (now, new) {
        (None, None) => Outcome::Absent,
        (None, Some(value)) => Outcome::Added(value),
        (Some(_), Some(value)) => Outcome::Changed(value),
        (Some(old), None) => Outcome::Removed(old),
    };
    let seen = now;
    (Reply::Altered { seen, outcome }, new)
}

// Returns the reply of `remove_if` or `replace_if`, which puts `new` in the place of an even value, and the value after it.
fn replaced(now: Option<u64>, new: Option<u64>) -> (Reply, Option<u64>) {
    match now {
        Some(old) if is_even(old) => (Reply::Value(now), new),
        _ => (Reply::Value(None), now),
    }
}

/// A call that has returned.
#[derive(Clone, Copy, PartialEq, Eq)]
pub struct Event {
    pub key: u64,
    /// The number of the thread that made the call. A thread makes one call after another.
    pub thread: u64,
    /// The ticket that the thread drew right before the call.
    pub start: u64,
    /// The ticket that the thread drew right after the call.
    pub end: u64,
    pub call: Call,
    pub reply: Reply,
}

impl Event {
    /// Returns the value that the key has after the call if it has the value `now` before, or `None` if the call would then reply
    /// otherwise than it did. The inner `None` means that the key is absent.
    pub fn apply(&self, now: Option<u64>) -> Option<Option<u64>> {
        let (reply, after) = self.call.on(self.key, now);
        if reply == self.reply {
            Some(after)
        } else {
            None
        }
    }

    /// Returns `true` if the call has left the value of the key as it was, as its reply shows.
    pub fn is_read(&self) -> bool {
        match self.call {
            Call::Get | Call::GetKeyValue | Call::ContainsKey => true,
            Call::Insert(_) => false,
            Call::TryInsert(value) => self.reply != Reply::Added(value),
            Call::Compute(_) | Call::Merge(_) => {
                let (seen, outcome) = (None, Outcome::Absent);
                self.reply == Reply::Altered { seen, outcome }
            }
            Call::Remove
            | Call::RemoveEntry
            | Call::ComputeIfPresent(_)
            | Call::Update(_)
            | Call::RemoveEven
            | Call::ReplaceEven(_) => self.apply(None).is_some(),
        }
    }
}

// A value as `37`, or `none`.
#[derive(Clone, Copy)]
struct Shown(Option<u64>);

impl Display for Shown {
    fn fmt<W: fmt::Write>(&self, f: &mut Formatter<W>) -> fmt::Result {
        match self.0 {
            Some(value) => write!(f, "{value}"),
            None => write!(f, "none"),
        }
    }
}

impl Display for Call {
    fn fmt<W: fmt::Write>(&self, f: &mut Formatter<W>) -> fmt::Result {
        match *self {
            Call::Get => write!(f, "get"),
            Call::GetKeyValue => write!(f, "get_key_value"),
            Call::ContainsKey => write!(f, "contains_key"),
            Call::Insert(value) => write!(f, "insert {value}"),
            Call::TryInsert(value) => write!(f, "try_insert {value}"),
            Call::Remove => write!(f, "remove"),
            Call::RemoveEntry => write!(f, "remove_entry"),
            Call::ComputeIfPresent(new) => write!(f, "compute_if_present to {}", Shown(new)),
            Call::Compute(new) => write!(f, "compute to {}", Shown(new)),
            Call::Merge(value) => write!(f, "merge {value}"),
            Call::Update(value) => write!(f, "update to {value}"),
            Call::RemoveEven => write!(f, "remove_if even"),
            Call::ReplaceEven(value) => write!(f, "replace_if even by {value}"),
        }
    }
}

impl Display for Outcome {
    fn fmt<W: fmt::Write>(&self, f: &mut Formatter<W>) -> fmt::Result {
        match *self {
            Outcome::Absent => write!(f, "absent"),
            Outcome::Added(value) => write!(f, "added {value}"),
            Outcome::Changed(value) => write!(f, "changed to {value}"),
            Outcome::Removed(value) => write!(f, "removed {value}"),
        }
    }
}

impl Display for Reply {
    fn fmt<W: fmt::Write>(&self, f: &mut Formatter<W>) -> fmt::Result {
        match *self {
            Reply::Presence(true) => write!(f, "present"),
            Reply::Presence(false) => write!(f, "absent"),
            Reply::Value(value) => write!(f, "{}", Shown(value)),
            Reply::Pair(Some((key, value))) => write!(f, "key {key} with {value}"),
            Reply::Pair(None) => write!(f, "none"),
            Reply::Added(value) => write!(f, "inserted {value}"),
            Reply::Kept { current, .. } => write!(f, "kept {current}"),
            Reply::Computed { seen, returned } => {
                write!(f, "{} from {}", Shown(returned), Shown(seen))
            }
            Reply::Altered { seen, outcome } => write!(f, "{outcome} from {}", Shown(seen)),
        }
    }
}

impl Display for Event {
    fn fmt<W: fmt::Write>(&self, f: &mut Formatter<W>) -> fmt::Result {
        let (start, end, thread) = (self.start, self.end, self.thread);
        let (key, call, reply) = (self.key, self.call, self.reply);
        write!(
            f,
            "{start:>6} to {end:>6}  thread {thread:>2}  key {key}  {call} -> {reply}"
        )
    }
}
