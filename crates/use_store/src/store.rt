//! A store of texts by keys, which threads share.

use crate::command::Command;
use flurry::HashMap;
use flurry::pairs::{self, SortedPairs};
use std::alloc::{AllocError, Global};
use std::fmt;
use std::sync::{Arc, Wait};

/// What a store replies to a command.
#[derive(Drop)]
pub enum Reply {
    /// A text was stored, or a key was removed.
    Done,
    /// Nothing was changed: the key to be added is present, that to be removed is absent, or the text to be swapped is another.
    Unchanged,
    /// The text of a key, or `None` if the key is absent.
    Text(Option<Arc<String>>),
    /// The keys in ascending order, with their texts.
    Keys(SortedPairs<String, String>),
    /// The line gave no command.
    Unknown,
    /// Memory could not be allocated.
    NoMemory,
}

impl fmt::Display for Reply {
    fn fmt<W: fmt::Write>(&self, f: &mut fmt::Formatter<W>) -> fmt::Result {
        match self {
            Reply::Done => write!(f, "done"),
            Reply::Unchanged => write!(f, "unchanged"),
            Reply::Text(Some(text)) => write!(f, "{}", text.as_str()),
            Reply::Text(None) => write!(f, "none"),
            Reply::Keys(pairs) => write_keys(f, pairs),
            Reply::Unknown => write!(f, "unknown command"),
            Reply::NoMemory => write!(f, "out of memory"),
        }
    }
}

// Writes the number of keys, and each key after a blank.
fn write_keys<W: fmt::Write>(
    f: &mut fmt::Formatter<W>,
    pairs: &SortedPairs<String, String>,
) -> fmt::Result {
    write!(f, "{} keys", pairs.0.len())?;
    for (key, _) in &pairs.0 {
        write!(f, " {}", key.as_str())?;
    }
    Ok(())
}

/// A store of texts by keys.
#[derive(Drop)]
pub struct Store {
    texts: HashMap<String, String>,
}

// What a call finds depends on other threads, so these promise safety alone.
impl Store {
    /// Creates an empty store, for `threads` threads.
    pub fn new(alloc: Global, threads: usize) -> Self {
        Store {
            texts: HashMap::new(alloc).with_processors(threads),
        }
    }

    /// Carries out `command`. If memory cannot be allocated, the reply says so, and the store is unchanged.
    pub fn carry_out<R: Wait>(&self, rt: &R, alloc: Global, command: Command) -> Reply {
        match self.try_carry_out(rt, alloc, command) {
            Ok(reply) => reply,
            Err(_) => Reply::NoMemory,
        }
    }

    fn try_carry_out<R: Wait>(
        &self,
        rt: &R,
        alloc: Global,
        command: Command,
    ) -> Result<Reply, AllocError> {
        let is_changed = match command {
            Command::Get(key) => return Ok(Reply::Text(self.texts.get(rt, &key)?)),
            Command::Keys => return Ok(Reply::Keys(pairs::from_map(rt, alloc, &self.texts)?)),
            Command::Unknown => return Ok(Reply::Unknown),
            Command::Set(key, text) => {
                self.texts.insert(rt, key, text)?;
                true
            }
            Command::Add(key, text) => self.texts.try_insert(rt, key, text)?.is_ok(),
            Command::Swap(key, old, new) => self.swap(rt, &key, &old, new)?,
            Command::Delete(key) => self.texts.remove(rt, &key).is_some(),
        };
        Ok(if is_changed {
            Reply::Done
        } else {
            Reply::Unchanged
        })
    }

    // Stores the text `new` if the text of the key is `old`, and returns whether it was.
    fn swap<R: Wait>(
        &self,
        rt: &R,
        key: &String,
        old: &String,
        new: String,
    ) -> Result<bool, AllocError> {
        let replaced = self
            .texts
            .replace_if(rt, key, |_key: &String, text: &String| text == old, new)?;
        Ok(replaced.is_some())
    }
}
