//! Commands to a store, and the lines that give them.

ghost use Rattle.std.specs.Prelude.{◌<◌};

use flurry::hash::{DefaultHashBuilder, KeyHasher};
use std::alloc::{AllocError, Global};

/// A command to a store.
#[derive(Drop)]
pub enum Command {
    /// `GET key`: the text of a key.
    Get(String),
    /// `SET key text`: stores a text.
    Set(String, String),
    /// `ADD key text`: stores a text if the key is absent.
    Add(String, String),
    /// `SWAP key old new`: stores the text `new`, which may have blanks, if the text of the key is `old`.
    Swap(String, String, String),
    /// `DEL key`: removes a key.
    Delete(String),
    /// `KEYS`: all keys.
    Keys,
    /// Any other line.
    Unknown,
}

impl Command {
    /// Reads the command of a line.
    ///
    /// # Errors
    ///
    /// Returns [`AllocError`] if memory for the key or the text cannot be allocated.
    pub fn parse(alloc: Global, line: &str) -> Result<Self, AllocError> {
        let mut words = line.splitn(3, ' ');
        let command = match (words.next(), words.next(), words.next()) {
            (Some("GET"), Some(key), None) => Command::Get(String::from_str(alloc, key)?),
            (Some("DEL"), Some(key), None) => Command::Delete(String::from_str(alloc, key)?),
            (Some("SET"), Some(key), Some(text)) => {
                Command::Set(
                    String::from_str(alloc, key)?,
                    String::from_str(alloc, text)?,
                )
            }
            (Some("ADD"), Some(key), Some(text)) => {
                Command::Add(
                    String::from_str(alloc, key)?,
                    String::from_str(alloc, text)?,
                )
            }
            (Some("SWAP"), Some(key), Some(texts)) => Command::swap(alloc, key, texts)?,
            (Some("KEYS"), None, None) => Command::Keys,
            _ => Command::Unknown,
        };
        Ok(command)
    }

    // Reads the two texts of a swap.
    fn swap(alloc: Global, key: &str, texts: &str) -> Result<Self, AllocError> {
        let Some((old, new)) = texts.split_once(' ') else {
            return Ok(Command::Unknown);
        };
        Ok(Command::Swap(
            String::from_str(alloc, key)?,
            String::from_str(alloc, old)?,
            String::from_str(alloc, new)?,
        ))
    }

    // Returns the key that the command reads or changes, if it is one.
    fn key(&self) -> Option<&String> {
        match self {
            Command::Get(key)
            | Command::Set(key, _)
            | Command::Add(key, _)
            | Command::Swap(key, _, _)
            | Command::Delete(key) => Some(key),
            Command::Keys | Command::Unknown => None,
        }
    }

    /// Returns which of `workers` workers carries out the command, the same one for each command of a key.
    pub fn worker(&self, workers: usize) -> usize
        requires { 0 < workers }
        ensures { result < workers }
    {
        match self.key() {
            Some(key) => (DefaultHashBuilder::default().hash_one(key) % workers as u64) as usize,
            None => 0,
        }
    }
}
