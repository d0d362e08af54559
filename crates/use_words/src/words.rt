//! Counts of words, which threads share.

ghost use Rattle.std.specs.Prelude.{◌≡◌, ◌≤◌, sum_by, IfOk, IfSome, IsSome};

use flurry::hash::DefaultHashBuilder;
use flurry::{Change, HashMap, SeqMap, par};
use std::alloc::{AllocError, Global};
use std::sync::Wait;
use std::thread::Threads;

/// The number of times that each word was counted.
#[derive(Drop)]
pub struct Words {
    counts: HashMap<String, u64>,
}

impl Words {
    /// Creates the counts of the words of `text`, all of which are 0. Several threads build their map.
    ///
    /// # Errors
    ///
    /// Returns [`AllocError`] if memory for the words cannot be allocated.
    pub fn of_text<R: Threads + Wait + Sync>(
        rt: &R,
        alloc: Global,
        text: &str,
    ) -> Result<Self, AllocError> {
        let mut list = Vec::new(alloc);
        for word in text.split_whitespace() {
            list.push((String::from_str(alloc, word)?, 0))?;
        }
        let words = par::seq_map_from_list(rt, alloc, list, DefaultHashBuilder::default(), 4)?;
        match HashMap::from_seq(rt, words) {
            Ok(counts) => Ok(Words { counts }),
            Err(_) => Err(AllocError),
        }
    }

    /// Counts `word` once more, and returns its new count.
    ///
    /// # Errors
    ///
    /// Returns [`AllocError`] if memory for the word or its count cannot be allocated.
    pub fn add<R: Wait>(&self, rt: &R, alloc: Global, word: &str) -> Result<u64, AllocError>
        ensures { IfOk result (λ count. 1 ≤ count) }
    {
        let change = self.counts.merge(
            rt,
            String::from_str(alloc, word)?,
            1,
            move |count: &u64, _one: u64| -> Option<u64>
                ensures raised { IfSome result (λ n. 1 ≤ n) }
                ensures kept { IsSome result }
            { Some((*count).saturating_add(1)) },
        )?;
        match change {
            Change::Added(count) | Change::Changed(count) => Ok(*count),
            Change::Absent | Change::Removed(_) => unreachable!(),
        }
    }

    /// Returns the counts, once no thread counts any more.
    ///
    /// # Errors
    ///
    /// Returns [`AllocError`] if memory for the owned map cannot be allocated. The counts are then dropped.
    pub fn finish<R: Wait>(self, rt: &R) -> Result<SeqMap<String, u64>, AllocError> {
        let Words { counts } = self;
        counts.into_seq(rt)
    }
}

/// Returns the sum of the counts, or `None` if it does not fit in 64 bits.
pub fn total(counts: &SeqMap<String, u64>) -> Option<u64>
    ensures { IfSome result (λ sum. sum ≡ sum_by (λ p. p.1) counts.now.pairs) }
{
    let mut sum: u64 = 0;
    for count in counts.values() {
        sum = sum.checked_add(**count)?;
    }
    Some(sum)
}
