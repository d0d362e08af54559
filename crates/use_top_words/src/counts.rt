//! Counts of words.

ghost use Rattle.std.specs.Prelude.{◌≡◌, ◌≢◌, ◌≤◌, ◌+◌, ◌-◌, ◌^◌, [], length, min, Some, String, string_bytes, IfOk, OnOk, OnErr, MatchOption};
ghost use Rattle.std.specs.Global.{Global};
ghost use Rattle.std.specs.List.Sorted.{IsNonDecreasingBy};
ghost use Rattle.std.specs.String.{string_cmp};
ghost use Rattle.flurry.specs.FiniteMap.{value_at};

use flurry::{SeqMap, pairs};
use std::alloc::{AllocError, Global};

/// The number of times that each word was counted.
#[derive(Drop)]
pub struct Counts {
    map: SeqMap<String, u64>,
}

impl Counts {
    /// Creates counts of no words.
    pub fn new(alloc: Global) -> Self
        ensures { result.map.pairs ≡ [] }
    {
        Counts {
            map: SeqMap::new(alloc),
        }
    }

    /// Returns the number of different words.
    pub fn len(&self) -> usize
        ensures { result ≡ length self.now.map.pairs }
    {
        self.map.len()
    }

    /// Counts `word` once more. A count stays at [`u64::MAX`] once it is there.
    ///
    /// # Errors
    ///
    /// Returns [`AllocError`] if memory for the word or its count cannot be allocated. The counts are unchanged.
    #[tactic(auto, using(flurry::proofs::CallerLaws::text_calls))]
    pub fn add(&mut self, word: String) -> Result<(), AllocError>
        ensures word { OnOk result (MatchOption (value_at string_cmp self.old.map.pairs word)
            (value_at string_cmp self.new.map.pairs word ≡ Some 1)
            (λ count. value_at string_cmp self.new.map.pairs word ≡ Some (min (count + 1) (2 ^ 64 - 1)))) }
        ensures others { OnOk result ((q : String Global) → string_bytes q ≢ string_bytes word
            → value_at string_cmp self.new.map.pairs q ≡ value_at string_cmp self.old.map.pairs q) }
        ensures err { OnErr result (self.new ≡ self.old) }
    {
        self.map
            .merge(word, 1, |count: &u64, one: u64| -> Option<u64> {
                Some((*count).saturating_add(one))
            })?;
        Ok(())
    }

    /// Counts the words of `line`. A word is what stands between two characters that are no letters; capital letters are made small.
    ///
    /// # Errors
    ///
    /// Returns [`AllocError`] if memory for a word or its count cannot be allocated. The words before it are counted.
    pub fn add_line(&mut self, alloc: Global, line: &str) -> Result<(), AllocError> {
        for word in line.split(|letter: char| !letter.is_alphabetic()) {
            if !word.is_empty() {
                self.add(word.to_lowercase(alloc)?)?;
            }
        }
        Ok(())
    }

    /// Returns the `number` most frequent words, or all if there are fewer, the most frequent first, and those with equal counts in the
    /// order of their texts.
    ///
    /// # Errors
    ///
    /// Returns [`AllocError`] if memory for the list cannot be allocated.
    pub fn most_frequent(&self, number: usize) -> Result<Vec<(String, u64)>, AllocError>
        ensures len { IfOk result (λ list. length list.items ≤ number) }
        ensures order { IfOk result (λ list. IsNonDecreasingBy (λ p. 2 ^ 64 - 1 - p.1) list.items) }
    {
        let mut list = pairs::from_seq_map(&self.map)?.0;
        // The sort is stable, and the list is in the order of the words.
        list.sort_by_key(|pair: &(String, u64)| -> u64 { u64::MAX - pair.1 })?;
        list.truncate(number);
        Ok(list)
    }
}
