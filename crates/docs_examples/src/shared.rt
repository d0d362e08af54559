//! Callers of the map and the set that threads share.
ghost use Rattle.std.specs.Prelude.{◌≡◌, true, false, Ok, IfOk, IfErr};
ghost use Rattle.std.specs.Ordering.{nat_cmp};
ghost use Rattle.flurry.specs.Call.{Get};
ghost use Rattle.flurry.specs.SharedAnswers.{IsAnswerOf, or_refused, value_answer};
ghost use Rattle.flurry.specs.FiniteMap.{IsFiniteMap};

use flurry::hash::KeyHasher;
use flurry::iter::Iter;
use flurry::pairs::{self, SortedPairs};
use flurry::{HashMap, HashSet, SeqMap};
use std::alloc::{AllocError, Global};
use std::sync::{Arc, Wait};

type Shared = HashMap<u64, u64>;

/// Removes a key by the view. The result depends on other threads.
pub fn take<R: Wait>(rt: &R, map: &Shared, key: u64) -> bool {
    let view = map.pin(rt);
    view.remove(&key).is_some() && !view.contains_key(&key)
}

/// Looks up a key. The result is one that the look-up's own steps can give.
pub fn look_up<S: KeyHasher<u64>, R: Wait>(
    rt: &R,
    map: &HashMap<u64, u64, S>,
    key: u64,
) -> Result<Option<Arc<u64>>, AllocError>
    ensures { IsAnswerOf nat_cmp S.hash_of map.now (Get key) (or_refused value_answer result) }
{
    map.get(rt, &key)
}

/// Returns the value of a key, or 0 if there is none. No contract specifies which value a shared map finds.
pub fn value_or_zero<R: Wait>(rt: &R, map: &Shared, key: u64) -> Result<u64, AllocError> {
    match map.get(rt, &key)? {
        Some(value) => Ok(*value),
        None => Ok(0),
    }
}

/// Creates a map whose growths are divided among `processors` threads.
pub fn for_processors(alloc: Global, processors: usize) -> Shared
    ensures { result.processors ≡ processors }
{
    HashMap::new(alloc).with_processors(processors)
}

/// Shares an owned map. If memory cannot be allocated, the owned map is returned unchanged.
pub fn share<R: Wait>(rt: &R, map: SeqMap<u64, u64>) -> Result<Shared, SeqMap<u64, u64>>
    ensures { IfErr result (λ m. m ≡ map) }
{
    HashMap::from_seq(rt, map)
}

/// Returns `false`: an iterator that has ended returns `None`.
pub fn after_end<R: Wait>(pairs: &mut Iter<'_, R, u64, u64>) -> Result<bool, AllocError>
    requires { pairs.old.has_ended ≡ true }
    ensures { result ≡ Ok false }
{
    Ok(pairs.next()?.is_some())
}

/// Returns the pairs of a walk, in ascending order of the keys.
pub fn list<R: Wait>(
    rt: &R,
    alloc: Global,
    map: &Shared,
) -> Result<SortedPairs<u64, u64>, AllocError>
    ensures { IfOk result (λ s. IsFiniteMap nat_cmp s.0.items) }
{
    pairs::from_map(rt, alloc, map)
}

/// Keeps the even keys. No contract specifies which keys these are.
pub fn keep_even<R: Wait>(rt: &R, map: &Shared) -> Result<(), AllocError> {
    map.retain(rt, |key: &u64, _value: &u64| -> bool { *key % 2 == 0 })
}

/// Returns the sum of the values that a walk gives. `next` returns a `Result`, so the loop is not one over an iterator.
pub fn sum<R: Wait>(rt: &R, map: &Shared) -> Result<u64, AllocError> {
    let mut sum: u64 = 0;
    let mut values = map.values(rt);
    for _ in rt.forever() {
        let Some(value) = values.next()? else {
            break;
        };
        sum = sum.saturating_add(*value);
    }
    Ok(sum)
}

/// Returns the sum of the values that a walk gives, by a function that adds one value after another.
pub fn sum_by_fold<R: Wait>(rt: &R, map: &Shared) -> Result<u64, AllocError> {
    let sum = map.fold(rt, 0, |sum: u64, _key: &u64, value: &u64| -> u64 {
        sum.saturating_add(*value)
    })?;
    Ok(sum)
}

/// Takes a token of a key, and returns `true` if there was one. The function reports this through a captured `&mut`.
pub fn take_token<R: Wait>(rt: &R, map: &Shared, key: u64) -> Result<bool, AllocError> {
    let mut was_taken = false;
    let taken = &mut was_taken;
    map.compute_if_present(rt, &key, move |_key: &u64, tokens: &u64| -> Option<u64> {
        *taken = *tokens > 0;
        Some((*tokens).saturating_sub(1))
    })?;
    Ok(was_taken)
}

/// Counts a word once more. A `String` is made of it only where the word is new.
pub fn count_word<R: Wait>(
    rt: &R,
    alloc: Global,
    counts: &HashMap<String, u64>,
    word: &str,
) -> Result<(), AllocError> {
    let new = counts.update(rt, word, |_word: &String, count: &u64| -> u64 {
        count.saturating_add(1)
    })?;
    if new.is_none() {
        let first = String::from_str(alloc, word)?;
        counts.merge(rt, first, 1, |count: &u64, one: u64| -> Option<u64> {
            Some(count.saturating_add(one))
        })?;
    }
    Ok(())
}

/// Appends `more` to the text of a key, and returns `true` if the key is present. The longer text is made while no lock is held, and stored
/// if the text is still the one that it was made of.
pub fn append<R: Wait>(
    rt: &R,
    alloc: Global,
    texts: &HashMap<String, String>,
    key: &str,
    more: &str,
) -> Result<bool, AllocError> {
    for _ in rt.forever() {
        let Some(text) = texts.get(rt, key)? else {
            break;
        };
        let seen = text.as_str();
        let is_seen = move |_key: &String, now: &String| -> bool { now.as_str() == seen };
        let longer = format!(in alloc; "{seen}{more}")?;
        if texts.replace_if(rt, key, is_seen, longer)?.is_some() {
            return Ok(true);
        }
    }
    Ok(false)
}

/// Returns `true` if an element is new to the set, which depends on other threads.
pub fn visit<R: Wait>(rt: &R, seen: &HashSet<u64>, x: u64) -> Result<bool, AllocError> {
    seen.insert(rt, x)
}

/// Returns the number of processors of another view of a set, which is that of the set.
pub fn processors_of_view<R: Wait>(rt: &R, set: &HashSet<u64>) -> usize
    ensures { result ≡ set.now.processors }
{
    set.pin(rt).reborrow().processors()
}
