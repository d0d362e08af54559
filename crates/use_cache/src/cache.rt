//! A cache with a bound on the number of its pairs. The key that was put first is forgotten first.

ghost use Rattle.std.specs.Prelude.{◌≡◌, ◌≢◌, ◌≤◌, ◌<◌, ℕ, [], length, Some, None, IfOk, OnOk, OnErr};
ghost use Rattle.std.specs.Ordering.{nat_cmp};
ghost use Rattle.flurry.specs.FiniteMap.{IsFiniteMap, value_at};
ghost use Rattle.use_cache.specs.Cache.{IsLastOrNone};
ghost use Rattle.use_cache.specs.Calls.{AreLawful};

use flurry::SeqMap;
use std::alloc::{AllocError, Global};
use std::collections::VecDeque;
use std::marker::Model;

/// A cache of pairs of numbers, which never has more pairs than its bound.
#[derive(Drop)]
pub struct Cache {
    map: SeqMap<u64, u64>,
    // The keys of the map, the oldest first.
    order: VecDeque<u64>,
    bound: usize,
}

impl Model for Cache {
    ghost use Rattle.std.specs.Prelude.{◌≤◌, ◌<◌, length};
    ghost use Rattle.use_cache.specs.Cache.{CacheContents, cache_contents_code};

    ghost Value = { CacheContents };

    ghost coded = { cache_contents_code };

    ghost view = { λ c. record { pairs = c.map.pairs; bound = c.bound } };

    ghost invariant = { λ c. (length c.map.pairs ≤ c.bound) × (0 < c.bound) };
}

impl Cache {
    /// Creates an empty cache for at most `bound` pairs.
    pub fn new(alloc: Global, bound: usize) -> Self
        requires { 0 < bound }
        ensures { result ≡ record { pairs = []; bound = bound } }
    {
        Cache {
            map: SeqMap::new(alloc),
            order: VecDeque::new(alloc),
            bound,
        }
    }

    /// Returns the value of `key`, or `None` if the key is not in the cache.
    pub fn get(&self, key: u64) -> Option<u64>
        ensures { result ≡ value_at nat_cmp self.now.pairs key }
    {
        self.map.get(&key).map(|value| **value)
    }

    /// Sets the value of `key`. If the cache is full and the key is not in it, another key is forgotten.
    ///
    /// # Errors
    ///
    /// Returns [`AllocError`] if memory for the pair cannot be allocated. The key then has its old value or none.
    #[tactic(auto, using(flurry::proofs::CallerLaws::map_calls))]
    pub fn put(&mut self, key: u64, value: u64) -> Result<(), AllocError>
        ensures put { OnOk result (value_at nat_cmp self.new.pairs key ≡ Some value) }
        ensures others { (q : ℕ) → q ≢ key
            → IsLastOrNone (value_at nat_cmp self.old.pairs q) (value_at nat_cmp self.new.pairs q) }
        ensures err { OnErr result (IsLastOrNone (value_at nat_cmp self.old.pairs key) (value_at nat_cmp self.new.pairs key)) }
        ensures bound { self.new.bound ≡ self.old.bound }
        ensures room { length self.new.pairs ≤ self.new.bound }
    {
        if !self.map.contains_key(&key) {
            make_room(&mut self.map, &mut self.order, self.bound);
            self.order.push_back(key)?;
        }
        self.map.insert(key, value)?;
        Ok(())
    }
}

// Forgets keys, the oldest first, until there is room for one more.
#[tactic(auto, using(flurry::proofs::CallerLaws::map_calls))]
fn make_room(map: &mut SeqMap<u64, u64>, order: &mut VecDeque<u64>, bound: usize)
    requires { 0 < bound }
    ensures room { length map.new.pairs < bound }
    ensures ascend { IsFiniteMap nat_cmp map.new.pairs }
    ensures keeps { (q : ℕ) → IsLastOrNone (value_at nat_cmp map.old.pairs q) (value_at nat_cmp map.new.pairs q) }
{
    while map.len() >= bound {
        match order.pop_front() {
            Some(oldest) => {
                map.remove(&oldest);
            }
            None => map.clear(),
        }
    }
}

/// A call of a cache.
#[derive(Clone, Copy, Debug)]
pub enum Call {
    /// A call of [`Cache::put`] with a key and a value.
    Put(u64, u64),
    /// A call of [`Cache::get`] with a key.
    Get(u64),
}

/// Makes `calls` in their order on a new cache for at most `bound` pairs, and returns the results of the look-ups.
///
/// Each result is `None`, or the value that was put last under the key.
///
/// # Errors
///
/// Returns [`AllocError`] if memory for a pair or a result cannot be allocated.
pub fn run(alloc: Global, bound: usize, calls: &[Call]) -> Result<Vec<Option<u64>>, AllocError>
    requires { 0 < bound }
    ensures { IfOk result (λ replies. AreLawful (λ _. None) calls.now replies.items) }
{
    let mut cache = Cache::new(alloc, bound);
    let mut replies = Vec::new(alloc);
    for call in calls {
        match *call {
            Call::Put(key, value) => cache.put(key, value)?,
            Call::Get(key) => replies.push(cache.get(key))?,
        }
    }
    Ok(replies)
}
