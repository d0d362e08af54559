//! A rate limiter, which threads share.

use crate::bucket::{Bucket, Rules};
use flurry_shared::HashMap;
use std::alloc::{AllocError, Global};
use std::sync::Wait;
use std::sync::atomic::{AtomicU64, Ordering};

/// A rate limiter by keys. A key without a bucket has all of its tokens.
#[derive(Drop)]
pub struct Limiter {
    buckets: HashMap<String, Bucket>,
    rules: Rules,
    granted: AtomicU64,
}

// Which tokens a call finds depends on other threads. That no bucket has more than its burst is a fact of the type `Bucket`, which holds of
// each bucket in the map.
impl Limiter {
    /// Creates a limiter without buckets, for `threads` threads.
    pub fn new(alloc: Global, rules: Rules, threads: usize) -> Self {
        Limiter {
            buckets: HashMap::new(alloc).with_processors(threads),
            rules,
            granted: AtomicU64::new(0),
        }
    }

    /// Takes a token of `key` at the time `now`, and returns `true` if there was one. The text of the key is copied only if it has no bucket.
    ///
    /// # Errors
    ///
    /// Returns [`AllocError`] if memory for the key or its bucket cannot be allocated. No token is taken.
    pub fn allow<R: Wait>(
        &self,
        rt: &R,
        alloc: Global,
        key: &str,
        now: u64,
    ) -> Result<bool, AllocError> {
        let mut is_granted = false;
        let granted = &mut is_granted;
        let present = self
            .buckets
            .update(rt, key, move |_key: &String, bucket: &Bucket| -> Bucket {
                let mut bucket = bucket.at(now);
                *granted = bucket.take();
                bucket
            })?;
        if present.is_none() {
            is_granted = self.allow_new(rt, String::from_str(alloc, key)?, now)?;
        }
        self.granted
            .fetch_add(u64::from(is_granted), Ordering::SeqCst);
        Ok(is_granted)
    }

    // Takes a token of a key that had no bucket. It gets a full one, unless another thread has made one meanwhile.
    fn allow_new<R: Wait>(&self, rt: &R, key: String, now: u64) -> Result<bool, AllocError> {
        let rules = self.rules;
        let mut is_granted = false;
        let granted = &mut is_granted;
        self.buckets.compute(
            rt,
            key,
            move |_key: &String, bucket: Option<&Bucket>| -> Option<Bucket> {
                let mut bucket = match bucket {
                    Some(bucket) => bucket.at(now),
                    None => Bucket::full(rules, now),
                };
                *granted = bucket.take();
                Some(bucket)
            },
        )?;
        Ok(is_granted)
    }

    /// Removes the buckets that are full at the time `now`. Since a new bucket is full too, no key gets more tokens by that.
    ///
    /// # Errors
    ///
    /// Returns [`AllocError`] if cloning an `Arc` fails. What was removed before stays removed.
    pub fn evict<R: Wait>(&self, rt: &R, now: u64) -> Result<(), AllocError> {
        self.buckets
            .retain(rt, move |_key: &String, bucket: &Bucket| -> bool {
                !bucket.at(now).is_full()
            })
    }

    /// Returns the number of tokens that were taken.
    pub fn granted(&self) -> u64 {
        self.granted.load(Ordering::SeqCst)
    }

    /// Returns the number of buckets.
    pub fn len<R: Wait>(&self, rt: &R) -> usize {
        self.buckets.len(rt)
    }

    /// Returns the number of tokens that all buckets have at the time `now`, at most [`u64::MAX`].
    ///
    /// # Errors
    ///
    /// Returns [`AllocError`] if cloning an `Arc` fails.
    pub fn left<R: Wait>(&self, rt: &R, now: u64) -> Result<u64, AllocError> {
        self.buckets.fold(
            rt,
            0,
            move |sum: u64, _key: &String, bucket: &Bucket| -> u64 {
                sum.saturating_add(bucket.at(now).tokens())
            },
        )
    }

    /// Returns `true` if a key has no token at the time `now`.
    ///
    /// # Errors
    ///
    /// Returns [`AllocError`] if cloning an `Arc` fails.
    pub fn is_exhausted<R: Wait>(&self, rt: &R, now: u64) -> Result<bool, AllocError> {
        self.buckets
            .any(rt, move |_key: &String, bucket: &Bucket| -> bool {
                bucket.at(now).tokens() == 0
            })
    }
}
