//! Pairs that a walk has read.
ghost use Rattle.std.specs.Prelude.{◌≡◌, IfOk};
ghost use Rattle.flurry_bins.specs.PlainEntries.{numbered_pair};
ghost use Rattle.flurry_steps_sweep.specs.OutcomeView.{pair_value};
ghost use Rattle.flurry_steps_sweep.specs.Sweep.{pair_seen, seen_at};

use flurry_bins::bin::Entry;
use std::alloc::{AllocError, Allocator, Global};
use std::marker::Model;
use std::sync::Arc;

/// A pair that a walk has read, with the write number of its value. Only a walk's read makes one, and [`Seen::try_clone`] clones it.
///
/// ```
/// match pairs.next_seen()? {
///     Some(seen) => Ok(view.remove_seen(seen).is_some()),
///     None => Ok(false),
/// }
/// ```
#[derive(Drop)]
pub struct Seen<K, V, A: Allocator = Global> {
    key: Arc<K, A>,
    value: Arc<V, A>,
    number: u64,
}

impl<K, V, A: Allocator> Model for Seen<K, V, A> {
    ghost use Rattle.flurry_base.specs.declared.call.Seen.{Seen};
    ghost use Rattle.flurry_steps_sweep.specs.SeenView.{seen_of};

    ghost Value = { Seen K V };

    ghost view = { seen_of };
}

impl<K: Drop, V: Drop, A: Allocator> Seen<K, V, A> {
    // The pair of an entry that a walk reads, with the write number of its value.
    pub(crate) fn of(entry: &Entry<K, V, A>) -> Result<Self, AllocError>
        ensures { IfOk result (λ s. s ≡ seen_at (numbered_pair entry.now)) }
    {
        let key = Arc::try_clone(&entry.key)?;
        let value = Arc::try_clone(&entry.value)?;
        Ok(Seen {
            key,
            value,
            number: entry.number,
        })
    }

    /// Returns a reference to the stored key.
    ///
    /// Constant time.
    pub fn key(&self) -> &K
        ensures { result.now ≡ self.now.key }
    {
        &self.key
    }

    /// Returns a reference to the value.
    ///
    /// Constant time.
    pub fn value(&self) -> &V
        ensures { result.now ≡ self.now.value }
    {
        &self.value
    }

    /// Returns the write number of the value.
    ///
    /// Constant time.
    pub fn number(&self) -> u64
        ensures { result ≡ self.now.number }
    {
        self.number
    }

    /// Converts the pair into the `Arc`s of the stored key and the value.
    ///
    /// Constant time.
    pub fn into_pair(self) -> (Arc<K, A>, Arc<V, A>)
        ensures { pair_value result ≡ pair_seen self }
    {
        let Seen { key, value, .. } = self;
        (key, value)
    }

    /// Returns a clone of the pair, with its write number.
    ///
    /// Constant time. Takes no memory except for clones of the `Arc`s of the key and the value.
    ///
    /// # Errors
    ///
    /// Returns [`AllocError`] if cloning one of these `Arc`s fails.
    pub fn try_clone(&self) -> Result<Self, AllocError>
        ensures { IfOk result (λ s. s ≡ self.now) }
    {
        let key = Arc::try_clone(&self.key)?;
        let value = Arc::try_clone(&self.value)?;
        Ok(Seen {
            key,
            value,
            number: self.number,
        })
    }
}
