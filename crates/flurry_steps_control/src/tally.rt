//! Counts that wait to be collected.
ghost use Rattle.std.specs.Prelude.{◌≡◌, pos, int_le};
ghost use Rattle.flurry_steps_control.specs.Control.{count_after};

use std::marker::Model;

/// A count of pairs that waits until a control collects it.
///
/// A call can count pairs at a tally instead of at the control. The control that collects the tally empties it. So what waits at the
/// tallies of a map and what its control has counted are, together, what the control alone would have counted.
///
/// ```
/// let mut tally = Tally::new();
/// tally.count(1);
/// control.drain_tally(&mut tally);
/// control.len()
/// ```
#[derive(Drop)]
pub struct Tally {
    count: i64,
}

impl Model for Tally {
    ghost use Rattle.std.specs.Prelude.{ℤ};

    ghost Value = { ℤ };

    ghost view = { λ t. t.count };
}

impl Tally {
    /// Creates a tally at which nothing waits.
    ///
    /// Constant time.
    pub fn new() -> Self
        ensures { result ≡ pos 0 }
    {
        Tally { count: 0 }
    }

    /// Adds `delta`, which may be negative, to the count that waits. The count saturates at the bounds of `i64`.
    ///
    /// Constant time.
    pub fn count(&mut self, delta: i64)
        ensures { self.new ≡ count_after delta self.old }
    {
        self.count = self.count.saturating_add(delta);
    }

    /// Returns `true` if at least `pairs` pairs wait.
    ///
    /// Constant time.
    pub fn is_at_least(&self, pairs: i64) -> bool
        ensures { result ≡ int_le pairs self.now }
    {
        pairs <= self.count
    }

    // Empties the tally, and returns the count that waited.
    pub(crate) fn take(&mut self) -> i64
        ensures value { result ≡ self.old }
        ensures after { self.new ≡ pos 0 }
    {
        let count = self.count;
        self.count = 0;
        count
    }
}
