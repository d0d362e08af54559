//! Buckets of tokens, each of the calls of one key.

ghost use Rattle.std.specs.Prelude.{◌≡◌, ◌≤◌, ◌<◌, ◌+◌, ◌-◌, ◌*◌, ◌/◌, min, eqb, ltb, cond};

/// How many tokens a bucket has, and how fast it is filled.
#[derive(Clone, Copy)]
pub struct Rules {
    burst: u64,
    period: u64,
    ghost ticks: { 0 < period },
}

impl Rules {
    /// Creates rules of at most `burst` tokens, to which one is added every `period` milliseconds.
    pub fn new(burst: u64, period: u64) -> Self
        requires { 0 < period }
        ensures { (result.burst ≡ burst) × (result.period ≡ period) }
    {
        Rules { burst, period }
    }
}

/// The tokens that one key has left. They are never more than the burst of its rules.
#[derive(Clone, Copy)]
pub struct Bucket {
    rules: Rules,
    tokens: u64,
    // The time up to which tokens were added.
    time: u64,
    ghost within: { tokens ≤ rules.burst },
}

impl Bucket {
    /// Creates a full bucket at the time `now`.
    pub fn full(rules: Rules, now: u64) -> Self
        ensures { (result.rules ≡ rules) × (result.tokens ≡ rules.burst) × (result.time ≡ now) }
    {
        Bucket {
            rules,
            tokens: rules.burst,
            time: now,
        }
    }

    /// Returns the number of tokens.
    pub fn tokens(self) -> u64
        ensures { result ≡ self.tokens }
    {
        self.tokens
    }

    /// Returns `true` if the bucket has as many tokens as it can have.
    pub fn is_full(self) -> bool
        ensures { result ≡ eqb self.tokens self.rules.burst }
    {
        self.tokens == self.rules.burst
    }

    /// Returns the bucket at the time `now`: a token is added for each whole period since the time up to which tokens were added, up to the
    /// burst. What is left of a period counts for the next token.
    pub fn at(self, now: u64) -> Self
        ensures rules { result.rules ≡ self.rules }
        ensures tokens { result.tokens
            ≡ min (self.tokens + (now - self.time) / self.rules.period) self.rules.burst }
        ensures time { result.time
            ≡ self.time + (now - self.time) / self.rules.period * self.rules.period }
    {
        let passed = now.saturating_sub(self.time);
        Bucket {
            rules: self.rules,
            tokens: self
                .tokens
                .saturating_add(passed / self.rules.period)
                .min(self.rules.burst),
            time: self.time + (passed - passed % self.rules.period),
        }
    }

    /// Takes a token, and returns `true` if there was one.
    pub fn take(&mut self) -> bool
        ensures rules { (self.new.rules ≡ self.old.rules) × (self.new.time ≡ self.old.time) }
        ensures tokens { self.new.tokens + cond result 1 0 ≡ self.old.tokens }
        ensures taken { result ≡ ltb 0 self.old.tokens }
    {
        let Some(left) = self.tokens.checked_sub(1) else {
            return false;
        };
        self.tokens = left;
        true
    }
}
