//! The Fibonacci numbers, over a memo.
ghost use Rattle.std.specs.Prelude.{◌≤◌};

use flurry::hash::LowHashBuilder;
use flurry::memo::Memo;
use std::sync::Wait;

/// The numbers that were computed so far, by their places.
pub type Numbers = Memo<u64, Option<u64>, LowHashBuilder>;

/// Returns the Fibonacci number at place `n`, which is computed once, from the two before it. Returns `None` if it is above 2^64 - 1, or if
/// memory cannot be allocated.
// No clause gives the number: what a shared memo keeps is known from its own steps alone.
pub fn fibonacci<R: Wait>(rt: &R, memo: &Numbers, n: u64) -> Option<u64> {
    if n < 2 {
        return Some(n);
    }
    let kept = memo.get_or_compute(
        rt,
        n,
        |_: &u64| -> Option<u64>
            requires { 2 ≤ n }
        {
            let before = fibonacci(rt, memo, n - 2)?;
            before.checked_add(fibonacci(rt, memo, n - 1)?)
        },
    );
    *kept.ok()?
}
