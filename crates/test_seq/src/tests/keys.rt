//! The types of keys.
ghost use Rattle.std.proofs.Common.{rules};
ghost use Rattle.std.specs.Cmp.{partial_order_from_own_ties};
ghost use Rattle.std.specs.Cmp.Rules.{comparing};
ghost use Rattle.std.specs.Ordering.{nat_cmp, on, flip_args, as_partial_cmp};

use std::cmp::Ordering;
use std::hash::Hash;

/// A key that can be made from a number.
pub(super) trait Number: Ord + Hash + Drop {
    fn of(number: u64) -> Self;
}

impl Number for u64 {
    fn of(number: u64) -> u64 {
        number
    }
}

/// The text of the rows, which stands for each number.
impl Number for &'static str {
    fn of(_number: u64) -> &'static str {
        "foo"
    }
}

/// A number in reverse order: the greater number comes first.
#[derive(Clone, Copy, Debug, PartialEq, Eq, Hash)]
pub(super) struct Backward(u64);

impl Ord for Backward {
    ghost cmp = { flip_args (on (λ k. k.0) nat_cmp) };

    ghost total = { Prim.search (comparing, rules) };

    ghost matches_partial_cmp = { Prim.search (comparing, rules) };

    ghost matches_eq = { Prim.search (comparing, rules) };

    fn cmp(&self, other: &Backward) -> Ordering {
        other.0.cmp(&self.0)
    }
}

impl PartialOrd for Backward {
    ghost partial_cmp = { as_partial_cmp (flip_args (on (λ k. k.0) nat_cmp)) };

    ghost laws = { partial_order_from_own_ties (Prim.search (comparing, rules)) (Prim.search (comparing, rules)) };

    fn partial_cmp(&self, other: &Backward) -> Option<Ordering> {
        Some(self.cmp(other))
    }
}

impl Number for Backward {
    fn of(number: u64) -> Backward {
        Backward(number)
    }
}

/// A key that compares, equals and hashes by its `id` alone.
#[derive(Clone, Copy)]
#[derive_where(Debug, PartialEq, Eq, PartialOrd, Ord, Hash)]
pub(super) struct Tagged {
    pub(super) id: u64,
    #[derive_where(skip(EqHashOrd))]
    pub(super) tag: u64,
}

impl Number for Tagged {
    fn of(number: u64) -> Tagged {
        Tagged {
            id: number,
            tag: 10 * (number % 7),
        }
    }
}
