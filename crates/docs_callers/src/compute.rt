//! A function that a caller defines for computations, as a type.
ghost use Rattle.std.specs.Prelude.{◌≡◌, min};
ghost use Rattle.std.specs.Option.{option_map};
ghost use Rattle.flurry.specs.Verdicts.{verdict_of};

use flurry::slots::{ComputeFn, Verdict};

/// A function that replaces each value above a limit by the limit.
#[derive(Clone, Copy, Debug)]
pub struct AtMost(pub u64);

impl ComputeFn<u64, u64> for AtMost {
    ghost can_change = { λ _. Unit {0} };

    ghost never_keeps = { λ _. Unit {0} };

    ghost changes = { λ f _ x v. v ≡ verdict_of (option_map (λ w. min w f.0) x) };

    fn change<'a>(self, _key: &'a u64, value: Option<&'a u64>) -> Verdict<u64> {
        match value {
            Some(value) => Verdict::Set((*value).min(self.0)),
            None => Verdict::Remove,
        }
    }
}
