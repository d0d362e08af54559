//! Laws of the definitions.
ghost use Rattle.std.specs.Prelude.{◌≡◌, ℕ, ◌+◌, ◌-◌};
ghost use Rattle.flurry_steps_claims.specs.Range.{CutsTable, range_at};

/// States that the ranges cut a table: each bin lies in exactly one. Does nothing; its contract is a law.
pub fn ranges_cut_the_table()
    ensures { (e s : ℕ) → CutsTable e s }
{}

/// States that each range of a table but the first ends where the one before it begins, and that none is larger than the stride. Does
/// nothing; its contract is a law.
pub fn ranges_follow_one_another()
    ensures next { (e s k : ℕ) → (range_at e s (k + 1)).high ≡ (range_at e s k).low }
    ensures low { (e s k : ℕ) → (range_at e s k).low ≡ (range_at e s k).high - s }
{}
