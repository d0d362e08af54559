//! Ranges of bins that are to be moved.
ghost use Rattle.std.specs.Prelude.{◌≡◌, ◌^◌, ◌<◌, ◌↔◌, IsTrue, IfSome, MatchResult, Some, None, false};
ghost use Rattle.flurry_steps_control.specs.Claim.{IsClaim, whole_claim, next_of, moved_range, moved_on};
ghost use Rattle.flurry_base.specs.declared.sizes.TheConstants.{MAX_TABLE};

use flurry_bins_slots::Receipt;
use flurry_bins_slots::clones::{CloneProbe, NotClone};
use flurry_steps_claims::Range;
use std::marker::Model;

/// A range of bins of a growing table. Only its holder moves these bins into the next table, from the last one down.
///
/// It is made of a [`Range`], which a board gives out once, and neither can be cloned. So no bin has two holders. Once all bins have
/// moved, it gives the range back, which is then reported to the board. If a claim is dropped before, the bins that are left stay unmoved
/// for good, and the growth never ends.
///
/// ```
/// let Attempt::Got(range) = PlainBoard::new(4, 1).try_claim() else {
///     return None;
/// };
/// Claim::of(range).next()
/// ```
#[derive(Drop)]
pub struct Claim {
    range: Range,
    left: usize,
}

impl Model for Claim {
    ghost use Rattle.flurry_steps_control.specs.Claim.{ClaimState, IsClaim};

    ghost Value = { ClaimState };

    ghost view = { λ c. record { range = c.range; left = c.left } };

    ghost invariant = { λ c. IsClaim (record { range = c.range; left = c.left }) };
}

// A claim cannot be cloned, so only its holder has its bins.
fn claims_can_be_cloned() -> bool
    ensures { result ≡ false }
{
    CloneProbe::<Claim>::is_there()
}

impl Claim {
    /// Creates the claim of a range of which no bin has moved. There must be a next table: the range is of a table below the largest.
    ///
    /// Constant time.
    pub fn of(range: Range) -> Self
        requires { range.table < MAX_TABLE }
        ensures value { result ≡ whole_claim range }
        ensures claim { IsClaim result }
    {
        let left = range.high();
        Claim { range, left }
    }

    /// Returns the exponent of the table and the index of the bin to move next, or `None` once all bins have moved.
    ///
    /// Constant time.
    pub fn next(&self) -> Option<(u8, usize)>
        ensures value { result ≡ next_of self.now }
        ensures within { IfSome result (λ b. (b.0 < MAX_TABLE) × (b.1 < 2 ^ b.0)) }
        ensures claim { IsClaim self.now }
    {
        if self.range.low() < self.left {
            Some((self.range.table(), self.left - 1))
        } else {
            None
        }
    }

    /// Returns the exponent of the table.
    ///
    /// Constant time.
    pub fn table(&self) -> u8
        ensures value { result ≡ self.now.range.table }
        ensures claim { IsClaim self.now }
    {
        self.range.table()
    }

    /// Goes on to the bin below if `receipt` is that of the bin to move next, and returns `true`. Otherwise returns `false`, and the
    /// claim is unchanged.
    ///
    /// Constant time.
    pub fn advance(&mut self, receipt: Receipt) -> bool
        ensures when { IsTrue result ↔ (next_of self.old ≡ Some receipt) }
        ensures after { IsTrue result → self.new ≡ moved_on self.old }
        ensures same { result ≡ false → self.new ≡ self.old }
    {
        let (table, index) = receipt.at();
        if self.range.low() < self.left && self.range.table() == table && self.left - 1 == index {
            self.left -= 1;
            true
        } else {
            false
        }
    }

    /// Returns the range, which is to be reported now that all its bins have moved.
    ///
    /// Constant time.
    ///
    /// # Errors
    ///
    /// Returns the claim, unchanged, if it has bins that have not moved.
    pub fn into_range(self) -> Result<Range, Self>
        ensures { MatchResult result (λ r. moved_range self ≡ Some r) (λ c. (moved_range self ≡ None) × (c ≡ self)) }
    {
        if self.range.low() < self.left {
            Err(self)
        } else {
            Ok(self.range)
        }
    }
}
