//! Ranges of bins, and the result of an attempt to claim one.
ghost use Rattle.std.specs.Prelude.{◌≡◌, ◌^◌, ◌<◌, ◌≤◌};
ghost use Rattle.flurry_steps_claims.specs.Range.{IsRange, IsNumber, range_at, range_count};
ghost use Rattle.flurry_base.specs.Sizes.{stride_of};
ghost use Rattle.flurry_base.specs.declared.sizes.TheConstants.{MAX_TABLE};

use flurry_base::sizes::stride;
use std::marker::Model;

/// Bins of a table that is being moved into the next one: those from `low` to below `high`.
///
/// The ranges of a table have numbers. The topmost is 0, and the number of each range below is one more. All have as many bins as a
/// helper moves at once, but the last may have fewer.
///
/// Only a board makes a range, when it is claimed, and a range cannot be cloned. So it has one holder, who moves its bins and then hands
/// it in to the board. If it is dropped before, its bins stay unmoved for good, and the growth never ends.
///
/// ```
/// let mut board = PlainBoard::new(6, 2);
/// let Attempt::Got(range) = board.try_claim() else {
///     panic!(rt; "a range is left")
/// };
/// assert_eq!(rt; (range.table(), range.number()), (6, 0));
/// assert_eq!(rt; (range.low(), range.high()), (48, 64));
/// ```
#[derive(Drop)]
pub struct Range {
    table: u8,
    number: u64,
    low: usize,
    high: usize,
}

impl Model for Range {
    ghost use Rattle.flurry_steps_claims.specs.Range.{Bounds, IsRange};

    ghost Value = { Bounds };

    ghost view = { λ r. record { table = r.table; number = r.number; low = r.low; high = r.high } };

    ghost invariant = { λ r. IsRange (record { table = r.table; number = r.number; low = r.low; high = r.high }) };
}

impl Range {
    // Creates the range of this number, of the ranges of `stride` bins each.
    pub(crate) fn numbered(table: u8, stride: usize, number: u64) -> Self
        requires table { table ≤ MAX_TABLE }
        requires stride { 0 < stride }
        requires number { IsNumber table stride number }
        ensures { result ≡ range_at table stride number }
    {
        let high = (1usize << table) - number as usize * stride;
        Range {
            table,
            number,
            low: high.saturating_sub(stride),
            high,
        }
    }

    /// Returns the exponent of the table: it has `2^table` bins.
    ///
    /// Constant time.
    pub fn table(&self) -> u8
        ensures value { result ≡ self.now.table }
        ensures range { IsRange self.now }
    {
        self.table
    }

    /// Returns the number of the range among those of its table.
    ///
    /// Constant time.
    pub fn number(&self) -> u64
        ensures { result ≡ self.now.number }
    {
        self.number
    }

    /// Returns the index of the first bin.
    ///
    /// Constant time.
    pub fn low(&self) -> usize
        ensures value { result ≡ self.now.low }
        ensures range { IsRange self.now }
    {
        self.low
    }

    /// Returns the index after that of the last bin. It is greater than `low`, and at most the number of bins of the table.
    ///
    /// Constant time.
    pub fn high(&self) -> usize
        ensures value { result ≡ self.now.high }
        ensures range { IsRange self.now }
    {
        self.high
    }
}

// The number of bins of a range of the table of 2^table bins, if so many processors share the work.
pub(crate) fn stride_of_table(table: u8, processors: usize) -> usize
    requires { table ≤ MAX_TABLE }
    ensures value { result ≡ stride_of (2 ^ table) processors }
    ensures some { 0 < result }
    ensures most { result ≤ 2 ^ MAX_TABLE }
{
    stride(1 << table, processors)
}

// The number of ranges of a table.
pub(crate) fn count(table: u8, stride: usize) -> u64
    requires table { table ≤ MAX_TABLE }
    requires stride { (0 < stride) × (stride ≤ 2 ^ MAX_TABLE) }
    ensures value { result ≡ range_count table stride }
    ensures some { 0 < result }
{
    (((1usize << table) + (stride - 1)) / stride) as u64
}

/// The result of an attempt to claim a range.
///
/// ```
/// match board.try_claim() {
///     Attempt::Got(range) => board.report(range),
///     Attempt::Lost | Attempt::Nothing => false,
/// }
/// ```
#[derive(Drop)]
pub enum Attempt {
    /// The range was claimed.
    Got(Range),
    /// Another seat claimed the range at the same time. The next attempt may succeed.
    Lost,
    /// Every range is claimed.
    Nothing,
}
