//! The sizes of tables and of bins, and the index of a hash in a table.
//!
//! A table is identified by its exponent: table `e` has `2^e` bins.
ghost use Rattle.std.specs.Prelude.{◌≡◌, ◌+◌, ◌-◌, ◌/◌, ◌%◌, ◌^◌, ◌<◌, ◌≤◌};
ghost use Rattle.std.specs.Int.{IsNextPowerOfTwo};
ghost use Rattle.flurry_base.specs.Sizes.{wanted_of, threshold_of, stride_of};

/// The exponent of the first table, if no size was asked for.
pub const FIRST_TABLE: u8 = 4;

/// The number of bins of the first table, if no size was asked for.
pub const FIRST_BINS: usize = 1 << FIRST_TABLE;

/// The exponent of the largest table.
pub const MAX_TABLE: u8 = 30;

/// The number of tables that there can be. Their exponents are the numbers below it.
pub const TABLES: usize = MAX_TABLE as usize + 1;

/// The number of bins of the largest table.
pub const MAX_BINS: usize = 1 << MAX_TABLE;

/// The least number of bins that a helper claims at once, if that many are left.
pub const MIN_STRIDE: usize = 16;

/// The greatest number of pairs of a map, and of entries of a bin.
pub const MAX_LEN: usize = 1 << 62;

/// The greatest number of labels of a run.
pub const MAX_LABELS: usize = 1 << 62;

/// The greatest number of entries of a list bin.
pub const MAX_LIST_LEN: usize = 9;

/// The least number of entries of a tree bin.
pub const MIN_TREE_LEN: usize = 7;

/// The number of entries of a list that, when one more is inserted, becomes a tree or asks for a larger table.
pub const TREEIFY_LEN: usize = 8;

/// The number of bins below which a table grows before it makes trees.
pub const MIN_TREEIFY_BINS: usize = 64;

/// Returns the number of bins of a table that is made for `pairs` pairs: the least power of two that is at least `pairs + pairs / 2 + 1`,
/// but at most [`MAX_BINS`].
///
/// Constant time.
pub fn wanted(pairs: usize) -> usize
    ensures value { result ≡ wanted_of pairs }
    ensures least { pairs < 2 ^ (MAX_TABLE - 1) → IsNextPowerOfTwo (pairs + pairs / 2 + 1) result }
    ensures most { 2 ^ (MAX_TABLE - 1) ≤ pairs → result ≡ 2 ^ MAX_TABLE }
{
    if pairs >= MAX_BINS / 2 {
        return MAX_BINS;
    }
    (pairs + pairs / 2 + 1).next_power_of_two()
}

/// Returns the number of pairs from which on a table of `bins` bins is doubled: three quarters of the bins, rounded up.
///
/// Constant time.
#[inline]
pub fn threshold(bins: usize) -> usize
    ensures { result ≡ threshold_of bins }
{
    bins - bins / 4
}

/// Returns the index of the bin of `hash` in a table of `2^table` bins: the lowest `table` bits of `hash`.
///
/// Constant time.
#[inline]
pub fn bin_index(hash: u64, table: u8) -> usize
    requires { table ≤ MAX_TABLE }
    ensures place { result ≡ hash % 2 ^ table }
    ensures below { result < 2 ^ table }
{
    (hash % (1 << table)) as usize
}

/// Returns how many bins of a table of `bins` bins a helper claims at once, if `processors` processors share the work; `0` counts as 1.
///
/// Constant time.
pub fn stride(bins: usize, processors: usize) -> usize
    ensures { result ≡ stride_of bins processors }
{
    if processors <= 1 {
        bins.max(MIN_STRIDE)
    } else {
        (bins / 8 / processors).max(MIN_STRIDE)
    }
}

/// States that the first and the largest table have as many bins as their exponents say. Does nothing; its contract is a law.
pub fn bins_of_named_tables()
    ensures first { FIRST_BINS ≡ 2 ^ FIRST_TABLE }
    ensures greatest { MAX_BINS ≡ 2 ^ MAX_TABLE }
    ensures tables { TABLES ≡ MAX_TABLE + 1 }
{}
