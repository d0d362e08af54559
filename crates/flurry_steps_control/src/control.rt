//! The state on which the calls of a shared map agree: the published table, the running growth, and the count of pairs.
ghost use Rattle.std.specs.Prelude.{◌≡◌, ◌^◌, ◌<◌, ◌≤◌, pos, IsTrue, IfSome, IfOk, None};
ghost use Rattle.flurry_base.specs.Sizes.{wanted_of};
ghost use Rattle.flurry_steps_control.specs.Control.{IsControl, OpenGives, BeginGives, is_growing, after_publish, after_count, advice_of, IsAdvice, count_of, grows_from};
ghost use Rattle.flurry_base.specs.declared.sizes.TheConstants.{MAX_TABLE};

use crate::published_table::PublishedTable;
use crate::room::Room;
use crate::tally::Tally;
use flurry_base::sizes::{MAX_TABLE, threshold, wanted};
use std::alloc::AllocError;
use std::marker::Model;

/// Returns the exponent of the table that is made for `pairs` pairs. That table has [`wanted`] bins.
///
/// Constant time.
pub fn wanted_table(pairs: usize) -> u8
    ensures value { 2 ^ result ≡ wanted_of pairs }
    ensures within { result ≤ MAX_TABLE }
{
    wanted(pairs).ilog2() as u8
}

/// What a caller is to do after it has counted pairs.
///
/// ```
/// match control.count(1) {
///     Advice::Enough => false,
///     Advice::Join(_) | Advice::Begin => true,
/// }
/// ```
#[derive(Clone, Copy, Debug, PartialEq, Eq)]
pub enum Advice {
    /// Nothing more.
    Enough,
    /// Help the running growth, which moves the table of the given exponent.
    Join(u8),
    /// Begin a growth: the number of pairs has reached the threshold of the table.
    Begin,
}

/// The result of [`Control::begin`].
///
/// ```
/// match control.begin(table, 1, &mut Counted(0)) {
///     BeginOutcome::Begun => true,
///     BeginOutcome::Refused | BeginOutcome::Busy => false,
/// }
/// ```
#[derive(Clone, Copy, Debug, PartialEq, Eq)]
pub enum BeginOutcome {
    /// The growth has begun.
    Begun,
    /// Memory for the next table could not be allocated.
    Refused,
    /// No growth can begin from the table now.
    Busy,
}

/// The published table, the running growth, and the count of pairs.
///
/// Tables are identified by their exponents: table `e` has `2^e` bins, and `e` is at most 30. The first table is made by
/// [`Control::open`], and each later one is published by the growth that fills it. A growth moves the published table into the next one.
/// Who moves which bins is decided at the board of the growth. Whoever is told there that all bins have moved publishes the next table,
/// by [`Control::publish`], which ends the growth.
///
/// A control takes no memory and has no table; a [`Room`] makes the tables.
///
/// ```
/// let mut control = Control::new();
/// control.open(4, &mut Counted(0))?;
/// Ok(control.locate())
/// ```
#[derive(Drop)]
pub struct Control {
    published: Option<u8>,
    // The table that is being moved into the next one.
    growth: Option<u8>,
    count: i64,
}

impl Model for Control {
    ghost use Rattle.flurry_steps_control.specs.Control.{ControlState, IsControl};

    ghost Value = { ControlState };

    ghost view = { λ c. record { published = c.published; growth = c.growth; count = c.count } };

    ghost invariant = { λ c. IsControl (record { published = c.published; growth = c.growth; count = c.count }) };
}

impl Control {
    /// Creates a control without a table, a growth or pairs.
    ///
    /// Constant time.
    pub fn new() -> Self
        ensures { result ≡ record { published = None; growth = None; count = pos 0 } }
    {
        Control {
            published: None,
            growth: None,
            count: 0,
        }
    }

    /// Returns the exponent of the published table, or `None` before the first table.
    ///
    /// Constant time.
    #[inline]
    pub fn locate(&self) -> Option<u8>
        ensures value { result ≡ self.now.published }
        ensures within { IfSome result (λ e. e ≤ MAX_TABLE) }
        ensures control_state { IsControl self.now }
    {
        self.published
    }

    /// Returns the exponent of the published table as a certificate that it was published, or `None` before the first table.
    ///
    /// Constant time.
    #[inline]
    pub fn start(&self) -> Option<PublishedTable>
        ensures value { result ≡ self.now.published }
        ensures within { IfSome result (λ e. e ≤ MAX_TABLE) }
    {
        match self.published {
            Some(table) => Some(PublishedTable::of(table)),
            None => None,
        }
    }

    /// Returns the exponent of the published table. If there is none, makes the table of exponent `table` in `room`, with live and empty
    /// bins, and publishes it.
    ///
    /// Constant time, except for making the table.
    ///
    /// # Errors
    ///
    /// Returns [`AllocError`] if memory for the table cannot be allocated. The control is unchanged.
    pub fn open<R: Room>(&mut self, table: u8, room: &mut R) -> Result<u8, AllocError>
        requires { table ≤ MAX_TABLE }
        ensures gives { OpenGives R.place_gives table self.old room.old result self.new room.new }
        ensures within { IfOk result (λ e. e ≤ MAX_TABLE) }
    {
        match self.published {
            Some(there) => Ok(there),
            None => {
                room.place(table, None)?;
                self.published = Some(table);
                Ok(table)
            }
        }
    }

    /// Begins a growth from the table of exponent `table`: makes the next table in `room`, with unborn bins, and the board at which
    /// `processors` processors share the work of the growth. `0` processors count as 1.
    ///
    /// Returns [`BeginOutcome::Busy`] and changes nothing if a growth is running, if `table` is not the published table, or if it is the
    /// largest table. Returns [`BeginOutcome::Refused`] if memory for the next table or the board cannot be allocated; the control is then
    /// unchanged.
    ///
    /// Constant time, except for making the table and the board.
    pub fn begin<R: Room>(&mut self, table: u8, processors: usize, room: &mut R) -> BeginOutcome
        ensures gives { BeginGives R.place_gives processors table self.old room.old result self.new room.new }
        ensures within { result ≡ BeginOutcome.Begun → table < MAX_TABLE }
    {
        match (self.published, self.growth) {
            (Some(there), None) if there == table && table < MAX_TABLE => {
                if room.place(table + 1, Some(processors)).is_err() {
                    return BeginOutcome::Refused;
                }
                self.growth = Some(table);
                BeginOutcome::Begun
            }
            _ => BeginOutcome::Busy,
        }
    }

    /// Publishes the table after that of exponent `table`, ends the growth from `table`, and returns `true`. If no growth from `table` is
    /// running, returns `false`, and nothing changes.
    ///
    /// All bins of `table` must have moved. The growth's board tells that, to the one whose report was the last. A control does not know
    /// the board, so no contract can ask for it. Whoever keeps a control and its calls private is safe from a table that is published
    /// before it is complete.
    ///
    /// Constant time. Takes no memory.
    pub fn publish(&mut self, table: u8) -> bool
        ensures value { result ≡ is_growing table self.old.growth }
        ensures after { self.new ≡ after_publish table self.old }
        ensures within { IsTrue result → table < MAX_TABLE }
    {
        match self.growth {
            Some(there) if there == table => {
                self.published = Some(table + 1);
                self.growth = None;
                true
            }
            _ => false,
        }
    }

    /// Adds `delta`, which may be negative, to the count of pairs, and returns what is to be done then. The count saturates at the bounds
    /// of `i64`.
    ///
    /// Constant time.
    pub fn count(&mut self, delta: i64) -> Advice
        ensures after { self.new ≡ after_count delta self.old }
        ensures advice { result ≡ advice_of self.new }
        ensures within { IsAdvice result }
    {
        self.count = self.count.saturating_add(delta);
        if let Some(table) = self.growth {
            return Advice::Join(table);
        }
        match self.published {
            Some(table) if table < MAX_TABLE && self.len() >= threshold(1 << table) => {
                Advice::Begin
            }
            _ => Advice::Enough,
        }
    }

    /// Adds the count that waits at `tally` to the count of pairs, and empties the tally.
    ///
    /// Constant time.
    pub fn drain_tally(&mut self, tally: &mut Tally)
        ensures after { self.new ≡ after_count tally.old self.old }
        ensures tally { tally.new ≡ pos 0 }
    {
        let _advice = self.count(tally.take());
    }

    /// Returns the count of pairs, or 0 if the count is negative.
    ///
    /// Constant time.
    #[inline]
    pub fn len(&self) -> usize
        ensures { result ≡ count_of self.now.count }
    {
        if self.count < 0 {
            0
        } else {
            self.count as usize
        }
    }

    /// Returns the exponent of the published table if no growth is running and that table is to be doubled on the way to `2^wanted` bins:
    /// it is not the largest table, and its threshold is below `2^wanted`. Otherwise returns `None`.
    ///
    /// Constant time.
    pub fn grows_from(&self, wanted: u8) -> Option<u8>
        requires { wanted ≤ MAX_TABLE }
        ensures value { result ≡ grows_from wanted self.now }
        ensures within { IfSome result (λ e. e < MAX_TABLE) }
    {
        match (self.published, self.growth) {
            (Some(table), None) if table < MAX_TABLE && threshold(1 << table) < 1usize << wanted =>
                { Some(table) }
            _ => None,
        }
    }
}
