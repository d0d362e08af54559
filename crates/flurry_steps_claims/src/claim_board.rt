//! The board that threads share.
ghost use Rattle.std.specs.Prelude.{◌≡◌, ◌+◌, ◌++◌, ◌-◌, ◌*◌, ◌/◌, ◌^◌, ◌<◌, ◌≤◌, All, IfOk, vec_len, vec_capacity};
ghost use Rattle.flurry_base.specs.declared.sizes.TheConstants.{MAX_TABLE};
ghost use Rattle.flurry_steps_claims.specs.SeatNotes.{NotesAreApart, MayReport};
ghost use Rattle.flurry_steps_claims.specs.AtomicSteps.{LoadGives, ExchangeGives, AddGives};
ghost use Rattle.flurry_steps_claims.specs.Range.{IsNumber, is_range_at};
ghost use Rattle.flurry_steps_claims.specs.ClaimBoard.{IsBoardFor, IsRangeOf, IsSeatOf, IsNewSeatOf, ranges_of, notes_of, Claims, Reports};
ghost use Rattle.atomic_table.specs.Table.{step};
ghost use mathlib.Core.Option.{none};

use crate::range::{Attempt, Range, count, stride_of_table};
use crate::seat_notes::SeatNotes;
use crate::steps::{About, Add, Both, Exchange, Load, Rule, Sit};
use atomic_table::Table;
use std::alloc::{AllocError, Allocator, Global};
use std::marker::{Brand, Model};

// The word that is the number of ranges that are claimed, and so that of the next range.
const NEXT: usize = 0;

// The word that is the number of reports.
const REPORTS: usize = 1;

/// A place at a [`ClaimBoard`], by which a thread claims ranges and reports them. It takes no memory.
///
/// ```
/// let (board, mut seats) = ClaimBoard::new(rt.alloc(), 6, 2, 8)?;
/// assert_eq!(rt; seats.len(), 8);
/// let seat = &mut seats[0];
/// ```
pub type Seat = atomic_table::Seat<(), SeatNotes>;

/// The ranges of one table that is being moved into the next, which threads claim and report with seats.
///
/// In any schedule of running threads, no two seats get one range, and no seat gets one twice. The ranges that were claimed are those
/// with the lowest numbers, so the topmost of the table. Each seat reports only ranges that it has claimed, and one report alone is told
/// that it is the last: that by which every range is reported.
///
/// No call waits, and only [`ClaimBoard::new`] allocates.
///
/// ```
/// let (board, mut seats) = ClaimBoard::new(rt.alloc(), 5, 2, 2)?;
/// let Attempt::Got(upper) = board.try_claim(&mut seats[0]) else {
///     panic!(rt; "a range is left")
/// };
/// let Attempt::Got(lower) = board.try_claim(&mut seats[1]) else {
///     panic!(rt; "a range is left")
/// };
/// assert!(rt; !board.report(&mut seats[1], lower));
/// assert!(rt; board.report(&mut seats[0], upper));
/// ```
#[derive(Drop)]
pub struct ClaimBoard<A: Allocator = Global> {
    words: Table<(), SeatNotes, u64, Rule, A>,
    table: u8,
    stride: usize,
    ranges: u64,
}

impl<A: Allocator> Model for ClaimBoard<A> {
    ghost use Rattle.flurry_steps_claims.specs.ClaimBoard.{BoardValue, IsClaimBoard};

    ghost Value = { BoardValue };

    ghost view = { λ b. record { id = b.words.shared.table_id; table = b.table; stride = b.stride } };

    ghost invariant = { λ b. IsClaimBoard b.words.shared.table_id.words b.words.shared.key b.table b.stride b.ranges };
}

impl<A: Allocator> ClaimBoard<A> {
    /// Creates the board of the table of `2^table` bins, with `seats` seats. A range has as many bins as a helper moves at once if
    /// `processors` processors share the work, or all that are left; `0` processors count as 1.
    ///
    /// Takes time in proportion to the number of seats.
    ///
    /// # Errors
    ///
    /// Returns [`AllocError`] if memory for the board or for the list of seats cannot be allocated. Nothing is left of the board then.
    pub fn new(
        alloc: A,
        table: u8,
        processors: usize,
        seats: usize,
    ) -> Result<(ClaimBoard<A>, Vec<Seat, A>), AllocError>
    where
        A: Clone,
        requires table { table ≤ MAX_TABLE }
        requires seats { 0 < seats }
        ensures board { IfOk result (λ made. IsBoardFor table processors made.0) }
        ensures count { IfOk result (λ made. vec_len made.1 ≡ seats) }
        ensures seats { IfOk result (λ made. All (IsNewSeatOf made.0) made.1.items) }
    {
        let stride = stride_of_table(table, processors);
        let ranges = count(table, stride);
        let mut all = Vec::with_capacity(alloc.clone()?, seats)?;
        let (words, first) = Table::of_words(alloc, &[0, 0], &ranges)?;
        let board = ClaimBoard {
            words,
            table,
            stride,
            ranges,
        };
        all.push_reserved(first);
        let all = board.sit_all(seats, all);
        Ok((board, all))
    }

    // Adds new seats until there are so many.
    fn sit_all(&self, seats: usize, mut all: Vec<Seat, A>) -> Vec<Seat, A>
        requires room { (vec_len all ≤ seats) × (seats ≤ vec_capacity all) }
        requires seats { All (IsNewSeatOf self.now) all.items }
        ensures count { vec_len result ≡ seats }
        ensures seats { All (IsNewSeatOf self.now) result.items }
    {
        while all.len() < seats {
            all.push_reserved(self.sit());
        }
        all
    }

    fn sit(&self) -> Seat
        ensures { IsNewSeatOf self.now result }
    {
        self.words.shared.load_new_seat::<Sit>(NEXT).1
    }

    /// Returns the exponent of the table.
    ///
    /// Constant time.
    pub fn table(&self) -> u8
        ensures { result ≡ self.now.table }
    {
        self.table
    }

    /// Tries to claim the next range: the topmost that nobody has claimed.
    ///
    /// Returns [`Attempt::Lost`] if another seat claims it at the same time. A seat is told so at most as often as there are ranges, as
    /// each attempt that is lost or succeeds raises the number of claimed ranges that it knows of. Returns [`Attempt::Nothing`] if every
    /// range is claimed.
    ///
    /// `seat` must be a seat of this board.
    ///
    /// Constant time: one load, and at most one compare-exchange.
    pub fn try_claim(&self, seat: &mut Seat) -> Attempt
        requires { IsSeatOf self.now seat.old }
        ensures board { IsSeatOf self.now seat.new }
        ensures claim { Claims self.now (notes_of seat.old) result (notes_of seat.new) }
    {
        let next = self.load::<Brand>(seat);
        if next >= self.ranges {
            return Attempt::Nothing;
        }
        if self.exchange::<Brand>(seat, next) == next {
            Attempt::Got(Range::numbered(self.table, self.stride, next))
        } else {
            Attempt::Lost
        }
    }

    /// Reports a range whose bins have moved. Returns whether every range is reported now. Of all reports of a board, one returns `true`.
    ///
    /// `range` must be a range of this board: the one of its number in the cut of this board's table. `seat` must be a seat of this board
    /// that has claimed the range and has not reported it.
    ///
    /// Constant time: one fetch-add.
    pub fn report(&self, seat: &mut Seat, range: Range) -> bool
        requires board { IsSeatOf self.now seat.old }
        requires range { IsRangeOf self.now range }
        requires own { MayReport (notes_of seat.old) range.number }
        ensures board { IsSeatOf self.now seat.new }
        ensures report { Reports self.now (notes_of seat.old) range.number result (notes_of seat.new) }
    {
        let ranges = self.ranges;
        self.add::<Brand>(seat, range) + 1 == ranges
    }

    /// Makes one seat of `seat` and `other`. Its contract says that no range was claimed by both, and that at most one report of theirs
    /// was the last.
    ///
    /// Both must be seats of this board.
    ///
    /// Constant time: two loads.
    pub fn merge(&self, seat: &mut Seat, other: Seat)
        requires board { IsSeatOf self.now seat.old × IsSeatOf self.now other }
        ensures board { IsSeatOf self.now seat.new }
        ensures claims { (notes_of seat.new).claims ≡ (notes_of seat.old).claims ++ (notes_of other).claims }
        ensures reports { (notes_of seat.new).reports ≡ (notes_of seat.old).reports ++ (notes_of other).reports }
        ensures apart { NotesAreApart (notes_of seat.old) (notes_of other) }
    {
        self.words.shared.join_seat::<Both>(seat, other);
        self.load::<Brand>(seat);
    }

    // Returns whether it is the range of this number.
    pub(crate) fn has(&self, range: &Range, number: u64) -> bool
        requires { IsNumber self.now.table self.now.stride number }
        ensures { result ≡ is_range_at self.now.table self.now.stride number range.now }
    {
        let own = Range::numbered(self.table, self.stride, number);
        range.table() == own.table()
            && range.number() == own.number()
            && range.low() == own.low()
            && range.high() == own.high()
    }

    fn load<B: About>(&self, seat: &mut Seat) -> u64
        requires board { IsSeatOf self.now seat.old }
        requires about { B.ranges ≡ ranges_of self.now }
        ensures board { IsSeatOf self.now seat.new }
        ensures gives { LoadGives (ranges_of self.now) (step 0 NEXT 0 0 none) seat.old.me result seat.new.me }
    {
        self.words.shared.load::<Load<B>>(seat, NEXT)
    }

    fn exchange<B: About>(&self, seat: &mut Seat, next: u64) -> u64
        requires board { IsSeatOf self.now seat.old }
        requires about { B.ranges ≡ ranges_of self.now }
        requires next { (next < ranges_of self.now) × ((notes_of seat.old).next ≡ next) }
        ensures board { IsSeatOf self.now seat.new }
        ensures gives { ExchangeGives (ranges_of self.now) (step 0 NEXT next (next + 1) none)
            seat.old.me result seat.new.me }
    {
        self.words
            .shared
            .compare_exchange::<Exchange<B>>(seat, NEXT, next, next + 1)
    }

    fn add<B: About>(&self, seat: &mut Seat, range: Range) -> u64
        requires board { IsSeatOf self.now seat.old }
        requires about { (B.ranges ≡ ranges_of self.now) × (B.number ≡ range.number) }
        requires own { MayReport (notes_of seat.old) range.number }
        ensures board { IsSeatOf self.now seat.new }
        ensures gives { AddGives (ranges_of self.now) range.number (step 0 REPORTS 1 0 none)
            seat.old.me result seat.new.me }
    {
        self.words.shared.fetch_add::<Add<B>>(seat, REPORTS, 1)
    }
}
