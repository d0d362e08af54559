//! Callers of the control of a shared map, and of calls in steps.
ghost use Rattle.std.specs.Prelude.{◌≡◌, ℕ, true, Some, IfOk, IfSome, pos};

use flurry::claims::{Attempt, PlainBoard};
use flurry::slots::ComputeFn;
use flurry::steps::control::{Advice, BeginOutcome, Claim, Control, PublishedTable, Room, Tally};
use flurry::steps::party::{Call, Ending, Event, OwnedCall, Rest, Want};
use flurry::steps::{Cursor, Party, Sweep};
use std::alloc::AllocError;

/// A room that only counts the tables that are made in it.
#[derive(Clone, Copy, Debug, Default)]
pub struct Counted(pub usize);

impl Room for Counted {
    ghost place_gives = { λ before table for_growth done after. done ≡ true };

    fn place(&mut self, _table: u8, _for_growth: Option<usize>) -> Result<(), AllocError> {
        self.0 = self.0.saturating_add(1);
        Ok(())
    }
}

/// Makes the first table of a control, and returns the table that the control has then published.
pub fn open_first() -> Result<Option<u8>, AllocError>
    ensures { IfOk result (λ e. e ≡ Some 4) }
{
    let mut control = Control::new();
    control.open(4, &mut Counted(0))?;
    Ok(control.locate())
}

/// Returns the bin that the helper of a growth of 16 bins moves first.
pub fn first_of_claim() -> Option<(u8, usize)>
    ensures { result ≡ Some (4, 15) }
{
    let Attempt::Got(range) = PlainBoard::new(4, 1).try_claim() else {
        return None;
    };
    Claim::of(range).next()
}

/// Returns what the first step of a call needs.
pub fn first_want<F: ComputeFn<u64, u64>>(key: u64) -> Want
    ensures { result ≡ Want.Control }
{
    let party: Party<&u64, u64, u64, F> = Party::from_owned(OwnedCall::Get(key), key, 1);
    let want = party.want();
    drop(party);
    want
}

/// Returns `true`: a walk of a map without a table ends at its first step.
pub fn walk_of_nothing() -> bool
    ensures { result ≡ true }
{
    let mut walk: Sweep<u64, u64> = Sweep::walk();
    let _ = walk.on_control(&mut Control::new());
    let has_ended = walk.reply().is_some();
    drop(walk);
    has_ended
}

/// Returns the second bin of two, to which a cursor goes on from the first.
pub fn second_of_two() -> (u8, usize)
    ensures { result ≡ (1, 1) }
{
    let mut cursor: Cursor<u64> = Cursor::new(1);
    let _ = cursor.leave();
    let at = cursor.at();
    drop(cursor);
    at
}

/// Returns the table that a control has published, if any.
pub fn published_by(control: &Control) -> Option<u8>
    ensures { result ≡ control.now.published }
{
    let start: PublishedTable = control.start()?;
    Some(start.table())
}

/// Counts a pair, and returns `true` if a growth needs the caller's help.
pub fn count_one(control: &mut Control) -> bool
    ensures { control.new.published ≡ control.old.published }
{
    match control.count(1) {
        Advice::Enough => false,
        Advice::Join(_) | Advice::Begin => true,
    }
}

/// Returns the number of pairs of a control, after a pair was counted at a tally and the control has collected it.
pub fn count_at_tally(control: &mut Control) -> usize
    ensures { control.new.published ≡ control.old.published }
{
    let mut tally = Tally::new();
    tally.count(1);
    control.drain_tally(&mut tally);
    control.len()
}

/// Returns `true` if a growth from `table` has begun.
pub fn begin_growth(control: &mut Control, table: u8) -> bool
    ensures { control.new.published ≡ control.old.published }
{
    match control.begin(table, 1, &mut Counted(0)) {
        BeginOutcome::Begun => true,
        BeginOutcome::Refused | BeginOutcome::Busy => false,
    }
}

/// Returns what the first step of a call that borrows its key needs.
pub fn first_want_of_borrowed<F: ComputeFn<u64, u64>>(key: &u64) -> Want
    ensures { result ≡ Want.Control }
{
    let party: Party<&u64, u64, u64, F> = Party::new(Call::ContainsKey(key), *key, 1);
    let want = party.want();
    drop(party);
    want
}

/// Returns the slot that a call needs.
pub fn slot_wanted(want: Want) -> Option<(u8, usize)>
    ensures { (table index : ℕ) → want ≡ Want.Move table index → result ≡ Some (table, index) }
{
    match want {
        Want::Look(table, index) | Want::Bin(table, index) | Want::Move(table, index) => {
            Some((table, index))
        }
        Want::Control | Want::Seat(_) | Want::Board(_) | Want::Give(_) | Want::Done => None,
    }
}

/// Returns the table that a step published.
pub fn table_published(event: Event) -> Option<u8>
    ensures { (table : ℕ) → event ≡ Event.Published table → result ≡ Some table }
{
    match event {
        Event::Opened(table) | Event::Published(table) => Some(table),
        _ => None,
    }
}

/// Returns by how much a call whose reply is known will still change the count of pairs.
pub fn owed_count(rest: Rest) -> i64
    ensures { rest ≡ Rest.Count → result ≡ pos 1 }
{
    match rest {
        Rest::Count | Rest::Grow(_) => 1,
        Rest::Uncount => -1,
        Rest::Nothing | Rest::Recount => 0,
    }
}

/// Returns the call that continues, if its reply is known and it is not done.
pub fn rest_of_call<'k, F: ComputeFn<u64, u64>>(
    ending: Ending<u64, u64>,
    hash: u64,
) -> Option<Party<&'k u64, u64, u64, F>>
    ensures { IfSome result (λ party. party.hash ≡ hash) }
{
    match ending.into_reply() {
        Ok(_reply) => None,
        Err(ending) => Some(ending.into_party(hash, 1)),
    }
}
