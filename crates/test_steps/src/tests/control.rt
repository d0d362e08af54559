//! The control: each case of what its calls return and change, with tables for which memory can fail.
ghost use Rattle.std.specs.Prelude.{◌<◌, ◌^◌, ◌≡◌, ◌++◌, ◌∷◌, [], if◌then◌else◌};

mod claims;
mod count;
mod growth;
mod publication;

use super::assert_same;
use flurry_bins::bin::Bin;
use flurry_bins_slots::{MoveAnswer, Receipt, Slot};
use flurry_steps_claims::{Attempt, PlainBoard};
use flurry_steps_control::{BeginOutcome, Claim, Control, Room};
use std::alloc::{AllocError, Global};
use std::process::Abort;

// The tables that were made, by number, and for how many processors if a growth made it. The request with the number `refused` fails,
// where the first request has the number 1.
#[derive(Drop)]
struct Tables {
    placed: Vec<(u8, Option<usize>)>,
    requests: u8,
    refused: u8,
}

impl Room for Tables {
    ghost place_gives = { λ s table for_growth made s'. s'.placed.items
        ≡ (if made then s.placed.items ++ (table, for_growth) ∷ [] else s.placed.items) };

    fn place(&mut self, table: u8, for_growth: Option<usize>) -> Result<(), AllocError> {
        self.requests = self.requests.saturating_add(1);
        if self.requests == self.refused {
            return Err(AllocError);
        }
        self.placed.push((table, for_growth))?;
        Ok(())
    }
}

fn empty_room(alloc: Global, refused: u8) -> Tables {
    Tables {
        placed: Vec::new(alloc),
        requests: 0,
        refused,
    }
}

// Returns a control whose first table is `table`, and the room that has it. The request with the number `refused` fails.
fn opened(rt: &(impl Abort + AllocGlobal), table: u8, refused: u8) -> (Control, Tables) {
    let mut room = empty_room(rt.alloc(), refused);
    let mut control = Control::new();
    assert!(rt; table <= 30, "the table has at most 2^30 bins");
    let first = control
        .open(table, &mut room)
        .expect(rt, "memory for the table");
    assert_same(rt, first, table);
    (control, room)
}

// Returns a control that grows from `table`, for two processors, and the room that has its two tables.
fn growing(rt: &(impl Abort + AllocGlobal), table: u8) -> (Control, Tables) {
    let (mut control, mut room) = opened(rt, table, 0);
    assert_same(rt, control.begin(table, 2, &mut room), BeginOutcome::Begun);
    (control, room)
}

// Returns the claim of the next range of a board.
fn claimed(rt: &impl Abort, board: &mut PlainBoard) -> Claim {
    let Attempt::Got(range) = board.try_claim() else {
        panic!(rt; "a range is left")
    };
    assert!(rt; range.table() < 30, "there is a larger table");
    Claim::of(range)
}

// Returns the receipt of the move of bin `index` of `table`.
fn receipt_of(rt: &impl Abort, table: u8, index: usize) -> Receipt
    requires table { table < 30 }
    requires index { index < 2 ^ table }
{
    let mut slot: Slot<u64, u64> = Slot::live(table, index, Bin::new());
    let mut low = Slot::unborn(table + 1, index);
    let mut high = Slot::unborn(table + 1, index + (1 << table));
    match slot.move_into(&mut low, &mut high) {
        MoveAnswer::Done(receipt) => receipt,
        _ => panic!(rt; "a live bin moves"),
    }
}

// Moves the bins of a claim, and returns its lowest bin and the bin that follows its highest one.
fn move_all(rt: &impl Abort, claim: &mut Claim) -> (usize, usize) {
    let (_, highest) = claim.next().expect(rt, "the claim has bins left");
    let mut low = highest;
    for _ in 0..=highest {
        let Some((table, index)) = claim.next() else {
            break;
        };
        let receipt = receipt_of(rt, table, index);
        assert!(rt;
            claim.advance(receipt),
            "the claim goes on by the receipt of its next bin"
        );
        low = index;
    }
    (low, highest + 1)
}
