//! The first two steps of a call, done at once at a live bin of a published table.
ghost use Rattle.std.specs.Prelude.{◌≡◌, true, ⊤};
ghost use Rattle.flurry_bins_slots.specs.Slot.{is_live};
ghost use Rattle.flurry_steps_sweep.specs.Part.{BinPart};
ghost use Rattle.flurry_steps.specs.FirstSteps.{begun_at};
ghost use Rattle.flurry_steps_stages.specs.Stage.{BeginsToWrite, stage_of_call};
ghost use Rattle.flurry_steps.specs.Party.{wanted_part};
ghost use Rattle.flurry_steps_stages.specs.CallView.{CallIsReady, plain_call};

use super::assert_same;
use flurry_base::query::Query;
use flurry_bins::bin::Bin;
use flurry_bins_slots::{ComputeFn, NoFn, Slot};
use flurry_steps::Party;
use flurry_steps::party::{Call, Ending, Reply};
use flurry_steps_control::{Control, PublishedTable, Room};
use std::alloc::{AllocError, Global};
use std::process::Abort;
use std::sync::Arc;

// Where a control makes its tables, which these calls do not look at.
#[derive(Drop)]
struct Nowhere;

impl Room for Nowhere {
    ghost place_gives = { λ _ _ _ _ _. ⊤ };

    fn place(&mut self, _table: u8, _for_growth: Option<usize>) -> Result<(), AllocError> {
        Ok(())
    }
}

// Does the steps, and drops what they leave behind.
fn begun<Q: Query<u64>, F: ComputeFn<u64, u64>>(
    call: Call<Q, u64, u64, F>,
    hash: u64,
    start: &PublishedTable,
    alloc: Global,
    slot: &mut Slot<u64, u64>,
) -> Ending<u64, u64>
    requires ready { CallIsReady F.can_change F.never_keeps call }
    requires writes { BeginsToWrite (stage_of_call (plain_call Q.stands_for call)) }
    requires part { wanted_part (begun_at start.now hash 0 (stage_of_call (plain_call Q.stands_for call)))
        ≡ BinPart slot.old.table slot.old.index }
    requires live { is_live slot.old.content ≡ true }
{
    let (ending, left) = Party::write_first(call, hash, start, alloc, slot);
    drop(left);
    ending
}

// Returns the certificate of a table of 16 bins.
fn start_of_sixteen(rt: &impl Abort) -> PublishedTable
    ensures { result ≡ 4 }
{
    let mut control = Control::new();
    control.open(4, &mut Nowhere).expect(rt, "there is room");
    let start = control.start().expect(rt, "a table is published");
    assert!(rt; start.table() == 4, "its exponent is 4");
    start
}

#[test]
fn an_insertion_of_a_new_key(rt: HostRuntime) {
    let rt = &rt;
    let start = start_of_sixteen(rt);
    let mut slot = Slot::live(4, 5, Bin::new());
    let value = Arc::new(rt.alloc(), 50u64).expect(rt, "memory for the value");
    let call: Call<&u64, u64, u64, NoFn> = Call::Insert(5, value);
    let ending = begun(call, 5, &start, rt.alloc(), &mut slot);
    assert_same(rt, ending.is_counting(), true);
    assert_same(rt, matches!(ending.into_reply(), Ok(Reply::Refused)), false);
}
