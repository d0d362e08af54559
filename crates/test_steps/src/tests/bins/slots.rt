//! Slots: each step where the bin is live, where it has moved, and where it is unborn.

ghost use Rattle.std.specs.Prelude.{◌≡◌, ⊤, OnOk};
ghost use Rattle.flurry_base.specs.declared.verdict.Verdict.TheVariants.{Keep};
ghost use Rattle.flurry_bins_slots.specs.Slot.{LiesInBin};

use super::assert_same;
use flurry_base::sizes::bin_index;
use flurry_bins::bin::Bin;
use flurry_bins_slots::clones::{CloneProbe, NotClone};
use flurry_bins_slots::{
    Added, Altered, Answer, ComputeFn, Computed, Given, Inserted, MoveAnswer, NoFn, Receipt, Slot,
    Verdict,
};
use std::alloc::{AllocError, Global};
use std::process::Abort;

// Why a step was not done at a live bin.
#[derive(Clone, Copy, Debug, PartialEq, Eq)]
enum Away {
    Moved,
    Unborn,
    Elsewhere,
    NoMemory,
}

// Checks that a hash lies in the region of the slot.
fn lies_in(slot: &Slot<u64, u64>, hash: u64) -> Result<(), Away>
    ensures { OnOk result (LiesInBin hash slot.now) }
{
    let (table, index) = slot.at();
    if bin_index(hash, table) == index {
        Ok(())
    } else {
        Err(Away::Elsewhere)
    }
}

// Returns the result of a step, if the bin is live.
fn here<T, B: Drop>(answer: Answer<T, B>) -> Result<T, Away> {
    match answer {
        Answer::Here(value) => Ok(value),
        Answer::Moved(_) => Err(Away::Moved),
        Answer::Unborn(_) => Err(Away::Unborn),
    }
}

// Returns the result of a step that may run out of memory, if the bin is live.
fn given<T, B: Drop, E: Drop>(answer: Result<Answer<T, B>, E>) -> Result<T, Away> {
    match answer {
        Ok(answer) => here(answer),
        Err(_) => Err(Away::NoMemory),
    }
}

// Returns the value of an entry and its write number.
fn find(slot: &Slot<u64, u64>, hash: u64, key: u64) -> Result<Option<(u64, u64)>, Away> {
    lies_in(slot, hash)?;
    let entry = here(slot.find(hash, &key))?;
    Ok(entry.map(|entry| (*entry.value, entry.number)))
}

fn next_after(
    slot: &Slot<u64, u64>,
    bound: Option<(u64, &u64)>,
) -> Result<Option<(u64, u64)>, Away> {
    let entry = here(slot.next_after(bound))?;
    Ok(entry.map(|entry| (*entry.value, entry.number)))
}

// Writes a pair, and returns the value that the key had, and whether a larger table is asked for.
fn put(
    alloc: Global,
    slot: &mut Slot<u64, u64>,
    hash: u64,
    key: u64,
    value: u64,
) -> Result<(Option<u64>, bool), Away> {
    lies_in(slot, hash)?;
    match given(slot.put(alloc, hash, key, Given::Plain(value)))? {
        Inserted::New { asks_for_growth } => Ok((None, asks_for_growth)),
        Inserted::Replaced(replaced) => Ok((Some(*replaced.old), false)),
    }
}

// Adds a pair, and returns its value. If the key is present, returns the value that it has and the value that was not inserted.
fn put_absent(
    alloc: Global,
    slot: &mut Slot<u64, u64>,
    hash: u64,
    key: u64,
    value: u64,
) -> Result<Result<u64, (u64, u64)>, Away> {
    lies_in(slot, hash)?;
    match given(slot.put_absent(alloc, hash, key, value))? {
        Added::New { value, .. } => Ok(Ok(*value)),
        Added::Present { error, .. } => Ok(Err((*error.current, error.not_inserted))),
    }
}

// Halves the value of a key by a computation, and returns what the computation did.
fn halve(
    alloc: Global,
    slot: &mut Slot<u64, u64>,
    hash: u64,
    key: u64,
) -> Result<Option<Option<u64>>, Away> {
    lies_in(slot, hash)?;
    let half = |_: &u64, value: &u64| Some(*value / 2);
    match given(slot.compute(alloc, hash, &key, half))? {
        Computed::Absent(_) => Ok(None),
        Computed::Removed(_) => Ok(Some(None)),
        Computed::Changed { new, .. } => Ok(Some(Some(*new))),
    }
}

// Runs a computation that gives no value, and returns whether it removed the pair.
fn remove(alloc: Global, slot: &mut Slot<u64, u64>, hash: u64, key: u64) -> Result<bool, Away> {
    lies_in(slot, hash)?;
    match given(slot.compute(alloc, hash, &key, NoFn))? {
        Computed::Removed(_) => Ok(true),
        _ => Ok(false),
    }
}

fn take(slot: &mut Slot<u64, u64>, hash: u64, key: u64) -> Result<Option<(u64, u64)>, Away> {
    lies_in(slot, hash)?;
    let entry = here(slot.take(hash, &key))?;
    Ok(entry.map(|entry| (*entry.value, entry.number)))
}

fn take_if(
    slot: &mut Slot<u64, u64>,
    hash: u64,
    key: u64,
    number: u64,
) -> Result<Option<(u64, u64)>, Away> {
    lies_in(slot, hash)?;
    let entry = here(slot.take_if(hash, &key, number))?;
    Ok(entry.map(|entry| (*entry.value, entry.number)))
}

// Returns whether a move was done (0), had been done (1) or clashed (2), and the slot that its receipt names, if there is one.
fn moved(answer: MoveAnswer) -> (u64, Option<(u8, usize)>) {
    match answer {
        MoveAnswer::Done(receipt) => (0, Some(receipt.at())),
        MoveAnswer::Already(receipt) => (1, Some(receipt.at())),
        MoveAnswer::Clash => (2, None),
    }
}

#[test]
fn writes_are_numbered_up_to_the_greatest(rt: HostRuntime) {
    let rt = &rt;
    let mut slot: Slot<u64, u64> = Slot::live_at(4, 5, Bin::new(), u64::MAX - 2);
    assert_same(rt, put(rt.alloc(), &mut slot, 5, 5, 1), Ok((None, false)));
    assert_same(rt, find(&slot, 5, 5), Ok(Some((1, u64::MAX - 1))));
    assert_same(rt, take_if(&mut slot, 5, 5, u64::MAX - 2), Ok(None));
    assert_same(
        rt,
        take_if(&mut slot, 5, 5, u64::MAX - 1),
        Ok(Some((1, u64::MAX - 1))),
    );
    assert_same(rt, find(&slot, 5, 5), Ok(None));
}

// At the greatest number the count stays, and no conditional removal takes the pair.
#[test]
fn the_greatest_number_is_never_taken_on_condition(rt: HostRuntime) {
    let rt = &rt;
    let mut slot: Slot<u64, u64> = Slot::live_at(4, 5, Bin::new(), u64::MAX - 1);
    assert_same(rt, put(rt.alloc(), &mut slot, 5, 5, 1), Ok((None, false)));
    assert_same(rt, find(&slot, 5, 5), Ok(Some((1, u64::MAX))));
    assert_same(rt, take_if(&mut slot, 5, 5, u64::MAX), Ok(None));
    assert_same(
        rt,
        put(rt.alloc(), &mut slot, 5, 5, 2),
        Ok((Some(1), false)),
    );
    assert_same(rt, find(&slot, 5, 5), Ok(Some((2, u64::MAX))));
    assert_same(rt, take(&mut slot, 5, 5), Ok(Some((2, u64::MAX))));
}

// A function that makes this of any pair.
#[derive(Clone, Copy)]
struct Says(Verdict<u64>);

impl ComputeFn<u64, u64> for Says {
    ghost can_change = { λ _. ⊤ };

    ghost never_keeps = { λ f. f.0 ≡ Keep → ⊥ };

    ghost changes = { λ f _ _ v. v ≡ f.0 };

    fn change<'a>(self, _key: &'a u64, _value: Option<&'a u64>) -> Verdict<u64> {
        self.0
    }
}

// What an alteration did, with the numbers in the `Arc`s.
#[derive(Clone, Copy, Debug, PartialEq, Eq)]
enum Did {
    NotAdded,
    Added(u64, bool),
    Kept,
    Removed(u64),
    Changed(u64, u64),
}

fn what_was_done(altered: Altered<u64, u64, Global>) -> Did {
    match altered {
        Altered::Absent => Did::NotAdded,
        Altered::Added {
            value,
            asks_for_growth,
        } => Did::Added(*value, asks_for_growth),
        Altered::Kept => Did::Kept,
        Altered::Removed(entry) => Did::Removed(*entry.value),
        Altered::Changed { new, old } => Did::Changed(*new, *old),
    }
}

// Alters the pair of a key. Returns what was done, and whether the key came back.
fn alter(
    alloc: Global,
    slot: &mut Slot<u64, u64>,
    key: u64,
    verdict: Verdict<u64>,
) -> Result<(Did, bool), Away> {
    lies_in(slot, key)?;
    let (altered, back) = given(slot.alter(alloc, key, key, Says(verdict)))?;
    Ok((what_was_done(altered), back == Some(key)))
}

// Alters the pair of a key if it is present. Returns what was done, or `None` if the function was not called.
fn alter_present(
    alloc: Global,
    slot: &mut Slot<u64, u64>,
    key: u64,
    verdict: Verdict<u64>,
) -> Result<Option<Did>, Away> {
    lies_in(slot, key)?;
    let altered = given(slot.alter_present(alloc, key, &key, Says(verdict)))?;
    Ok(altered.ok().map(|altered| what_was_done(altered)))
}

#[test]
fn alterations_at_a_live_bin(rt: HostRuntime) {
    let mut slot: Slot<u64, u64> = Slot::live(4, 3, Bin::new());
    for (verdict, did, back) in [
        (Verdict::Keep, Did::NotAdded, true),
        (Verdict::Remove, Did::NotAdded, true),
        (Verdict::Set(10), Did::Added(10, false), false),
        (Verdict::Keep, Did::Kept, true),
        (Verdict::Set(11), Did::Changed(11, 10), true),
        (Verdict::Remove, Did::Removed(11), true),
    ] {
        let seen = alter(rt.alloc(), &mut slot, 3, verdict);
        assert_same(&rt, seen, Ok((did, back)));
    }
}

#[test]
fn alterations_of_a_present_pair(rt: HostRuntime) {
    let rt = &rt;
    let mut slot: Slot<u64, u64> = Slot::live(4, 3, Bin::new());
    let seen = alter_present(rt.alloc(), &mut slot, 3, Verdict::Set(9));
    assert_same(rt, seen, Ok(None));
    assert_same(rt, put(rt.alloc(), &mut slot, 3, 3, 10), Ok((None, false)));
    for (verdict, did) in [
        (Verdict::Keep, Did::Kept),
        (Verdict::Set(11), Did::Changed(11, 10)),
        (Verdict::Remove, Did::Removed(11)),
    ] {
        let seen = alter_present(rt.alloc(), &mut slot, 3, verdict);
        assert_same(rt, seen, Ok(Some(did)));
    }
}

#[test]
fn alterations_where_no_bin_is_live(rt: HostRuntime) {
    let mut slot: Slot<u64, u64> = Slot::unborn(4, 3);
    let seen = alter(rt.alloc(), &mut slot, 3, Verdict::Set(1));
    assert_same(&rt, seen, Err(Away::Unborn));
    let seen = alter_present(rt.alloc(), &mut slot, 3, Verdict::Set(1));
    assert_same(&rt, seen, Err(Away::Unborn));
}

// A live slot into which the key 3 was put, then its value was halved to 5, and then the key 19 was put: its writes have the numbers up to 3.
fn with_two_keys(rt: &impl Abort, alloc: Global) -> Slot<u64, u64> {
    let mut slot: Slot<u64, u64> = Slot::live(4, 3, Bin::new());
    assert_same(rt, put(alloc, &mut slot, 3, 3, 10), Ok((None, false)));
    assert_same(rt, halve(alloc, &mut slot, 3, 3), Ok(Some(Some(5))));
    assert_same(rt, put(alloc, &mut slot, 19, 19, 12), Ok((None, false)));
    slot
}

#[test]
fn insertions_at_a_live_bin(rt: HostRuntime) {
    let rt = &rt;
    let mut slot: Slot<u64, u64> = Slot::live(4, 3, Bin::new());
    assert_same(rt, slot.at(), (4, 3));
    let seen = put_absent(rt.alloc(), &mut slot, 3, 3, 10);
    assert_same(rt, seen, Ok(Ok(10)));
    let seen = put_absent(rt.alloc(), &mut slot, 3, 3, 11);
    assert_same(rt, seen, Ok(Err((10, 11))));
    assert_same(rt, find(&slot, 3, 3), Ok(Some((10, 1))));
}

#[test]
fn reads_at_a_live_bin(rt: HostRuntime) {
    let rt = &rt;
    let mut slot = with_two_keys(rt, rt.alloc());
    assert_same(rt, halve(rt.alloc(), &mut slot, 35, 35), Ok(None));
    assert_same(rt, find(&slot, 3, 3), Ok(Some((5, 2))));
    assert_same(rt, next_after(&slot, None), Ok(Some((5, 2))));
    assert_same(rt, next_after(&slot, Some((3, &3))), Ok(Some((12, 3))));
    assert_same(rt, next_after(&slot, Some((19, &19))), Ok(None));
}

#[test]
fn removals_at_a_live_bin(rt: HostRuntime) {
    let rt = &rt;
    let mut slot = with_two_keys(rt, rt.alloc());
    assert_same(rt, remove(rt.alloc(), &mut slot, 3, 3), Ok(true));
    assert_same(rt, take(&mut slot, 3, 3), Ok(None));
    assert_same(rt, here(slot.wipe()), Ok(1));
    assert_same(rt, here(slot.wipe()), Ok(0));
    let seen = put(rt.alloc(), &mut slot, 3, 3, 13);
    assert_same(rt, seen, Ok((None, false)));
    assert_same(rt, find(&slot, 3, 3), Ok(Some((13, 4))));
}

#[test]
fn steps_where_no_bin_is_yet(rt: HostRuntime) {
    let rt = &rt;
    let mut slot: Slot<u64, u64> = Slot::unborn(4, 3);
    match slot
        .put(rt.alloc(), 3, 7, Given::Plain(8))
        .ok()
        .expect(rt, "memory for the pair")
    {
        Answer::Unborn((key, Given::Plain(value))) => assert_same(rt, (key, value), (7, 8)),
        _ => panic!(rt; "no bin is there"),
    }
    assert_same(rt, slot.at(), (4, 3));
    assert_same(rt, slot.is_live(), false);
    assert_same(rt, find(&slot, 3, 3), Err(Away::Unborn));
    assert_same(rt, next_after(&slot, None), Err(Away::Unborn));
    assert_same(rt, put(rt.alloc(), &mut slot, 3, 3, 1), Err(Away::Unborn));
    assert_same(
        rt,
        put_absent(rt.alloc(), &mut slot, 3, 3, 1),
        Err(Away::Unborn),
    );
    assert_same(rt, remove(rt.alloc(), &mut slot, 3, 3), Err(Away::Unborn));
    assert_same(rt, take(&mut slot, 3, 3), Err(Away::Unborn));
    assert_same(rt, take_if(&mut slot, 3, 3, 1), Err(Away::Unborn));
    assert_same(rt, here(slot.wipe()), Err(Away::Unborn));
}

// A live slot of the table 4 with the keys 3, 19 and 35, each its own value.
fn with_three_keys(rt: &impl Abort, alloc: Global) -> Slot<u64, u64> {
    let mut slot: Slot<u64, u64> = Slot::live(4, 3, Bin::new());
    for key in [3, 19, 35] {
        let seen = put(alloc, &mut slot, key, key, key);
        assert_same(rt, seen, Ok((None, false)));
    }
    slot
}

// Such a slot, and the two halves into which it has moved.
fn halves(rt: &impl Abort, alloc: Global) -> (Slot<u64, u64>, Slot<u64, u64>, Slot<u64, u64>) {
    let mut slot = with_three_keys(rt, alloc);
    let mut low: Slot<u64, u64> = Slot::unborn(5, 3);
    let mut high: Slot<u64, u64> = Slot::unborn(5, 19);
    let seen = moved(slot.move_into(&mut low, &mut high));
    assert_same(rt, seen, (0, Some((4, 3))));
    (slot, low, high)
}

#[test]
fn a_bin_moves_into_no_other_slots(rt: HostRuntime) {
    let rt = &rt;
    let mut slot = with_three_keys(rt, rt.alloc());
    let mut low: Slot<u64, u64> = Slot::unborn(5, 3);
    let mut high: Slot<u64, u64> = Slot::unborn(5, 19);
    let mut other: Slot<u64, u64> = Slot::unborn(5, 20);
    assert_same(rt, moved(slot.move_into(&mut high, &mut low)), (2, None));
    assert_same(rt, moved(slot.move_into(&mut low, &mut other)), (2, None));
    assert_same(rt, moved(low.move_into(&mut slot, &mut high)), (2, None));
    let seen = moved(slot.move_into(&mut low, &mut high));
    assert_same(rt, seen, (0, Some((4, 3))));
}

#[test]
fn a_bin_that_has_moved_is_away(rt: HostRuntime) {
    let rt = &rt;
    let (mut slot, mut low, mut high) = halves(rt, rt.alloc());
    let seen = moved(slot.move_into(&mut low, &mut high));
    assert_same(rt, seen, (1, Some((4, 3))));
    assert_same(rt, (slot.is_live(), low.is_live()), (false, true));
    assert_same(rt, find(&slot, 3, 3), Err(Away::Moved));
    assert_same(rt, put(rt.alloc(), &mut slot, 3, 3, 0), Err(Away::Moved));
    assert_same(rt, here(slot.wipe()), Err(Away::Moved));
}

#[test]
fn a_bin_moves_into_its_halves(rt: HostRuntime) {
    let rt = &rt;
    let (_slot, low, mut high) = halves(rt, rt.alloc());
    assert_same(rt, find(&low, 3, 3), Ok(Some((3, 1))));
    assert_same(rt, find(&low, 35, 35), Ok(Some((35, 3))));
    assert_same(rt, find(&high, 19, 19), Ok(Some((19, 2))));
    let seen = put(rt.alloc(), &mut high, 19, 19, 0);
    assert_same(rt, seen, Ok((Some(19), false)));
    assert_same(rt, find(&high, 19, 19), Ok(Some((0, 4))));
    assert_same(rt, next_after(&low, None), Ok(Some((3, 1))));
}

#[test]
fn a_half_that_has_a_bin_is_not_moved_into(rt: HostRuntime) {
    let rt = &rt;
    let mut slot: Slot<u64, u64> = Slot::live(4, 3, Bin::new());
    let mut low: Slot<u64, u64> = Slot::live(5, 3, Bin::new());
    let mut high: Slot<u64, u64> = Slot::unborn(5, 19);
    assert_same(rt, put(rt.alloc(), &mut slot, 3, 3, 1), Ok((None, false)));
    assert_same(rt, moved(slot.move_into(&mut low, &mut high)), (2, None));
    assert_same(rt, find(&slot, 3, 3), Ok(Some((1, 1))));
    assert_same(rt, find(&low, 3, 3), Ok(None));
    assert_same(rt, find(&high, 19, 19), Err(Away::Unborn));
}

// The ninth entry of a list asks for a larger table if the table has fewer than 64 bins, and no other entry does.
#[test]
fn the_ninth_entry_asks_for_growth(rt: HostRuntime) {
    let rt = &rt;
    let mut small: Slot<u64, u64> = Slot::live(5, 3, Bin::new());
    let mut large: Slot<u64, u64> = Slot::live(6, 3, Bin::new());
    for key in 0u64..12 {
        let asks = key == 8;
        let in_small = put(rt.alloc(), &mut small, 3, key, 0);
        let in_large = put(rt.alloc(), &mut large, 3, key, 0);
        let wanted = (key, Ok((None, asks)), Ok((None, false)));
        assert_same(rt, (key, in_small, in_large), wanted);
    }
    assert_same(
        rt,
        put(rt.alloc(), &mut small, 3, 8, 1),
        Ok((Some(0), false)),
    );
    assert_same(rt, here(small.wipe()), Ok(12));
}

// So no two holders can have the receipt of one move.
#[test]
fn a_receipt_cannot_be_cloned(rt: HostRuntime) {
    assert!(rt; CloneProbe::<u64>::is_there());
    assert!(rt; !CloneProbe::<Receipt>::is_there());
}
