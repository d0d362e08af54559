//! Checks whether shares fit a book. Each check is linear in the receipts and the history.
ghost use Rattle.std.specs.Prelude.{◌≡◌, ◌<◌, ◌++◌, ◌∷◌, [], List, ℕ, length, map, All, Decides, MatchBool, OnOk, IfOk, IfErr};
ghost use Rattle.std.specs.List.{list_all};
ghost use Rattle.std.specs.List.Sorted.{IsStrictlyIncreasing};
ghost use Rattle.flurry_seq_recorded.specs.Closing.{AllStand, HasFault, AreNumbered, SharesStand, PlacesStand, all_receipts, places, is_kept};
ghost use Rattle.flurry_seq_recorded.specs.Marks.{AreMarked, AreOnce};
ghost use Rattle.flurry_seq_recorded.specs.declared.closed.CloseFault.TheVariants.{NoMemory};

use crate::closed::CloseFault;
use crate::kept::{KeptCall, KeptEntry};
use crate::share::{Receipt, Share};
use flurry_base::reply::KeptReply;
use std::alloc::Allocator;

// Returns the first fault of the shares that are handed back, or `Ok` if there is none. `given` is the number of shares that were given
// out.
pub(crate) fn first_fault<K: Copy + PartialEq, V: Copy + PartialEq, A: Allocator + Copy>(
    alloc: A,
    given: usize,
    history: &[KeptEntry<K, V>],
    shares: &[Share<K, V, A>],
) -> Result<(), CloseFault>
    ensures ok { OnOk result (AllStand ⟦<KeptCall<K, V> as PartialEq>⟧.eq
        ⟦<KeptReply<K, V> as PartialEq>⟧.eq given history.now shares.now) }
    ensures err { IfErr result (HasFault ⟦<KeptCall<K, V> as PartialEq>⟧.eq
        ⟦<KeptReply<K, V> as PartialEq>⟧.eq given history.now shares.now) }
{
    if !shares_stand(alloc, given, history.len(), shares)? {
        return Err(CloseFault::SharesDiffer);
    }
    if !receipts_stand(history, shares) {
        return Err(CloseFault::ReceiptsDiffer);
    }
    if !places_stand(alloc, history.len(), shares)? {
        return Err(CloseFault::PlacesDiffer);
    }
    Ok(())
}

// Whether the shares are those that were given out, each once, and have as many receipts as there are calls.
fn shares_stand<K: Copy, V: Copy, A: Allocator + Copy>(
    alloc: A,
    given: usize,
    calls: usize,
    shares: &[Share<K, V, A>],
) -> Result<bool, CloseFault>
    ensures ok { IfOk result (λ b. Decides b (SharesStand given calls shares.now)) }
    ensures err { IfErr result (λ e. e ≡ NoMemory) }
{
    if shares.len() != given || !have_receipts(calls, shares) {
        return Ok(false);
    }
    are_numbered(alloc, shares)
}

// Whether the numbers of the shares are those below the number of shares, each once.
fn are_numbered<K: Copy, V: Copy, A: Allocator + Copy>(
    alloc: A,
    shares: &[Share<K, V, A>],
) -> Result<bool, CloseFault>
    ensures ok { IfOk result (λ b. Decides b (AreNumbered (length shares.now) shares.now)) }
    ensures err { IfErr result (λ e. e ≡ NoMemory) }
{
    let mut marks = new_marks(alloc, shares.len())?;
    Ok(mark_numbers(&mut marks, shares))
}

// Whether the number of receipts of all shares is `calls`.
fn have_receipts<K: Copy, V: Copy, A: Allocator>(calls: usize, shares: &[Share<K, V, A>]) -> bool
    ensures { Decides result (length (all_receipts shares.now) ≡ calls) }
{
    let mut left = calls;
    for share in shares {
        let made = share.receipts().len();
        if made > left {
            return false;
        }
        left -= made;
    }
    left == 0
}

// Whether the history has each receipt of all shares at its place.
fn receipts_stand<K: Copy + PartialEq, V: Copy + PartialEq, A: Allocator>(
    history: &[KeptEntry<K, V>],
    shares: &[Share<K, V, A>],
) -> bool
    ensures { result ≡ list_all (λ s. list_all (is_kept ⟦<KeptCall<K, V> as PartialEq>⟧.eq
        ⟦<KeptReply<K, V> as PartialEq>⟧.eq history.now) s.receipts) shares.now }
{
    shares.iter().all(|share| are_kept(history, share))
}

// Whether the history has each receipt of one share at its place.
fn are_kept<K: Copy + PartialEq, V: Copy + PartialEq, A: Allocator>(
    history: &[KeptEntry<K, V>],
    share: &Share<K, V, A>,
) -> bool
    ensures { result ≡ list_all (is_kept ⟦<KeptCall<K, V> as PartialEq>⟧.eq
        ⟦<KeptReply<K, V> as PartialEq>⟧.eq history.now) share.now.receipts }
{
    share
        .receipts()
        .iter()
        .all(|receipt| stands(history, receipt))
}

// Whether the history has one receipt at its place: the same call and the same reply.
fn stands<K: Copy + PartialEq, V: Copy + PartialEq>(
    history: &[KeptEntry<K, V>],
    receipt: &Receipt<K, V>,
) -> bool
    ensures { result ≡ is_kept ⟦<KeptCall<K, V> as PartialEq>⟧.eq
        ⟦<KeptReply<K, V> as PartialEq>⟧.eq history.now receipt.now }
{
    match history.get(receipt.place) {
        Some(entry) => entry.call == receipt.call && entry.reply == receipt.reply,
        None => false,
    }
}

// Whether the places of each share ascend, and no two receipts name one place. All places are below `calls`.
fn places_stand<K: Copy, V: Copy, A: Allocator + Copy>(
    alloc: A,
    calls: usize,
    shares: &[Share<K, V, A>],
) -> Result<bool, CloseFault>
    requires { All (λ r. r.place < calls) (all_receipts shares.now) }
    ensures ok { IfOk result (λ b. Decides b (PlacesStand shares.now)) }
    ensures err { IfErr result (λ e. e ≡ NoMemory) }
{
    if !all_ascend(shares) {
        return Ok(false);
    }
    let mut marks = new_marks(alloc, calls)?;
    Ok(mark_shares(&mut marks, shares))
}

// Whether the places of each share ascend.
fn all_ascend<K: Copy, V: Copy, A: Allocator>(shares: &[Share<K, V, A>]) -> bool
    ensures { Decides result (All (λ s. IsStrictlyIncreasing (places s.receipts)) shares.now) }
{
    for share in shares {
        if !ascend(share.receipts()) {
            return false;
        }
    }
    true
}

// Whether the places of these receipts ascend.
fn ascend<K: Copy, V: Copy>(receipts: &[Receipt<K, V>]) -> bool
    ensures { Decides result (IsStrictlyIncreasing (places receipts.now)) }
{
    for next in 1..receipts.len() {
        if receipts[next - 1].place >= receipts[next].place {
            return false;
        }
    }
    true
}

// A list of `count` places without a mark.
fn new_marks<A: Allocator>(alloc: A, count: usize) -> Result<Vec<bool, A>, CloseFault>
    ensures ok { IfOk result (λ m. AreMarked m.items [] × (length m.items ≡ count)) }
    ensures err { IfErr result (λ e. e ≡ NoMemory) }
{
    Vec::from_elem(alloc, false, count).map_err(|_| CloseFault::NoMemory)
}

// Marks the number of each share in `marks`, none of which is set at first. Returns whether each number has a place there and comes once.
fn mark_numbers<K: Copy, V: Copy, A: Allocator>(
    marks: &mut [bool],
    shares: &[Share<K, V, A>],
) -> bool
    ensures { AreMarked marks.old [] → Decides result
        (AreOnce (length marks.old) (map (λ s. s.number) shares.now)) }
{
    for share in shares {
        if !mark(marks, share.number()) {
            return false;
        }
    }
    true
}

// Marks the place of each receipt of each share in `marks`, none of which is set at first. Returns whether each place is there and comes
// once.
fn mark_shares<K: Copy, V: Copy, A: Allocator>(
    marks: &mut [bool],
    shares: &[Share<K, V, A>],
) -> bool
    ensures { AreMarked marks.old [] → Decides result
        (AreOnce (length marks.old) (places (all_receipts shares.now))) }
{
    for share in shares {
        if !mark_places(marks, share.receipts()) {
            return false;
        }
    }
    true
}

// Marks the place of each receipt in order, up to the first place that is not there or has a mark already. Returns whether there is no such
// place.
fn mark_places<K: Copy, V: Copy>(marks: &mut [bool], receipts: &[Receipt<K, V>]) -> bool
    ensures { (xs : List ℕ) → AreMarked marks.old xs → MatchBool result
        (AreMarked marks.new (xs ++ places receipts.now))
        ((ys : List ℕ) → ¬ AreOnce (length marks.old) (xs ++ places receipts.now ++ ys)) }
{
    for receipt in receipts {
        if !mark(marks, receipt.place) {
            return false;
        }
    }
    true
}

// Marks a place, if it is there and has no mark. Returns whether it did.
fn mark(marks: &mut [bool], place: usize) -> bool
    ensures { (xs : List ℕ) → AreMarked marks.old xs → MatchBool result
        (AreMarked marks.new (xs ++ place ∷ []))
        ((ys : List ℕ) → ¬ AreOnce (length marks.old) (xs ++ place ∷ [] ++ ys)) }
{
    if place >= marks.len() || marks[place] {
        return false;
    }
    marks[place] = true;
    true
}
