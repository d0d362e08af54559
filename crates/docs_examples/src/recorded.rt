//! Callers of the recorded map.
ghost use Rattle.std.specs.Prelude.{◌≡◌, ◌≢◌, ◌+◌, ℕ, [], length, true, false, None, IfOk, OnOk, OnErr};
ghost use Rattle.std.specs.Ordering.{nat_cmp};
ghost use Rattle.flurry.specs.Closing.{PlacesStand, all_receipts};
ghost use Rattle.flurry.specs.Histories.{Replays};

use flurry::hash::LowHashBuilder;
use flurry::recorded::{
    Book, CloseFault, Closed, KeptCall, KeptEntry, KeptReply, Receipt, Recorded, Share,
};
use std::alloc::{AllocError, Global};
use std::sync::Wait;

type Map = Recorded<u64, u64, LowHashBuilder>;

/// Makes one call, which adds one receipt to the share.
pub fn record<R: Wait>(
    rt: &R,
    map: &Map,
    share: &mut Share<u64, u64>,
    key: u64,
    value: u64,
) -> Result<(), AllocError>
    ensures ok { OnOk result (length share.new.receipts ≡ length share.old.receipts + 1) }
    ensures err { OnErr result (share.new ≡ share.old) }
{
    map.insert(rt, share, key, value)?;
    Ok(())
}

/// Looks up a key. The share keeps its number.
pub fn look<R: Wait>(
    rt: &R,
    map: &Map,
    share: &mut Share<u64, u64>,
    key: u64,
) -> Result<KeptReply<u64, u64>, AllocError>
    ensures { share.new.number ≡ share.old.number }
{
    map.get(rt, share, key)
}

/// Returns a new share, which has no receipt.
pub fn join_in<R: Wait>(rt: &R, map: &Map) -> Result<Share<u64, u64>, AllocError>
    ensures { IfOk result (λ s. s.receipts ≡ []) }
{
    map.share(rt)
}

/// Closes a map. The history replays to the map, and has as many calls as the shares have receipts.
pub fn audit(
    map: Map,
    shares: Vec<Share<u64, u64>>,
) -> Result<Closed<u64, u64, LowHashBuilder>, CloseFault>
    ensures replays { IfOk result (λ c. Replays nat_cmp c.history.items c.map.pairs) }
    ensures calls { IfOk result (λ c. length (all_receipts shares.items) ≡ length c.history.items) }
    ensures places { IfOk result (λ c. PlacesStand shares.items) }
{
    map.close(shares)
}

/// Makes all calls of one caller, and returns `true` if the map could be closed.
pub fn session<R: Wait>(rt: &R, alloc: Global) -> Result<bool, AllocError> {
    let map: Map = Recorded::with_hasher(alloc, LowHashBuilder);
    let mut share = map.share(rt)?;
    map.insert(rt, &mut share, 1, 10)?;
    map.get(rt, &mut share, 1)?;
    let mut shares = Vec::new(alloc);
    shares.push(share)?;
    Ok(map.close(shares).is_ok())
}

/// Returns the place of a caller's last call in the history, or `None` if the caller has made none.
pub fn last_place(share: &Share<u64, u64>) -> Option<usize>
    ensures { share.now.receipts ≡ [] → result ≡ None }
{
    let last: &Receipt<u64, u64> = share.receipts().last()?;
    Some(last.place)
}

/// Returns the number of calls in a history, and the number of pairs in the map that they left.
pub fn sizes(closed: &Closed<u64, u64, LowHashBuilder>) -> (usize, usize)
    ensures { result ≡ (length closed.now.history.items, length closed.now.map.pairs) }
{
    (closed.history.len(), closed.map.len())
}

/// Returns `true` if a fault says that the shares are damaged.
pub fn is_damage(fault: CloseFault) -> bool
    ensures { result ≡ true → fault ≢ CloseFault.NoMemory }
{
    match fault {
        CloseFault::SharesDiffer | CloseFault::ReceiptsDiffer | CloseFault::PlacesDiffer => true,
        CloseFault::NoMemory => false,
    }
}

/// Returns `true` if an entry of a history is an insertion of a new key.
pub fn is_new_key(entry: &KeptEntry<u64, u64>) -> bool
    ensures { (k : ℕ) → entry.now.call ≡ KeptCall.Get k → result ≡ false }
{
    match (entry.call, entry.reply) {
        (KeptCall::Insert(_, _), KeptReply::Value(None)) => true,
        _ => false,
    }
}

/// Returns the place of the first call of a book.
pub fn first_in_book(alloc: Global, key: u64, value: u64) -> Result<usize, AllocError>
    ensures { IfOk result (λ place. place ≡ 0) }
{
    let mut book = Book::new(alloc, LowHashBuilder);
    let (place, _reply) = book.call(KeptCall::Insert(key, value))?;
    Ok(place)
}
