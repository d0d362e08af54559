//! Two threads with a share each.

use super::{NumberShare, Numbers, assert_same, ends, reply, share_of};
use flurry_base::hash::{KeyHasher, LowHashBuilder};
use flurry_seq_recorded::{CloseFault, KeptReply, Recorded, Share};
use std::alloc::Allocator;
use std::process::Abort;
use std::sync::Wait;
use std::thread;
use std::thread::Threads;

// Makes 100 calls for a share: 49 times an insertion and a look-up, at keys that recur, and two look-ups of an absent key, which have
// one call and one reply whatever the other thread does. None where one is refused.
fn make_calls<S: KeyHasher<u64>, A: Allocator + Copy, R: Wait>(
    rt: &R,
    map: &Recorded<u64, u64, S, A>,
    mut share: Share<u64, u64, A>,
) -> Option<Share<u64, u64, A>> {
    for call in 0..49u64 {
        let key = call % 8;
        if map.insert(rt, &mut share, key, call).is_err() {
            return None;
        }
        if map.get(rt, &mut share, key).is_err() {
            return None;
        }
    }
    for _ in 0..2u32 {
        if map.get(rt, &mut share, 99).is_err() {
            return None;
        }
    }
    Some(share)
}

// Makes 100 calls in each of two threads, for a share each.
fn make_calls_in_threads<
    S: KeyHasher<u64> + Send + Sync,
    A: Allocator + Copy + Send + Sync,
    R: Threads + Wait + Sync,
>(
    rt: &R,
    map: &Recorded<u64, u64, S, A>,
    first: Share<u64, u64, A>,
    second: Share<u64, u64, A>,
) -> (Option<Share<u64, u64, A>>, Option<Share<u64, u64, A>>) {
    thread::join(
        rt,
        move || make_calls(rt, map, first),
        move || make_calls(rt, map, second),
    )
}

// Returns the two shares of a map, each with the calls of one thread.
fn shares_of_threads<R: Threads + Wait + Sync + Abort>(
    rt: &R,
    map: &Numbers,
) -> (NumberShare, NumberShare) {
    let first = share_of(rt, map);
    let second = share_of(rt, map);
    let (first, second) = make_calls_in_threads(rt, map, first, second);
    (
        first.expect(rt, "no call was refused"),
        second.expect(rt, "no call was refused"),
    )
}

#[test]
fn honest_shares_close(rt: HostRuntime) {
    let map = Recorded::with_hasher(rt.alloc(), LowHashBuilder);
    let (first, second) = shares_of_threads(&rt, &map);
    ends(&rt, map, [first, second], Ok((200, 8, Some(47))));
}

#[test]
fn a_share_of_a_thread_is_missing(rt: HostRuntime) {
    let map = Recorded::with_hasher(rt.alloc(), LowHashBuilder);
    let (first, _) = shares_of_threads(&rt, &map);
    ends(&rt, map, [first], Err(CloseFault::SharesDiffer));
}

#[test]
fn another_reply_to_a_thread(rt: HostRuntime) {
    let rt = &rt;
    let map = Recorded::with_hasher(rt.alloc(), LowHashBuilder);
    let (mut first, second) = shares_of_threads(rt, &map);
    let place = first.receipts().get(40).map_or(0, |receipt| receipt.place);
    let damaged = first.replace_receipt(40, place, KeptReply::Contains(true));
    assert_same(rt, damaged, true);
    ends(rt, map, [first, second], Err(CloseFault::ReceiptsDiffer));
}

#[test]
fn a_share_of_another_map_beside_threads(rt: HostRuntime) {
    let rt = &rt;
    let map = Recorded::with_hasher(rt.alloc(), LowHashBuilder);
    let other = Recorded::with_hasher(rt.alloc(), LowHashBuilder);
    let (first, second) = shares_of_threads(rt, &map);
    let third = share_of(rt, &other);
    ends(
        rt,
        map,
        [first, second, third],
        Err(CloseFault::SharesDiffer),
    );
}

// The place of a receipt.
fn place_of(share: &NumberShare, at: usize) -> usize {
    share.receipts().get(at).map_or(0, |receipt| receipt.place)
}

// Gives one of a share's last two receipts, which have one reply, this place.
fn set_place(rt: &impl Abort, share: &mut NumberShare, at: usize, place: usize) {
    assert_same(rt, share.replace_receipt(at, place, reply(None)), true);
}

#[test]
fn one_place_twice_in_a_thread(rt: HostRuntime) {
    let rt = &rt;
    let map = Recorded::with_hasher(rt.alloc(), LowHashBuilder);
    let (mut first, second) = shares_of_threads(rt, &map);
    let place = place_of(&first, 98);
    set_place(rt, &mut first, 99, place);
    ends(rt, map, [first, second], Err(CloseFault::PlacesDiffer));
}

#[test]
fn places_of_a_thread_out_of_order(rt: HostRuntime) {
    let rt = &rt;
    let map = Recorded::with_hasher(rt.alloc(), LowHashBuilder);
    let (mut first, second) = shares_of_threads(rt, &map);
    let (place, last) = (place_of(&first, 98), place_of(&first, 99));
    set_place(rt, &mut first, 98, last);
    set_place(rt, &mut first, 99, place);
    ends(rt, map, [first, second], Err(CloseFault::PlacesDiffer));
}
