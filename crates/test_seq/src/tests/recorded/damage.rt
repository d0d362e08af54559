//! Shares that fit their map, and shares that were damaged.

use super::{NumberShare, Numbers, assert_same, end_of, ends, reply, share_of};
use flurry_base::hash::LowHashBuilder;
use flurry_seq_recorded::CloseFault;
use std::process::Abort;
use std::sync::Wait;

// Sets the value of the key 7, and checks the value that it had.
fn insert<R: Wait + Abort>(
    rt: &R,
    map: &Numbers,
    share: &mut NumberShare,
    value: u64,
    old: Option<u64>,
) {
    assert_same(rt, map.insert(rt, share, 7, value), Ok(reply(old)));
}

// Looks up the key 7, and checks its value.
fn look<R: Wait + Abort>(rt: &R, map: &Numbers, share: &mut NumberShare, value: u64) {
    assert_same(rt, map.get(rt, share, 7), Ok(reply(Some(value))));
}

// Makes `insert(7, 0)` for a first share, `insert(7, 1)` for a second one, and `get(7)` for the first one again.
fn three_calls<R: Wait + Abort>(rt: &R, map: &Numbers) -> (NumberShare, NumberShare) {
    let mut first = share_of(rt, map);
    let mut second = share_of(rt, map);
    insert(rt, map, &mut first, 0, None);
    insert(rt, map, &mut second, 1, Some(0));
    look(rt, map, &mut first, 1);
    (first, second)
}

// Makes `insert(7, 0)` and then `get(7)` twice, all for one share.
fn insert_and_look_twice<R: Wait + Abort>(rt: &R, map: &Numbers) -> NumberShare {
    let mut share = share_of(rt, map);
    insert(rt, map, &mut share, 0, None);
    look(rt, map, &mut share, 0);
    look(rt, map, &mut share, 0);
    share
}

#[test]
fn two_shares_fit(rt: HostRuntime) {
    let map = Numbers::with_hasher(rt.alloc(), LowHashBuilder);
    let (first, second) = three_calls(&rt, &map);
    ends(&rt, map, [second, first], Ok((3, 1, Some(1))));
}

#[test]
fn three_shares_fit(rt: HostRuntime) {
    let rt = &rt;
    let map = Numbers::with_hasher(rt.alloc(), LowHashBuilder);
    let (first, second) = three_calls(rt, &map);
    let mut third = share_of(rt, &map);
    look(rt, &map, &mut third, 1);
    assert_same(
        rt,
        [first.number(), second.number(), third.number()],
        [0, 1, 2],
    );
    ends(rt, map, [third, first, second], Ok((4, 1, Some(1))));
}

// Returns 200 shares of a map, each of which inserted its number at the key 7.
fn many_shares<R: Wait + Abort + AllocGlobal>(rt: &R, map: &Numbers) -> Vec<NumberShare> {
    let mut shares = Vec::new(rt.alloc());
    for number in 0..200u64 {
        let mut share = share_of(rt, map);
        insert(rt, map, &mut share, number, number.checked_sub(1));
        shares.push(share).expect(rt, "memory for the shares");
    }
    shares
}

#[test]
fn many_shares_fit(rt: HostRuntime) {
    let map = Numbers::with_hasher(rt.alloc(), LowHashBuilder);
    let shares = many_shares(&rt, &map);
    assert_same(&rt, end_of(map, shares), Ok((200, 1, Some(199))));
}

#[test]
fn a_share_is_missing(rt: HostRuntime) {
    let map = Numbers::with_hasher(rt.alloc(), LowHashBuilder);
    let (first, _) = three_calls(&rt, &map);
    ends(&rt, map, [first], Err(CloseFault::SharesDiffer));
}

// A share that made no call belongs to the map as the other shares do.
#[test]
fn a_share_without_a_receipt_is_missing(rt: HostRuntime) {
    let rt = &rt;
    let map = Numbers::with_hasher(rt.alloc(), LowHashBuilder);
    let (first, second) = three_calls(rt, &map);
    let _ = share_of(rt, &map);
    ends(rt, map, [first, second], Err(CloseFault::SharesDiffer));
}

#[test]
fn a_share_of_another_map(rt: HostRuntime) {
    let rt = &rt;
    let map = Numbers::with_hasher(rt.alloc(), LowHashBuilder);
    let other = Numbers::with_hasher(rt.alloc(), LowHashBuilder);
    let (first, second) = three_calls(rt, &map);
    let third = share_of(rt, &other);
    ends(
        rt,
        map,
        [first, second, third],
        Err(CloseFault::SharesDiffer),
    );
}

#[test]
fn another_reply(rt: HostRuntime) {
    let rt = &rt;
    let map = Numbers::with_hasher(rt.alloc(), LowHashBuilder);
    let (mut first, second) = three_calls(rt, &map);
    assert_same(rt, first.replace_receipt(1, 2, reply(None)), true);
    ends(rt, map, [first, second], Err(CloseFault::ReceiptsDiffer));
}

#[test]
fn one_place_twice(rt: HostRuntime) {
    let rt = &rt;
    let map = Numbers::with_hasher(rt.alloc(), LowHashBuilder);
    let mut share = insert_and_look_twice(rt, &map);
    assert_same(rt, share.replace_receipt(2, 1, reply(Some(0))), true);
    ends(rt, map, [share], Err(CloseFault::PlacesDiffer));
}

#[test]
fn places_out_of_order(rt: HostRuntime) {
    let rt = &rt;
    let map = Numbers::with_hasher(rt.alloc(), LowHashBuilder);
    let mut share = insert_and_look_twice(rt, &map);
    assert_same(rt, share.replace_receipt(1, 2, reply(Some(0))), true);
    assert_same(rt, share.replace_receipt(2, 1, reply(Some(0))), true);
    ends(rt, map, [share], Err(CloseFault::PlacesDiffer));
}

#[test]
fn no_receipt_to_replace(rt: HostRuntime) {
    let rt = &rt;
    let map = Numbers::with_hasher(rt.alloc(), LowHashBuilder);
    let mut share = insert_and_look_twice(rt, &map);
    assert_same(rt, share.replace_receipt(3, 0, reply(None)), false);
    ends(rt, map, [share], Ok((3, 1, Some(0))));
}
