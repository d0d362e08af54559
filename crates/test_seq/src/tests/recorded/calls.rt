//! Each call of a recorded map, and the texts of its faults.

use super::{NumberShare, Numbers, assert_same, reply, share_of};
use flurry_base::hash::LowHashBuilder;
use flurry_seq_recorded::{Book, CloseFault, KeptCall, KeptReply};
use std::process::Abort;
use std::sync::Wait;

// Makes the calls that look up, where the key 7 has the value 0.
fn look<R: Wait + Abort>(rt: &R, map: &Numbers, share: &mut NumberShare) {
    assert_same(rt, map.get(rt, share, 7), Ok(reply(Some(0))));
    let pair = map.get_key_value(rt, share, 7);
    assert_same(rt, pair, Ok(KeptReply::Pair(Some((7, 0)))));
    let found = map.contains_key(rt, share, 8);
    assert_same(rt, found, Ok(KeptReply::Contains(false)));
}

#[test]
fn calls_that_look(rt: HostRuntime) {
    let rt = &rt;
    let map = &Numbers::with_hasher(rt.alloc(), LowHashBuilder);
    let mut share = share_of(rt, map);
    assert_same(rt, map.insert(rt, &mut share, 7, 0), Ok(reply(None)));
    look(rt, map, &mut share);
    assert_same(rt, (share.receipts().len(), share.number()), (4, 0));
}

// Makes the calls that write, at a key that is absent before.
fn write<R: Wait + Abort>(rt: &R, map: &Numbers, share: &mut NumberShare) {
    assert_same(rt, map.try_insert(rt, share, 7, 0), Ok(KeptReply::New(0)));
    let wanted = KeptReply::Exists {
        current: 0,
        not_inserted: 1,
    };
    assert_same(rt, map.try_insert(rt, share, 7, 1), Ok(wanted));
    let pair = map.remove_entry(rt, share, 7);
    assert_same(rt, pair, Ok(KeptReply::Pair(Some((7, 0)))));
    assert_same(rt, map.remove(rt, share, 7), Ok(reply(None)));
}

#[test]
fn calls_that_write(rt: HostRuntime) {
    let map = &Numbers::with_hasher(rt.alloc(), LowHashBuilder);
    let mut share = share_of(&rt, map);
    write(&rt, map, &mut share);
}

#[test]
fn calls_of_a_book(rt: HostRuntime) {
    let rt = &rt;
    let mut book: Book<u64, u64, LowHashBuilder> = Book::new(rt.alloc(), LowHashBuilder);
    assert_same(rt, (book.share(), book.share()), (Ok(0), Ok(1)));
    assert_same(rt, book.call(KeptCall::Insert(7, 0)), Ok((0, reply(None))));
    assert_same(rt, book.call(KeptCall::Get(7)), Ok((1, reply(Some(0)))));
}

#[test]
fn texts_of_faults(rt: HostRuntime) {
    let rt = &rt;
    let text = format!(in rt.alloc(); "{}", CloseFault::PlacesDiffer).expect(rt, "memory");
    let wanted = "the places of a share do not ascend, or two receipts name one place";
    assert_same(rt, text.as_str() == wanted, true);
    assert_same(rt, CloseFault::SharesDiffer.number(), 1);
    assert_same(rt, CloseFault::NoMemory.number(), 4);
}
