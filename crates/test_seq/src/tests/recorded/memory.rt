//! A call, a share and the end of a map when memory cannot be allocated.

use super::super::{assert_same_at, metered};
use flurry_base::hash::LowHashBuilder;
use flurry_seq_recorded::{Book, CloseFault, KeptCall, KeptReply, Recorded, Share};
use metered_alloc::MeteredAlloc;
use std::alloc::{Allocator, Global};
use std::process::Abort;
use std::sync::Wait;

// A recorded map of numbers, and a share of it. Their allocator is a parameter, because a proof over `&'static MeteredAlloc<Global>` unfolds
// it in each step.
type Numbers<A> = Recorded<u64, u64, LowHashBuilder, A>;

type NumberShare<A> = Share<u64, u64, A>;

type NumberCall = KeptCall<u64, u64>;

// More requests than any call makes.
const MAX_REQUESTS: u64 = 100;

// Returns a share of a map.
fn share_of<A: Allocator + Copy, R: Wait + Abort>(rt: &R, map: &Numbers<A>) -> NumberShare<A> {
    map.share(rt).expect(rt, "memory for the share")
}

// Returns a map of the pair (7, 0), with the share of the call that inserted it.
fn map_with_share<A: Allocator + Copy, R: Wait + Abort>(
    rt: &R,
    memory: A,
) -> (Numbers<A>, NumberShare<A>) {
    let map = Recorded::with_hasher(memory, LowHashBuilder);
    let mut share = share_of(rt, &map);
    let reply = map.insert(rt, &mut share, 7, 0);
    assert_same_at(rt, 0, reply, Ok(KeptReply::Value(None)));
    (map, share)
}

// What a call replied, or nothing where it was refused.
fn make<A: Allocator + Copy, R: Wait>(
    rt: &R,
    map: &Numbers<A>,
    share: &mut NumberShare<A>,
    call: NumberCall,
) -> Option<KeptReply<u64, u64>> {
    let reply = match call {
        KeptCall::Get(key) => map.get(rt, share, key),
        KeptCall::GetKeyValue(key) => map.get_key_value(rt, share, key),
        KeptCall::ContainsKey(key) => map.contains_key(rt, share, key),
        KeptCall::Insert(key, value) => map.insert(rt, share, key, value),
        KeptCall::TryInsert(key, value) => map.try_insert(rt, share, key, value),
        KeptCall::Remove(key) => map.remove(rt, share, key),
        KeptCall::RemoveEntry(key) => map.remove_entry(rt, share, key),
    };
    reply.ok()
}

// Returns a list of one share.
fn list_of<A: Allocator + Copy>(
    rt: &impl Abort,
    memory: A,
    share: NumberShare<A>,
) -> Vec<NumberShare<A>, A> {
    let mut list = Vec::new(memory);
    list.push(share).expect(rt, "memory for the list");
    list
}

// Closes a map with these shares, and returns the number of calls in its history, or `None` if it cannot be closed.
fn end<A: Allocator + Copy>(map: Numbers<A>, shares: Vec<NumberShare<A>, A>) -> Option<usize> {
    match map.close(shares) {
        Ok(closed) => Some(closed.history.len()),
        Err(_) => None,
    }
}

// Makes a call on a new map with the request numbered k refused, and returns whether that request was made. A call that is refused has no
// reply and no receipt, and the map ends without it.
fn call_is_refused<A: Allocator + Copy, R: Wait + Abort>(
    rt: &R,
    metered: &MeteredAlloc<Global>,
    memory: A,
    (call, wanted): (NumberCall, KeptReply<u64, u64>),
    k: u64,
) -> bool {
    let map = Recorded::with_hasher(memory, LowHashBuilder);
    let mut share = share_of(rt, &map);
    metered.refuse_at(k);
    let reply = make(rt, &map, &mut share, call);
    let refused = metered.was_refused();
    metered.refuse_nothing();
    let (wanted, calls) = if refused {
        (None, 0)
    } else {
        (Some(wanted), 1)
    };
    assert_same_at(
        rt,
        k,
        (call, reply, share.receipts().len()),
        (call, wanted, calls),
    );
    assert_same_at(rt, k, end(map, list_of(rt, memory, share)), Some(calls));
    refused
}

// Each request of a call is refused in turn.
fn refuse_each<A: Allocator + Copy, R: Wait + Abort>(
    rt: &R,
    metered: &MeteredAlloc<Global>,
    memory: A,
    row: (NumberCall, KeptReply<u64, u64>),
) {
    for k in 0..MAX_REQUESTS {
        if !call_is_refused(rt, metered, memory, row, k) {
            assert_same_at(rt, k, k > 0, true);
            return;
        }
    }
    panic!(rt; "it makes fewer requests");
}

#[test]
fn each_request_of_a_call(rt: HostRuntime) {
    let memory = metered(&rt, rt.alloc());
    for row in [
        (KeptCall::Get(7), KeptReply::Value(None)),
        (KeptCall::GetKeyValue(7), KeptReply::Pair(None)),
        (KeptCall::ContainsKey(7), KeptReply::Contains(false)),
        (KeptCall::Insert(7, 1), KeptReply::Value(None)),
        (KeptCall::TryInsert(7, 1), KeptReply::New(1)),
        (KeptCall::Remove(7), KeptReply::Value(None)),
        (KeptCall::RemoveEntry(7), KeptReply::Pair(None)),
    ] {
        refuse_each(&rt, memory, memory, row);
    }
}

// Closes a map of one call while the request numbered `k` fails, and returns whether that request was made.
fn end_is_refused<A: Allocator + Copy, R: Wait + Abort>(
    rt: &R,
    metered: &MeteredAlloc<Global>,
    memory: A,
    k: u64,
) -> bool {
    let (map, share) = map_with_share(rt, memory);
    let shares = list_of(rt, memory, share);
    metered.refuse_at(k);
    let fault = map.close(shares).err();
    let refused = metered.was_refused();
    metered.refuse_nothing();
    let wanted = if refused {
        Some(CloseFault::NoMemory)
    } else {
        None
    };
    assert_same_at(rt, k, (fault, metered.live_blocks()), (wanted, 0));
    refused
}

#[test]
fn end_with_an_honest_share(rt: HostRuntime) {
    let rt = &rt;
    let memory = metered(rt, rt.alloc());
    for k in 0..MAX_REQUESTS {
        if !end_is_refused(rt, memory, memory, k) {
            assert_same_at(rt, k, k > 0, true);
            return;
        }
    }
    panic!(rt; "it makes fewer requests");
}

// Makes a further share while the request numbered `k` fails. Returns its number if it is made, and whether that request was made.
fn share_without<A: Allocator + Copy, R: Wait>(
    rt: &R,
    metered: &MeteredAlloc<Global>,
    map: &Numbers<A>,
    k: u64,
) -> (Option<usize>, bool) {
    metered.refuse_at(k);
    let number = map.share(rt).map(|share| share.number()).ok();
    let refused = metered.was_refused();
    metered.refuse_nothing();
    (number, refused)
}

// Makes each request of a further share fail in turn: it has the number that the refused one would have had.
fn refuse_share<A: Allocator + Copy, R: Wait + Abort>(
    rt: &R,
    metered: &MeteredAlloc<Global>,
    map: &Numbers<A>,
) {
    for k in 0..MAX_REQUESTS {
        let (number, refused) = share_without(rt, metered, map, k);
        let wanted = if refused { None } else { Some(0) };
        assert_same_at(rt, k, number, wanted);
        if !refused {
            assert_same_at(rt, k, k > 0, true);
            return;
        }
    }
    panic!(rt; "it makes fewer requests");
}

#[test]
fn each_request_of_a_share(rt: HostRuntime) {
    let memory = metered(&rt, rt.alloc());
    refuse_share(&rt, memory, &Recorded::with_hasher(memory, LowHashBuilder));
}

type NumberBook<A> = Book<u64, u64, LowHashBuilder, A>;

// What a share and a call of a book give: the number of the share, and the place and the reply of the call.
type Given = (Option<usize>, Option<(usize, KeptReply<u64, u64>)>);

// Makes a share and a call.
fn share_and_call<A: Allocator + Copy>(book: &mut NumberBook<A>) -> Given {
    (book.share().ok(), book.call(KeptCall::Insert(7, 1)).ok())
}

// Makes a share and a call of a new book while the request numbered `k` fails, and returns whether that request was made. What is refused
// leaves the book as it was, so a further share and call have the number and the place that it would have had.
fn book_is_refused<A: Allocator + Copy>(
    rt: &impl Abort,
    metered: &MeteredAlloc<Global>,
    memory: A,
    k: u64,
) -> bool {
    let mut book = Book::new(memory, LowHashBuilder);
    metered.refuse_at(k);
    let (number, reply) = share_and_call(&mut book);
    let refused = metered.was_refused();
    metered.refuse_nothing();
    let wanted = (Some(0), Some((0, KeptReply::Value(None))));
    assert_same_at(rt, k, (number, reply) == wanted, !refused);
    let further = share_and_call(&mut book);
    let old = reply.map_or(None, |_| Some(1));
    let places = (number.map_or(0, |_| 1), reply.map_or(0, |_| 1));
    let wanted = (Some(places.0), Some((places.1, KeptReply::Value(old))));
    assert_same_at(rt, k, further, wanted);
    refused
}

#[test]
fn each_request_of_a_book(rt: HostRuntime) {
    let rt = &rt;
    let memory = metered(rt, rt.alloc());
    for k in 0..MAX_REQUESTS {
        if !book_is_refused(rt, memory, memory, k) {
            assert_same_at(rt, k, k > 0, true);
            return;
        }
    }
    panic!(rt; "it makes fewer requests");
}
