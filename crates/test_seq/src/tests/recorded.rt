//! The recorded map: each call, shares that fit and shares that do not, and threads at the same time.

mod calls;
mod damage;
mod memory;
mod threads;

use super::assert_same;
use flurry_base::hash::LowHashBuilder;
use flurry_seq_recorded::{CloseFault, KeptReply, Recorded, Share};
use std::process::Abort;
use std::sync::Wait;

// A recorded map of numbers, and a share of it.
type Numbers = Recorded<u64, u64, LowHashBuilder>;

type NumberShare = Share<u64, u64>;

// Returns the reply of a value, or of `None`.
fn reply(value: Option<u64>) -> KeptReply<u64, u64> {
    KeptReply::Value(value)
}

// Returns a new share of a map.
fn share_of<R: Wait + Abort>(rt: &R, map: &Numbers) -> NumberShare {
    map.share(rt).expect(rt, "memory for the share")
}

// The end of a map: the number of calls in its history, the number of its pairs, and its value at the key 7.
type End = (usize, usize, Option<u64>);

// Closes the map with these shares, and returns its end, or the fault.
fn end_of(map: Numbers, shares: Vec<NumberShare>) -> Result<End, CloseFault> {
    match map.close(shares) {
        Ok(closed) => {
            let value = closed.map.get(&7).map(|value| **value);
            Ok((closed.history.len(), closed.map.len(), value))
        }
        Err(fault) => Err(fault),
    }
}

// Checks how the map ends with these shares.
fn ends<const N: usize>(
    rt: &(impl Abort + AllocGlobal),
    map: Numbers,
    shares: [NumberShare; N],
    wanted: Result<End, CloseFault>,
) {
    let shares = Vec::from_array(rt.alloc(), shares).expect(rt, "memory for the shares");
    assert_same(rt, end_of(map, shares), wanted);
}
