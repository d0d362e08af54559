//! Boards when memory cannot be allocated.

use super::super::assert_same;
use flurry_steps_claims::{ClaimBoard, Helpers, SEATS};
use metered_alloc::MeteredAlloc;
use std::alloc::{Allocator, Global};
use std::process::Abort;
use std::test::Fail;

// What is made.
#[derive(Clone, Copy)]
enum Made {
    Board,
    Helpers,
}

// More requests than either makes.
const MAX_REQUESTS: u64 = 100;

// Makes it, and returns whether that succeeded. The allocator is a parameter, because a proof over `&'static MeteredAlloc<Global>` unfolds
// it in each step.
fn is_made<A: Allocator + Copy>(memory: A, made: Made) -> bool {
    match made {
        Made::Board => ClaimBoard::new(memory, 6, 2, SEATS).is_ok(),
        Made::Helpers => Helpers::new(memory, 6, 2).is_ok(),
    }
}

// Whether the call made the request numbered `k`, which fails. Then it returns an error, and nothing is left.
fn is_refused<A: Allocator + Copy>(
    rt: &impl Abort,
    metered: &MeteredAlloc<Global>,
    memory: A,
    made: Made,
    k: u64,
) -> bool {
    let (ok, refused) = metered.refuse_during(k, || is_made(memory, made));
    assert_same(rt, (k, ok, metered.live_blocks()), (k, !refused, 0));
    refused
}

// The number of requests that the call makes.
fn requests<A: Allocator + Copy>(
    rt: &impl Abort,
    metered: &MeteredAlloc<Global>,
    memory: A,
    made: Made,
) -> u64 {
    for k in 0..MAX_REQUESTS {
        if !is_refused(rt, metered, memory, made, k) {
            return k;
        }
    }
    MAX_REQUESTS
}

#[test]
fn each_request_is_refused(rt: HostRuntime) -> Result<(), Fail> {
    let rt = &rt;
    let memory = MeteredAlloc::leak(rt.alloc())?;
    assert_same(rt, requests(rt, memory, memory, Made::Board), 3);
    assert_same(rt, requests(rt, memory, memory, Made::Helpers), 4);
    Ok(())
}
