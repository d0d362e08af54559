//! Clones of a map, with the same pairs.

use super::{Refused, assert_same_at, map_of, refuse_each};
use metered_alloc::MeteredAlloc;
use std::alloc::{Allocator, Global};
use std::process::Abort;

// The cloning of a map of three pairs.
struct Copies;

impl Refused for Copies {
    fn run_refusing<A: Allocator + Copy>(
        &self,
        rt: &impl Abort,
        metered: &MeteredAlloc<Global>,
        memory: A,
        k: u64,
    ) -> bool {
        let map = map_of(rt, memory, 3);
        let before = metered.live_blocks();
        metered.refuse_at(k);
        let answer = map.try_clone();
        let refused = metered.was_refused();
        metered.refuse_nothing();
        let is_equal = match answer {
            Ok(copy) => Some(copy == map),
            Err(_) => None,
        };
        let wanted = if refused { None } else { Some(true) };
        assert_same_at(rt, k, (is_equal, metered.live_blocks()), (wanted, before));
        refused
    }
}

#[test]
fn try_clone(rt: HostRuntime) {
    refuse_each(&rt, rt.alloc(), &Copies);
}
