//! Short random histories, on which the judge and a search through all orders agree.
ghost use Rattle.std.specs.Prelude.{◌<◌};

use super::{KEY, verdict};
use std::alloc::{AllocError, Global};
use std::process::Abort;
use stress_judge::calls::{Call, Event};
use stress_judge::judging::{Verdict, judge};
use stress_judge::shrinking::shrink;

// The number of calls of a history, and of their orders.
const CALLS: u64 = 6;

const ORDERS: u64 = 720;

// A generator of numbers, `xorshift64*`.
#[derive(Drop)]
struct Random {
    state: u64,
}

impl Random {
    // Returns a number below `bound`.
    fn below(&mut self, bound: u64) -> u64
        requires { 0 < bound }
        ensures { result < bound }
    {
        let mut state = self.state;
        state ^= state >> 12;
        state ^= state << 25;
        state ^= state >> 27;
        self.state = state;
        (state.wrapping_mul(0x2545_f491_4f6c_dd1d) >> 33) % bound
    }
}

fn random_value(random: &mut Random) -> Option<u64> {
    match random.below(4) {
        0 => None,
        value => Some(value),
    }
}

fn random_call(random: &mut Random) -> Call {
    let value = random.below(3).saturating_add(1);
    match random.below(16) {
        0 => Call::Get,
        1 => Call::GetKeyValue,
        2 => Call::ContainsKey,
        3 | 4 => Call::Insert(value),
        5 => Call::TryInsert(value),
        6 => Call::Remove,
        7 => Call::RemoveEntry,
        8 => Call::ComputeIfPresent(Some(value)),
        9 => Call::ComputeIfPresent(None),
        10 => Call::Compute(Some(value)),
        11 => Call::Compute(None),
        12 => Call::Merge(value),
        13 => Call::Update(value),
        14 => Call::RemoveEven,
        _ => Call::ReplaceEven(value),
    }
}

// A call of each thread at a random time, with the moment between its tickets at which it takes effect. It has no reply yet.
fn random_calls(alloc: Global, random: &mut Random) -> Result<Vec<(u64, Event)>, AllocError> {
    let mut calls = Vec::new(alloc);
    for thread in 0..CALLS {
        let start = random.below(30) * 100 + 2 * thread;
        let length = random.below(12) * 100 + 1;
        let call = random_call(random);
        let event = Event {
            key: KEY,
            thread,
            start,
            end: start + length,
            call,
            reply: call.on(KEY, None).0,
        };
        calls.push((start + random.below(length), event))?;
    }
    calls.sort_unstable_by_key(|call| call.0);
    Ok(calls)
}

// Calls with the replies that they have in the order in which they take effect.
fn lawful_history(alloc: Global, random: &mut Random) -> Result<Vec<Event>, AllocError> {
    let mut events = Vec::new(alloc);
    let mut now = None;
    for call in &random_calls(alloc, random)? {
        let mut event = call.1;
        let (reply, after) = event.call.on(KEY, now);
        event.reply = reply;
        now = after;
        events.push(event)?;
    }
    Ok(events)
}

// Such calls, of which sometimes one has the reply that it has at a random value.
fn random_history(alloc: Global, random: &mut Random) -> Result<Vec<Event>, AllocError> {
    let mut events = lawful_history(alloc, random)?;
    let value = random_value(random);
    let place = random.below(2 * CALLS) as usize;
    if let Some(event) = events.get_mut(place) {
        event.reply = event.call.on(KEY, value).0;
    }
    Ok(events)
}

// Whether the order with this number explains the replies.
fn explains(alloc: Global, events: &[Event], order: u64) -> Result<bool, AllocError> {
    let mut left: Vec<Event> = Vec::new(alloc);
    left.extend_from_slice(events)?;
    let mut rest = order;
    let mut now = None;
    for _ in 0..CALLS {
        let count = left.len();
        if count == 0 {
            break;
        }
        let event = left.remove((rest % count as u64) as usize);
        rest /= count as u64;
        let Some(after) = event.apply(now) else {
            return Ok(false);
        };
        if left.iter().any(|other| other.end < event.start) {
            return Ok(false);
        }
        now = after;
    }
    Ok(true)
}

// Whether some order explains the replies.
fn has_order(alloc: Global, events: &[Event]) -> Result<bool, AllocError> {
    for order in 0..ORDERS {
        if explains(alloc, events, order)? {
            return Ok(true);
        }
    }
    Ok(false)
}

// Checks that what is left of an unlawful history is unlawful.
fn check_shrunk(rt: &impl Abort, alloc: Global, events: &[Event]) {
    let judged = judge(alloc, None, events).expect(rt, "memory for the orders");
    let fault = shrink(alloc, events, judged).expect(rt, "memory for the calls");
    let left = judge(alloc, fault.first, &fault.events).expect(rt, "memory for the orders");
    let is_unlawful = left.verdict == Verdict::Unlawful && left.until == fault.until;
    assert!(rt; is_unlawful, "what is left has no order");
}

// Compares the judge with all orders of a history, and returns whether one explains it.
fn agree(rt: &impl Abort, alloc: Global, events: &[Event], number: u64) -> bool {
    let is_explained = has_order(alloc, events).expect(rt, "memory for an order");
    let wanted = if is_explained {
        Verdict::Lawful
    } else {
        check_shrunk(rt, alloc, events);
        Verdict::Unlawful
    };
    assert!(rt;
        verdict(rt, alloc, events) == wanted,
        "the verdict on history {number}"
    );
    is_explained
}

#[test]
fn the_judge_and_all_orders_agree(rt: HostRuntime) {
    let mut random = Random {
        state: 88_172_645_463_325_252,
    };
    let mut lawful = 0u64;
    for number in 0..2000u64 {
        let events = random_history(rt.alloc(), &mut random).expect(&rt, "memory for the calls");
        lawful = lawful.saturating_add(u64::from(agree(&rt, rt.alloc(), &events, number)));
    }
    assert!(rt;
        1000 <= lawful && lawful <= 1800,
        "{lawful} of the histories have an order"
    );
}
