//! The tests by topic, and what they share.
ghost use Rattle.std.specs.Prelude.{◌≡◌, ⊤};
ghost use Rattle.flurry_base.specs.Verdicts.{verdict_of};

mod bins;
mod boards;
mod control;
mod cursor;
mod first_steps;
mod memory;
mod party;
mod slot;
mod worlds;

use flurry_base::reply::KeptReply;
use flurry_bins_slots::{ComputeFn, Verdict};
use flurry_steps::party::Reply;
use metered_alloc::MeteredAlloc;
use std::alloc::{Allocator, Global};
use std::fmt::Debug;
use std::process::Abort;

// Asserts that a value is the expected one. A test with many assertions calls this, because each `assert_eq!` in its own body makes its
// proof longer. The proof of the caller does not learn of the value.
fn assert_same<T: PartialEq + Debug + Drop>(rt: &impl Abort, seen: T, wanted: T) {
    assert_eq!(rt; seen, wanted);
}

// Asserts that a value is the expected one. A failure also reports `at`.
fn assert_same_at<I: PartialEq + Debug + Copy + Drop, T: PartialEq + Debug + Drop>(
    rt: &impl Abort,
    at: I,
    seen: T,
    wanted: T,
) {
    assert_eq!(rt; (at, seen), (at, wanted));
}

// A function that sets this value, or that removes the pair, at any key.
#[derive(Clone, Copy)]
struct Becomes(Option<u64>);

impl ComputeFn<u64, u64> for Becomes {
    ghost can_change = { λ _. ⊤ };

    ghost never_keeps = { λ _. ⊤ };

    ghost changes = { λ f _ _ v. v ≡ verdict_of f.0 };

    fn change<'a>(self, _key: &'a u64, _value: Option<&'a u64>) -> Verdict<u64> {
        match self.0 {
            Some(value) => Verdict::Set(value),
            None => Verdict::Remove,
        }
    }
}

// How a call closes.
#[derive(Clone, Copy, Debug, PartialEq, Eq)]
enum Close {
    Reply(KeptReply<u64, u64>),
    End,
    Refused,
}

// Returns how a call closes that replies with a value, or with `None`.
fn closes_with(value: Option<u64>) -> Close {
    Close::Reply(KeptReply::Value(value))
}

// Returns the reply without the owners of its keys and values.
fn without_owners<A: Allocator>(reply: Reply<u64, u64, A>) -> Close {
    let reply = match reply {
        Reply::Value(None) => KeptReply::Value(None),
        Reply::Value(Some(value)) => KeptReply::Value(Some(*value)),
        Reply::Pair(None) => KeptReply::Pair(None),
        Reply::Pair(Some((key, value))) => KeptReply::Pair(Some((*key, *value))),
        Reply::Contains(there) => KeptReply::Contains(there),
        Reply::New(value) => KeptReply::New(*value),
        Reply::Changed { new, old } => KeptReply::Changed {
            new: *new,
            old: *old,
        },
        Reply::Exists(error) => KeptReply::Exists {
            current: *error.current,
            not_inserted: error.not_inserted,
        },
        Reply::Ended => return Close::End,
        Reply::Refused => return Close::Refused,
    };
    Close::Reply(reply)
}

// An allocator that can be told which requests fail.
type Memory = &'static MeteredAlloc<Global>;

// Returns an allocator that can be told which requests fail.
fn metered(rt: &impl Abort, alloc: Global) -> Memory {
    MeteredAlloc::leak(alloc).expect(rt, "memory for the allocator")
}
