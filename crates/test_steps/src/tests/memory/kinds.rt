//! Each request of each other kind of a world's calls fails in turn.

use super::super::{Close, closes_with, metered};
use super::assert_same_at;
use super::world::{Numbers, Told, refused_at, value, world_of};
use flurry_base::reply::KeptReply;
use flurry_bins_slots::{ComputeFn, NoFn};
use flurry_steps::party::OwnedCall;
use metered_alloc::MeteredAlloc;
use std::alloc::{Allocator, Global};
use std::process::Abort;

// More requests than any call makes.
const MOST: u64 = 1000;

// A call in a world of the keys 0, 1 and 2, each with itself as its value: how many requests it makes for its pair, how it closes, and the
// value of its key before and after it. Its other requests are for the room of labels.
#[derive(Drop)]
struct Row<F> {
    call: OwnedCall<u64, u64, F>,
    own: u64,
    close: Close,
    key: u64,
    before: Option<u64>,
    after: Option<u64>,
}

// Returns the row of a call that makes `own` requests for its pair, and of its key.
fn row_of<F>(
    call: OwnedCall<u64, u64, F>,
    own: u64,
    close: Close,
    (key, before, after): (u64, Option<u64>, Option<u64>),
) -> Row<F> {
    Row {
        call,
        own,
        close,
        key,
        before,
        after,
    }
}

// Makes the call of a row while the request numbered `k` fails, and returns what that did, or `None` if it made no such request. A call whose
// own request fails is refused and changes nothing; a step that gets no room for its label is repeated.
fn told_at<F: ComputeFn<u64, u64> + Copy, A: Allocator + Copy>(
    rt: &impl Abort,
    metered: &MeteredAlloc<Global>,
    memory: A,
    row: &Row<F>,
    k: u64,
) -> Option<Told>
    requires { (f : F) → F.can_change f × F.never_keeps f }
{
    let mut world: Numbers<F, A> = world_of(rt, memory, 3);
    let seen = refused_at(rt, metered, &mut world, row.call, k);
    if let Some((told, close)) = seen {
        let wanted = match told {
            Told::Call => (Close::Refused, closes_with(row.before)),
            _ => (row.close, closes_with(row.after)),
        };
        assert_same_at(rt, k, (close, value(rt, &mut world, row.key)), wanted);
    }
    drop(world);
    seen.map(|seen| seen.0)
}

// Makes the call of a row once for each of its requests.
fn refuses_each<F: ComputeFn<u64, u64> + Copy, A: Allocator + Copy>(
    rt: &impl Abort,
    metered: &MeteredAlloc<Global>,
    memory: A,
    row: Row<F>,
)
    requires { (f : F) → F.can_change f × F.never_keeps f }
{
    let mut own = 0u64;
    for k in 0..MOST {
        let told = told_at(rt, metered, memory, &row, k);
        assert_same_at(rt, k, metered.live_blocks(), 0);
        match told {
            None => {
                assert_same_at(rt, k, own, row.own);
                return;
            }
            Some(Told::Call) => own = own.saturating_add(1),
            _ => assert_same_at(rt, k, told, Some(Told::Step)),
        }
    }
    panic!(rt; "it makes fewer requests")
}

fn refuses_writes<F: ComputeFn<u64, u64> + Copy, A: Allocator + Copy>(
    rt: &impl Abort,
    metered: &MeteredAlloc<Global>,
    memory: A,
    change: F,
)
    requires { (f : F) → F.can_change f × F.never_keeps f }
{
    let new = Close::Reply(KeptReply::New(5));
    let values = (20, None, Some(5));
    refuses_each::<F, A>(
        rt,
        metered,
        memory,
        row_of(OwnedCall::TryInsert(20, 5), 3, new, values),
    );
    let two = closes_with(Some(2));
    let values = (1, Some(1), Some(2));
    refuses_each(
        rt,
        metered,
        memory,
        row_of(OwnedCall::Compute(1, change), 1, two, values),
    );
    let changed = Close::Reply(KeptReply::Changed { new: 2, old: 1 });
    refuses_each(
        rt,
        metered,
        memory,
        row_of(OwnedCall::Alter(1, change), 1, changed, values),
    );
    refuses_each(
        rt,
        metered,
        memory,
        row_of(OwnedCall::AlterPresent(1, change), 1, changed, values),
    );
}

fn refuses_removals<F: ComputeFn<u64, u64> + Copy, A: Allocator + Copy>(
    rt: &impl Abort,
    metered: &MeteredAlloc<Global>,
    memory: A,
)
    requires { (f : F) → F.can_change f × F.never_keeps f }
{
    let values = (1, Some(1), None);
    let one = closes_with(Some(1));
    let pair = Close::Reply(KeptReply::Pair(Some((1, 1))));
    refuses_each::<F, A>(
        rt,
        metered,
        memory,
        row_of(OwnedCall::Remove(1), 0, one, values),
    );
    refuses_each::<F, A>(
        rt,
        metered,
        memory,
        row_of(OwnedCall::RemoveEntry(1), 0, pair, values),
    );
    refuses_each::<F, A>(
        rt,
        metered,
        memory,
        row_of(OwnedCall::Clear, 0, Close::End, values),
    );
}

fn refuses_walk<F: ComputeFn<u64, u64> + Copy, A: Allocator + Copy>(
    rt: &impl Abort,
    metered: &MeteredAlloc<Global>,
    memory: A,
)
    requires { (f : F) → F.can_change f × F.never_keeps f }
{
    let values = (1, Some(1), Some(1));
    refuses_each::<F, A>(
        rt,
        metered,
        memory,
        row_of(OwnedCall::Walk, 0, Close::End, values),
    );
}

#[test]
fn calls_that_write(rt: HostRuntime) {
    let memory = metered(&rt, rt.alloc());
    refuses_writes(
        &rt,
        memory,
        memory,
        |_key: &u64, value: &u64| value.checked_mul(2),
    );
}

#[test]
fn calls_that_take_nothing(rt: HostRuntime) {
    let rt = &rt;
    let memory = metered(rt, rt.alloc());
    refuses_removals::<NoFn, _>(rt, memory, memory);
    refuses_walk::<NoFn, _>(rt, memory, memory);
}
