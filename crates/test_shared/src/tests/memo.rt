//! Memos, of one owner and shared by threads.
ghost use Rattle.std.specs.Prelude.{◌≤◌};

use super::{Memory, assert_same, metered};
use flurry_base::hash::LowHashBuilder;
use flurry_shared_memo::{Memo, MemoCore};
use metered_alloc::MeteredAlloc;
use std::alloc::{AllocError, Allocator, Global};
use std::process::Abort;
use std::sync::Wait;
use std::test::Fail;
use std::thread::{self, Threads};

type Numbers<A> = Memo<u64, u64, LowHashBuilder, A>;

// More requests than any call makes.
const MAX_REQUESTS: u64 = 100;

// The two examples of the doc comments, word for word.
#[test]
fn one_owner(rt: HostRuntime) -> Result<(), Fail> {
    let mut memo = MemoCore::with_hasher(rt.alloc(), LowHashBuilder);
    let four = memo.get_or_compute(3, |key: &u64| -> u64 { key.saturating_add(1) })?;
    assert_eq!(rt; *four, 4);
    let kept = memo.get_or_compute(3, |key: &u64| -> u64 { key.saturating_add(9) })?;
    assert_eq!(rt; *kept, 4);
    assert_eq!(rt; memo.len(), 1);
    Ok(())
}

#[test]
fn shared(rt: HostRuntime) -> Result<(), Fail> {
    let memo = Memo::with_hasher(rt.alloc(), LowHashBuilder);
    let four = memo.get_or_compute(&rt, 3, |key: &u64| -> u64 { key.saturating_add(1) })?;
    assert_eq!(rt; *four, 4);
    let kept = memo.get_or_compute(&rt, 3, |key: &u64| -> u64 { key.saturating_add(9) })?;
    assert_eq!(rt; *kept, 4);
    assert_eq!(rt; memo.len(&rt), 1);
    Ok(())
}

// The values at the keys from 0 on, which are `value` where nobody has computed one.
fn values<A: Allocator + Copy>(
    rt: &impl Wait,
    alloc: A,
    memo: &Numbers<A>,
    keys: u64,
    value: u64,
) -> Result<Vec<u64, A>, AllocError> {
    let mut all = Vec::new(alloc);
    for key in 0..keys {
        let kept = memo.get_or_compute(rt, key, |_: &u64| -> u64 { value })?;
        all.push(*kept)?;
    }
    Ok(all)
}

// What each of so many threads gets at the keys from 0 on, `None` where memory ran out. The first computes the value 1, the next one 2, ..
fn values_of_each<A: Allocator + Copy + Send + Sync, R: Abort + Threads + Wait + Sync>(
    rt: &R,
    alloc: A,
    memo: &Numbers<A>,
    threads: usize,
    keys: u64,
) -> Vec<Option<Vec<u64, A>>, A> {
    let each = thread::map_indices(
        rt,
        alloc,
        threads,
        &|thread: usize| {
            let value = (thread as u64).saturating_add(1);
            values(rt, alloc, memo, keys, value).ok()
        },
    );
    each.expect(rt, "memory for the lists")
}

// The values that all of so many threads get, if they get the same.
fn agreed<A: Allocator + Copy + Send + Sync, R: Abort + Threads + Wait + Sync>(
    rt: &R,
    alloc: A,
    memo: &Numbers<A>,
    threads: usize,
    keys: u64,
) -> Option<Vec<u64, A>> {
    let mut each = values_of_each(rt, alloc, memo, threads, keys);
    let one = each.pop()??;
    if each.iter().all(|other| other.as_ref() == Some(&one)) {
        Some(one)
    } else {
        None
    }
}

#[test]
fn two_threads_get_one_value(rt: HostRuntime) {
    let rt = &rt;
    let memo = Memo::with_hasher(rt.alloc(), LowHashBuilder);
    let values = agreed(rt, rt.alloc(), &memo, 2, 1).expect(rt, "both get the same value");
    assert_same(rt, values[..] == [1] || values[..] == [2], true);
    assert_same(rt, memo.len(rt), 1);
}

#[test]
fn eight_threads_agree_on_a_hundred_keys(rt: HostRuntime) {
    let rt = &rt;
    let memo = Memo::with_hasher(rt.alloc(), LowHashBuilder);
    let values = agreed(rt, rt.alloc(), &memo, 8, 100);
    assert_same(rt, values.map(|values| values.len()), Some(100));
    assert_same(rt, memo.len(rt), 100);
}

#[test]
fn two_thousand_keys_asked_twice(rt: HostRuntime) {
    let rt = &rt;
    let memo = &Memo::with_hasher(rt.alloc(), LowHashBuilder);
    let first = values(rt, rt.alloc(), memo, 2000, 1).expect(rt, "memory");
    let again = values(rt, rt.alloc(), memo, 2000, 2).expect(rt, "memory");
    assert_same(rt, first == again, true);
    assert_same(rt, memo.len(rt), 2000);
}

// The Fibonacci number `n`, whose value is computed of those of the two numbers below.
fn fibonacci<R: Wait>(rt: &R, memo: &Numbers<Global>, n: u64) -> u64 {
    if n < 2 {
        return n;
    }
    let computed = memo.get_or_compute(
        rt,
        n,
        |_: &u64| -> u64
            requires { 2 ≤ n }
        { fibonacci(rt, memo, n - 1).saturating_add(fibonacci(rt, memo, n - 2)) },
    );
    computed.map_or(0, |value| *value)
}

#[test]
fn function_calls_the_memo(rt: HostRuntime) {
    let rt = &rt;
    let memo = Memo::with_hasher(rt.alloc(), LowHashBuilder);
    assert_same(rt, fibonacci(rt, &memo, 80), 23_416_728_348_467_685);
    assert_same(rt, memo.len(rt), 79);
}

// Whether an owned memo computes a value with the request numbered `k` refused. Then nothing is kept. Its allocator is a parameter, because a
// proof over `Memory` unfolds it in each step.
fn owned_is_refused<A: Allocator + Copy>(
    rt: &impl Abort,
    metered: &MeteredAlloc<Global>,
    memory: A,
    k: u64,
) -> bool {
    let mut memo: MemoCore<u64, u64, LowHashBuilder, A> = MemoCore::with_hasher(
        memory,
        LowHashBuilder,
    );
    metered.refuse_at(k);
    let is_kept = memo.get_or_compute(7, |key: &u64| -> u64 { *key }).is_ok();
    let is_refused = metered.was_refused();
    metered.refuse_nothing();
    let wanted = (k, !is_refused, usize::from(is_kept));
    assert_same(rt, (k, is_kept, memo.len()), wanted);
    is_refused
}

// The same, of a shared memo that is empty.
fn is_refused_in<A: Allocator + Copy, R: Abort + Wait>(
    rt: &R,
    metered: &MeteredAlloc<Global>,
    memo: &Numbers<A>,
    k: u64,
) -> bool {
    metered.refuse_at(k);
    let is_kept = memo
        .get_or_compute(rt, 7, |key: &u64| -> u64 { *key })
        .is_ok();
    let is_refused = metered.was_refused();
    metered.refuse_nothing();
    let wanted = (k, !is_refused, usize::from(is_kept));
    assert_same(rt, (k, is_kept, memo.len(rt)), wanted);
    is_refused
}

fn shared_is_refused<R: Abort + Wait>(rt: &R, memory: Memory, k: u64) -> bool {
    is_refused_in(rt, memory, &Memo::with_hasher(memory, LowHashBuilder), k)
}

#[test]
fn each_request_is_refused(rt: HostRuntime) {
    let rt = &rt;
    let memory = metered(rt, rt.alloc());
    for k in 0..MAX_REQUESTS {
        if !owned_is_refused(rt, memory, memory, k) {
            assert_same(rt, k, 4);
            break;
        }
    }
    for k in 0..MAX_REQUESTS {
        if !shared_is_refused(rt, memory, k) {
            assert_same(rt, k, 5);
            break;
        }
    }
    assert_same(rt, memory.live_blocks(), 0);
}
