//! The shared set.
//!
//! A test creates its sets and passes them by reference, because a body that owns a set has a proof of its drop at each way out.

mod made;
mod refused;
mod relations;
mod views;

use super::assert_same;
use flurry_base::hash::LowHashBuilder;
use flurry_shared::iter::Keys;
use flurry_shared_set::HashSet;
use std::alloc::{AllocError, Allocator};
use std::process::Abort;
use std::sync::Wait;

// The greatest number of elements that a walk of a test gives.
const MAX_READ: u32 = 10_000;

// Inserts each number of a list.
fn insert_each<A: Allocator + Copy, R: Abort + Wait>(
    rt: &R,
    set: &HashSet<u64, LowHashBuilder, A>,
    numbers: &[u64],
) {
    for number in numbers {
        set.insert(rt, *number).expect(rt, "memory");
    }
}

// Returns a set of the numbers of a list, in which the hash of each number is the number.
fn set_of<A: Allocator + Copy, R: Abort + Wait>(
    rt: &R,
    alloc: A,
    numbers: &[u64],
) -> HashSet<u64, LowHashBuilder, A> {
    let set = HashSet::with_hasher(alloc, LowHashBuilder);
    insert_each(rt, &set, numbers);
    set
}

// Returns the number of elements that an iterator gives up to its end, and their sum.
fn read_all<A: Allocator + Copy, R: Wait>(
    elements: Keys<'_, R, u64, (), A>,
) -> Result<(u64, u64), AllocError> {
    let mut elements = elements;
    let sums = read_rest(&mut elements);
    drop(elements);
    sums
}

// Returns the number of elements that are left in an iterator, and their sum. It borrows the iterator, because a body that owns it has a
// proof of its drop at each way out.
fn read_rest<A: Allocator + Copy, R: Wait>(
    elements: &mut Keys<'_, R, u64, (), A>,
) -> Result<(u64, u64), AllocError> {
    let mut count = 0u64;
    let mut sum = 0u64;
    for _ in 0..MAX_READ {
        let Some(element) = elements.next()? else {
            break;
        };
        count = count.saturating_add(1);
        sum = sum.saturating_add(*element);
    }
    Ok((count, sum))
}

// Inserts two elements, one of them twice, and finds them.
fn puts_and_finds<A: Allocator + Copy, R: Abort + Wait>(
    rt: &R,
    set: &HashSet<u64, LowHashBuilder, A>,
) {
    assert_same(rt, set.insert(rt, 7).expect(rt, "memory"), true);
    assert_same(rt, set.insert(rt, 7).expect(rt, "memory"), false);
    assert_same(rt, set.insert(rt, 8).expect(rt, "memory"), true);
    assert_same(rt, set.contains(rt, &7), true);
    assert_same(rt, set.contains(rt, &9), false);
    assert_same(
        rt,
        set.get(rt, &7).expect(rt, "memory").map(|element| *element),
        Some(7),
    );
}

// Removes the elements again.
fn takes_out<A: Allocator + Copy, R: Abort + Wait>(rt: &R, set: &HashSet<u64, LowHashBuilder, A>) {
    assert_same(rt, set.take(rt, &7).map(|element| *element), Some(7));
    assert_same(rt, set.take(rt, &7).is_none(), true);
    assert_same(rt, set.remove(rt, &8), true);
    assert_same(rt, set.remove(rt, &8), false);
}

// Inserts elements into an empty set, finds them and removes them.
fn comes_and_goes<A: Allocator + Copy, R: Abort + Wait>(
    rt: &R,
    set: &HashSet<u64, LowHashBuilder, A>,
) {
    assert_same(rt, set.is_empty(rt), true);
    puts_and_finds(rt, set);
    assert_same(rt, set.len(rt), 2);
    takes_out(rt, set);
    assert_same(rt, set.is_empty(rt), true);
}

#[test]
fn calls_of_one_element(rt: HostRuntime) {
    comes_and_goes(&rt, &set_of(&rt, rt.alloc(), &[]))
}

// Asserts that `wanted` is the number of elements of a set, and their sum.
fn has_sums<A: Allocator + Copy, R: Abort + Wait>(
    rt: &R,
    set: &HashSet<u64, LowHashBuilder, A>,
    wanted: (u64, u64),
) {
    assert_same(rt, read_all(set.iter(rt)).expect(rt, "memory"), wanted);
    assert_same(rt, set.len(rt) as u64, wanted.0);
}

// Keeps the even elements of five, and then none.
fn keeps_less<A: Allocator + Copy, R: Abort + Wait>(rt: &R, set: &HashSet<u64, LowHashBuilder, A>) {
    has_sums(rt, set, (5, 10));
    set.retain(rt, |element| *element % 2 == 0)
        .expect(rt, "memory");
    has_sums(rt, set, (3, 6));
    set.clear(rt);
    has_sums(rt, set, (0, 0))
}

#[test]
fn calls_of_many_elements(rt: HostRuntime) {
    keeps_less(&rt, &set_of(&rt, rt.alloc(), &[0, 1, 2, 3, 4]))
}

// Keeps the elements 2 and 4. While a walk shows the 4, it is removed and inserted again.
fn keeps_what_is_put_again<A: Allocator + Copy, R: Wait>(
    rt: &R,
    set: &HashSet<u64, LowHashBuilder, A>,
) -> Result<(), AllocError> {
    set.retain(rt, |element| {
        *element == 4 && set.remove(rt, element) && set.insert(rt, 4).is_err() || *element == 2
    })
}

// An element that is removed and inserted again during the call stays.
#[test]
fn elements_are_kept(rt: HostRuntime) {
    let rt = &rt;
    let set = &set_of(rt, rt.alloc(), &[0, 1, 2, 3, 4]);
    keeps_what_is_put_again(rt, set).expect(rt, "memory");
    has_sums(rt, set, (2, 6))
}

// Returns the list of the numbers from `from` to `to`, without `to`.
fn list<A: Allocator + Copy>(rt: &impl Abort, alloc: A, from: u64, to: u64) -> Vec<u64, A> {
    let mut list = Vec::new(alloc);
    for number in from..to {
        list.push(number).expect(rt, "memory");
    }
    list
}

#[test]
fn a_list_of_a_hundred(rt: HostRuntime) {
    let rt = &rt;
    let set = set_of(rt, rt.alloc(), &[0, 1]);
    set.extend(rt, list(rt, rt.alloc(), 0, 100))
        .expect(rt, "memory");
    has_sums(rt, &set, (100, 4950))
}
