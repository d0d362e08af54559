//! The calls of a view.

use super::{assert_same, numbers, read_all, taken};
use flurry_base::hash::{DefaultHashBuilder, LowHashBuilder};
use flurry_shared::HashMap;
use flurry_shared_view::HashMapRef;
use std::alloc::{AllocError, Global};
use std::process::Abort;
use std::sync::Wait;

type DefaultRef<'m, R> = HashMapRef<'m, R, u64, u64, DefaultHashBuilder, Global>;

// Inserts one key twice, but not a third time.
fn inserts_a_key<R: Abort + Wait>(rt: &R, view: &DefaultRef<'_, R>) {
    assert_same(rt, view.is_empty(), true);
    assert_same(rt, taken(view.insert(7, 0).expect(rt, "memory")), None);
    assert_same(rt, taken(view.insert(7, 1).expect(rt, "memory")), Some(0));
    assert_same(
        rt,
        view.try_insert(7, 2).expect(rt, "memory").is_err(),
        true,
    );
}

// Looks up the key, and doubles its value.
fn doubles_its_value<R: Abort + Wait>(rt: &R, view: &DefaultRef<'_, R>) {
    assert_same(rt, taken(view.get(&7).expect(rt, "memory")), Some(1));
    assert_same(
        rt,
        view.get_key_value(&7).expect(rt, "memory").is_some(),
        true,
    );
    let doubled = view
        .compute_if_present(&7, |_, value| value.checked_mul(2))
        .expect(rt, "memory");
    assert_same(rt, taken(doubled), Some(2));
}

// Removes the key, once.
fn removes_it<R: Abort + Wait>(rt: &R, view: &DefaultRef<'_, R>) {
    assert_same(rt, (view.contains_key(&7), view.len()), (true, 1));
    assert_same(rt, taken(view.remove(&7)), Some(2));
    assert_same(rt, view.remove_entry(&7).is_none(), true);
}

// Inserts a key, doubles its value, and removes it.
fn comes_and_goes<R: Abort + Wait>(rt: &R, view: &DefaultRef<'_, R>) {
    inserts_a_key(rt, view);
    doubles_its_value(rt, view);
    removes_it(rt, view);
}

#[test]
fn calls_of_one_key(rt: HostRuntime) {
    let rt = &rt;
    let map: HashMap<u64, u64> = HashMap::new(rt.alloc());
    comes_and_goes(rt, &map.pin(rt));
    assert_same(rt, map.is_empty(rt), true);
}

type NumbersRef<'m, R> = HashMapRef<'m, R, u64, u64, LowHashBuilder, Global>;

// Returns whether a view gives at least one key.
fn has_a_key<R: Wait>(view: &NumbersRef<'_, R>) -> Result<bool, AllocError> {
    let mut keys = view.keys();
    let first = keys.next();
    drop(keys);
    Ok(first?.is_some())
}

// Returns whether a view gives at least one value.
fn has_a_value<R: Wait>(view: &NumbersRef<'_, R>) -> Result<bool, AllocError> {
    let mut values = view.values();
    let first = values.next();
    drop(values);
    Ok(first?.is_some())
}

// Keeps five of ten pairs by another view of the same map, and then two.
fn keeps_two<R: Abort + Wait>(rt: &R, view: &NumbersRef<'_, R>) {
    let other = view.reborrow();
    view.reserve(100).expect(rt, "memory");
    assert_same(rt, view.equals(&other).expect(rt, "memory"), true);
    other.retain(|key, _| *key < 5).expect(rt, "memory");
    assert_same(rt, read_all(view.iter()).expect(rt, "memory"), (5, 10, 10));
    other.retain_force(|key, _| *key < 2).expect(rt, "memory");
    assert_same(rt, view.len(), 2);
}

// Asserts that a view has keys and values.
fn is_not_empty<R: Abort + Wait>(rt: &R, view: &NumbersRef<'_, R>) {
    assert_same(rt, has_a_key(view).expect(rt, "memory"), true);
    assert_same(rt, has_a_value(view).expect(rt, "memory"), true);
}

// Asserts that a view is not equal to a view of an empty map.
fn differs_from_none<R: Abort + Wait + AllocGlobal>(rt: &R, view: &NumbersRef<'_, R>) {
    let empty = HashMap::with_hasher(rt.alloc(), LowHashBuilder);
    assert_same(rt, view.equals(&empty.pin(rt)).expect(rt, "memory"), false);
}

// Removes all pairs. Another view of the map then has none.
fn clears<R: Abort + Wait>(rt: &R, view: &NumbersRef<'_, R>) {
    let other = view.reborrow();
    view.clear();
    assert_same(rt, read_all(other.iter()).expect(rt, "memory"), (0, 0, 0));
}

// Keeps some of ten pairs, compares the view, and clears the map.
fn keeps_and_clears<R: Abort + Wait + AllocGlobal>(rt: &R, view: &NumbersRef<'_, R>) {
    keeps_two(rt, view);
    is_not_empty(rt, view);
    differs_from_none(rt, view);
    clears(rt, view)
}

#[test]
fn calls_of_many_pairs(rt: HostRuntime) {
    let rt = &rt;
    let map = numbers(rt, rt.alloc(), 10);
    keeps_and_clears(rt, &map.pin(rt))
}
