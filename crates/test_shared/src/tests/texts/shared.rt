//! Look-ups by text in a shared map, and by its view.

use super::super::metered;
use super::{ABSENT, PRESENT, assert_same, string_of, taken};
use flurry_base::hash::{DefaultHashBuilder, KeyHasher, ZeroHashBuilder};
use flurry_base::query::HashedQuery;
use flurry_shared::HashMap;
use metered_alloc::MeteredAlloc;
use std::alloc::{Allocator, Global};
use std::process::Abort;
use std::sync::Wait;

// Inserts each text that is to be present, with its place in the list as its value.
fn fill<S: KeyHasher<String>, R: Abort + Wait>(
    rt: &R,
    alloc: Global,
    map: &HashMap<String, u64, S>,
) {
    let mut place = 0u64;
    for text in PRESENT {
        map.insert(rt, string_of(rt, alloc, text), place)
            .expect(rt, "memory for a pair");
        place = place.saturating_add(1);
    }
}

// Returns the value at a text, after comparing what each kind of look-up finds.
fn found<S: KeyHasher<String>, Q: HashedQuery<String, S>, R: Abort + Wait>(
    rt: &R,
    map: &HashMap<String, u64, S>,
    text: Q,
) -> Option<u64> {
    let value = taken(map.get(rt, text).expect(rt, "memory"));
    let pair = map.get_key_value(rt, text).expect(rt, "memory");
    let pair = pair.map(|(_, value)| *value);
    assert_same(
        rt,
        (pair, map.contains_key(rt, text)),
        (value, value.is_some()),
    );
    value
}

// Looks for each text, as a `&str` and as a `&String`.
fn look_for_all<'t, S: KeyHasher<String>, R: Abort + Wait>(
    rt: &R,
    alloc: Global,
    map: &HashMap<String, u64, S>,
)
where
    &'t str: HashedQuery<String, S>,
{
    let mut place = 0u64;
    for text in PRESENT {
        assert_same(rt, found(rt, map, text), Some(place));
        assert_same(rt, found(rt, map, &string_of(rt, alloc, text)), Some(place));
        place = place.saturating_add(1);
    }
    for text in ABSENT {
        assert_same(rt, found(rt, map, text), None);
    }
}

#[test]
fn look_ups_by_text_and_by_string(rt: HostRuntime) {
    let rt = &rt;
    let map = &HashMap::new(rt.alloc());
    assert_same(rt, found(rt, map, "a"), None);
    fill(rt, rt.alloc(), map);
    look_for_all::<DefaultHashBuilder, _>(rt, rt.alloc(), map);
}

#[test]
fn look_ups_among_texts_of_one_hash(rt: HostRuntime) {
    let map = &HashMap::with_hasher(rt.alloc(), ZeroHashBuilder);
    fill(&rt, rt.alloc(), map);
    look_for_all(&rt, rt.alloc(), map);
}

// Changes the value at a text by each call that does so, of the map or of its view.
fn changes<R: Abort + Wait>(rt: &R, map: &HashMap<String, u64>) {
    let view = map.pin(rt);
    let new = view.compute_if_present("ab", |_: &String, value: &u64| value.checked_add(10));
    assert_same(rt, taken(new.expect(rt, "memory")), Some(12));
    let new = view.update("ab", |_: &String, value: &u64| value.saturating_add(1));
    assert_same(rt, taken(new.expect(rt, "memory")), Some(13));
    let old = view.replace_if("ab", |_: &String, value: &u64| *value == 13, 7);
    assert_same(rt, taken(old.expect(rt, "memory")), Some(13));
    let kept = map.remove_if(rt, "ab", |_: &String, value: &u64| *value > 7);
    assert_same(rt, taken(kept), None);
    let absent = map.update(rt, "abc", |_: &String, value: &u64| *value);
    assert_same(rt, taken(absent.expect(rt, "memory")), None);
}

// Removes the pair of a text by each call of the view that does so.
fn removals<R: Abort + Wait>(rt: &R, map: &HashMap<String, u64>) {
    let view = map.pin(rt);
    let removed = view.remove_if("ab", |key: &String, _: &u64| key.len() == 2);
    assert_same(rt, taken(removed), Some(7));
    assert_same(
        rt,
        (taken(view.remove("a")), taken(view.remove("a"))),
        (Some(1), None),
    );
    let entry = view
        .remove_entry("é")
        .map(|(key, value)| (key.len(), *value));
    assert_same(rt, entry, Some((2, 4)));
    let left = taken(view.get("b").expect(rt, "memory"));
    assert_same(rt, (left, view.contains_key("ab")), (Some(3), false));
    assert_same(rt, map.len(rt), 3);
}

#[test]
fn changes_and_removals_by_text(rt: HostRuntime) {
    let rt = &rt;
    let map = &HashMap::new(rt.alloc());
    fill(rt, rt.alloc(), map);
    changes(rt, map);
    removals(rt, map);
}

// Calls a map by texts, after an insertion of one, while all requests of its memory fail.
fn take_no_memory<A: Allocator + Copy, R: Abort + Wait>(
    rt: &R,
    alloc: Global,
    memory: &MeteredAlloc<Global>,
    map: &HashMap<String, u64, DefaultHashBuilder, A>,
) {
    let inserted = map.insert(rt, string_of(rt, alloc, "ab"), 2);
    assert_same(rt, inserted.is_ok(), true);
    memory.refuse_from(0);
    let found = map.get(rt, "ab").expect(rt, "a clone of an `Arc`");
    assert_same(rt, found.map(|value| *value), Some(2));
    assert_same(rt, map.contains_key(rt, "abc"), false);
    let removed = map.remove(rt, "ab").map(|value| *value);
    assert_same(rt, (removed, memory.requests()), (Some(2), 0))
}

#[test]
fn calls_by_text_take_no_memory(rt: HostRuntime) {
    let memory = metered(&rt, rt.alloc());
    take_no_memory(&rt, rt.alloc(), memory, &HashMap::new(memory))
}
