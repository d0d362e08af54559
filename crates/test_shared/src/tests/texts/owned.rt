//! Look-ups by text in an owned map.

use super::super::metered;
use super::{ABSENT, PRESENT, assert_same, string_of, taken};
use flurry_base::hash::{DefaultHashBuilder, KeyHasher, MaxHashBuilder, ZeroHashBuilder};
use flurry_base::query::HashedQuery;
use flurry_seq::SeqMap;
use metered_alloc::MeteredAlloc;
use std::alloc::{Allocator, Global};
use std::process::Abort;

// Inserts each text that is to be present, with its place in the list as its value.
fn fill<S: KeyHasher<String>, A: Allocator + Copy>(
    rt: &impl Abort,
    alloc: Global,
    map: &mut SeqMap<String, u64, S, A>,
) {
    let mut place = 0u64;
    for text in PRESENT {
        map.insert(string_of(rt, alloc, text), place)
            .expect(rt, "memory for a pair");
        place = place.saturating_add(1);
    }
}

// Returns the value at a text, after comparing what each kind of look-up finds.
fn found<S: KeyHasher<String>, A: Allocator + Copy, Q: HashedQuery<String, S>>(
    rt: &impl Abort,
    map: &SeqMap<String, u64, S, A>,
    text: Q,
) -> Option<u64> {
    let value = map.get(text).map(|value| **value);
    let pair = map.get_key_value(text).map(|(_, value)| **value);
    assert_same(rt, (pair, map.contains_key(text)), (value, value.is_some()));
    value
}

// Looks for each text, as a `&str` and as a `&String`.
fn look_for_all<'t, S: KeyHasher<String>>(
    rt: &impl Abort,
    alloc: Global,
    map: &SeqMap<String, u64, S>,
)
where
    &'t str: HashedQuery<String, S>,
{
    let mut place = 0u64;
    for text in PRESENT {
        assert_same(rt, found(rt, map, text), Some(place));
        assert_same(rt, found(rt, map, &string_of(rt, alloc, text)), Some(place));
        place = place.saturating_add(1);
    }
    for text in ABSENT {
        assert_same(rt, found(rt, map, text), None);
    }
}

#[test]
fn look_ups_by_text_and_by_string(rt: HostRuntime) {
    let mut map = SeqMap::new(rt.alloc());
    fill(&rt, rt.alloc(), &mut map);
    look_for_all::<DefaultHashBuilder>(&rt, rt.alloc(), &map);
}

#[test]
fn look_ups_among_texts_of_one_hash(rt: HostRuntime) {
    let rt = &rt;
    let mut least = SeqMap::with_hasher(rt.alloc(), ZeroHashBuilder);
    fill(rt, rt.alloc(), &mut least);
    look_for_all(rt, rt.alloc(), &least);
    let mut greatest = SeqMap::with_hasher(rt.alloc(), MaxHashBuilder);
    fill(rt, rt.alloc(), &mut greatest);
    look_for_all(rt, rt.alloc(), &greatest);
}

// Changes the value at a text by each call that does so.
fn changes(rt: &impl Abort, map: &mut SeqMap<String, u64>) {
    let new = map.compute_if_present("ab", |_: &String, value: &u64| value.checked_add(10));
    assert_same(rt, taken(new.expect(rt, "memory")), Some(12));
    let new = map.update("ab", |_: &String, value: &u64| value.saturating_add(1));
    assert_same(rt, taken(new.expect(rt, "memory")), Some(13));
    let old = map.replace_if("ab", |_: &String, value: &u64| *value == 13, 7);
    let old = old.expect(rt, "memory").ok();
    assert_same(rt, taken(old), Some(13));
    let kept = map.remove_if("ab", |_: &String, value: &u64| *value > 7);
    assert_same(rt, taken(kept), None);
    assert_same(rt, map.get("ab").map(|value| **value), Some(7));
    let absent = map.update("abc", |_: &String, value: &u64| *value);
    assert_same(rt, taken(absent.expect(rt, "memory")), None);
}

// Removes the pair of a text by each call that does so.
fn removals(rt: &impl Abort, map: &mut SeqMap<String, u64>) {
    let removed = map.remove_if("ab", |key: &String, _: &u64| key.len() == 2);
    assert_same(rt, taken(removed), Some(7));
    assert_same(rt, taken(map.remove("a")), Some(1));
    assert_same(rt, taken(map.remove("a")), None);
    let entry = map
        .remove_entry("é")
        .map(|(key, value)| (key.len(), *value));
    assert_same(rt, entry, Some((2, 4)));
    assert_same(rt, map.len(), 3);
}

#[test]
fn changes_and_removals_by_text(rt: HostRuntime) {
    let rt = &rt;
    let mut map = SeqMap::new(rt.alloc());
    fill(rt, rt.alloc(), &mut map);
    changes(rt, &mut map);
    removals(rt, &mut map);
}

// Looks in a map for texts, while all requests of its memory fail.
fn take_no_memory<A: Allocator + Copy>(
    rt: &impl Abort,
    memory: &MeteredAlloc<Global>,
    map: &mut SeqMap<String, u64, DefaultHashBuilder, A>,
) {
    memory.refuse_from(0);
    assert_same(rt, found(rt, map, "ab"), Some(2));
    assert_same(rt, found(rt, map, "abc"), None);
    let removed = map.remove("ab").map(|value| *value);
    assert_same(rt, (removed, memory.requests()), (Some(2), 0))
}

#[test]
fn look_ups_by_text_take_no_memory(rt: HostRuntime) {
    let rt = &rt;
    let memory = metered(rt, rt.alloc());
    let mut map = SeqMap::new(memory);
    fill(rt, rt.alloc(), &mut map);
    take_no_memory(rt, memory, &mut map)
}
