//! Look-ups by text in an owned and in a shared set.

use super::{ABSENT, PRESENT, assert_same, string_of};
use flurry_seq_set::SeqSet;
use flurry_shared_set::{HashSet, HashSetRef};
use std::alloc::Global;
use std::process::Abort;
use std::sync::{Arc, Wait};

// Returns the length of a text that a call returned.
fn length_of(text: Option<Arc<String>>) -> Option<usize> {
    text.map(|text| text.len())
}

// Returns the owned set of the texts that are to be present.
fn texts_of(rt: &impl Abort, alloc: Global) -> SeqSet<String> {
    let mut set = SeqSet::new(alloc);
    for text in PRESENT {
        set.insert(string_of(rt, alloc, text)).expect(rt, "memory");
    }
    set
}

// Looks for each text in an owned set.
fn look_in_owned(rt: &impl Abort, set: &SeqSet<String>) {
    for text in PRESENT {
        let length = set.get(text).map(|text| text.len());
        assert_same(rt, (set.contains(text), length), (true, Some(text.len())));
    }
    for text in ABSENT {
        let is_found = set.get(text).is_some();
        assert_same(rt, (set.contains(text), is_found), (false, false));
    }
}

// Removes two of the texts from an owned set.
fn remove_from_owned(rt: &impl Abort, set: &mut SeqSet<String>) {
    assert_same(rt, (set.remove("ab"), set.remove("ab")), (true, false));
    assert_same(rt, length_of(set.take("é")), Some(2));
    assert_same(rt, set.len(), 4)
}

#[test]
fn look_ups_in_an_owned_set(rt: HostRuntime) {
    let rt = &rt;
    let mut set = texts_of(rt, rt.alloc());
    look_in_owned(rt, &set);
    remove_from_owned(rt, &mut set)
}

// Looks for each text in a shared set.
fn look_in<R: Abort + Wait>(rt: &R, set: &HashSet<String>) {
    for text in PRESENT {
        assert_same(rt, set.contains(rt, text), true);
        let seen = set.get(rt, text).expect(rt, "memory");
        assert_same(rt, length_of(seen), Some(text.len()));
    }
    for text in ABSENT {
        assert_same(rt, set.contains(rt, text), false);
    }
}

// Inserts the texts that are to be present.
fn insert_texts<R: Abort + Wait>(rt: &R, alloc: Global, set: &HashSet<String>) {
    for text in PRESENT {
        set.insert(rt, string_of(rt, alloc, text))
            .expect(rt, "memory");
    }
}

// Removes two of the texts from a shared set.
fn remove_from<R: Abort + Wait>(rt: &R, set: &HashSet<String>) {
    assert_same(rt, set.remove(rt, "ab"), true);
    assert_same(rt, length_of(set.take(rt, "é")), Some(2))
}

// Removes two others by its view.
fn remove_by<R: Abort + Wait>(rt: &R, view: &HashSetRef<'_, R, String>) {
    assert_same(rt, view.contains("ab"), false);
    let seen = view.get("a").expect(rt, "memory");
    assert_same(rt, (length_of(seen), view.remove("a")), (Some(1), true));
    assert_same(rt, length_of(view.take("b")), Some(1));
    assert_same(rt, view.len(), 2)
}

#[test]
fn look_ups_in_a_shared_set(rt: HostRuntime) {
    let rt = &rt;
    let set = HashSet::new(rt.alloc());
    insert_texts(rt, rt.alloc(), &set);
    look_in(rt, &set);
    remove_from(rt, &set);
    remove_by(rt, &set.pin(rt))
}
