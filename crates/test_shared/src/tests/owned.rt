//! An owned map that threads share, and that becomes an owned map again.

use super::workers::{count_own, insert_all, remove_even};
use super::{assert_same, insert};
use flurry_base::hash::{DefaultHashBuilder, KeyHasher, LowHashBuilder, ZeroHashBuilder};
use flurry_seq::SeqMap;
use flurry_shared::HashMap;
use std::alloc::Global;
use std::process::Abort;
use std::sync::{Arc, Wait};

// Returns an owned map of the keys below `count`, each with itself as its value.
fn owned<S: KeyHasher<u64> + Drop>(
    rt: &impl Abort,
    alloc: Global,
    hasher: S,
    count: u64,
) -> SeqMap<u64, u64, S> {
    let mut map = SeqMap::with_hasher(alloc, hasher);
    for key in 0..count {
        map.insert(key, key).expect(rt, "memory");
    }
    map
}

// Returns how many of the odd keys below `below` have themselves as values in an owned map.
fn count_odd<S: KeyHasher<u64>>(map: &SeqMap<u64, u64, S>, below: u64) -> u64 {
    let mut own = 0u64;
    for half in 0..below / 2 {
        let key = half.saturating_mul(2).saturating_add(1);
        if let Some(value) = map.get(&key) {
            if **value == key {
                own = own.saturating_add(1);
            }
        }
    }
    own
}

// Returns the shared map that an owned map becomes.
fn shared<S: KeyHasher<u64> + Drop, R: Abort + Wait>(
    rt: &R,
    map: SeqMap<u64, u64, S>,
) -> HashMap<u64, u64, S> {
    match HashMap::from_seq(rt, map) {
        Ok(map) => map,
        Err(_) => panic!(rt; "there is memory"),
    }
}

// Half of the keys below `count` are removed from the shared map. The owned map that it becomes has the others.
fn halve_and_own<S: KeyHasher<u64> + Drop, R: Abort + Wait>(
    rt: &R,
    map: HashMap<u64, u64, S>,
    count: u64,
) {
    assert_same(rt, map.len(rt) as u64, count);
    assert_same(rt, count_own(rt, &map, 0, count), count);
    assert_same(rt, remove_even(rt, &map, count), count.div_ceil(2));
    let map = map.into_seq(rt).expect(rt, "memory");
    assert_same(rt, map.len() as u64, count / 2);
    assert_same(rt, count_odd(&map, count), count / 2);
}

#[test]
fn owned_and_shared_and_owned_again(rt: HostRuntime) {
    let rt = &rt;
    let map = owned(rt, rt.alloc(), DefaultHashBuilder::default(), 10_000);
    halve_and_own(rt, shared(rt, map), 10_000);
    let map = owned(rt, rt.alloc(), ZeroHashBuilder, 100);
    halve_and_own(rt, shared(rt, map), 100);
    for count in 0..2u64 {
        let map = owned(rt, rt.alloc(), LowHashBuilder, count);
        halve_and_own(rt, shared(rt, map), count);
    }
}

// The shared map grows from the owned map's table on.
#[test]
fn a_shared_map_of_an_owned_one_grows(rt: HostRuntime) {
    let rt = &rt;
    let map = &shared(rt, owned(rt, rt.alloc(), LowHashBuilder, 100));
    assert_same(rt, insert_all(rt, map, 100, 1000), 0);
    assert_same(rt, map.len(rt), 1000);
    assert_same(rt, count_own(rt, map, 0, 1000), 1000);
}

// Returns a clone of the `Arc` of the value of the key 0.
fn value_at_0(rt: &impl Abort, map: &SeqMap<u64, u64, LowHashBuilder>) -> Arc<u64> {
    let value = map.get(&0).expect(rt, "the key is present");
    Arc::try_clone(value).expect(rt, "a further owner")
}

// Shares a map, sets the value of the key 0, and returns the owned map that it becomes again.
fn set_while_shared<R: Abort + Wait>(
    rt: &R,
    map: SeqMap<u64, u64, LowHashBuilder>,
) -> SeqMap<u64, u64, LowHashBuilder> {
    let map = shared(rt, map);
    assert_same(rt, insert(rt, &map, 0, 7), Some(0));
    map.into_seq(rt).expect(rt, "memory")
}

// A value that was returned before stays with its owner.
#[test]
fn a_value_has_its_other_owner_still(rt: HostRuntime) {
    let rt = &rt;
    let map = owned(rt, rt.alloc(), LowHashBuilder, 1);
    let value = value_at_0(rt, &map);
    let map = set_while_shared(rt, map);
    assert_same(rt, map.get(&0).map(|value| **value), Some(7));
    assert_same(rt, *value, 0);
}

// What was written to a shared map of an owned one goes by a `retain`, as in any other.
#[test]
fn a_written_pair_of_an_owned_map_goes(rt: HostRuntime) {
    let rt = &rt;
    let map = &shared(rt, owned(rt, rt.alloc(), LowHashBuilder, 3));
    assert_same(rt, insert(rt, map, 1, 7), Some(1));
    map.retain(rt, |_, _| false).expect(rt, "memory");
    assert_same(rt, map.is_empty(rt), true);
}
