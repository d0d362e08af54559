//! Keys and values that have other owners.

use super::assert_same;
use flurry_base::hash::ZeroHashBuilder;
use flurry_shared::HashMap;
use std::process::Abort;
use std::sync::{Arc, Wait};

// A map of which the keys and the values have other owners.
type Owners = HashMap<Arc<u64>, Arc<u64>, ZeroHashBuilder>;

fn owner<R: Abort>(rt: &R, of: &Arc<u64>) -> Arc<u64> {
    Arc::try_clone(of).expect(rt, "a further owner")
}

// Inserts a key and a value, and then another value.
fn fill<R: Abort + Wait>(rt: &R, map: &Owners, key: &Arc<u64>, old: &Arc<u64>, new: &Arc<u64>) {
    map.insert(rt, owner(rt, key), owner(rt, old))
        .expect(rt, "memory");
    assert_same(rt, (Arc::strong_count(key), Arc::strong_count(old)), (2, 2));
    map.insert(rt, owner(rt, key), owner(rt, new))
        .expect(rt, "memory");
    assert_same(rt, (Arc::strong_count(key), Arc::strong_count(old)), (2, 1));
    assert_same(rt, Arc::strong_count(new), 2)
}

// A value is dropped once another one replaced it, and the key and the other value with the map.
#[test]
fn a_map_drops_what_it_keeps(rt: HostRuntime) {
    let rt = &rt;
    let key = Arc::new(rt.alloc(), 0u64).expect(rt, "memory");
    let old = Arc::new(rt.alloc(), 1u64).expect(rt, "memory");
    let new = Arc::new(rt.alloc(), 2u64).expect(rt, "memory");
    let map = HashMap::with_hasher(rt.alloc(), ZeroHashBuilder);
    fill(rt, &map, &key, &old, &new);
    drop(map);
    assert_same(
        rt,
        (Arc::strong_count(&key), Arc::strong_count(&new)),
        (1, 1),
    );
}
