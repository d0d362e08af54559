//! The pairs that a map keeps of a hundred.
use super::assert_same;
use flurry_seq::SeqMap;

#[test]
fn keeps_even_values(rt: HostRuntime) {
    let rt = &rt;
    let mut map: SeqMap<u64, u64> = SeqMap::new(rt.alloc());
    for key in 0u64..100 {
        let _ = map.insert(key, key * 3).expect(rt, "memory");
    }
    let bins = map.capacity();
    let mut calls = 0u64;
    map.retain(|_: &u64, value: &u64| {
        calls = calls.wrapping_add(1);
        *value % 2 == 0
    });
    assert_same(rt, calls, 100);
    assert_same(rt, map.len(), 50);
    assert_same(rt, map.capacity(), bins);
    for key in 0u64..100 {
        assert_same(rt, map.contains_key(&key), key % 2 == 0);
    }
    map.retain_force(|key: &u64, _: &u64| *key < 10);
    assert_same(rt, map.len(), 5);
}
