//! The examples of the owned map's doc comments.

use flurry::{Change, SeqMap};
use std::test::Fail;

#[test]
fn new(rt: HostRuntime) -> Result<(), Fail> {
    let mut map: SeqMap<u64, u64> = SeqMap::new(rt.alloc());
    assert!(rt; map.is_empty());
    map.insert(37, 1)?;
    assert_eq!(rt; map.len(), 1);
    Ok(())
}

#[test]
fn with_capacity(rt: HostRuntime) -> Result<(), Fail> {
    let map: SeqMap<u64, u64> = SeqMap::with_capacity(rt.alloc(), 100)?;
    assert!(rt; map.is_empty());
    assert_eq!(rt; map.capacity(), 256);
    Ok(())
}

#[test]
fn insert(rt: HostRuntime) -> Result<(), Fail> {
    let mut map: SeqMap<u64, u64> = SeqMap::new(rt.alloc());
    assert!(rt; map.insert(37, 1)?.is_none());
    assert_eq!(rt; map.insert(37, 2)?.map(|old| *old), Some(1));
    assert_eq!(rt; map.len(), 1);
    Ok(())
}

#[test]
fn get(rt: HostRuntime) -> Result<(), Fail> {
    let mut map: SeqMap<u64, u64> = SeqMap::new(rt.alloc());
    map.insert(37, 1)?;
    assert_eq!(rt; map.get(&37).map(|value| **value), Some(1));
    assert!(rt; map.get(&38).is_none());
    Ok(())
}

#[test]
fn get_by_text(rt: HostRuntime) -> Result<(), Fail> {
    let mut years: SeqMap<String, u64> = SeqMap::new(rt.alloc());
    years.insert(String::from_str(rt.alloc(), "Ada")?, 1815)?;
    assert_eq!(rt; years.get("Ada").map(|year| **year), Some(1815));
    assert!(rt; years.remove("Alan").is_none());
    Ok(())
}

#[test]
fn contains_key(rt: HostRuntime) -> Result<(), Fail> {
    let mut map: SeqMap<u64, u64> = SeqMap::new(rt.alloc());
    map.insert(37, 1)?;
    assert!(rt; map.contains_key(&37));
    assert!(rt; !map.contains_key(&38));
    Ok(())
}

#[test]
fn remove(rt: HostRuntime) -> Result<(), Fail> {
    let mut map: SeqMap<u64, u64> = SeqMap::new(rt.alloc());
    map.insert(37, 1)?;
    assert_eq!(rt; map.remove(&37).map(|value| *value), Some(1));
    assert!(rt; map.remove(&37).is_none());
    Ok(())
}

#[test]
fn try_insert(rt: HostRuntime) -> Result<(), Fail> {
    let mut map: SeqMap<u64, u64> = SeqMap::new(rt.alloc());
    assert_eq!(rt; map.try_insert(37, 1)?.ok().map(|new| *new), Some(1));
    let refused = map.try_insert(37, 2)?.err();
    assert_eq!(rt;
        refused.map(|it| (*it.current, it.not_inserted)),
        Some((1, 2))
    );
    Ok(())
}

#[test]
fn compute_if_present(rt: HostRuntime) -> Result<(), Fail> {
    let mut map: SeqMap<u64, u64> = SeqMap::new(rt.alloc());
    map.insert(37, 1)?;
    let new = map.compute_if_present(&37, |_key: &u64, value: &u64| -> Option<u64> {
        Some(value.saturating_add(1))
    })?;
    assert_eq!(rt; new.map(|new| *new), Some(2));

    // `None` removes the pair
    map.compute_if_present(&37, |_key: &u64, _value: &u64| -> Option<u64> { None })?;
    assert!(rt; map.is_empty());
    Ok(())
}

#[test]
fn compute(rt: HostRuntime) -> Result<(), Fail> {
    let mut map: SeqMap<u64, u64> = SeqMap::new(rt.alloc());
    for _ in 0..3 {
        map.compute(37, |_key: &u64, old: Option<&u64>| -> Option<u64> {
            match old {
                Some(count) => Some(count.saturating_add(1)),
                None => Some(1),
            }
        })?;
    }
    assert_eq!(rt; map.get(&37).map(|count| **count), Some(3));

    // `None` removes the pair
    let change = map.compute(37, |_key: &u64, _old: Option<&u64>| -> Option<u64> { None })?;
    assert!(rt; matches!(change, Change::Removed(_)));
    assert!(rt; map.is_empty());
    Ok(())
}

#[test]
fn merge(rt: HostRuntime) -> Result<(), Fail> {
    let mut map: SeqMap<u64, u64> = SeqMap::new(rt.alloc());
    for amount in [20, 22] {
        map.merge(37, amount, |old: &u64, new: u64| -> Option<u64> {
            Some(old.saturating_add(new))
        })?;
    }
    assert_eq!(rt; map.get(&37).map(|sum| **sum), Some(42));

    // `None` removes the pair
    let change = map.merge(37, 1, |_old: &u64, _new: u64| -> Option<u64> { None })?;
    assert!(rt; matches!(change, Change::Removed(_)));
    assert!(rt; map.is_empty());
    Ok(())
}

#[test]
fn update(rt: HostRuntime) -> Result<(), Fail> {
    let mut map: SeqMap<u64, u64> = SeqMap::new(rt.alloc());
    map.insert(37, 1)?;
    let new = map.update(&37, |_key: &u64, value: &u64| -> u64 {
        value.saturating_add(1)
    })?;
    assert_eq!(rt; new.map(|new| *new), Some(2));
    let absent = map.update(&38, |_key: &u64, value: &u64| -> u64 { *value })?;
    assert!(rt; absent.is_none());
    Ok(())
}

#[test]
fn get_or_insert_with(rt: HostRuntime) -> Result<(), Fail> {
    let mut map: SeqMap<u64, u64> = SeqMap::new(rt.alloc());
    let new = map.get_or_insert_with(37, |key: &u64| -> u64 { *key / 2 })?;
    assert_eq!(rt; *new, 18);
    let old = map.get_or_insert_with(37, |_key: &u64| -> u64 { 0 })?;
    assert_eq!(rt; *old, 18);
    Ok(())
}

#[test]
fn remove_if(rt: HostRuntime) -> Result<(), Fail> {
    let mut map: SeqMap<u64, u64> = SeqMap::new(rt.alloc());
    map.insert(37, 1)?;
    let kept = map.remove_if(&37, |_key: &u64, value: &u64| -> bool { *value > 1 });
    assert!(rt; kept.is_none());
    let removed = map.remove_if(&37, |_key: &u64, value: &u64| -> bool { *value == 1 });
    assert_eq!(rt; removed.map(|value| *value), Some(1));
    assert!(rt; map.is_empty());
    Ok(())
}

#[test]
fn replace_if(rt: HostRuntime) -> Result<(), Fail> {
    let mut map: SeqMap<u64, u64> = SeqMap::new(rt.alloc());
    map.insert(37, 1)?;
    let old = map.replace_if(&37, |_key: &u64, value: &u64| -> bool { *value == 1 }, 2)?;
    assert_eq!(rt; old.ok().map(|old| *old), Some(1));
    let kept = map.replace_if(&37, |_key: &u64, value: &u64| -> bool { *value == 1 }, 3)?;
    assert_eq!(rt; kept.err(), Some(3));
    assert_eq!(rt; map.get(&37).map(|value| **value), Some(2));
    Ok(())
}

#[test]
fn iter(rt: HostRuntime) -> Result<(), Fail> {
    let mut map: SeqMap<u64, u64> = SeqMap::new(rt.alloc());
    map.insert(37, 1)?;
    map.insert(38, 2)?;
    let mut sum: u64 = 0;
    for (key, value) in map.iter() {
        sum = sum.saturating_add(**key).saturating_add(**value);
    }
    assert_eq!(rt; sum, 78);
    Ok(())
}

#[test]
fn retain(rt: HostRuntime) -> Result<(), Fail> {
    let mut map: SeqMap<u64, u64> = SeqMap::new(rt.alloc());
    map.insert(37, 1)?;
    map.insert(38, 2)?;
    map.retain(|key: &u64, _value: &u64| -> bool { *key % 2 == 0 });
    assert!(rt; !map.contains_key(&37));
    assert!(rt; map.contains_key(&38));
    Ok(())
}

#[test]
fn extend(rt: HostRuntime) -> Result<(), Fail> {
    let mut map: SeqMap<u64, u64> = SeqMap::new(rt.alloc());
    let mut list = Vec::new(rt.alloc());
    list.push((37, 1))?;
    list.push((37, 2))?;
    map.extend(list)?;
    assert_eq!(rt; map.get(&37).map(|value| **value), Some(2));
    Ok(())
}

#[test]
fn clear(rt: HostRuntime) -> Result<(), Fail> {
    let mut map: SeqMap<u64, u64> = SeqMap::new(rt.alloc());
    map.insert(37, 1)?;
    map.clear();
    assert!(rt; map.is_empty());
    Ok(())
}
