//! The examples of the shared map's doc comments.

use flurry::{Change, HashMap};
use std::test::Fail;

#[test]
fn new(rt: HostRuntime) -> Result<(), Fail> {
    let map: HashMap<u64, u64> = HashMap::new(rt.alloc());
    map.insert(&rt, 37, 1)?;
    assert_eq!(rt; map.len(&rt), 1);
    Ok(())
}

#[test]
fn pin(rt: HostRuntime) -> Result<(), Fail> {
    let map: HashMap<u64, u64> = HashMap::new(rt.alloc());
    let view = map.pin(&rt);
    view.insert(37, 1)?;
    assert_eq!(rt; view.get(&37)?.map(|value| *value), Some(1));
    Ok(())
}

#[test]
fn insert(rt: HostRuntime) -> Result<(), Fail> {
    let map: HashMap<u64, u64> = HashMap::new(rt.alloc());
    assert!(rt; map.insert(&rt, 37, 1)?.is_none());
    assert_eq!(rt; map.insert(&rt, 37, 2)?.map(|old| *old), Some(1));
    Ok(())
}

#[test]
fn get(rt: HostRuntime) -> Result<(), Fail> {
    let map: HashMap<u64, u64> = HashMap::new(rt.alloc());
    map.insert(&rt, 37, 1)?;
    assert_eq!(rt; map.get(&rt, &37)?.map(|value| *value), Some(1));
    assert!(rt; map.get(&rt, &38)?.is_none());
    Ok(())
}

#[test]
fn get_by_text(rt: HostRuntime) -> Result<(), Fail> {
    let years: HashMap<String, u64> = HashMap::new(rt.alloc());
    years.insert(&rt, String::from_str(rt.alloc(), "Ada")?, 1815)?;
    assert_eq!(rt; years.get(&rt, "Ada")?.map(|year| *year), Some(1815));
    assert!(rt; years.remove(&rt, "Alan").is_none());
    Ok(())
}

#[test]
fn contains_key(rt: HostRuntime) -> Result<(), Fail> {
    let map: HashMap<u64, u64> = HashMap::new(rt.alloc());
    map.insert(&rt, 37, 1)?;
    assert!(rt; map.contains_key(&rt, &37));
    assert!(rt; !map.contains_key(&rt, &38));
    Ok(())
}

#[test]
fn remove(rt: HostRuntime) -> Result<(), Fail> {
    let map: HashMap<u64, u64> = HashMap::new(rt.alloc());
    map.insert(&rt, 37, 1)?;
    assert_eq!(rt; map.remove(&rt, &37).map(|value| *value), Some(1));
    assert!(rt; map.remove(&rt, &37).is_none());
    Ok(())
}

#[test]
fn try_insert(rt: HostRuntime) -> Result<(), Fail> {
    let map: HashMap<u64, u64> = HashMap::new(rt.alloc());
    assert_eq!(rt; map.try_insert(&rt, 37, 1)?.ok().map(|new| *new), Some(1));
    let refused = map.try_insert(&rt, 37, 2)?.err();
    assert_eq!(rt;
        refused.map(|it| (*it.current, it.not_inserted)),
        Some((1, 2))
    );
    Ok(())
}

#[test]
fn compute_if_present(rt: HostRuntime) -> Result<(), Fail> {
    let map: HashMap<u64, u64> = HashMap::new(rt.alloc());
    map.insert(&rt, 37, 1)?;
    let new = map.compute_if_present(&rt, &37, |_key: &u64, value: &u64| -> Option<u64> {
        Some(value.saturating_add(1))
    })?;
    assert_eq!(rt; new.map(|new| *new), Some(2));

    // `None` removes the pair
    map.compute_if_present(&rt, &37, |_key: &u64, _value: &u64| -> Option<u64> { None })?;
    assert!(rt; map.is_empty(&rt));
    Ok(())
}

#[test]
fn retain(rt: HostRuntime) -> Result<(), Fail> {
    let map: HashMap<u64, u64> = HashMap::new(rt.alloc());
    map.insert(&rt, 37, 1)?;
    map.insert(&rt, 38, 2)?;
    map.retain(&rt, |key: &u64, _value: &u64| -> bool { *key % 2 == 0 })?;
    assert!(rt; !map.contains_key(&rt, &37));
    assert!(rt; map.contains_key(&rt, &38));
    Ok(())
}

#[test]
fn extend(rt: HostRuntime) -> Result<(), Fail> {
    let map: HashMap<u64, u64> = HashMap::new(rt.alloc());
    let mut list = Vec::new(rt.alloc());
    list.push((37, 1))?;
    list.push((37, 2))?;
    map.extend(&rt, list)?;
    assert_eq!(rt; map.get(&rt, &37)?.map(|value| *value), Some(2));
    Ok(())
}

#[test]
fn clear(rt: HostRuntime) -> Result<(), Fail> {
    let map: HashMap<u64, u64> = HashMap::new(rt.alloc());
    map.insert(&rt, 37, 1)?;
    map.clear(&rt);
    assert!(rt; map.is_empty(&rt));
    Ok(())
}

#[test]
fn with_processors(rt: HostRuntime) -> Result<(), Fail> {
    let map: HashMap<u64, u64> = HashMap::new(rt.alloc()).with_processors(4);
    map.insert(&rt, 1, 10)?;
    let view = map.pin(&rt);
    let found = view.get(&1)?.map(|value| *value);
    assert_eq!(rt; found, Some(10));
    Ok(())
}

#[test]
fn for_each(rt: HostRuntime) -> Result<(), Fail> {
    let map: HashMap<u64, u64> = HashMap::new(rt.alloc());
    map.insert(&rt, 37, 1)?;
    map.insert(&rt, 38, 2)?;
    let mut sum: u64 = 0;
    map.for_each(
        &rt,
        |_key: &u64, value: &u64| sum = sum.wrapping_add(*value),
    )?;
    assert_eq!(rt; sum, 3);
    Ok(())
}

#[test]
fn any(rt: HostRuntime) -> Result<(), Fail> {
    let map: HashMap<u64, u64> = HashMap::new(rt.alloc());
    map.insert(&rt, 37, 1)?;
    assert!(rt; map.any(&rt, |key: &u64, _value: &u64| -> bool { *key == 37 })?);
    assert!(rt; !map.any(&rt, |_key: &u64, value: &u64| -> bool { *value > 1 })?);
    Ok(())
}

#[test]
fn fold(rt: HostRuntime) -> Result<(), Fail> {
    let map: HashMap<u64, u64> = HashMap::new(rt.alloc());
    map.insert(&rt, 37, 1)?;
    map.insert(&rt, 38, 2)?;
    let greatest = map.fold(&rt, 0, |seen: u64, _key: &u64, value: &u64| -> u64 {
        seen.max(*value)
    })?;
    assert_eq!(rt; greatest, 2);
    Ok(())
}

#[test]
fn get_or_insert_with(rt: HostRuntime) -> Result<(), Fail> {
    let map: HashMap<u64, u64> = HashMap::new(rt.alloc());
    let new = map.get_or_insert_with(&rt, 37, |key: &u64| -> u64 { key.saturating_add(1) })?;
    assert_eq!(rt; *new, 38);
    let present = map.get_or_insert_with(&rt, 37, |_key: &u64| -> u64 { 0 })?;
    assert_eq!(rt; *present, 38);
    Ok(())
}

#[test]
fn compute(rt: HostRuntime) -> Result<(), Fail> {
    let map: HashMap<u64, u64> = HashMap::new(rt.alloc());
    for _ in 0..3 {
        map.compute(&rt, 37, |_key: &u64, old: Option<&u64>| -> Option<u64> {
            match old {
                Some(count) => Some(count.saturating_add(1)),
                None => Some(1),
            }
        })?;
    }
    assert_eq!(rt; map.get(&rt, &37)?.map(|count| *count), Some(3));

    // `None` removes the pair
    let change = map.compute(&rt, 37, |_key: &u64, _old: Option<&u64>| -> Option<u64> {
        None
    })?;
    assert!(rt; matches!(change, Change::Removed(_)));
    assert!(rt; map.is_empty(&rt));
    Ok(())
}

#[test]
fn merge(rt: HostRuntime) -> Result<(), Fail> {
    let map: HashMap<u64, u64> = HashMap::new(rt.alloc());
    for amount in [20, 22] {
        map.merge(&rt, 37, amount, |old: &u64, new: u64| -> Option<u64> {
            Some(old.saturating_add(new))
        })?;
    }
    assert_eq!(rt; map.get(&rt, &37)?.map(|sum| *sum), Some(42));
    Ok(())
}

#[test]
fn update(rt: HostRuntime) -> Result<(), Fail> {
    let map: HashMap<u64, u64> = HashMap::new(rt.alloc());
    map.insert(&rt, 37, 1)?;
    let new = map.update(&rt, &37, |_key: &u64, value: &u64| -> u64 {
        value.saturating_add(1)
    })?;
    assert_eq!(rt; new.map(|new| *new), Some(2));
    let absent = map.update(&rt, &38, |_key: &u64, value: &u64| -> u64 { *value })?;
    assert!(rt; absent.is_none());
    Ok(())
}

#[test]
fn remove_if(rt: HostRuntime) -> Result<(), Fail> {
    let map: HashMap<u64, u64> = HashMap::new(rt.alloc());
    map.insert(&rt, 37, 1)?;
    let kept = map.remove_if(&rt, &37, |_key: &u64, value: &u64| -> bool { *value > 1 });
    assert!(rt; kept.is_none());
    let removed = map.remove_if(&rt, &37, |_key: &u64, value: &u64| -> bool { *value == 1 });
    assert_eq!(rt; removed.map(|value| *value), Some(1));
    assert!(rt; map.is_empty(&rt));
    Ok(())
}

#[test]
fn replace_if(rt: HostRuntime) -> Result<(), Fail> {
    let map: HashMap<u64, u64> = HashMap::new(rt.alloc());
    map.insert(&rt, 37, 1)?;
    let old = map.replace_if(
        &rt,
        &37,
        |_key: &u64, value: &u64| -> bool { *value == 1 },
        2,
    )?;
    assert_eq!(rt; old.map(|old| *old), Some(1));
    let kept = map.replace_if(
        &rt,
        &37,
        |_key: &u64, value: &u64| -> bool { *value == 1 },
        3,
    )?;
    assert!(rt; kept.is_none());
    assert_eq!(rt; map.get(&rt, &37)?.map(|value| *value), Some(2));
    Ok(())
}
