//! The examples of the shared map's view.

use flurry::{Change, HashMap};
use std::test::Fail;

#[test]
fn insert(rt: HostRuntime) -> Result<(), Fail> {
    let map: HashMap<u64, u64> = HashMap::new(rt.alloc());
    let view = map.pin(&rt);
    assert!(rt; view.insert(37, 1)?.is_none());
    assert_eq!(rt; view.insert(37, 2)?.map(|old| *old), Some(1));
    Ok(())
}

#[test]
fn get(rt: HostRuntime) -> Result<(), Fail> {
    let map: HashMap<u64, u64> = HashMap::new(rt.alloc());
    let view = map.pin(&rt);
    view.insert(37, 1)?;
    assert_eq!(rt; view.get(&37)?.map(|value| *value), Some(1));
    assert!(rt; view.get(&38)?.is_none());
    Ok(())
}

#[test]
fn get_by_text(rt: HostRuntime) -> Result<(), Fail> {
    let years: HashMap<String, u64> = HashMap::new(rt.alloc());
    let view = years.pin(&rt);
    view.insert(String::from_str(rt.alloc(), "Ada")?, 1815)?;
    assert_eq!(rt; view.get("Ada")?.map(|year| *year), Some(1815));
    assert!(rt; view.remove("Alan").is_none());
    Ok(())
}

#[test]
fn contains_key(rt: HostRuntime) -> Result<(), Fail> {
    let map: HashMap<u64, u64> = HashMap::new(rt.alloc());
    let view = map.pin(&rt);
    view.insert(37, 1)?;
    assert!(rt; view.contains_key(&37));
    assert!(rt; !view.contains_key(&38));
    Ok(())
}

#[test]
fn remove(rt: HostRuntime) -> Result<(), Fail> {
    let map: HashMap<u64, u64> = HashMap::new(rt.alloc());
    let view = map.pin(&rt);
    view.insert(37, 1)?;
    assert_eq!(rt; view.remove(&37).map(|value| *value), Some(1));
    assert!(rt; view.remove(&37).is_none());
    Ok(())
}

#[test]
fn try_insert(rt: HostRuntime) -> Result<(), Fail> {
    let map: HashMap<u64, u64> = HashMap::new(rt.alloc());
    let view = map.pin(&rt);
    assert_eq!(rt; view.try_insert(37, 1)?.ok().map(|new| *new), Some(1));
    let refused = view.try_insert(37, 2)?.err();
    assert_eq!(rt;
        refused.map(|it| (*it.current, it.not_inserted)),
        Some((1, 2))
    );
    Ok(())
}

#[test]
fn compute_if_present(rt: HostRuntime) -> Result<(), Fail> {
    let map: HashMap<u64, u64> = HashMap::new(rt.alloc());
    let view = map.pin(&rt);
    view.insert(37, 1)?;
    let new = view.compute_if_present(&37, |_key: &u64, value: &u64| -> Option<u64> {
        Some(value.saturating_add(1))
    })?;
    assert_eq!(rt; new.map(|new| *new), Some(2));

    // `None` removes the pair
    view.compute_if_present(&37, |_key: &u64, _value: &u64| -> Option<u64> { None })?;
    assert!(rt; view.is_empty());
    Ok(())
}

#[test]
fn retain(rt: HostRuntime) -> Result<(), Fail> {
    let map: HashMap<u64, u64> = HashMap::new(rt.alloc());
    let view = map.pin(&rt);
    view.insert(37, 1)?;
    view.insert(38, 2)?;
    view.retain(|key: &u64, _value: &u64| -> bool { *key % 2 == 0 })?;
    assert!(rt; !view.contains_key(&37));
    assert!(rt; view.contains_key(&38));
    Ok(())
}

#[test]
fn clear(rt: HostRuntime) -> Result<(), Fail> {
    let map: HashMap<u64, u64> = HashMap::new(rt.alloc());
    let view = map.pin(&rt);
    view.insert(37, 1)?;
    view.clear();
    assert!(rt; view.is_empty());
    Ok(())
}

#[test]
fn for_each(rt: HostRuntime) -> Result<(), Fail> {
    let map: HashMap<u64, u64> = HashMap::new(rt.alloc());
    let view = map.pin(&rt);
    view.insert(37, 1)?;
    view.insert(38, 2)?;
    let mut sum: u64 = 0;
    view.for_each(|_key: &u64, value: &u64| sum = sum.wrapping_add(*value))?;
    assert_eq!(rt; sum, 3);
    Ok(())
}

#[test]
fn any(rt: HostRuntime) -> Result<(), Fail> {
    let map: HashMap<u64, u64> = HashMap::new(rt.alloc());
    let view = map.pin(&rt);
    view.insert(37, 1)?;
    assert!(rt; view.any(|key: &u64, _value: &u64| -> bool { *key == 37 })?);
    assert!(rt; !view.any(|_key: &u64, value: &u64| -> bool { *value > 1 })?);
    Ok(())
}

#[test]
fn fold(rt: HostRuntime) -> Result<(), Fail> {
    let map: HashMap<u64, u64> = HashMap::new(rt.alloc());
    let view = map.pin(&rt);
    view.insert(37, 1)?;
    view.insert(38, 2)?;
    let greatest = view.fold(0, |seen: u64, _key: &u64, value: &u64| -> u64 {
        seen.max(*value)
    })?;
    assert_eq!(rt; greatest, 2);
    Ok(())
}

#[test]
fn get_or_insert_with(rt: HostRuntime) -> Result<(), Fail> {
    let map: HashMap<u64, u64> = HashMap::new(rt.alloc());
    let view = map.pin(&rt);
    let new = view.get_or_insert_with(37, |key: &u64| -> u64 { key.saturating_add(1) })?;
    assert_eq!(rt; *new, 38);
    let present = view.get_or_insert_with(37, |_key: &u64| -> u64 { 0 })?;
    assert_eq!(rt; *present, 38);
    Ok(())
}

#[test]
fn compute(rt: HostRuntime) -> Result<(), Fail> {
    let map: HashMap<u64, u64> = HashMap::new(rt.alloc());
    let view = map.pin(&rt);
    for _ in 0..3 {
        view.compute(37, |_key: &u64, old: Option<&u64>| -> Option<u64> {
            match old {
                Some(count) => Some(count.saturating_add(1)),
                None => Some(1),
            }
        })?;
    }
    assert_eq!(rt; view.get(&37)?.map(|count| *count), Some(3));

    // `None` removes the pair
    let change = view.compute(37, |_key: &u64, _old: Option<&u64>| -> Option<u64> { None })?;
    assert!(rt; matches!(change, Change::Removed(_)));
    assert!(rt; view.is_empty());
    Ok(())
}

#[test]
fn merge(rt: HostRuntime) -> Result<(), Fail> {
    let map: HashMap<u64, u64> = HashMap::new(rt.alloc());
    let view = map.pin(&rt);
    for amount in [20, 22] {
        view.merge(37, amount, |old: &u64, new: u64| -> Option<u64> {
            Some(old.saturating_add(new))
        })?;
    }
    assert_eq!(rt; view.get(&37)?.map(|sum| *sum), Some(42));
    Ok(())
}

#[test]
fn update(rt: HostRuntime) -> Result<(), Fail> {
    let map: HashMap<u64, u64> = HashMap::new(rt.alloc());
    let view = map.pin(&rt);
    view.insert(37, 1)?;
    let new = view.update(&37, |_key: &u64, value: &u64| -> u64 {
        value.saturating_add(1)
    })?;
    assert_eq!(rt; new.map(|new| *new), Some(2));
    let absent = view.update(&38, |_key: &u64, value: &u64| -> u64 { *value })?;
    assert!(rt; absent.is_none());
    Ok(())
}

#[test]
fn remove_if(rt: HostRuntime) -> Result<(), Fail> {
    let map: HashMap<u64, u64> = HashMap::new(rt.alloc());
    let view = map.pin(&rt);
    view.insert(37, 1)?;
    let kept = view.remove_if(&37, |_key: &u64, value: &u64| -> bool { *value > 1 });
    assert!(rt; kept.is_none());
    let removed = view.remove_if(&37, |_key: &u64, value: &u64| -> bool { *value == 1 });
    assert_eq!(rt; removed.map(|value| *value), Some(1));
    assert!(rt; view.is_empty());
    Ok(())
}

#[test]
fn replace_if(rt: HostRuntime) -> Result<(), Fail> {
    let map: HashMap<u64, u64> = HashMap::new(rt.alloc());
    let view = map.pin(&rt);
    view.insert(37, 1)?;
    let old = view.replace_if(&37, |_key: &u64, value: &u64| -> bool { *value == 1 }, 2)?;
    assert_eq!(rt; old.map(|old| *old), Some(1));
    let kept = view.replace_if(&37, |_key: &u64, value: &u64| -> bool { *value == 1 }, 3)?;
    assert!(rt; kept.is_none());
    assert_eq!(rt; view.get(&37)?.map(|value| *value), Some(2));
    Ok(())
}
