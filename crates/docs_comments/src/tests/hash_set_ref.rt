//! The examples of the shared set's view.

use flurry::HashSet;
use std::test::Fail;

#[test]
fn contains(rt: HostRuntime) -> Result<(), Fail> {
    let set: HashSet<u64> = HashSet::new(rt.alloc());
    let view = set.pin(&rt);
    view.insert(37)?;
    assert!(rt; view.contains(&37));
    assert!(rt; !view.contains(&38));
    Ok(())
}

#[test]
fn get(rt: HostRuntime) -> Result<(), Fail> {
    let set: HashSet<u64> = HashSet::new(rt.alloc());
    let view = set.pin(&rt);
    view.insert(37)?;
    assert_eq!(rt; view.get(&37)?.map(|element| *element), Some(37));
    assert!(rt; view.get(&38)?.is_none());
    Ok(())
}

#[test]
fn insert(rt: HostRuntime) -> Result<(), Fail> {
    let set: HashSet<u64> = HashSet::new(rt.alloc());
    let view = set.pin(&rt);
    assert!(rt; view.insert(37)?);
    assert!(rt; !view.insert(37)?);
    Ok(())
}

#[test]
fn remove(rt: HostRuntime) -> Result<(), Fail> {
    let set: HashSet<u64> = HashSet::new(rt.alloc());
    let view = set.pin(&rt);
    view.insert(37)?;
    assert!(rt; view.remove(&37));
    assert!(rt; !view.remove(&37));
    Ok(())
}

#[test]
fn retain(rt: HostRuntime) -> Result<(), Fail> {
    let set: HashSet<u64> = HashSet::new(rt.alloc());
    let view = set.pin(&rt);
    view.insert(37)?;
    view.insert(38)?;
    view.retain(|element: &u64| -> bool { *element % 2 == 0 })?;
    assert!(rt; !view.contains(&37));
    assert!(rt; view.contains(&38));
    Ok(())
}

#[test]
fn clear(rt: HostRuntime) -> Result<(), Fail> {
    let set: HashSet<u64> = HashSet::new(rt.alloc());
    let view = set.pin(&rt);
    view.insert(37)?;
    view.clear();
    assert!(rt; view.is_empty());
    Ok(())
}
