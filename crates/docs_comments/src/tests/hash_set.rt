//! The examples of the shared set's doc comments.

use flurry::HashSet;
use std::test::Fail;

#[test]
fn new(rt: HostRuntime) -> Result<(), Fail> {
    let set: HashSet<u64> = HashSet::new(rt.alloc());
    set.insert(&rt, 37)?;
    assert_eq!(rt; set.len(&rt), 1);
    Ok(())
}

#[test]
fn pin(rt: HostRuntime) -> Result<(), Fail> {
    let set: HashSet<u64> = HashSet::new(rt.alloc());
    let view = set.pin(&rt);
    assert!(rt; view.insert(37)?);
    assert!(rt; view.contains(&37));
    Ok(())
}

#[test]
fn contains(rt: HostRuntime) -> Result<(), Fail> {
    let set: HashSet<u64> = HashSet::new(rt.alloc());
    set.insert(&rt, 37)?;
    assert!(rt; set.contains(&rt, &37));
    assert!(rt; !set.contains(&rt, &38));
    Ok(())
}

#[test]
fn get(rt: HostRuntime) -> Result<(), Fail> {
    let set: HashSet<u64> = HashSet::new(rt.alloc());
    set.insert(&rt, 37)?;
    assert_eq!(rt; set.get(&rt, &37)?.map(|element| *element), Some(37));
    assert!(rt; set.get(&rt, &38)?.is_none());
    Ok(())
}

#[test]
fn insert(rt: HostRuntime) -> Result<(), Fail> {
    let set: HashSet<u64> = HashSet::new(rt.alloc());
    assert!(rt; set.insert(&rt, 37)?);
    assert!(rt; !set.insert(&rt, 37)?);
    Ok(())
}

#[test]
fn remove(rt: HostRuntime) -> Result<(), Fail> {
    let set: HashSet<u64> = HashSet::new(rt.alloc());
    set.insert(&rt, 37)?;
    assert!(rt; set.remove(&rt, &37));
    assert!(rt; !set.remove(&rt, &37));
    Ok(())
}

#[test]
fn retain(rt: HostRuntime) -> Result<(), Fail> {
    let set: HashSet<u64> = HashSet::new(rt.alloc());
    set.insert(&rt, 37)?;
    set.insert(&rt, 38)?;
    set.retain(&rt, |element: &u64| -> bool { *element % 2 == 0 })?;
    assert!(rt; !set.contains(&rt, &37));
    assert!(rt; set.contains(&rt, &38));
    Ok(())
}

#[test]
fn extend(rt: HostRuntime) -> Result<(), Fail> {
    let set: HashSet<u64> = HashSet::new(rt.alloc());
    let mut list = Vec::new(rt.alloc());
    list.push(37)?;
    list.push(37)?;
    set.extend(&rt, list)?;
    assert_eq!(rt; set.len(&rt), 1);
    Ok(())
}

#[test]
fn clear(rt: HostRuntime) -> Result<(), Fail> {
    let set: HashSet<u64> = HashSet::new(rt.alloc());
    set.insert(&rt, 37)?;
    set.clear(&rt);
    assert!(rt; set.is_empty(&rt));
    Ok(())
}
