//! The examples of the owned set's doc comments.

use flurry::SeqSet;
use std::test::Fail;

#[test]
fn new(rt: HostRuntime) -> Result<(), Fail> {
    let mut set: SeqSet<u64> = SeqSet::new(rt.alloc());
    assert!(rt; set.is_empty());
    set.insert(37)?;
    assert_eq!(rt; set.len(), 1);
    Ok(())
}

#[test]
fn insert(rt: HostRuntime) -> Result<(), Fail> {
    let mut set: SeqSet<u64> = SeqSet::new(rt.alloc());
    assert!(rt; set.insert(37)?);
    assert!(rt; !set.insert(37)?);
    assert_eq!(rt; set.len(), 1);
    Ok(())
}

#[test]
fn contains(rt: HostRuntime) -> Result<(), Fail> {
    let mut set: SeqSet<u64> = SeqSet::new(rt.alloc());
    set.insert(37)?;
    assert!(rt; set.contains(&37));
    assert!(rt; !set.contains(&38));
    Ok(())
}

#[test]
fn get(rt: HostRuntime) -> Result<(), Fail> {
    let mut set: SeqSet<u64> = SeqSet::new(rt.alloc());
    set.insert(37)?;
    assert_eq!(rt; set.get(&37).map(|element| **element), Some(37));
    assert!(rt; set.get(&38).is_none());
    Ok(())
}

#[test]
fn remove(rt: HostRuntime) -> Result<(), Fail> {
    let mut set: SeqSet<u64> = SeqSet::new(rt.alloc());
    set.insert(37)?;
    assert!(rt; set.remove(&37));
    assert!(rt; !set.remove(&37));
    Ok(())
}

#[test]
fn iter(rt: HostRuntime) -> Result<(), Fail> {
    let mut set: SeqSet<u64> = SeqSet::new(rt.alloc());
    set.insert(37)?;
    set.insert(38)?;
    let mut sum: u64 = 0;
    for element in set.iter() {
        sum = sum.saturating_add(**element);
    }
    assert_eq!(rt; sum, 75);
    Ok(())
}

#[test]
fn retain(rt: HostRuntime) -> Result<(), Fail> {
    let mut set: SeqSet<u64> = SeqSet::new(rt.alloc());
    set.insert(37)?;
    set.insert(38)?;
    set.retain(|element: &u64| -> bool { *element % 2 == 0 });
    assert!(rt; !set.contains(&37));
    assert!(rt; set.contains(&38));
    Ok(())
}

#[test]
fn extend(rt: HostRuntime) -> Result<(), Fail> {
    let mut set: SeqSet<u64> = SeqSet::new(rt.alloc());
    let mut list = Vec::new(rt.alloc());
    list.push(37)?;
    list.push(37)?;
    set.extend(list)?;
    assert_eq!(rt; set.len(), 1);
    Ok(())
}

#[test]
fn clear(rt: HostRuntime) -> Result<(), Fail> {
    let mut set: SeqSet<u64> = SeqSet::new(rt.alloc());
    set.insert(37)?;
    set.clear();
    assert!(rt; set.is_empty());
    Ok(())
}
