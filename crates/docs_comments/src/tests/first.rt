//! The first example of README, word for word.

use flurry::SeqMap;
use std::test::Fail;

#[test]
fn first_steps(rt: HostRuntime) -> Result<(), Fail> {
    let mut map: SeqMap<u64, u64> = SeqMap::new(rt.alloc());

    assert!(rt; map.insert(7, 0)?.is_none());
    assert_eq!(rt; map.insert(7, 1)?.map(|old| *old), Some(0));
    assert_eq!(rt; map.get(&7).map(|value| **value), Some(1));
    assert_eq!(rt; map.remove(&7).map(|old| *old), Some(1));
    assert!(rt; map.is_empty());
    Ok(())
}
