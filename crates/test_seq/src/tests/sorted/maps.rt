//! Maps as lists of pairs, and back.
ghost use Rattle.std.specs.Prelude.{◌≡◌, IfOk};

use super::super::steps::list_of;
use super::{assert_same, five, map_of};
use flurry_base::hash::LowHashBuilder;
use flurry_seq::SeqMap;
use flurry_seq_pairs::map::{from_pairs, to_sorted_pairs};
use flurry_seq_pairs::{FromPairsError, SortedPairs};
use std::alloc::AllocError;
use std::process::Abort;

// It is known here without a proof that the clones of numbers equal the numbers.
fn listed(map: &SeqMap<u64, u64, LowHashBuilder>) -> Result<SortedPairs<u64, u64>, AllocError>
    ensures pairs { IfOk result (λ list. list.0.items ≡ map.now.pairs) }
{
    to_sorted_pairs(map)
}

// Returns why no map is made of pairs.
fn fault<const N: usize>(
    rt: &(impl Abort + AllocGlobal),
    pairs: [(u64, u64); N],
) -> Option<FromPairsError> {
    let list = Vec::from_array(rt.alloc(), pairs).expect(rt, "memory for the pairs");
    from_pairs(SortedPairs(list), LowHashBuilder).err()
}

#[test]
fn a_key_that_stood_before(rt: HostRuntime) {
    assert_same(
        &rt,
        fault(&rt, [(1, 2), (1, 3)]),
        Some(FromPairsError::DoubledKey(1)),
    );
}

#[test]
fn the_first_of_two_keys_that_stood_before(rt: HostRuntime) {
    assert_same(
        &rt,
        fault(&rt, [(2, 0), (1, 0), (2, 0), (1, 0)]),
        Some(FromPairsError::DoubledKey(2)),
    );
}

#[test]
fn pairs_of_no_key_twice(rt: HostRuntime) {
    let rt = &rt;
    assert_same(rt, fault(rt, [(2, 0), (1, 0), (0, 0)]), None);
    assert_same(rt, fault(rt, []), None);
}

// The list of a hundred pairs, whose keys are those below a hundred, but for one at a place.
fn hundred(rt: &(impl Abort + AllocGlobal), place: usize, key: u64) -> Vec<(u64, u64)> {
    let mut list = Vec::new(rt.alloc());
    for number in 0..100u64 {
        let stood = if number == place as u64 { key } else { number };
        list.push((stood, number))
            .expect(rt, "memory for the pairs");
    }
    list
}

// Each place of a longer list is looked at, and tells where a key stood before.
#[test]
fn a_hundred_pairs(rt: HostRuntime) {
    let rt = &rt;
    for place in [6, 50, 99] {
        let fault = from_pairs(SortedPairs(hundred(rt, place, 3)), LowHashBuilder).err();
        assert_same(rt, fault, Some(FromPairsError::DoubledKey(place)));
    }
    let map = from_pairs(SortedPairs(hundred(rt, 50, 50)), LowHashBuilder);
    assert_same(rt, map.map(|map| map.len()).ok(), Some(100));
}

#[test]
fn many_pairs_there_and_back(rt: HostRuntime) {
    let rt = &rt;
    let made = from_pairs(
        SortedPairs(list_of(rt, rt.alloc(), 0, 2000, 3)),
        LowHashBuilder,
    );
    let map = made.expect(rt, "memory for the map");
    assert_same(rt, (map.capacity(), map.len()), (4096, 2000));
    let list = listed(&map).expect(rt, "memory for the list");
    assert_same(rt, list.0 == list_of(rt, rt.alloc(), 0, 2000, 3), true);
}

#[test]
fn there_and_back(rt: HostRuntime) {
    let rt = &rt;
    let map = five(rt);
    let list = listed(&map).expect(rt, "memory for the list");
    let wanted = Vec::from_array(rt.alloc(), [(0u64, 4u64), (1, 3), (2, 2), (3, 1), (4, 0)]);
    assert_same(rt, Some(&list.0), wanted.ok().as_ref());
    let back = from_pairs(list, LowHashBuilder).expect(rt, "memory for the map");
    assert_same(rt, back == map, true);
}

#[test]
fn any_order_is_read(rt: HostRuntime) {
    let rt = &rt;
    let list = Vec::from_array(rt.alloc(), [(2u64, 20u64), (0, 0), (1, 10)]).expect(
        rt,
        "memory for the pairs",
    );
    let map = from_pairs(SortedPairs(list), LowHashBuilder).expect(rt, "memory for the map");
    assert_same(rt, map == map_of(rt, [(0, 0), (1, 10), (2, 20)]), true);
}

// Checks the text of a fault.
fn prints(rt: &(impl Abort + AllocGlobal), fault: FromPairsError, wanted: &str) {
    let text = format!(in rt.alloc(); "{fault}").expect(rt, "memory for the text");
    assert_same(rt, text.as_str(), wanted);
}

#[test]
fn what_a_fault_prints(rt: HostRuntime) {
    let doubled = FromPairsError::DoubledKey(3);
    prints(&rt, doubled, "the key at position 3 stood before");
    prints(&rt, FromPairsError::NoMemory, "memory is wanting");
}
