//! What a caller of the maps and sets gets without a proof file. If a function needs laws, its attribute names them.
#![tactic(auto)]

ghost use Rattle.std.specs.Prelude.{◌≡◌, ◌≢◌, ◌+◌, ◌≤◌, ℕ, [], ◌∷◌, length, Some, None, OnOk, IfOk, is_some, String, string_bytes};
ghost use Rattle.std.specs.Global.{Global};
ghost use Rattle.std.specs.Ordering.{nat_cmp};
ghost use Rattle.std.specs.String.{string_cmp};
ghost use Rattle.flurry.specs.FiniteMap.{value_at};
ghost use Rattle.flurry.specs.FiniteSet.{element_at};

pub mod compute;
pub mod shared;

use flurry::{SeqMap, SeqSet};
use std::alloc::{AllocError, Global};
use std::hash::Hash;

type Map = SeqMap<u64, u64>;

/// Inserts a value, and returns what a look-up then finds: the value that was inserted.
#[tactic(auto, using(flurry::proofs::CallerLaws::map_calls))]
pub fn put_get(map: &mut Map, key: u64, value: u64) -> Result<Option<u64>, AllocError>
    ensures { IfOk result (λ r. r ≡ Some value) }
{
    map.insert(key, value)?;
    Ok(map.get(&key).map(|value| **value))
}

/// Inserts a value, and says as a fact on the map that the key then has it.
#[tactic(auto, using(flurry::proofs::CallerLaws::map_calls))]
pub fn put(map: &mut Map, key: u64, value: u64) -> Result<(), AllocError>
    ensures { OnOk result (value_at nat_cmp map.new.pairs key ≡ Some value) }
{
    map.insert(key, value)?;
    Ok(())
}

/// Inserts a pair. Other keys keep their values.
#[tactic(auto, using(flurry::proofs::CallerLaws::map_calls))]
pub fn put_others(map: &mut Map, key: u64, value: u64) -> Result<(), AllocError>
    ensures { OnOk result ((q : ℕ) → q ≢ key → value_at nat_cmp map.new.pairs q ≡ value_at nat_cmp map.old.pairs q) }
{
    map.insert(key, value)?;
    Ok(())
}

/// Removes a key, which is then absent.
#[tactic(auto, using(flurry::proofs::CallerLaws::map_calls))]
pub fn drop_key(map: &mut Map, key: u64)
    ensures { value_at nat_cmp map.new.pairs key ≡ None }
{
    let _ = map.remove(&key);
}

/// Removes a key. The number of pairs does not grow.
#[tactic(auto, using(flurry::proofs::CallerLaws::map_calls))]
pub fn drop_len(map: &mut Map, key: u64)
    ensures { length map.new.pairs ≤ length map.old.pairs }
{
    let _ = map.remove(&key);
}

/// Inserts a pair. The number of pairs grows by at most one.
#[tactic(auto, using(flurry::proofs::CallerLaws::map_calls))]
pub fn put_len(map: &mut Map, key: u64, value: u64) -> Result<(), AllocError>
    ensures { OnOk result (length map.new.pairs ≤ length map.old.pairs + 1) }
{
    map.insert(key, value)?;
    Ok(())
}

/// Returns a map of one pair.
pub fn one(alloc: Global, key: u64, value: u64) -> Result<Map, AllocError>
    ensures { IfOk result (λ m. m.pairs ≡ (key, value) ∷ []) }
{
    let mut map = SeqMap::new(alloc);
    map.insert(key, value)?;
    Ok(map)
}

/// Returns `true` if a key has a value in the map.
pub fn has(map: &Map, key: u64) -> bool
    ensures { result ≡ is_some (value_at nat_cmp map.now.pairs key) }
{
    map.contains_key(&key)
}

/// Replaces the value of a key if it is present, and returns `true` if it was.
pub fn set(map: &mut Map, key: u64, value: u64) -> Result<bool, AllocError>
    ensures { IfOk result (λ r. r ≡ is_some (value_at nat_cmp map.old.pairs key)) }
{
    let answer = map.compute_if_present(
        &key,
        move |_key: &u64, _old: &u64| -> Option<u64>
            ensures { result ≡ Some value }
        { Some(value) },
    )?;
    Ok(answer.is_some())
}

/// Returns the number of pairs, counted by iterating over them.
pub fn walk(map: &Map) -> usize
    ensures { result ≡ length map.now.pairs }
{
    map.iter().count()
}

/// Inserts a pair whose key has any type.
#[tactic(auto, using(flurry::proofs::CallerLaws::any_calls))]
pub fn put_any<K: Hash + Ord + Drop, V: Drop>(
    map: &mut SeqMap<K, V>,
    key: K,
    value: V,
) -> Result<(), AllocError>
    ensures { OnOk result (value_at K.cmp map.new.pairs key ≡ Some value) }
{
    map.insert(key, value)?;
    Ok(())
}

/// Inserts a pair whose key is a text.
#[tactic(auto, using(flurry::proofs::CallerLaws::text_calls))]
pub fn put_text(map: &mut SeqMap<String, u64>, key: String, value: u64) -> Result<(), AllocError>
    ensures same { OnOk result (value_at string_cmp map.new.pairs key ≡ Some value) }
    ensures others { OnOk result ((q : String Global) → string_bytes q ≢ string_bytes key
        → value_at string_cmp map.new.pairs q ≡ value_at string_cmp map.old.pairs q) }
{
    map.insert(key, value)?;
    Ok(())
}

/// Inserts an element into a set.
#[tactic(auto, using(flurry::proofs::CallerLaws::set_calls))]
pub fn put_element(set: &mut SeqSet<u64>, x: u64) -> Result<(), AllocError>
    ensures { OnOk result (element_at nat_cmp set.new.elements x ≡ Some x) }
{
    set.insert(x)?;
    Ok(())
}

/// Returns the stored one of equal elements, and inserts `x` if there is none.
pub fn keep_one(set: &mut SeqSet<u64>, x: u64) -> Result<u64, AllocError>
    ensures { IfOk result (λ r. element_at nat_cmp set.new.elements x ≡ Some r) }
{
    Ok(*set.get_or_insert(x)?)
}

/// Returns the value of a key, which is `value` if the key was absent and the pair is inserted.
#[tactic(auto, using(flurry::proofs::CallerLaws::map_calls))]
pub fn get_or_put(map: &mut Map, key: u64, value: u64) -> Result<u64, AllocError>
    ensures { IfOk result (λ r. value_at nat_cmp map.new.pairs key ≡ Some r) }
{
    match map.try_insert(key, value)? {
        Ok(new) => Ok(*new),
        Err(e) => Ok(*e.current),
    }
}

/// Inserts an element. Other elements stay.
#[tactic(auto, using(flurry::proofs::CallerLaws::set_calls))]
pub fn put_other_element(set: &mut SeqSet<u64>, x: u64) -> Result<(), AllocError>
    ensures { OnOk result ((q : ℕ) → q ≢ x
        → element_at nat_cmp set.new.elements q ≡ element_at nat_cmp set.old.elements q) }
{
    set.insert(x)?;
    Ok(())
}

/// Removes an element, which is then absent.
#[tactic(auto, using(flurry::proofs::CallerLaws::set_calls))]
pub fn drop_element(set: &mut SeqSet<u64>, x: u64)
    ensures { element_at nat_cmp set.new.elements x ≡ None }
{
    let _ = set.remove(&x);
}
