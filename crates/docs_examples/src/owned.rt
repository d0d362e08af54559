//! Callers of the owned map: pairs that stay, exact lengths, and removals at keys of other types.
ghost use Rattle.std.specs.Prelude.{◌≡◌, ◌≢◌, ◌+◌, ◌≤◌, ℕ, length, None, OnOk, is_some, if◌then◌else◌, String, string_bytes, false};
ghost use Rattle.std.specs.Global.{Global};
ghost use Rattle.std.specs.Ordering.{is_eq, nat_cmp};
ghost use Rattle.std.specs.String.{string_cmp};
ghost use Rattle.flurry.specs.FiniteMap.{value_at};
ghost use Rattle.flurry.specs.Invariant.{IsTableSize};
ghost use Rattle.flurry.specs.TheConstants.{MAX_LEN};

use flurry::{Change, SeqMap};
use std::alloc::AllocError;
use std::hash::Hash;

type Map = SeqMap<u64, u64>;

/// Removes a key. Other keys keep their values.
#[tactic(auto, using(flurry::proofs::CallerLaws::map_calls))]
pub fn drop_others(map: &mut Map, key: u64)
    ensures { (q : ℕ) → q ≢ key → value_at nat_cmp map.new.pairs q ≡ value_at nat_cmp map.old.pairs q }
{
    let _ = map.remove(&key);
}

/// Inserts a pair. The contract says exactly how many pairs the map then has.
#[tactic(auto, using(flurry::proofs::CallerLaws::map_calls))]
pub fn put_exact_len(map: &mut Map, key: u64, value: u64) -> Result<(), AllocError>
    ensures { let n = length map.old.pairs in let is_there = is_some (value_at nat_cmp map.old.pairs key) in
        OnOk result (length map.new.pairs ≡ (if is_there then n else n + 1)) }
{
    map.insert(key, value)?;
    Ok(())
}

/// Removes a key, and returns `true` if it was present. The contract says exactly how many pairs the map then has.
#[tactic(auto, using(flurry::proofs::CallerLaws::map_calls))]
pub fn drop_exact_len(map: &mut Map, key: u64) -> bool
    ensures { let n = length map.new.pairs in length map.old.pairs ≡ (if result then n + 1 else n) }
{
    map.remove(&key).is_some()
}

/// Puts, changes or removes the pair of a key as `f` says, and returns the value that the key then has.
pub fn value_after<F: FnOnce(&u64, Option<&u64>) -> Option<u64> + Drop>(
    map: &mut Map,
    key: u64,
    f: F,
) -> Result<Option<u64>, AllocError>
    requires { F.IsAlwaysCallable f }
{
    match map.compute(key, f)? {
        Change::Added(new) | Change::Changed(new) => Ok(Some(*new)),
        Change::Absent | Change::Removed(_) => Ok(None),
    }
}

/// Removes a key of any type, which is then absent.
#[tactic(auto, using(flurry::proofs::CallerLaws::any_calls))]
pub fn drop_any<K: Hash + Ord + Drop, V: Drop>(map: &mut SeqMap<K, V>, key: &K)
    ensures gone { value_at K.cmp map.new.pairs key.now ≡ None }
    ensures others { (q : K) → is_eq (K.cmp q key.now) ≡ false
        → value_at K.cmp map.new.pairs q ≡ value_at K.cmp map.old.pairs q }
    ensures fewer { length map.new.pairs ≤ length map.old.pairs }
{
    let _ = map.remove(key);
}

/// Removes a key that is a text, which is then absent.
#[tactic(auto, using(flurry::proofs::CallerLaws::text_calls))]
pub fn drop_text(map: &mut SeqMap<String, u64>, key: &String)
    ensures gone { value_at string_cmp map.new.pairs key.now ≡ None }
    ensures others { (q : String Global) → string_bytes q ≢ string_bytes key.now
        → value_at string_cmp map.new.pairs q ≡ value_at string_cmp map.old.pairs q }
{
    let _ = map.remove(key);
}

/// Returns the number of pairs, which has a bound, and the number of bins, which is one that a table can have.
pub fn pairs_and_bins(map: &Map) -> (usize, usize)
    ensures pairs { result.0 ≤ MAX_LEN }
    ensures bins { IsTableSize result.1 }
{
    (map.len(), map.capacity())
}
