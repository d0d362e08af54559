//! A kept call, made on an owned map.
ghost use Rattle.std.specs.Prelude.{◌≡◌, OnErr, IfOk};
ghost use Rattle.flurry_seq_recorded.specs.Histories.{KeptAnswers};

use crate::kept::KeptCall;
use flurry_base::hash::KeyHasher;
use flurry_base::reply::KeptReply;
use flurry_seq::SeqMap;
use std::alloc::{AllocError, Allocator};

// Makes `call` on `map`, and returns its reply. If the call fails, the map is unchanged.
pub(crate) fn reply_to<K: Ord + Copy, V: Copy, S: KeyHasher<K>, A: Allocator + Copy>(
    map: &mut SeqMap<K, V, S, A>,
    call: KeptCall<K, V>,
) -> Result<KeptReply<K, V>, AllocError>
    ensures ok { IfOk result (λ r. KeptAnswers K.cmp call map.old.pairs r map.new.pairs) }
    ensures hasher { map.new.hasher ≡ map.old.hasher }
    ensures err { OnErr result (map.new ≡ map.old) }
{
    match call {
        KeptCall::Get(key) => Ok(KeptReply::Value(map.get(&key).map(|value| **value))),
        KeptCall::GetKeyValue(key) => {
            Ok(KeptReply::Pair(map.get_key_value(&key).map(|(key, value)| (**key, **value))))
        }
        KeptCall::ContainsKey(key) => Ok(KeptReply::Contains(map.contains_key(&key))),
        KeptCall::Insert(key, value) => {
            Ok(KeptReply::Value(map.insert(key, value)?.map(|value| *value)))
        }
        KeptCall::TryInsert(key, value) => match map.try_insert(key, value)? {
            Ok(value) => Ok(KeptReply::New(*value)),
            Err(error) => Ok(KeptReply::Exists {
                current: *error.current,
                not_inserted: error.not_inserted,
            }),
        },
        KeptCall::Remove(key) => Ok(KeptReply::Value(map.remove(&key).map(|value| *value))),
        KeptCall::RemoveEntry(key) => {
            Ok(KeptReply::Pair(map.remove_entry(&key).map(|(key, value)| (*key, *value))))
        }
    }
}
