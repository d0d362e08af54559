//! The calls of one key. An insertion copies the key and the value.
ghost use Rattle.std.specs.Prelude.{◌≡◌, IfOk, IsTrue, OnErr, is_some, length, not};
ghost use Rattle.std.specs.Option.{option_map};
ghost use Rattle.flurry_base.specs.FiniteMap.{value_at, with_pair, without};
ghost use Rattle.flurry_base.specs.declared.sizes.TheConstants.{FIRST_BINS};
ghost use Rattle.flurry_seq.specs.Contents.{first_bins};
ghost use Rattle.flurry_seq.specs.Growth.{IsTableAfter};
ghost use Rattle.flurry_c_base.specs.ByteMaps.{bytes_in, KeepsOrAdds};
ghost use Rattle.flurry_c_base.specs.ByteStrings.{byte_order};

use super::ByteMap;
use crate::byte_query::ByteQuery;
use std::alloc::{AllocError, Global};

impl ByteMap {
    /// Returns the bytes of the value of `key`, or `None` if it is absent.
    #[tactic(auto, using(crate::proofs::ByteQueryLaws::value_by_bytes))]
    pub fn get(&self, key: &[u8]) -> Option<&[u8]>
        ensures { option_map (λ v. v.now) result ≡ value_at byte_order (bytes_in self.now) key.now }
    {
        match self.map.get(ByteQuery(key)) {
            Some(found) => Some(found.as_slice()),
            None => None,
        }
    }

    /// Inserts a copy of the pair, and returns `true` if `key` was present, whose value is replaced.
    ///
    /// # Errors
    ///
    /// Returns [`AllocError`] if memory cannot be allocated, or if the key is new and the map has as many pairs as it can. The map is
    /// unchanged.
    #[tactic(auto, using(crate::proofs::ByteLaws::value_at_bytes, crate::proofs::ByteLaws::with_pair_bytes))]
    pub fn insert(&mut self, alloc: Global, key: &[u8], value: &[u8]) -> Result<bool, AllocError>
        ensures found { IfOk result (λ found. found ≡ is_some (value_at byte_order (bytes_in self.old) key.now)) }
        ensures pairs { IfOk result
            (λ _. bytes_in self.new ≡ with_pair byte_order (bytes_in self.old) key.now value.now) }
        ensures bins { IfOk result (λ found. IsTrue found → self.new.map.bins ≡ self.old.map.bins) }
        ensures grown { IfOk result (λ found. IsTrue (not found)
            → IsTableAfter (first_bins self.old.map.bins FIRST_BINS) (length self.new.map.pairs) self.new.map.bins) }
        ensures err { OnErr result (self.new ≡ self.old) }
    {
        let key = key.to_vec(alloc)?;
        let value = value.to_vec(alloc)?;
        Ok(self.map.insert(key, value)?.is_some())
    }

    /// Inserts a copy of the pair if `key` is absent. Returns `true` if it was present, and so nothing changed.
    ///
    /// # Errors
    ///
    /// Returns [`AllocError`] as [`ByteMap::insert`] does.
    #[tactic(auto, using(crate::proofs::ByteLaws::value_at_bytes, crate::proofs::ByteLaws::with_pair_bytes))]
    pub fn try_insert(
        &mut self,
        alloc: Global,
        key: &[u8],
        value: &[u8],
    ) -> Result<bool, AllocError>
        ensures found { IfOk result (λ found. found ≡ is_some (value_at byte_order (bytes_in self.old) key.now)) }
        ensures pairs { IfOk result (λ _. KeepsOrAdds (bytes_in self.old) key.now value.now (bytes_in self.new)) }
        ensures bins { IfOk result (λ found. IsTrue found → self.new.map.bins ≡ self.old.map.bins) }
        ensures grown { IfOk result (λ found. IsTrue (not found)
            → IsTableAfter (first_bins self.old.map.bins FIRST_BINS) (length self.new.map.pairs) self.new.map.bins) }
        ensures err { OnErr result (self.new ≡ self.old) }
    {
        let key = key.to_vec(alloc)?;
        let value = value.to_vec(alloc)?;
        Ok(self.map.try_insert(key, value)?.is_err())
    }

    /// Removes the pair of `key`, and returns `true` if there was one.
    #[tactic(auto, using(crate::proofs::ByteQueryLaws::value_by_bytes, crate::proofs::ByteQueryLaws::without_by_bytes))]
    pub fn remove(&mut self, key: &[u8]) -> bool
        ensures found { result ≡ is_some (value_at byte_order (bytes_in self.old) key.now) }
        ensures pairs { bytes_in self.new ≡ without byte_order (bytes_in self.old) key.now }
        ensures bins { self.new.map.bins ≡ self.old.map.bins }
    {
        self.map.remove(ByteQuery(key)).is_some()
    }
}
