//! The hashers. Each hash map is measured with the same ones.
ghost use Rattle.flurry_bench.specs.NumberHashes.{number_hash, number_hash-alike};

use flurry_base::hash::KeyHasher;
use std::hash::{BuildHasher, BuildHasherDefault, FoldHasher, Hasher};

/// The hasher that the kit's `HashMap` uses by default.
pub type Fold = BuildHasherDefault<FoldHasher>;

/// A hasher of the kit, as a hasher for the maps of this repository.
#[derive(Clone, Copy, Default)]
pub struct OfKit<B> {
    builder: B,
}

impl<B: BuildHasher> KeyHasher<u64> for OfKit<B> {
    ghost hash_of = { λ s key. number_hash B.Hasher.write B.Hasher.finish (B.build_hasher s.builder) key };

    ghost alike = { λ s x y e. number_hash-alike B.Hasher.write B.Hasher.finish (B.build_hasher s.builder) x y e };

    fn hash_one(&self, key: &u64) -> u64 {
        self.builder.hash_one(*key)
    }
}

/// A hasher that gives every key the hash 0.
#[derive(Clone, Copy, Default)]
pub struct OneHash;

impl Hasher for OneHash {
    ghost write = { λ hasher bytes. hasher };

    ghost finish = { λ hasher. 0 };

    fn finish(&self) -> u64 {
        0
    }

    fn write(&mut self, _bytes: &[u8]) {}
}

impl BuildHasher for OneHash {
    type Hasher = OneHash;

    ghost build_hasher = { λ builder. builder };

    fn build_hasher(&self) -> OneHash {
        *self
    }
}
