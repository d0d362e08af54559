//! What keys and elements of bytes are looked up by.
ghost use Rattle.std.specs.Prelude.{◌≡◌};
ghost use Rattle.flurry_c_base.specs.ByteStrings.{byte_order};
ghost use Rattle.flurry_c_base.specs.ByteQuery.{vec_of};

use flurry_base::hash::DefaultHashBuilder;
use flurry_base::query::{HashedQuery, Query};
use std::cmp::Ordering;
use std::hash::{Hash, Hasher};

/// Bytes that stand for the vector of them, so that no vector is made for a look-up.
#[derive(Clone, Copy)]
pub struct ByteQuery<'x>(pub &'x [u8]);

impl Query<Vec<u8>> for ByteQuery<'_> {
    ghost stands_for = { λ s. vec_of s.0.now };

    fn compare(self, key: &Vec<u8>) -> Ordering {
        compare_bytes(self.0, key.as_slice())
    }
}

impl HashedQuery<Vec<u8>, DefaultHashBuilder> for ByteQuery<'_> {
    fn hash_by(self, hasher: &DefaultHashBuilder) -> u64 {
        let mut hasher = hasher.build_hasher();
        self.0.hash(&mut hasher);
        hasher.finish()
    }
}

// Compares bytes of one lifetime.
fn compare_bytes<'x>(a: &'x [u8], b: &'x [u8]) -> Ordering
    ensures { result ≡ byte_order a.now b.now }
{
    a.cmp(b)
}
