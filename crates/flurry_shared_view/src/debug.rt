//! The `Debug` form of a view.
use crate::HashMapRef;
use flurry_base::hash::KeyHasher;
use std::alloc::Allocator;
use std::fmt;
use std::sync::Wait;

/// `HashMapRef { len: 2, .. }` for a map that counts two pairs. Takes the locks of [`HashMapRef::len`]. The pairs are not shown, since other
/// calls may change them meanwhile.
impl<'m, R: Wait, K: Ord + Drop, V: Drop, S: KeyHasher<K>, A: Allocator + Copy> fmt::Debug
    for HashMapRef<'m, R, K, V, S, A> {
    fn fmt<W: fmt::Write>(&self, f: &mut fmt::Formatter<W>) -> fmt::Result {
        write!(f, "HashMapRef {{ len: {}, .. }}", self.len())
    }
}
