//! The `Debug` form of an owned map.
use crate::SeqMap;
use flurry_base::hash::KeyHasher;
use std::alloc::Allocator;
use std::fmt;

/// `SeqMap { len: 2, .. }` for a map of two pairs. The pairs are not shown, since their order is unspecified.
impl<K: Ord + Drop, V: Drop, S: KeyHasher<K>, A: Allocator> fmt::Debug for SeqMap<K, V, S, A> {
    ghost use Rattle.std.specs.Prelude.{◌++◌, length, Some, codes};
    ghost use Rattle.std.specs.Fmt.{decimal};

    ghost debug_output = { λ m. Some (codes "SeqMap { len: " ++ (decimal (length m.pairs) ++ codes ", .. }")) };

    fn fmt<W: fmt::Write>(&self, f: &mut fmt::Formatter<W>) -> fmt::Result {
        write!(f, "SeqMap {{ len: {}, .. }}", self.len())
    }
}
