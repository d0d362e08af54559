//! The `Debug` form of a shared map.
use crate::HashMap;
use flurry_base::hash::KeyHasher;
use std::alloc::Allocator;
use std::fmt;

/// `HashMap { .. }`. How many pairs it counts is known under its locks, which a call without a runtime cannot take: print its view, as in
/// `map.pin(rt)`, to see the number.
impl<K: Ord, V, S: KeyHasher<K>, A: Allocator> fmt::Debug for HashMap<K, V, S, A> {
    ghost use Rattle.std.specs.Prelude.{Some, codes};

    ghost debug_output = { λ _. Some (codes "HashMap { .. }") };

    fn fmt<W: fmt::Write>(&self, f: &mut fmt::Formatter<W>) -> fmt::Result {
        f.write_str("HashMap { .. }")
    }
}
