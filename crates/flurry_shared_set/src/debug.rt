//! The `Debug` forms of a shared set and of its view.
use crate::{HashSet, HashSetRef};
use flurry_base::hash::KeyHasher;
use std::alloc::Allocator;
use std::fmt;
use std::sync::Wait;

/// `HashSet { .. }`. How many elements it counts is known under its locks, which a call without a runtime cannot take: print its view, as in
/// `set.pin(rt)`, to see the number.
impl<T: Ord, S: KeyHasher<T>, A: Allocator> fmt::Debug for HashSet<T, S, A> {
    ghost use Rattle.std.specs.Prelude.{Some, codes};

    ghost debug_output = { λ _. Some (codes "HashSet { .. }") };

    fn fmt<W: fmt::Write>(&self, f: &mut fmt::Formatter<W>) -> fmt::Result {
        f.write_str("HashSet { .. }")
    }
}

/// `HashSetRef { len: 2, .. }` for a set that counts two elements. Takes the locks of [`HashSetRef::len`]. The elements are not shown, since
/// other calls may change them meanwhile.
impl<'m, R: Wait, T: Ord + Drop, S: KeyHasher<T>, A: Allocator + Copy> fmt::Debug
    for HashSetRef<'m, R, T, S, A> {
    fn fmt<W: fmt::Write>(&self, f: &mut fmt::Formatter<W>) -> fmt::Result {
        write!(f, "HashSetRef {{ len: {}, .. }}", self.len())
    }
}
