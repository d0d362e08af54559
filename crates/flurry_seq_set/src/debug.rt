//! The `Debug` form of an owned set.
use crate::SeqSet;
use flurry_base::hash::KeyHasher;
use std::alloc::Allocator;
use std::fmt;

/// `SeqSet { len: 2, .. }` for a set of two elements. The elements are not shown, since their order is unspecified.
impl<T: Ord + Drop, S: KeyHasher<T>, A: Allocator> fmt::Debug for SeqSet<T, S, A> {
    ghost use Rattle.std.specs.Prelude.{◌++◌, length, Some, codes};
    ghost use Rattle.std.specs.Fmt.{decimal};

    ghost debug_output = { λ s. Some (codes "SeqSet { len: " ++ (decimal (length s.elements) ++ codes ", .. }")) };

    fn fmt<W: fmt::Write>(&self, f: &mut fmt::Formatter<W>) -> fmt::Result {
        write!(f, "SeqSet {{ len: {}, .. }}", self.len())
    }
}
