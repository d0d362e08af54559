//! Keeping some of the entries of a bin.
ghost use Rattle.std.specs.Prelude.{◌≡◌, ◌&&◌, nat_le, length};
ghost use Rattle.flurry_base.specs.Keeps.{Keeps};
ghost use Rattle.flurry_bins.specs.EntryCall.{CalledAtEntry};
ghost use Rattle.flurry_bins.specs.Kind.{kind_entries, kind_is_tree};
ghost use Rattle.flurry_base.specs.declared.sizes.TheConstants.{MIN_TREE_LEN};

use super::Bin;
use super::kind::Kind;
use crate::bin::ordered::Ordered;
use flurry_base::sizes::MIN_TREE_LEN;
use std::alloc::Allocator;
use std::mem;

impl<K: Ord + Drop, V: Drop, A: Allocator> Kind<K, V, A> {
    // Keeps the entries for which `keep` returns `true`. A tree that is left with fewer than seven nodes then becomes a list.
    fn retain<F: FnMut(&K, &V) -> bool>(self, keep: &mut F) -> Kind<K, V, A>
        requires { F.IsAlwaysCallable keep.old }
        ensures kept { Keeps (CalledAtEntry F.step) keep.old (kind_entries self) (kind_entries result) keep.new }
        ensures kind { kind_is_tree result ≡ (kind_is_tree self && nat_le MIN_TREE_LEN (length (kind_entries result))) }
        ensures callable { F.IsAlwaysCallable keep.new }
    {
        match self {
            Kind::AsTree(tree) => {
                let mut list = tree.into_tree().into_list();
                list.retain(keep);
                Kind::from_list(list, MIN_TREE_LEN)
            }
            few => {
                let mut list = few.into_list();
                list.retain(keep);
                Kind::of_list(list)
            }
        }
    }
}

impl<K: Ord + Drop, V: Drop, A: Allocator> Bin<K, V, A> {
    ghost use Rattle.flurry_bins.specs.Bin.{entries_of_bin, is_tree};

    #[tactic(auto, unfolding(crate::specs::Bin::entries_of_bin, crate::specs::Bin::is_tree))]
    /// Calls `keep` once on the key and the value of each entry, in the order of the entries, and keeps only the entries for which it
    /// returns `true`.
    ///
    /// A list stays a list. A tree stays a tree if it keeps at least seven entries, and becomes a list otherwise. One call for each entry.
    /// Takes no memory.
    pub fn retain<F: FnMut(&K, &V) -> bool>(&mut self, keep: &mut F)
        requires { F.IsAlwaysCallable keep.old }
        ensures kept { Keeps (CalledAtEntry F.step) keep.old (entries_of_bin self.old)
            (entries_of_bin self.new) keep.new }
        ensures kind { is_tree self.new
            ≡ (is_tree self.old && nat_le MIN_TREE_LEN (length (entries_of_bin self.new))) }
        ensures callable { F.IsAlwaysCallable keep.new }
    {
        let kind = mem::replace(&mut self.kind, Kind::Empty);
        self.kind = kind.retain(keep);
    }
}
