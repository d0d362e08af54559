//! Keeping some of the entries of a table.
ghost use Rattle.std.specs.Prelude.{◌≡◌, ◌≤◌, length};
ghost use Rattle.flurry_seq.specs.Table.{all_pairs};
ghost use Rattle.flurry_seq.specs.Retain.{KeepsBins};
ghost use Rattle.flurry_base.specs.declared.sizes.TheConstants.{MAX_LEN};

use super::Table;
use flurry_bins::bin::Ordered;
use std::alloc::Allocator;

impl<K: Ord + Drop, V: Drop, A: Allocator> Table<K, V, A> {
    // Keeps the entries for whose key and value `keep` returns `true`, and returns their number.
    pub(crate) fn retain<F: FnMut(&K, &V) -> bool>(&mut self, keep: &mut F) -> usize
        requires callable { F.IsAlwaysCallable keep.old }
        requires few { length (all_pairs self.old) ≤ MAX_LEN }
        ensures kept { KeepsBins F.step keep.old self.old self.new keep.new }
        ensures len { result ≡ length (all_pairs self.new) }
    {
        let mut len = 0;
        for at in 0..self.bins.len() {
            let bin = &mut self.bins[at];
            bin.retain(keep);
            len += bin.len();
        }
        len
    }
}
