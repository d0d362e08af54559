//! Keeping some of the entries of a list.
ghost use Rattle.std.specs.Prelude.{◌≡◌, ◌≤◌, length};
ghost use Rattle.flurry_bins.specs.Chain.{chain};
ghost use Rattle.flurry_base.specs.Keeps.{Keeps};
ghost use Rattle.flurry_bins.specs.EntryCall.{CalledAtEntry};
ghost use Rattle.flurry_base.specs.declared.sizes.TheConstants.{MAX_LEN};

use super::{ListBin, detach_tail, prepend, prepend_reversed};
use crate::bin::node::{Link, Node};
use std::alloc::Allocator;
use std::mem;

// The nodes of a chain for whose entries `keep` returns `true`, in their order, and the number of these nodes.
fn retained<K: Drop, V: Drop, A: Allocator, F: FnMut(&K, &V) -> bool>(
    head: Link<K, V, A>,
    keep: &mut F,
) -> (Link<K, V, A>, usize)
    requires callable { F.IsAlwaysCallable keep.old }
    requires short { length (chain head) ≤ MAX_LEN }
    ensures kept { Keeps (CalledAtEntry F.step) keep.old (chain head) (chain result.0) keep.new }
    ensures len { result.1 ≡ length (chain result.0) }
    ensures callable { F.IsAlwaysCallable keep.new }
{
    let mut rest = head;
    let mut kept = None;
    let mut len = 0;
    while let Some(node) = rest {
        let (node, behind) = detach_tail(node);
        rest = behind;
        let entry = node.entry();
        if keep(entry.key.as_ref(), entry.value.as_ref()) {
            kept = Some(prepend(node, kept));
            len += 1;
        }
    }
    (prepend_reversed(kept, None), len)
}

impl<K: Ord + Drop, V: Drop, A: Allocator> ListBin<K, V, A> {
    ghost use Rattle.flurry_bins.specs.Bin.{entries_of_list};

    /// Calls `keep` once on the key and the value of each entry, in the order of the entries, and keeps only the entries for which it
    /// returns `true`. One call for each entry. Takes no memory.
    pub fn retain<F: FnMut(&K, &V) -> bool>(&mut self, keep: &mut F)
        requires { F.IsAlwaysCallable keep.old }
        ensures kept { Keeps (CalledAtEntry F.step) keep.old (entries_of_list self.old)
            (entries_of_list self.new) keep.new }
        ensures callable { F.IsAlwaysCallable keep.new }
    {
        let (head, _) = mem::replace(self, ListBin::new()).into_chain();
        let (head, len) = retained(head, keep);
        *self = ListBin::from_chain(head, len);
    }
}
