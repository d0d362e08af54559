//! Insertion into a bin of a table, and two `Arc`s of one value. The sizes of tables, the place of a hash in a table and the replies of
//! calls are re-exported from [`flurry_base`].
ghost use Rattle.std.specs.Prelude.{◌≡◌, ◌<◌, ◌==◌, ◌&&◌, not, length, IfErr, IfOk, OnErr, IsNone, is_some, if◌then◌else◌};
ghost use Rattle.std.specs.Arc.{arc_value};
ghost use Rattle.flurry_bins.specs.Bin.{entries_of_bin, is_tree};
ghost use Rattle.flurry_bins.specs.Chain.{entry_of};
ghost use Rattle.flurry_base.specs.Given.{given_of, IsNotInserted};
ghost use Rattle.flurry_bins_insertion.specs.Inserted.{replaced_by, asks_by, IfReplaced};
ghost use Rattle.flurry_bins.specs.Entries.{entry_at, with_entry, IsInsertion};
ghost use Rattle.flurry_base.specs.BinSizes.{grows_into_tree, asks_for_growth};
ghost use Rattle.flurry_base.specs.declared.sizes.TheConstants.{TREEIFY_LEN, MAX_LEN};

use flurry_base::given::{Given, NotInserted, Replaced};
pub use flurry_base::reply::KeptReply;
use flurry_base::sizes::{MIN_TREEIFY_BINS, TREEIFY_LEN};
pub use flurry_base::sizes::{MAX_BINS, bin_index, stride, threshold, wanted};
pub use flurry_base::try_insert::TryInsertError;
use flurry_bins::bin::{Bin, BoxedNode, Ordered, Shape};
use std::alloc::{Allocator, Global};
use std::sync::Arc;

// Whether one more entry turns the bin into a tree, if the table is large, or else makes it ask for a larger table.
fn is_long_list<K: Ord + Drop, V: Drop, A: Allocator>(bin: &Bin<K, V, A>) -> bool
    ensures { result ≡ (not (is_tree bin.now) && (length (entries_of_bin bin.now) == TREEIFY_LEN)) }
{
    match bin.shape() {
        Shape::List(count) => count == TREEIFY_LEN,
        _ => false,
    }
}

/// Inserts a node whose hash and key are absent into its bin, in a table of `bins` bins. Returns `true` if the bin asks for a larger table:
/// a list of eight entries does so in a table of fewer than 64 bins, and becomes a tree in a table of 64 bins or more.
///
/// As many steps as a look-up. Takes no memory.
pub fn put_node_in_bin<K: Ord + Drop, V: Drop, A: Allocator>(
    bin: &mut Bin<K, V, A>,
    node: BoxedNode<K, V, A>,
    bins: usize,
) -> bool
    requires absent { let e = entry_of node.value in
        IsNone (entry_at K.cmp e.hash (arc_value e.key) (entries_of_bin bin.old)) }
    requires room { length (entries_of_bin bin.old) < MAX_LEN }
    ensures entries { entries_of_bin bin.new ≡ with_entry K.cmp (entry_of node.value) (entries_of_bin bin.old) }
    ensures kind { is_tree bin.new ≡ grows_into_tree bins (is_tree bin.old) (length (entries_of_bin bin.old)) }
    ensures asks { result ≡ asks_for_growth bins (is_tree bin.old) (length (entries_of_bin bin.old)) }
{
    let is_long = is_long_list(bin);
    bin.put_node(node);
    if is_long && bins >= MIN_TREEIFY_BINS {
        bin.plant();
    }
    is_long && bins < MIN_TREEIFY_BINS
}

/// What an insertion into a bin did.
///
/// ```
/// match inserted {
///     Inserted::New { asks_for_growth } => asks_for_growth,
///     Inserted::Replaced(_) => false,
/// }
/// ```
#[derive(Drop)]
pub enum Inserted<K, V, A: Allocator = Global> {
    /// The key is new.
    New {
        /// Whether the bin asks for a larger table.
        asks_for_growth: bool,
    },
    /// The key was present: the key that was passed in, and the value that the key had.
    Replaced(Replaced<K, V, A>),
}

/// Sets the value at a hash and a key in their bin, in a table of `bins` bins, in one pass down the bin. Returns whether the key is new, and
/// whether the bin asks for a larger table, as in [`put_node_in_bin`]; if the key was present, returns the old value.
///
/// As many steps as a look-up. If the key is absent, memory for the key and for a node is taken; if it is present, the stored key stays.
///
/// # Errors
///
/// Returns the key and the value if memory for the key or for the node cannot be allocated. The entries are unchanged.
pub fn insert_pair_in_bin<K: Ord + Drop, V: Drop, A: Allocator + Copy>(
    bin: &mut Bin<K, V, A>,
    alloc: A,
    hash: u64,
    key: K,
    value: Arc<V, A>,
    number: u64,
    bins: usize,
) -> Result<Inserted<K, V, A>, NotInserted<K, V, A>>
    requires { length (entries_of_bin bin.old) < MAX_LEN }
    ensures entries { IfOk result (λ r. IsInsertion K.cmp hash key value number (replaced_by r)
        (entries_of_bin bin.old) (entries_of_bin bin.new)) }
    ensures kind { IfOk result (λ r. is_tree bin.new ≡ (if is_some (replaced_by r) then is_tree bin.old
        else grows_into_tree bins (is_tree bin.old) (length (entries_of_bin bin.old)))) }
    ensures asks { IfOk result (λ r. asks_by r
        ≡ (not (is_some (replaced_by r)) && asks_for_growth bins (is_tree bin.old) (length (entries_of_bin bin.old)))) }
    ensures key { IfOk result (λ r. IfReplaced r (λ it. it.key ≡ key)) }
    ensures err { IfErr result (λ n. IsNotInserted key (arc_value value) n) }
    ensures same { OnErr result (entries_of_bin bin.new ≡ entries_of_bin bin.old) }
    ensures same_kind { OnErr result (is_tree bin.new ≡ is_tree bin.old) }
{
    let was_long = is_long_list(bin);
    if let Some(replaced) = bin.insert(alloc, hash, key, value, number)? {
        return Ok(Inserted::Replaced(replaced));
    }
    if !was_long {
        return Ok(Inserted::New {
            asks_for_growth: false,
        });
    }
    if bins < MIN_TREEIFY_BINS {
        return Ok(Inserted::New {
            asks_for_growth: true,
        });
    }
    bin.plant();
    Ok(Inserted::New {
        asks_for_growth: false,
    })
}

/// Returns two `Arc`s that share `value`. Constant time. Takes memory for the value.
///
/// # Errors
///
/// Returns the value if memory for it cannot be allocated, or if cloning its `Arc` fails.
pub fn new_arc_pair<V: Drop, A: Allocator>(
    alloc: A,
    value: V,
) -> Result<(Arc<V, A>, Arc<V, A>), Given<V, A>>
    ensures ok { IfOk result (λ p. (arc_value p.0 ≡ value) × (arc_value p.1 ≡ value)) }
    ensures err { IfErr result (λ g. given_of g ≡ value) }
{
    let first = match Arc::new(alloc, value) {
        Ok(first) => first,
        Err(failed) => return Err(Given::Plain(failed.value)),
    };
    match Arc::try_clone(&first) {
        Ok(second) => Ok((first, second)),
        Err(_) => Err(Given::Shared(first)),
    }
}
