//! The pairs of a map and the elements of a set as lists in ascending order, which `serde` writes and reads.

pub use flurry_seq_pairs::map::{from_pairs as into_seq_map, to_sorted_pairs as from_seq_map};
pub use flurry_seq_pairs::set::{from_items as into_seq_set, to_sorted_items as from_seq_set};
pub use flurry_seq_pairs::{FromPairsError, SortedItems, SortedPairs};
pub use flurry_shared_pairs::map::to_sorted_pairs as from_map;
pub use flurry_shared_pairs::map_ref::to_sorted_pairs as from_map_ref;
pub use flurry_shared_pairs::set::to_sorted_items as from_set;
pub use flurry_shared_pairs::set_ref::to_sorted_items as from_set_ref;
