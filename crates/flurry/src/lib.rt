//! A verified, linearizable concurrent hash map: every function is proved. One-key calls of the shared map are linearizable, in every
//! interleaving of its steps, and the deciding step of a call is its linearization point.
//!
//! [`HashMap`] is the map that threads share, over locks; its iterators are in [`iter`]. [`HashSet`] is the set over it. [`HashMapRef`] and
//! [`HashSetRef`] are their views. Of the shared map, the steps at one bin are in [`slots`], its control and one call in steps in
//! [`steps`], and every interleaving of calls, run one step at a time, in [`world`].
//!
//! [`SeqMap`] and [`SeqSet`] are the map and the set of one owner. More about them is in [`seq_map`], [`calls`] and [`seq_iter`], and in
//! [`seq_set`] and [`set_calls`]. Bins, hashers and sizes of tables are in [`bin`], [`hash`] and [`table`]; what a key is looked up by is in
//! [`query`].
//!
//! [`claims`] has the boards at which threads share the work of a growth.
//!
//! [`recorded`] has a map under one lock that records the calls of its threads. [`par`] has calls that several threads do together, and
//! [`pairs`] has lists of a map's pairs. [`memo`] has tables of values that are computed once.
#![tactic(auto)]

pub mod claims;
pub mod memo;
pub mod pairs;
pub mod par;
pub mod recorded;
pub mod slots;
pub mod steps;
pub mod world;

pub use flurry_base::hash::{DefaultHashBuilder, DefaultHasher};
pub use flurry_base::{Change, TryInsertError, hash, query};
pub use flurry_bins::bin;
pub use flurry_bins_insertion::table;
pub use flurry_seq::{SeqMap, calls, iter as seq_iter, seq_map};
pub use flurry_seq_set::{SeqSet, seq_set, set_calls};
pub use flurry_shared::{HashMap, map};
pub use flurry_shared_set::{HashSet, HashSetRef, set, set_ref};
pub use flurry_shared_view::{HashMapRef, iter, map_ref};
