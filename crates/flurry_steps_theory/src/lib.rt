//! Every interleaving of the steps of calls on a concurrent map, as a machine over plain data, and what holds of it.
//!
//! A run is a list of steps of any parties, in any order; any party may stop for good. Each step is one transition of the machine
//! (`specs/Machine.antt`) and adds one label to the trace. The laws of a trace (`specs/Legal.antt`) say for each label what must hold of
//! the labels before it, and name no table, bin or claim. [`laws`] states that every trace of the machine obeys them.
//!
//! No code runs here. The machine leaves open everything on which no law depends: when a party counts, and for which party, and when it
//! helps or begins a growth.
#![tactic(auto)]

pub mod laws;

use flurry_base::reply::KeptReply;
pub use flurry_base::{Call, Seen};

/// What one step did.
///
/// ```
/// match label {
///     Label::Decide(party, _) => Some(party),
///     _ => None,
/// }
/// ```
#[derive(Clone, Copy, Debug)]
pub enum Label<K, V, F> {
    /// The party started this call.
    Begin(usize, Call<K, V, F>),
    /// The one-key call of the party decided, with this reply.
    Decide(usize, KeptReply<K, V>),
    /// The party gave this reply.
    Reply(usize, KeptReply<K, V>),
    /// Memory for the party could not be allocated, and the party is done.
    Refused(usize),
    /// The clear of the party emptied the bin of this table and index.
    Wipe(usize, u8, usize),
    /// The walk of the party read this pair.
    Read(usize, K, V),
    /// The reserve, clear or walk of the party ended.
    End(usize),
    /// The first table, of this exponent, was made and published.
    Opened(u8),
    /// The table of this exponent was made, and the growth that fills it began.
    Placed(u8),
    /// The bin of this table and index moved to its halves.
    Moved(u8, usize),
    /// The table of this exponent was published.
    Published(u8),
    /// Any other step of the party, or an attempt of it that was lost to another party's.
    Silent(usize),
}
