//! What a step at a bin or at the control leaves behind.

use super::call::{Key, Task};
use flurry_bins_slots::{Given, NotInserted};
use flurry_steps_sweep::Seen;
use std::alloc::Allocator;
use std::sync::Arc;

/// What a step at a bin took out of the bin and does not return, or what a step at a bin or at the control was given and did not keep. A call
/// keeps it until its next step or its end, when no lock is held. No contract sees it; those of a slot say what comes out.
#[derive(Drop)]
pub enum Left<Q, K, V, F, A: Allocator> {
    /// Nothing.
    Nothing,
    /// The key that the call was given, and the stored key and value.
    Stored(Key<Q, K>, Option<Arc<K, A>>, Option<Arc<V, A>>),
    /// The pair that was to be removed as it was read, and the stored key.
    Seen(Seen<K, V, A>, Option<Arc<K, A>>),
    /// The key of an insertion at a present key.
    Key(K),
    /// The key and the value of an insertion for which memory could not be allocated.
    NotInserted(NotInserted<K, V, A>),
    /// The function of a computation at an absent key.
    Function(Key<Q, K>, F),
    /// The value of a computation for which memory could not be allocated.
    NotStored(Key<Q, K>, Given<V, A>),
    /// The task of a call that was decided or refused while there was no table.
    Task(Task<Q, K, V, F, A>),
}
