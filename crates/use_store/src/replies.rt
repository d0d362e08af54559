//! Replies that come in any order, and leave in the order of their lines.

ghost use Rattle.std.specs.Prelude.{◌≡◌, ◌+◌, ◌-◌, ◌^◌, [], min, MatchOption, OnOk, Some};
ghost use Rattle.std.specs.Option.{option_map};
ghost use Rattle.std.specs.Arc.{arc_value};
ghost use Rattle.std.specs.Ordering.{nat_cmp};
ghost use Rattle.flurry.specs.FiniteMap.{value_at};

use crate::store::Reply;
use flurry::SeqMap;
use std::alloc::{AllocError, Global};
use std::sync::Arc;

/// Replies by the numbers of their lines, and the number of the line whose reply leaves next.
#[derive(Drop)]
pub struct Replies {
    early: SeqMap<u64, Reply>,
    next: u64,
}

impl Replies {
    /// Creates a list of no replies, from the line 0 on.
    pub fn new(alloc: Global) -> Self
        ensures { (result.early.pairs ≡ []) × (result.next ≡ 0) }
    {
        Replies {
            early: SeqMap::new(alloc),
            next: 0,
        }
    }

    /// Returns the number of replies that wait for an earlier one.
    pub fn len(&self) -> usize {
        self.early.len()
    }

    /// Adds the reply to the line of the number `line`.
    ///
    /// # Errors
    ///
    /// Returns [`AllocError`] if memory for the reply cannot be allocated. It is dropped.
    #[tactic(auto, using(flurry::proofs::CallerLaws::map_calls))]
    pub fn add(&mut self, line: u64, reply: Reply) -> Result<(), AllocError>
        ensures reply { OnOk result (value_at nat_cmp self.new.early.pairs line ≡ Some reply) }
        ensures next { self.new.next ≡ self.old.next }
    {
        self.early.insert(line, reply)?;
        Ok(())
    }

    /// Takes the reply to the next line, if it is there.
    #[tactic(auto, using(flurry::proofs::CallerLaws::map_calls))]
    pub fn take_next(&mut self) -> Option<Arc<Reply>>
        ensures reply { option_map arc_value result ≡ value_at nat_cmp self.old.early.pairs self.old.next }
        ensures next { MatchOption result (self.new.next ≡ self.old.next)
            (λ _. self.new.next ≡ min (self.old.next + 1) (2 ^ 64 - 1)) }
    {
        let reply = self.early.remove(&self.next)?;
        self.next = self.next.saturating_add(1);
        Some(reply)
    }
}
