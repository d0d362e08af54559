//! What one caller of a recorded map keeps of its calls.
ghost use Rattle.std.specs.Prelude.{◌≡◌, [], is_some, MatchOption, slice_get, slice_set};
ghost use Rattle.flurry_seq_recorded.specs.Shares.{share_contents, with_receipts, receipt};

use crate::kept::KeptCall;
use flurry_base::reply::KeptReply;
use std::alloc::{Allocator, Global};
use std::marker::Model;

/// A receipt: what a caller keeps of one call.
///
/// ```
/// let last: &Receipt<u64, u64> = share.receipts().last()?;
/// Some(last.place)
/// ```
#[derive(Clone, Copy, Debug, PartialEq, Eq)]
pub struct Receipt<K, V> {
    /// The place of the call in the history, counted from 0.
    pub place: usize,
    /// The call.
    pub call: KeptCall<K, V>,
    /// The reply that the caller received.
    pub reply: KeptReply<K, V>,
}

/// One caller's part in a recorded map: its number, and a receipt of each of its calls, in the order of the calls.
///
/// ```
/// map.insert(rt, share, key, value)?;
/// Ok(())
/// ```
#[derive(Drop)]
pub struct Share<K, V, A: Allocator = Global> {
    number: usize,
    pub(crate) receipts: Vec<Receipt<K, V>, A>,
}

impl<K, V, A: Allocator> Model for Share<K, V, A> {
    ghost use Rattle.flurry_seq_recorded.specs.Shares.{ShareContents, share_contents};

    ghost Value = { ShareContents K V };

    ghost view = { λ s. share_contents s.number s.receipts.items };
}

impl<K: Copy, V: Copy, A: Allocator> Share<K, V, A> {
    // A share with the number `number` and no receipts.
    pub(crate) fn new(alloc: A, number: usize) -> Self
        ensures { result ≡ share_contents number [] }
    {
        Share {
            number,
            receipts: Vec::new(alloc),
        }
    }

    /// Returns the number of the share. The shares of one map are numbered from 0.
    ///
    /// Constant time.
    pub fn number(&self) -> usize
        ensures { result ≡ self.now.number }
    {
        self.number
    }

    /// Returns the receipts, in the order of the calls.
    ///
    /// Constant time.
    pub fn receipts(&self) -> &[Receipt<K, V>]
        ensures { result.now ≡ self.now.receipts }
    {
        &self.receipts
    }

    /// Replaces the place and the reply of the receipt at index `at`. Returns `true` if there is such a receipt; otherwise nothing changes.
    /// No recorded call does this: it is for tests with damaged receipts.
    ///
    /// Constant time. Takes no memory.
    pub fn replace_receipt(&mut self, at: usize, place: usize, reply: KeptReply<K, V>) -> bool
        ensures found { result ≡ is_some (slice_get self.old.receipts at) }
        ensures after { MatchOption (slice_get self.old.receipts at) (self.new ≡ self.old)
            (λ r. self.new ≡ with_receipts self.old
            (slice_set self.old.receipts at (receipt place r.call reply))) }
    {
        if at >= self.receipts.len() {
            return false;
        }
        let call = self.receipts[at].call;
        self.receipts[at] = Receipt { place, call, reply };
        true
    }
}
