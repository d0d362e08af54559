//! The book of a recorded map, which one caller at a time uses.
ghost use Rattle.std.specs.Prelude.{◌≡◌, ◌++◌, ◌∷◌, [], length, OnOk, OnErr, IfOk, IfErr};
ghost use Rattle.flurry_seq.specs.Contents.{contents};
ghost use Rattle.flurry_seq_recorded.specs.Closing.{IsClosed, HasFault};
ghost use Rattle.flurry_seq_recorded.specs.Books.{book_contents, Appends, IsBook, IsRecorded};

use crate::checks::first_fault;
use crate::closed::{CloseFault, Closed};
use crate::kept::{KeptCall, KeptEntry};
use crate::replies::reply_to;
use crate::share::{Receipt, Share};
use flurry_base::hash::{DefaultHashBuilder, KeyHasher};
use flurry_base::reply::KeptReply;
use flurry_seq::SeqMap;
use std::alloc::{AllocError, Allocator, Global};
use std::marker::Model;

/// An owned map, the history of its calls, and the numbers of its shares.
///
/// The calls of the history, made one after another on an empty map, give the recorded replies and leave the map. The shares are numbered
/// from 0.
///
/// ```
/// let mut book = Book::new(alloc, LowHashBuilder);
/// let (place, _reply) = book.call(KeptCall::Insert(key, value))?;
/// Ok(place)
/// ```
#[derive(Drop)]
pub struct Book<K: Ord, V, S: KeyHasher<K> = DefaultHashBuilder, A: Allocator = Global> {
    pub(crate) map: SeqMap<K, V, S, A>,
    pub(crate) history: Vec<KeptEntry<K, V>, A>,
    pub(crate) shares: Vec<usize, A>,
}

impl<K: Ord, V, S: KeyHasher<K>, A: Allocator> Model for Book<K, V, S, A> {
    ghost use Rattle.flurry_seq_recorded.specs.Closing.{IsClosed, HasFault};
    ghost use Rattle.flurry_seq_recorded.specs.Books.{BookContents, book_contents, IsBook};

    ghost Value = { BookContents K V S };

    ghost view = { λ b. book_contents b.map b.history.items b.shares.items };

    ghost invariant = { λ b. IsBook K.cmp (book_contents b.map b.history.items b.shares.items) };
}

impl<K: Ord + Copy, V: Copy, S: KeyHasher<K>, A: Allocator + Copy> Book<K, V, S, A> {
    /// Creates a book of an empty map that uses `hasher`, with an empty history and no shares. Takes no memory.
    pub fn new(alloc: A, hasher: S) -> Self
        ensures { result ≡ book_contents (contents [] 0 hasher) [] [] }
    {
        Book {
            map: SeqMap::with_hasher(alloc, hasher),
            history: Vec::new(alloc),
            shares: Vec::new(alloc),
        }
    }

    /// Makes `call` on the map, and appends it with its reply to the history. Returns the place of the call in the history, counted from 0,
    /// and the reply.
    ///
    /// Takes the time of the map's call, apart from the growth of the history.
    ///
    /// # Errors
    ///
    /// Returns [`AllocError`] if memory for the entry or for the map's call cannot be allocated. The book is unchanged.
    pub fn call(&mut self, call: KeptCall<K, V>) -> Result<(usize, KeptReply<K, V>), AllocError>
        ensures ok { IfOk result (λ r. Appends K.cmp self.old call r.0 r.1 self.new) }
        ensures book { IsBook K.cmp self.old }
        ensures err { OnErr result (self.new ≡ self.old) }
    {
        self.history.reserve(1)?;
        let reply = reply_to(&mut self.map, call)?;
        let place = self.history.len();
        self.history.push_reserved(KeptEntry { call, reply });
        Ok((place, reply))
    }

    /// Makes `call` for `share`, which keeps a receipt of it as its last receipt, and returns the reply.
    ///
    /// Takes the time of the map's call, apart from the growth of the history and of the receipts.
    ///
    /// # Errors
    ///
    /// Returns [`AllocError`] if memory for the receipt, the entry or the map's call cannot be allocated. The book and the share are
    /// unchanged.
    pub fn call_for(
        &mut self,
        share: &mut Share<K, V, A>,
        call: KeptCall<K, V>,
    ) -> Result<KeptReply<K, V>, AllocError>
        ensures ok { IfOk result (λ r. IsRecorded K.cmp self.old share.old call r self.new share.new) }
        ensures book { OnOk result (IsBook K.cmp self.old) }
        ensures err { OnErr result ((self.new ≡ self.old) × (share.new ≡ share.old)) }
    {
        share.receipts.reserve(1)?;
        let (place, reply) = self.call(call)?;
        share.receipts.push_reserved(Receipt { place, call, reply });
        Ok(reply)
    }

    /// Takes back `shares`, closes the book, and returns the map and the history if the shares fit them.
    ///
    /// Linear in the length of the history and in the number of shares.
    ///
    /// # Errors
    ///
    /// Returns the first of these faults that applies. The book and the shares are dropped.
    ///
    /// - [`CloseFault::SharesDiffer`] if the shares are not those that the book has numbered, each once, or if the number of their receipts
    ///   is not the number of calls in the history.
    /// - [`CloseFault::ReceiptsDiffer`] if the history has another call or another reply, or none, at the place of a receipt.
    /// - [`CloseFault::PlacesDiffer`] if the places of a share do not ascend in the order of its receipts, or if two receipts name one
    ///   place.
    /// - [`CloseFault::NoMemory`] if memory cannot be allocated, which can be found before any of the others.
    pub fn close(self, shares: Vec<Share<K, V, A>, A>) -> Result<Closed<K, V, S, A>, CloseFault>
    where
        V: PartialEq,
        S: Drop,
        ensures parts { IfOk result (λ c. (c.map ≡ self.contents) × (c.history.items ≡ self.history)) }
        ensures closed { IfOk result (λ c. IsClosed ⟦<KeptCall<K, V> as PartialEq>⟧.eq
            ⟦<KeptReply<K, V> as PartialEq>⟧.eq K.cmp c.history.items c.map.pairs shares.items) }
        ensures all { OnOk result (length shares.items ≡ length self.shares) }
        ensures err { IfErr result
            (HasFault ⟦<KeptCall<K, V> as PartialEq>⟧.eq ⟦<KeptReply<K, V> as PartialEq>⟧.eq
            (length self.shares) self.history shares.items) }
    {
        let alloc = *self.map.allocator();
        if let Err(fault) = first_fault(alloc, self.shares.len(), &self.history, &shares) {
            return Err(fault);
        }
        let Book { map, history, .. } = self;
        Ok(Closed { map, history })
    }

    /// Adds the next share, and returns its number. Shares are numbered from 0.
    ///
    /// Constant time, apart from the growth of the list of shares.
    ///
    /// # Errors
    ///
    /// Returns [`AllocError`] if memory for the number cannot be allocated. The book is unchanged.
    pub fn share(&mut self) -> Result<usize, AllocError>
        ensures ok { IfOk result (λ n. (n ≡ length self.old.shares)
            × (self.new ≡ book_contents self.old.contents self.old.history (self.old.shares ++ n ∷ []))) }
        ensures err { OnErr result (self.new ≡ self.old) }
    {
        let number = self.shares.len();
        self.shares.push(number)?;
        Ok(number)
    }
}
