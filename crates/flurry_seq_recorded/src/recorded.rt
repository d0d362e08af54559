//! The recorded map, which threads share.
ghost use Rattle.std.specs.Prelude.{◌≡◌, [], OnErr, IfOk};
ghost use Rattle.flurry_seq_recorded.specs.Books.{WasRecorded};
ghost use Rattle.flurry_seq_recorded.specs.Closing.{IsClosed};
ghost use Rattle.flurry_seq_recorded.specs.declared.kept.KeptCall.TheVariants as kept;

use crate::book::Book;
use crate::closed::{CloseFault, Closed};
use crate::kept::KeptCall;
use crate::share::Share;
use flurry_base::hash::{DefaultHashBuilder, KeyHasher};
use flurry_base::reply::KeptReply;
use std::alloc::{AllocError, Allocator, Global};
use std::sync::{Mutex, Wait};

/// A map that threads share, and that records its calls.
///
/// Its [`Book`] is under one lock, which each call holds while it runs. A call is recorded for a share: the book keeps the call with its
/// reply in its history, and the share keeps a receipt.
///
/// ```
/// let map: Map = Recorded::with_hasher(alloc, LowHashBuilder);
/// let mut share = map.share(rt)?;
/// map.insert(rt, &mut share, 1, 10)?;
/// map.get(rt, &mut share, 1)?;
/// let mut shares = Vec::new(alloc);
/// shares.push(share)?;
/// Ok(map.close(shares).is_ok())
/// ```
#[derive(Drop)]
pub struct Recorded<K: Ord, V, S: KeyHasher<K> = DefaultHashBuilder, A: Allocator = Global> {
    book: Mutex<Book<K, V, S, A>>,
    alloc: A,
}

impl<K: Ord + Copy, V: Copy, S: KeyHasher<K>, A: Allocator + Copy> Recorded<K, V, S, A> {
    /// Creates an empty map that uses `hasher`, without shares. Takes no memory.
    // It has no contract, since what is under a lock is known by its type alone.
    pub fn with_hasher(alloc: A, hasher: S) -> Self {
        Recorded {
            book: Mutex::new(Book::new(alloc, hasher)),
            alloc,
        }
    }

    /// Returns the next share, which has no receipts. Shares are numbered from 0.
    ///
    /// Takes the lock. Constant time, apart from the growth of the list of shares.
    ///
    /// # Errors
    ///
    /// Returns [`AllocError`] if memory for the number of the share cannot be allocated. The map is unchanged.
    pub fn share<R: Wait>(&self, rt: &R) -> Result<Share<K, V, A>, AllocError>
        ensures { IfOk result (λ s. s.receipts ≡ []) }
    {
        let number = self.book.lock(rt).share()?;
        Ok(Share::new(self.alloc, number))
    }

    /// Returns the value of `key`, or `None` if the key is absent, as [`KeptReply::Value`].
    ///
    /// Takes the lock. The time is that of [`Book::call_for`].
    ///
    /// # Errors
    ///
    /// Returns [`AllocError`] in the cases of [`Book::call_for`]. Neither the map nor the share changes.
    pub fn get<R: Wait>(
        &self,
        rt: &R,
        share: &mut Share<K, V, A>,
        key: K,
    ) -> Result<KeptReply<K, V>, AllocError>
        ensures ok { IfOk result (λ r. WasRecorded S K.cmp share.old (kept.Get key) r share.new) }
        ensures err { OnErr result (share.new ≡ share.old) }
    {
        self.call(rt, share, KeptCall::Get(key))
    }

    /// Returns the stored key and the value of `key`, or `None` if the key is absent, as [`KeptReply::Pair`].
    ///
    /// Takes the lock. The time is that of [`Book::call_for`].
    ///
    /// # Errors
    ///
    /// Returns [`AllocError`] in the cases of [`Book::call_for`]. Neither the map nor the share changes.
    pub fn get_key_value<R: Wait>(
        &self,
        rt: &R,
        share: &mut Share<K, V, A>,
        key: K,
    ) -> Result<KeptReply<K, V>, AllocError>
        ensures ok { IfOk result (λ r. WasRecorded S K.cmp share.old (kept.GetKeyValue key) r share.new) }
        ensures err { OnErr result (share.new ≡ share.old) }
    {
        self.call(rt, share, KeptCall::GetKeyValue(key))
    }

    /// Returns whether the map contains `key`, as [`KeptReply::Contains`].
    ///
    /// Takes the lock. The time is that of [`Book::call_for`].
    ///
    /// # Errors
    ///
    /// Returns [`AllocError`] in the cases of [`Book::call_for`]. Neither the map nor the share changes.
    pub fn contains_key<R: Wait>(
        &self,
        rt: &R,
        share: &mut Share<K, V, A>,
        key: K,
    ) -> Result<KeptReply<K, V>, AllocError>
        ensures ok { IfOk result (λ r. WasRecorded S K.cmp share.old (kept.ContainsKey key) r share.new) }
        ensures err { OnErr result (share.new ≡ share.old) }
    {
        self.call(rt, share, KeptCall::ContainsKey(key))
    }

    /// Inserts a pair, and returns the value that the key had, or `None` if the key was absent, as [`KeptReply::Value`]. The key that was
    /// stored first stays.
    ///
    /// Takes the lock. The time is that of [`Book::call_for`].
    ///
    /// # Errors
    ///
    /// Returns [`AllocError`] in the cases of [`Book::call_for`]. Neither the map nor the share changes.
    pub fn insert<R: Wait>(
        &self,
        rt: &R,
        share: &mut Share<K, V, A>,
        key: K,
        value: V,
    ) -> Result<KeptReply<K, V>, AllocError>
        ensures ok { IfOk result (λ r. WasRecorded S K.cmp share.old (kept.Insert key value) r share.new) }
        ensures err { OnErr result (share.new ≡ share.old) }
    {
        self.call(rt, share, KeptCall::Insert(key, value))
    }

    /// Inserts a pair if the key is absent, and returns the value as [`KeptReply::New`]. If the key is present, nothing changes, and the
    /// reply is [`KeptReply::Exists`] with the current value and `value`.
    ///
    /// Takes the lock. The time is that of [`Book::call_for`].
    ///
    /// # Errors
    ///
    /// Returns [`AllocError`] in the cases of [`Book::call_for`]. Neither the map nor the share changes.
    pub fn try_insert<R: Wait>(
        &self,
        rt: &R,
        share: &mut Share<K, V, A>,
        key: K,
        value: V,
    ) -> Result<KeptReply<K, V>, AllocError>
        ensures ok { IfOk result (λ r. WasRecorded S K.cmp share.old (kept.TryInsert key value) r share.new) }
        ensures err { OnErr result (share.new ≡ share.old) }
    {
        self.call(rt, share, KeptCall::TryInsert(key, value))
    }

    /// Removes the pair of a key, and returns the value, or `None` if the key is absent, as [`KeptReply::Value`].
    ///
    /// Takes the lock. The time is that of [`Book::call_for`].
    ///
    /// # Errors
    ///
    /// Returns [`AllocError`] in the cases of [`Book::call_for`]. Neither the map nor the share changes.
    pub fn remove<R: Wait>(
        &self,
        rt: &R,
        share: &mut Share<K, V, A>,
        key: K,
    ) -> Result<KeptReply<K, V>, AllocError>
        ensures ok { IfOk result (λ r. WasRecorded S K.cmp share.old (kept.Remove key) r share.new) }
        ensures err { OnErr result (share.new ≡ share.old) }
    {
        self.call(rt, share, KeptCall::Remove(key))
    }

    /// Removes the pair of a key, and returns the stored key and the value, or `None` if the key is absent, as [`KeptReply::Pair`].
    ///
    /// Takes the lock. The time is that of [`Book::call_for`].
    ///
    /// # Errors
    ///
    /// Returns [`AllocError`] in the cases of [`Book::call_for`]. Neither the map nor the share changes.
    pub fn remove_entry<R: Wait>(
        &self,
        rt: &R,
        share: &mut Share<K, V, A>,
        key: K,
    ) -> Result<KeptReply<K, V>, AllocError>
        ensures ok { IfOk result (λ r. WasRecorded S K.cmp share.old (kept.RemoveEntry key) r share.new) }
        ensures err { OnErr result (share.new ≡ share.old) }
    {
        self.call(rt, share, KeptCall::RemoveEntry(key))
    }

    // Makes a call under the lock.
    fn call<R: Wait>(
        &self,
        rt: &R,
        share: &mut Share<K, V, A>,
        call: KeptCall<K, V>,
    ) -> Result<KeptReply<K, V>, AllocError>
        ensures ok { IfOk result (λ r. WasRecorded S K.cmp share.old call r share.new) }
        ensures err { OnErr result (share.new ≡ share.old) }
    {
        self.book.lock(rt).call_for(share, call)
    }

    /// Closes the map with its shares, and returns the map and the history if each receipt of each share is in the history, and the history
    /// has no other calls. The replies that all callers received are then those of one map, each call once, in its caller's order.
    ///
    /// Linear in the length of the history and in the number of shares.
    ///
    /// # Errors
    ///
    /// Returns [`CloseFault`] in the cases of [`Book::close`]. The map and the shares are dropped.
    pub fn close(self, shares: Vec<Share<K, V, A>, A>) -> Result<Closed<K, V, S, A>, CloseFault>
    where
        V: PartialEq,
        S: Drop,
        ensures { IfOk result (λ c. IsClosed ⟦<KeptCall<K, V> as PartialEq>⟧.eq
            ⟦<KeptReply<K, V> as PartialEq>⟧.eq K.cmp c.history.items c.map.pairs shares.items) }
    {
        self.book.into_inner().close(shares)
    }
}
