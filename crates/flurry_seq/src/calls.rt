//! Calls on an owned map as values, and lists of such calls.
ghost use Rattle.std.specs.Prelude.{◌≡◌, Option, OnErr, IfOk};
ghost use Rattle.std.specs.Borrow.{Bor};

use crate::owners::{clone_arc, clone_keys, clone_pair, clone_pairs, clone_values};
use crate::seq_map::SeqMap;
use flurry_base::hash::{DefaultHashBuilder, KeyHasher};
use flurry_base::try_insert::TryInsertError;
use flurry_bins::bin::Shape;
use std::alloc::{AllocError, Allocator, Global};
use std::collections::VecDeque;
use std::sync::Arc;

/// A call on an owned map. `F` is the type of the function that `ComputeIfPresent` calls, and `P` is the type of the predicates of `Retain`
/// and `RetainForce`.
///
/// The constructors and [`SeqMap::from_list`] make the map on which a list of calls starts, and [`SeqMap::into_bins`] consumes the map that
/// a list of calls leaves, so none of these is a call on a map. [`SeqMap::allocator`] and [`SeqMap::hasher`] say nothing about the pairs.
/// [`SeqMap::insert_arc`] and [`SeqMap::insert_node`] do what `Insert` does. Every other public call of [`SeqMap`] is here.
///
/// ```
/// let mut calls = VecDeque::new(alloc);
/// calls.push_back(Call::Insert(key, value))?;
/// calls.push_back(Call::ComputeIfPresent(key, one_more))?;
/// calls.push_back(Call::Retain(is_even))?;
/// let replies = map.run(alloc, calls)?;
/// Ok(replies.len())
/// ```
#[derive(Drop)]
pub enum Call<K: Ord, V, S: KeyHasher<K>, F, P, A: Allocator = Global> {
    /// A call of [`SeqMap::get`].
    Get(K),
    /// A call of [`SeqMap::get_key_value`].
    GetKeyValue(K),
    /// A call of [`SeqMap::contains_key`].
    ContainsKey(K),
    /// A call of [`SeqMap::len`].
    Len,
    /// A call of [`SeqMap::is_empty`].
    IsEmpty,
    /// A call of [`SeqMap::capacity`].
    Capacity,
    /// A call of [`SeqMap::shape_of`].
    ShapeOf(u64),
    /// A call of [`SeqMap::iter`], whose iterator is run to its end.
    Pairs,
    /// A call of [`SeqMap::keys`], whose iterator is run to its end.
    Keys,
    /// A call of [`SeqMap::values`], whose iterator is run to its end.
    Values,
    /// A comparison by `==` with another map, which is then dropped.
    Equals(SeqMap<K, V, S, A>),
    /// A call of [`SeqMap::try_clone`].
    TryClone,
    /// A call of [`SeqMap::insert`].
    Insert(K, V),
    /// A call of [`SeqMap::try_insert`].
    TryInsert(K, V),
    /// A call of [`SeqMap::compute_if_present`].
    ComputeIfPresent(K, F),
    /// A call of [`SeqMap::remove`].
    Remove(K),
    /// A call of [`SeqMap::remove_entry`].
    RemoveEntry(K),
    /// A call of [`SeqMap::retain`].
    Retain(P),
    /// A call of [`SeqMap::retain_force`].
    RetainForce(P),
    /// A call of [`SeqMap::clear`].
    Clear,
    /// A call of [`SeqMap::reserve`].
    Reserve(usize),
    /// A call of [`SeqMap::extend`].
    Extend(Vec<(K, V), A>),
}

/// The reply of a [`Call`]. Where the map returns references, the reply has clones of the `Arc`s.
///
/// ```
/// match reply {
///     Reply::Value(Some(value)) => Some(**value),
///     Reply::New(value) => Some(**value),
///     Reply::Exists(error) => Some(*error.current),
///     _ => None,
/// }
/// ```
#[derive(Drop)]
pub enum Reply<K: Ord, V, S: KeyHasher<K> = DefaultHashBuilder, A: Allocator = Global> {
    /// A value, or `None`.
    Value(Option<Arc<V, A>>),
    /// A stored key and its value, or `None`.
    Pair(Option<(Arc<K, A>, Arc<V, A>)>),
    /// `true` or `false`.
    Truth(bool),
    /// The value that `try_insert` inserted.
    New(Arc<V, A>),
    /// The error of a `try_insert` whose key was present.
    Exists(TryInsertError<V, A>),
    /// A number of pairs or of bins.
    Number(usize),
    /// The shape of a bin.
    Shape(Shape),
    /// All pairs, each once, in the order of the iterator.
    Pairs(Vec<(Arc<K, A>, Arc<V, A>), A>),
    /// All stored keys, one of each class, in the order of the iterator.
    Keys(Vec<Arc<K, A>, A>),
    /// All values, one of each pair, in the order of the iterator.
    Values(Vec<Arc<V, A>, A>),
    /// Another map, which `try_clone` made.
    Map(SeqMap<K, V, S, A>),
    /// The end of a call that returns nothing.
    Done,
}

impl<K: Ord + Drop, V: Drop, S: KeyHasher<K>, A: Allocator + Copy> SeqMap<K, V, S, A> {
    ghost use Rattle.flurry_base.specs.FiniteMap.{IsFiniteMap};
    ghost use Rattle.flurry_seq.specs.Calls.{CallAnswers, CallRefused};
    ghost use Rattle.flurry_seq.specs.CallLists.{RunsTo, EndsEarly};
    ghost use Rattle.flurry_seq.specs.Kinds.{Reads, Shares, Writes, ChangesMany};
    ghost use Rattle.flurry_seq.specs.declared.calls.Call.{Call};
    ghost use Rattle.flurry_seq.specs.declared.calls.Reply.{Reply};

    /// Makes one call, and returns its reply.
    ///
    /// Takes the time of that call. An iterator is run to its end.
    ///
    /// # Errors
    ///
    /// Returns [`AllocError`] if the call fails, or if the clones of the `Arc`s in its reply cannot be made. The map is then as a failure
    /// of that call leaves it.
    pub fn call<F: FnOnce(&K, &V) -> Option<V>, P: FnMut(&K, &V) -> bool>(
        &mut self,
        call: Call<K, V, S, F, P, A>,
    ) -> Result<Reply<K, V, S, A>, AllocError>
    where
        V: PartialEq,
        S: Copy + Drop,
        F: Drop,
        P: Drop,
        requires computes { (f : F) → F.IsAlwaysCallable f }
        requires tests { (p : P) → P.IsAlwaysCallable p }
        ensures ok { IfOk result (λ reply. CallAnswers K.cmp V.eq S.hash_of
            (λ f k v o. (x : Bor K) × (y : Bor V) × (x.now ≡ k) × (y.now ≡ v) × F.post f x y o)
            P.step call self.old reply self.new) }
        ensures err { OnErr result (CallRefused K.cmp call self.old self.new) }
        ensures ascend { IsFiniteMap K.cmp self.old.pairs }
    {
        match call {
            Call::ContainsKey(_)
            | Call::Len
            | Call::IsEmpty
            | Call::Capacity
            | Call::ShapeOf(_)
            | Call::Equals(_) => Ok(self.call_to_read(call)),
            Call::Get(_)
            | Call::GetKeyValue(_)
            | Call::Pairs
            | Call::Keys
            | Call::Values
            | Call::TryClone => self.call_to_share(call),
            Call::Insert(_, _)
            | Call::TryInsert(_, _)
            | Call::ComputeIfPresent(_, _)
            | Call::Remove(_)
            | Call::RemoveEntry(_) => self.call_to_write(call),
            Call::Retain(_)
            | Call::RetainForce(_)
            | Call::Clear
            | Call::Reserve(_)
            | Call::Extend(_) => self.call_on_many(call),
        }
    }

    // Makes a call that reads.
    fn call_to_read<F: FnOnce(&K, &V) -> Option<V>, P: FnMut(&K, &V) -> bool>(
        &self,
        call: Call<K, V, S, F, P, A>,
    ) -> Reply<K, V, S, A>
    where
        V: PartialEq,
        S: Drop,
        F: Drop,
        P: Drop,
        requires { Reads call }
        ensures answer { CallAnswers K.cmp V.eq S.hash_of
            (λ f k v o. (x : Bor K) × (y : Bor V) × (x.now ≡ k) × (y.now ≡ v) × F.post f x y o)
            P.step call self.now result self.now }
        ensures ascend { IsFiniteMap K.cmp self.now.pairs }
    {
        match call {
            Call::ContainsKey(key) => Reply::Truth(self.contains_key(&key)),
            Call::Len => Reply::Number(self.len()),
            Call::IsEmpty => Reply::Truth(self.is_empty()),
            Call::Capacity => Reply::Number(self.capacity()),
            Call::ShapeOf(hash) => Reply::Shape(self.shape_of(hash)),
            Call::Equals(other) => Reply::Truth(*self == other),
            _ => unreachable!(),
        }
    }

    // Makes a call that returns clones of the map's `Arc`s.
    fn call_to_share<F: FnOnce(&K, &V) -> Option<V>, P: FnMut(&K, &V) -> bool>(
        &self,
        call: Call<K, V, S, F, P, A>,
    ) -> Result<Reply<K, V, S, A>, AllocError>
    where
        V: PartialEq,
        S: Copy + Drop,
        F: Drop,
        P: Drop,
        requires { Shares call }
        ensures ok { IfOk result (λ reply. CallAnswers K.cmp V.eq S.hash_of
            (λ f k v o. (x : Bor K) × (y : Bor V) × (x.now ≡ k) × (y.now ≡ v) × F.post f x y o)
            P.step call self.now reply self.now) }
        ensures ascend { IsFiniteMap K.cmp self.now.pairs }
    {
        match call {
            Call::Get(key) => Ok(Reply::Value(clone_arc(self.get(&key))?)),
            Call::GetKeyValue(key) => Ok(Reply::Pair(clone_pair(self.get_key_value(&key))?)),
            Call::Pairs => Ok(Reply::Pairs(clone_pairs(*self.allocator(), self.iter())?)),
            Call::Keys => Ok(Reply::Keys(clone_keys(*self.allocator(), self.keys())?)),
            Call::Values => Ok(Reply::Values(clone_values(*self.allocator(), self.values())?)),
            Call::TryClone => Ok(Reply::Map(self.try_clone()?)),
            _ => unreachable!(),
        }
    }

    // Makes a call that writes at one key.
    fn call_to_write<F: FnOnce(&K, &V) -> Option<V>, P: FnMut(&K, &V) -> bool>(
        &mut self,
        call: Call<K, V, S, F, P, A>,
    ) -> Result<Reply<K, V, S, A>, AllocError>
    where
        V: PartialEq,
        S: Drop,
        F: Drop,
        P: Drop,
        requires writes { Writes call }
        requires computes { (f : F) → F.IsAlwaysCallable f }
        ensures ok { IfOk result (λ reply. CallAnswers K.cmp V.eq S.hash_of
            (λ f k v o. (x : Bor K) × (y : Bor V) × (x.now ≡ k) × (y.now ≡ v) × F.post f x y o)
            P.step call self.old reply self.new) }
        ensures err { OnErr result (CallRefused K.cmp call self.old self.new) }
        ensures ascend { IsFiniteMap K.cmp self.old.pairs }
    {
        match call {
            Call::Insert(key, value) => Ok(Reply::Value(self.insert(key, value)?)),
            Call::TryInsert(key, value) => match self.try_insert(key, value)? {
                Ok(value) => Ok(Reply::New(value)),
                Err(error) => Ok(Reply::Exists(error)),
            },
            Call::ComputeIfPresent(key, f) => Ok(Reply::Value(self.compute_if_present(&key, f)?)),
            Call::Remove(key) => Ok(Reply::Value(self.remove(&key))),
            Call::RemoveEntry(key) => Ok(Reply::Pair(self.remove_entry(&key))),
            _ => unreachable!(),
        }
    }

    // Makes a call that may change many pairs, or the table.
    fn call_on_many<F: FnOnce(&K, &V) -> Option<V>, P: FnMut(&K, &V) -> bool>(
        &mut self,
        call: Call<K, V, S, F, P, A>,
    ) -> Result<Reply<K, V, S, A>, AllocError>
    where
        V: PartialEq,
        S: Drop,
        F: Drop,
        P: Drop,
        requires many { ChangesMany call }
        requires tests { (p : P) → P.IsAlwaysCallable p }
        ensures ok { IfOk result (λ reply. CallAnswers K.cmp V.eq S.hash_of
            (λ f k v o. (x : Bor K) × (y : Bor V) × (x.now ≡ k) × (y.now ≡ v) × F.post f x y o)
            P.step call self.old reply self.new) }
        ensures err { OnErr result (CallRefused K.cmp call self.old self.new) }
        ensures ascend { IsFiniteMap K.cmp self.old.pairs }
    {
        match call {
            Call::Retain(test) => self.retain(test),
            Call::RetainForce(test) => self.retain_force(test),
            Call::Clear => self.clear(),
            Call::Reserve(additional) => self.reserve(additional)?,
            Call::Extend(list) => self.extend(list)?,
            _ => unreachable!(),
        }
        Ok(Reply::Done)
    }

    /// Makes `calls` in order, and returns their replies.
    ///
    /// Takes the time of the calls.
    ///
    /// # Errors
    ///
    /// Returns [`AllocError`] if memory for the replies cannot be allocated, or if a call fails. The calls before the failed call have been
    /// made, and those after it are dropped.
    pub fn run<F: FnOnce(&K, &V) -> Option<V>, P: FnMut(&K, &V) -> bool>(
        &mut self,
        alloc: A,
        mut calls: VecDeque<Call<K, V, S, F, P, A>, A>,
    ) -> Result<Vec<Reply<K, V, S, A>, A>, AllocError>
    where
        V: PartialEq,
        S: Copy + Drop,
        F: Drop,
        P: Drop,
        requires computes { (f : F) → F.IsAlwaysCallable f }
        requires tests { (p : P) → P.IsAlwaysCallable p }
        ensures ok { IfOk result (λ replies. RunsTo (CallAnswers K.cmp V.eq S.hash_of
            (λ f k v o. (x : Bor K) × (y : Bor V) × (x.now ≡ k) × (y.now ≡ v) × F.post f x y o) P.step)
            calls.items self.old replies.items self.new) }
        ensures err { OnErr result (EndsEarly
            (CallAnswers K.cmp V.eq S.hash_of
            (λ f k v o. (x : Bor K) × (y : Bor V) × (x.now ≡ k) × (y.now ≡ v) × F.post f x y o) P.step)
            (CallRefused K.cmp) calls.items self.old self.new) }
        ensures ascend { IsFiniteMap K.cmp self.old.pairs }
    {
        // The contract of this call says that the keys ascend. If the list is empty, no other call is made that says so.
        let _ = self.is_empty();
        let mut replies = Vec::with_capacity(alloc, calls.len())?;
        while let Some(call) = calls.pop_front() {
            let reply = self.call(call)?;
            replies.push_reserved(reply);
        }
        Ok(replies)
    }
}
