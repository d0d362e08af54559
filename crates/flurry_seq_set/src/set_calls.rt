//! Calls on an owned set as values, and lists of such calls.
ghost use Rattle.std.specs.Prelude.{OnErr, IfOk};
ghost use Rattle.flurry_seq.specs.CallLists.{RunsTo, EndsEarly};

use crate::seq_set::SeqSet;
use flurry_base::hash::{DefaultHashBuilder, KeyHasher};
use flurry_seq::owners::{clone_arc, clone_keys};
use std::alloc::{AllocError, Allocator, Global};
use std::collections::VecDeque;
use std::sync::Arc;

/// A call on an owned set. `P` is the type of the predicates of `Retain`.
///
/// The constructors and [`SeqSet::from_list`] make the set on which a list of calls starts, so none of these is a call on a set.
/// [`SeqSet::allocator`] and [`SeqSet::hasher`] say nothing about the elements. [`SeqSet::insert_node`] does what `Insert` does, and
/// [`SeqSet::get_or_insert`] does what `Get` and `Insert` do. Every other public call of [`SeqSet`] is here.
///
/// ```
/// let mut calls = VecDeque::new(alloc);
/// calls.push_back(SetCall::Insert(x))?;
/// calls.push_back(SetCall::Contains(x))?;
/// calls.push_back(SetCall::Retain(is_small))?;
/// let replies = set.run(alloc, calls)?;
/// Ok(replies.len())
/// ```
#[derive(Drop)]
pub enum SetCall<T: Ord, S: KeyHasher<T>, P, A: Allocator = Global> {
    /// A call of [`SeqSet::contains`].
    Contains(T),
    /// A call of [`SeqSet::get`].
    Get(T),
    /// A call of [`SeqSet::insert`].
    Insert(T),
    /// A call of [`SeqSet::remove`].
    Remove(T),
    /// A call of [`SeqSet::take`].
    Take(T),
    /// A call of [`SeqSet::retain`].
    Retain(P),
    /// A call of [`SeqSet::len`].
    Len,
    /// A call of [`SeqSet::is_empty`].
    IsEmpty,
    /// A call of [`SeqSet::iter`], whose iterator is run to its end.
    Elements,
    /// A call of [`SeqSet::is_disjoint`] with another set, which is then dropped.
    IsDisjoint(SeqSet<T, S, A>),
    /// A call of [`SeqSet::is_subset`] with another set, which is then dropped.
    IsSubset(SeqSet<T, S, A>),
    /// A call of [`SeqSet::is_superset`] with another set, which is then dropped.
    IsSuperset(SeqSet<T, S, A>),
    /// A comparison by `==` with another set, which is then dropped.
    Equals(SeqSet<T, S, A>),
    /// A call of [`SeqSet::try_clone`].
    TryClone,
    /// A call of [`SeqSet::clear`].
    Clear,
    /// A call of [`SeqSet::reserve`].
    Reserve(usize),
    /// A call of [`SeqSet::extend`].
    Extend(Vec<T, A>),
}

/// The reply of a [`SetCall`]. Where the set returns references, the reply has clones of the `Arc`s.
///
/// ```
/// match reply {
///     SetReply::Truth(truth) => *truth,
///     SetReply::Element(element) => element.is_some(),
///     _ => false,
/// }
/// ```
#[derive(Drop)]
pub enum SetReply<T: Ord, S: KeyHasher<T> = DefaultHashBuilder, A: Allocator = Global> {
    /// A stored element, or `None`.
    Element(Option<Arc<T, A>>),
    /// `true` or `false`.
    Truth(bool),
    /// A number of elements.
    Number(usize),
    /// All elements, each once, in the order of the iterator.
    Elements(Vec<Arc<T, A>, A>),
    /// Another set, which `try_clone` made.
    Set(SeqSet<T, S, A>),
    /// The end of a call that returns nothing.
    Done,
}

impl<T: Ord + Drop, S: KeyHasher<T>, A: Allocator + Copy> SeqSet<T, S, A> {
    ghost use Rattle.flurry_base.specs.FiniteSet.{IsFiniteSet};
    ghost use Rattle.flurry_seq_set.specs.SetCalls.{SetCallAnswers, SetCallRefused};
    ghost use Rattle.flurry_seq_set.specs.SetKinds.{Reads, Shares, Writes, ChangesMany};

    /// Makes one call, and returns its reply.
    ///
    /// Takes the time of that call. An iterator is run to its end.
    ///
    /// # Errors
    ///
    /// Returns [`AllocError`] if the call fails, or if the clones of the `Arc`s in its reply cannot be made. The set is then as a failure
    /// of that call leaves it.
    pub fn call<P: FnMut(&T) -> bool>(
        &mut self,
        call: SetCall<T, S, P, A>,
    ) -> Result<SetReply<T, S, A>, AllocError>
    where
        S: Copy + Drop,
        P: Drop,
        requires { (p : P) → P.IsAlwaysCallable p }
        ensures ok { IfOk result (λ reply. SetCallAnswers T.cmp P.step call self.old reply self.new) }
        ensures err { OnErr result (SetCallRefused T.cmp call self.old self.new) }
        ensures ascend { IsFiniteSet T.cmp self.old.elements }
    {
        match call {
            SetCall::Contains(_)
            | SetCall::Len
            | SetCall::IsEmpty
            | SetCall::IsDisjoint(_)
            | SetCall::IsSubset(_)
            | SetCall::IsSuperset(_)
            | SetCall::Equals(_) => Ok(self.call_to_read(call)),
            SetCall::Get(_) | SetCall::Elements | SetCall::TryClone => self.call_to_share(call),
            SetCall::Insert(_) | SetCall::Remove(_) | SetCall::Take(_) => self.call_to_write(call),
            SetCall::Retain(_) | SetCall::Clear | SetCall::Reserve(_) | SetCall::Extend(_) => {
                self.call_on_many(call)
            }
        }
    }

    // Makes a call that reads.
    fn call_to_read<P: FnMut(&T) -> bool>(&self, call: SetCall<T, S, P, A>) -> SetReply<T, S, A>
    where
        S: Drop,
        P: Drop,
        requires { Reads call }
        ensures answer { SetCallAnswers T.cmp P.step call self.now result self.now }
        ensures ascend { IsFiniteSet T.cmp self.now.elements }
    {
        match call {
            SetCall::Contains(element) => SetReply::Truth(self.contains(&element)),
            SetCall::Len => SetReply::Number(self.len()),
            SetCall::IsEmpty => SetReply::Truth(self.is_empty()),
            SetCall::IsDisjoint(other) => SetReply::Truth(self.is_disjoint(&other)),
            SetCall::IsSubset(other) => SetReply::Truth(self.is_subset(&other)),
            SetCall::IsSuperset(other) => SetReply::Truth(self.is_superset(&other)),
            SetCall::Equals(other) => SetReply::Truth(*self == other),
            _ => unreachable!(),
        }
    }

    // Makes a call that returns clones of the set's `Arc`s.
    fn call_to_share<P: FnMut(&T) -> bool>(
        &self,
        call: SetCall<T, S, P, A>,
    ) -> Result<SetReply<T, S, A>, AllocError>
    where
        S: Copy + Drop,
        P: Drop,
        requires { Shares call }
        ensures ok { IfOk result (λ reply. SetCallAnswers T.cmp P.step call self.now reply self.now) }
        ensures ascend { IsFiniteSet T.cmp self.now.elements }
    {
        match call {
            SetCall::Get(element) => Ok(SetReply::Element(clone_arc(self.get(&element))?)),
            SetCall::Elements => Ok(SetReply::Elements(clone_keys(
                *self.allocator(),
                self.iter(),
            )?)),
            SetCall::TryClone => Ok(SetReply::Set(self.try_clone()?)),
            _ => unreachable!(),
        }
    }

    // Makes a call that inserts or removes an element.
    fn call_to_write<P: FnMut(&T) -> bool>(
        &mut self,
        call: SetCall<T, S, P, A>,
    ) -> Result<SetReply<T, S, A>, AllocError>
    where
        S: Drop,
        P: Drop,
        requires { Writes call }
        ensures ok { IfOk result (λ reply. SetCallAnswers T.cmp P.step call self.old reply self.new) }
        ensures err { OnErr result (SetCallRefused T.cmp call self.old self.new) }
        ensures ascend { IsFiniteSet T.cmp self.old.elements }
    {
        match call {
            SetCall::Insert(element) => Ok(SetReply::Truth(self.insert(element)?)),
            SetCall::Remove(element) => Ok(SetReply::Truth(self.remove(&element))),
            SetCall::Take(element) => Ok(SetReply::Element(self.take(&element))),
            _ => unreachable!(),
        }
    }

    // Makes a call that may change many elements, or the table.
    fn call_on_many<P: FnMut(&T) -> bool>(
        &mut self,
        call: SetCall<T, S, P, A>,
    ) -> Result<SetReply<T, S, A>, AllocError>
    where
        S: Drop,
        P: Drop,
        requires many { ChangesMany call }
        requires tests { (p : P) → P.IsAlwaysCallable p }
        ensures ok { IfOk result (λ reply. SetCallAnswers T.cmp P.step call self.old reply self.new) }
        ensures err { OnErr result (SetCallRefused T.cmp call self.old self.new) }
        ensures ascend { IsFiniteSet T.cmp self.old.elements }
    {
        match call {
            SetCall::Retain(test) => self.retain(test),
            SetCall::Clear => self.clear(),
            SetCall::Reserve(additional) => self.reserve(additional)?,
            SetCall::Extend(list) => self.extend(list)?,
            _ => unreachable!(),
        }
        Ok(SetReply::Done)
    }

    /// Makes `calls` in order, and returns their replies.
    ///
    /// Takes the time of the calls.
    ///
    /// # Errors
    ///
    /// Returns [`AllocError`] if memory for the replies cannot be allocated, or if a call fails. The calls before the failed call have been
    /// made, and those after it are dropped.
    pub fn run<P: FnMut(&T) -> bool>(
        &mut self,
        alloc: A,
        mut calls: VecDeque<SetCall<T, S, P, A>, A>,
    ) -> Result<Vec<SetReply<T, S, A>, A>, AllocError>
    where
        S: Copy + Drop,
        P: Drop,
        requires { (p : P) → P.IsAlwaysCallable p }
        ensures ok { IfOk result
            (λ replies. RunsTo (SetCallAnswers T.cmp P.step) calls.items self.old replies.items self.new) }
        ensures err { OnErr result (EndsEarly (SetCallAnswers T.cmp P.step) (SetCallRefused T.cmp)
            calls.items self.old self.new) }
        ensures ascend { IsFiniteSet T.cmp self.old.elements }
    {
        // The contract of this call says that the elements ascend. If the list is empty, no other call is made that says so.
        let _ = self.is_empty();
        let mut replies = Vec::with_capacity(alloc, calls.len())?;
        while let Some(call) = calls.pop_front() {
            let reply = self.call(call)?;
            replies.push_reserved(reply);
        }
        Ok(replies)
    }
}
