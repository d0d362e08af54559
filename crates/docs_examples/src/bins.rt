//! Callers of bins, and of the slots of a table.
ghost use Rattle.std.specs.Prelude.{◌≡◌, ◌≤◌, ℕ, length, false, None, Some, IfOk, IfSome};

use flurry::TryInsertError;
use flurry::bin::node::Colour;
use flurry::bin::{Bin, BoxedNode, Entry, ListBin, Node, Ordered, TreeBin};
use flurry::slots::{
    Added, Altered, Answer, Computed, Given, Inserted, MoveAnswer, NotInserted, Replaced, Slot,
    Verdict,
};
use std::alloc::{AllocError, Global};
use std::sync::Arc;

/// Returns the value of a pair, taken out of its node.
pub fn value_of_node(alloc: Global, hash: u64, key: u64, value: u64) -> Result<u64, AllocError>
    ensures { IfOk result (λ v. v ≡ value) }
{
    let node = Node::of_pair(alloc, hash, key, value, 0)?;
    let Entry { value, .. } = Box::into_inner(node).into_entry();
    Ok(*value)
}

/// Makes a bin of one pair, and returns its length.
pub fn bin_of_one(alloc: Global, hash: u64, key: u64, value: u64) -> Result<usize, AllocError>
    ensures { IfOk result (λ n. n ≡ 1) }
{
    let mut bin = Bin::new();
    bin.put_node(Node::of_pair(alloc, hash, key, value, 0)?);
    Ok(bin.len())
}

/// Makes a tree from a list of one pair, and returns its length.
pub fn tree_of_one(alloc: Global, hash: u64, key: u64, value: u64) -> Result<usize, AllocError>
    ensures { IfOk result (λ n. n ≡ 1) }
{
    let mut list = ListBin::new();
    list.put_node(Node::of_pair(alloc, hash, key, value, 0)?);
    let tree = TreeBin::from_list(list);
    Ok(tree.len())
}

/// Returns the first value at a slot whose bin is live, if it has one. This is an example only.
pub fn first_at(slot: &Slot<u64, u64>) -> Option<u64> {
    match slot.next_after(None) {
        Answer::Here(entry) => entry.map(|entry| *entry.value),
        Answer::Moved(()) | Answer::Unborn(()) => None,
    }
}

/// Moves a bin to its halves, and returns the table and the index of its slot, which the receipt names.
pub fn move_to_halves(
    slot: &mut Slot<u64, u64>,
    low: &mut Slot<u64, u64>,
    high: &mut Slot<u64, u64>,
) -> Option<(u8, usize)>
    ensures { IfSome result (λ at. at ≡ (slot.old.table, slot.old.index)) }
{
    match slot.move_into(low, high) {
        MoveAnswer::Done(receipt) => Some(receipt.at()),
        MoveAnswer::Already(receipt) => Some(receipt.at()),
        MoveAnswer::Clash => None,
    }
}

/// Returns the hash of a pair, as its node has it.
pub fn hash_of_node(alloc: Global, hash: u64, key: u64, value: u64) -> Result<u64, AllocError>
    ensures { IfOk result (λ h. h ≡ hash) }
{
    let node: BoxedNode<u64, u64> = Node::of_pair(alloc, hash, key, value, 0)?;
    Ok(node.entry().hash)
}

/// Returns what a node of `colour` adds to the height of its tree.
pub fn height_of(colour: Colour) -> usize
    ensures { result ≤ 1 }
{
    match colour {
        Colour::Red => 0,
        Colour::Black => 1,
    }
}

/// Returns the number of nodes that a look-up visits, in a bin of any kind.
pub fn visits<B: Ordered<u64, u64, Global>>(bin: &B, hash: u64, key: u64) -> u64
    ensures { result ≤ B.most_met (length (B.entries bin.now)) }
{
    let (_entry, visits) = bin.find(hash, &key);
    visits
}

/// Returns the value that an insertion found at its key.
pub fn value_before<B: Drop>(answer: Answer<Inserted<u64, u64, Global>, B>) -> Option<u64>
    ensures { (lent : B) → answer ≡ Answer.Moved lent → result ≡ None }
{
    match answer {
        Answer::Here(Inserted::Replaced(replaced)) => Some(*replaced.old),
        _ => None,
    }
}

/// Returns the value that is present after an addition.
pub fn value_after(answer: Answer<Added<u64, u64, Global>, (u64, u64)>) -> Option<u64>
    ensures { (lent : ℕ × ℕ) → answer ≡ Answer.Moved lent → result ≡ None }
{
    match answer {
        Answer::Here(Added::New { value, .. }) => Some(*value),
        Answer::Here(Added::Present { error, .. }) => Some(*error.current),
        Answer::Moved(_) | Answer::Unborn(_) => None,
    }
}

/// Returns the value that a computation wrote.
pub fn value_computed<F: Drop>(answer: Answer<Computed<u64, u64, F, Global>, F>) -> Option<u64>
    ensures { (f : F) → answer ≡ Answer.Moved f → result ≡ None }
{
    match answer {
        Answer::Here(Computed::Changed { new, .. }) => Some(*new),
        _ => None,
    }
}

/// Returns the value that an alteration wrote.
pub fn value_altered(answer: Answer<(Altered<u64, u64, Global>, Option<u64>), u64>) -> Option<u64>
    ensures { (key : ℕ) → answer ≡ Answer.Moved key → result ≡ None }
{
    match answer {
        Answer::Here((Altered::Added { value, .. }, _)) => Some(*value),
        Answer::Here((Altered::Changed { new, .. }, _)) => Some(*new),
        _ => None,
    }
}

/// Returns the value that a verdict sets.
pub fn value_set(verdict: Verdict<u64>) -> Option<u64>
    ensures { (v : ℕ) → verdict ≡ Verdict.Set v → result ≡ Some v }
{
    match verdict {
        Verdict::Set(value) => Some(value),
        Verdict::Keep | Verdict::Remove => None,
    }
}

/// Moves the bin of a slot, and returns `true` if it has moved. If not, the slot is unchanged.
pub fn move_bin(
    slot: &mut Slot<u64, u64>,
    low: &mut Slot<u64, u64>,
    high: &mut Slot<u64, u64>,
) -> bool
    ensures { result ≡ false → slot.new ≡ slot.old }
{
    match slot.move_into(low, high) {
        MoveAnswer::Done(_) | MoveAnswer::Already(_) => true,
        MoveAnswer::Clash => false,
    }
}

/// Returns the number that was given. This is an example only.
pub fn number_given(given: Given<u64>) -> u64 {
    match given {
        Given::Plain(number) => number,
        Given::Shared(number) => *number,
    }
}

/// Returns the key of a node that could not be made, or `None` if it was made. This is an example only.
pub fn key_not_inserted(alloc: Global, hash: u64, key: u64, value: Arc<u64>) -> Option<u64> {
    match Node::of_key(alloc, hash, key, value, 0) {
        Ok(_) => None,
        Err(NotInserted { key, .. }) => match key {
            Given::Plain(key) => Some(key),
            Given::Shared(key) => Some(*key),
        },
    }
}

/// Returns the key and the value that an insertion at a present key gave back. This is an example only.
pub fn given_back(replaced: Replaced<u64, u64>) -> (u64, u64) {
    let Replaced { key, old } = replaced;
    (key, *old)
}

/// Returns whether an insertion asks for a larger table. This is an example only.
pub fn asks_for_growth(inserted: Inserted<u64, u64>) -> bool {
    match inserted {
        Inserted::New { asks_for_growth } => asks_for_growth,
        Inserted::Replaced(_) => false,
    }
}
