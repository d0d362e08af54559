//! The steps of a sweep at a bin.
ghost use Rattle.std.specs.Prelude.{◌≡◌, Ok, OnOk, OnErr};
ghost use Rattle.std.specs.Arc.{arc_value};
ghost use Rattle.flurry_bins.specs.PlainEntries.{numbered_pair};
ghost use Rattle.flurry_bins_slots.specs.Slot.{IsSlot};
ghost use Rattle.flurry_steps_sweep.specs.Cursor.{with_top, with_bound};
ghost use Rattle.flurry_steps_sweep.specs.Sweep.{HasNoBound, Wipes, WalkGives, ClearGives, seen_at};
ghost use Rattle.flurry_steps_sweep.specs.SweepView.{walked_to, cleared_to};

use crate::cursor::Cursor;
use crate::reply::Reply;
use crate::seen::Seen;
use crate::step::Event;
use flurry_bins::bin::{BoxedNode, Entry, Ordered};
use flurry_bins_slots::{Answer, Slot};
use std::alloc::{AllocError, Allocator};
use std::mem;
use std::sync::Arc;

// Reads an entry, and moves the cursor past it.
fn read<K: Drop, V: Drop, A: Allocator>(
    cursor: &mut Cursor<K, A>,
    entry: &Entry<K, V, A>,
) -> Result<Seen<K, V, A>, AllocError>
    ensures seen { OnOk result (result ≡ Ok (seen_at (numbered_pair entry.now))) }
    ensures ok { OnOk result (cursor.new
        ≡ with_top cursor.old (with_bound cursor.old.top (entry.now.hash, arc_value entry.now.key))) }
    ensures err { OnErr result (cursor.new ≡ cursor.old) }
{
    let seen = Seen::of(entry)?;
    cursor.pass(entry.hash, Arc::try_clone(&entry.key)?);
    Ok(seen)
}

// Does the step of a walk. Returns its reply if it has ended, what the step did, and the pair that was read before if another one was read.
pub(super) fn step_walk<K: Ord + Drop, V: Drop, A: Allocator>(
    cursor: &mut Cursor<K, A>,
    last: &mut Option<Seen<K, V, A>>,
    slot: &Slot<K, V, A>,
) -> (Option<Reply<K, V, A>>, Event, Option<Seen<K, V, A>>)
    requires { slot.now.table ≡ cursor.old.top.table }
    ensures within { IsSlot K.cmp slot.now }
    ensures step { WalkGives K.cmp cursor.old slot.now.content last.old
        result.1 (walked_to cursor.new result.0) last.new }
{
    match slot.next_after(cursor.bound()) {
        Answer::Here(Some(entry)) => match read(cursor, entry) {
            Ok(seen) => {
                let before = mem::replace(last, Some(seen));
                (None, Event::Read, before)
            }
            Err(_) => (Some(Reply::Refused), Event::Refused, None),
        },
        Answer::Here(None) => {
            if cursor.leave() {
                (None, Event::Silent, None)
            } else {
                (Some(Reply::Ended), Event::Silent, None)
            }
        }
        Answer::Moved(()) => match cursor.split() {
            Ok(()) => (None, Event::Silent, None),
            Err(_) => (Some(Reply::Refused), Event::Refused, None),
        },
        Answer::Unborn(()) => (None, Event::Silent, None),
    }
}

// Does the step of a clear that has removed `wiped` pairs. Returns whether it goes on, what the step did, and the nodes that it removed.
pub(super) fn step_clear<K: Ord + Drop, V: Drop, A: Allocator>(
    cursor: &mut Cursor<K, A>,
    wiped: &mut usize,
    slot: &mut Slot<K, V, A>,
) -> (bool, Event, Option<BoxedNode<K, V, A>>)
    requires table { slot.old.table ≡ cursor.old.top.table }
    requires whole { HasNoBound cursor.old }
    ensures within { IsSlot K.cmp slot.old }
    ensures whole { HasNoBound cursor.new }
    ensures table { slot.new.table ≡ slot.old.table }
    ensures index { slot.new.index ≡ slot.old.index }
    ensures step { ClearGives wiped.old cursor.old slot.old.content result.1 (Wipes wiped.new)
        (cleared_to cursor.new result.0) slot.new.content }
{
    match slot.drain() {
        Answer::Here(bin) => {
            let (table, index) = cursor.at();
            *wiped = wiped.saturating_add(bin.len());
            (cursor.leave(), Event::Wipe(table, index), bin.into_nodes())
        }
        Answer::Moved(()) => match cursor.split() {
            Ok(()) => (true, Event::Silent, None),
            Err(_) => unreachable!(),
        },
        Answer::Unborn(()) => (true, Event::Silent, None),
    }
}
