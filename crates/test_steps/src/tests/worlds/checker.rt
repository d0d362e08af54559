//! A checker of labels. From the labels alone it keeps a plain map, the call of each party and the state of the tables.

use flurry_base::reply::KeptReply;
use flurry_bins_slots::{ComputeFn, Verdict};
use flurry_steps_theory::{Call, Label};
use std::alloc::Global;
use std::process::Abort;

/// The keys of calls are the numbers below this one.
pub(super) const KEYS: u64 = 32;

// What is known of a party. In a set of keys, each key is a bit. There are the keys that were present after each label since the party
// began, the keys that it has read, and the keys that were absent after a label of its own. A walk, and the removal of what it has read,
// watch the pair that was read last, and whether it was touched since.
#[derive(Drop)]
struct Known<F> {
    call: Call<u64, u64, F>,
    decided: Option<KeptReply<u64, u64>>,
    closed: bool,
    stayed: u64,
    read: u64,
    lacked: u64,
    watched: Option<(u64, u64)>,
    touched: bool,
}

// Returns the party of a label, unless it is the label of a party's beginning.
fn party_of<F>(label: &Label<u64, u64, F>) -> Option<usize> {
    match label {
        Label::Decide(party, _)
        | Label::Reply(party, _)
        | Label::Refused(party)
        | Label::Wipe(party, _, _)
        | Label::Read(party, _, _)
        | Label::End(party)
        | Label::Silent(party) => Some(*party),
        Label::Begin(_, _)
        | Label::Opened(_)
        | Label::Placed(_)
        | Label::Moved(_, _)
        | Label::Published(_) => None,
    }
}

// Returns the set of one key.
fn set_of(key: u64) -> u64 {
    1u64.wrapping_shl((key % 64) as u32)
}

// Returns the key of a one-key call.
fn key_of<F>(call: &Call<u64, u64, F>) -> Option<u64> {
    match call {
        Call::Get(key)
        | Call::GetKeyValue(key)
        | Call::ContainsKey(key)
        | Call::Remove(key)
        | Call::RemoveEntry(key)
        | Call::Insert(key, _)
        | Call::TryInsert(key, _)
        | Call::Compute(key, _)
        | Call::Alter { key, .. } => Some(*key),
        Call::RemoveSeen(seen) => Some(seen.key),
        Call::Reserve(_) | Call::Clear | Call::Walk => None,
    }
}

// Returns whether a one-key call with this reply writes or removes the key.
fn touches<F>(call: &Call<u64, u64, F>, reply: KeptReply<u64, u64>) -> bool {
    match call {
        Call::Insert(_, _) | Call::Compute(_, _) | Call::Remove(_) | Call::RemoveEntry(_) => true,
        Call::TryInsert(_, _) => matches!(reply, KeptReply::New(_)),
        Call::RemoveSeen(_) => matches!(reply, KeptReply::Value(Some(_))),
        Call::Alter { .. } => !matches!(reply, KeptReply::Contains(_)),
        _ => false,
    }
}

// Returns the value that a verdict sets.
fn set_by(verdict: Verdict<u64>) -> Option<u64> {
    match verdict {
        Verdict::Set(value) => Some(value),
        Verdict::Keep | Verdict::Remove => None,
    }
}

// Returns the reply of an alteration with this verdict, and the value of the key after it.
fn after_verdict(
    verdict: Verdict<u64>,
    key: u64,
    value: Option<u64>,
) -> (KeptReply<u64, u64>, Option<u64>) {
    match (verdict, value) {
        (Verdict::Keep, _) | (Verdict::Remove, None) => {
            (KeptReply::Contains(value.is_some()), value)
        }
        (Verdict::Remove, Some(old)) => (KeptReply::Pair(Some((key, old))), None),
        (Verdict::Set(new), None) => (KeptReply::New(new), Some(new)),
        (Verdict::Set(new), Some(old)) => (KeptReply::Changed { new, old }, Some(new)),
    }
}

// Returns the reply of a one-key call, and the value of the key after it, if the key has the value `value` before.
fn outcome<F: ComputeFn<u64, u64>>(
    call: Call<u64, u64, F>,
    key: u64,
    value: Option<u64>,
) -> Option<(KeptReply<u64, u64>, Option<u64>)>
    requires { (f : F) → F.can_change f × F.never_keeps f }
{
    let pair = value.map(|value| (key, value));
    match call {
        Call::Get(_) => Some((KeptReply::Value(value), value)),
        Call::GetKeyValue(_) => Some((KeptReply::Pair(pair), value)),
        Call::ContainsKey(_) => Some((KeptReply::Contains(value.is_some()), value)),
        Call::Remove(_) => Some((KeptReply::Value(value), None)),
        Call::RemoveEntry(_) => Some((KeptReply::Pair(pair), None)),
        Call::Insert(_, new) => Some((KeptReply::Value(value), Some(new))),
        Call::TryInsert(_, new) => match value {
            None => Some((KeptReply::New(new), Some(new))),
            Some(current) => {
                let not_inserted = new;
                Some((
                    KeptReply::Exists {
                        current,
                        not_inserted,
                    },
                    value,
                ))
            }
        },
        Call::Compute(_, change) => {
            let after = match value {
                Some(value) => set_by(change.change(&key, Some(&value))),
                None => None,
            };
            Some((KeptReply::Value(after), after))
        }
        Call::Alter { may_add, f, .. } => {
            if value.is_none() && !may_add {
                return Some((KeptReply::Contains(false), None));
            }
            Some(after_verdict(f.change(&key, value.as_ref()), key, value))
        }
        Call::RemoveSeen(_) | Call::Reserve(_) | Call::Clear | Call::Walk => None,
    }
}

/// What the labels so far have shown.
#[derive(Drop)]
pub(super) struct Checker<F> {
    alloc: Global,
    // The value of each key.
    map: Vec<Option<u64>>,
    parties: Vec<Known<F>>,
    published: Option<u8>,
    // The bins of the published table that have moved, while the next table is placed.
    moved: Option<Vec<bool>>,
    growths: u64,
    // The number of removals of what a walk has read that found it untouched, and the number of those that did not.
    removed: u64,
    kept: u64,
    // The last party that has read.
    reader: usize,
}

/// Stops, with the text, unless the condition holds.
pub(super) fn ensure(rt: &impl Abort, holds: bool, what: &'static str) {
    assert!(rt; holds, "{what}");
}

impl<F: ComputeFn<u64, u64> + Copy> Checker<F> {
    /// Creates a checker of a world that began with the table `published`.
    pub(super) fn new(rt: &impl Abort, alloc: Global, published: Option<u8>) -> Self {
        Checker {
            alloc,
            map: vec![in alloc; None; KEYS as usize].expect(rt, "memory for the map"),
            parties: Vec::new(alloc),
            published,
            moved: None,
            growths: 0,
            removed: 0,
            kept: 0,
            reader: 0,
        }
    }

    /// Returns the number of growths that were published.
    pub(super) fn growths(&self) -> u64 {
        self.growths
    }

    /// Returns the number of removals of what a walk has read that found it as it was read, and the number of those that did not.
    pub(super) fn drops(&self) -> (u64, u64) {
        (self.removed, self.kept)
    }

    /// Returns the last party that has read, or 0 if none has.
    pub(super) fn reader(&self) -> usize {
        self.reader
    }

    /// Returns `true` if the party, a walk, has read a pair.
    pub(super) fn has_read(&self, party: usize) -> bool {
        self.parties.get(party).is_some_and(|known| known.watched.is_some()
            && matches!(&known.call, Call::Walk))
    }

    /// Notes that the last party is the removal of the pair that the party `walk` has read last.
    pub(super) fn began_from(&mut self, rt: &impl Abort, walk: usize) {
        let read = self.known(rt, walk);
        let (watched, touched) = (read.watched, read.touched);
        let known = self.parties.last_mut().expect(rt, "a party began");
        let pair = match &known.call {
            Call::RemoveSeen(seen) => Some((seen.key, seen.value)),
            _ => None,
        };
        known.watched = watched;
        known.touched = touched;
        ensure(
            rt,
            pair.is_some() && pair == watched,
            "the pair is the one that the walk read last",
        );
    }

    /// Returns `true` if the party has replied or ended.
    pub(super) fn is_closed(&self, party: usize) -> bool {
        self.parties.get(party).is_some_and(|known| known.closed)
    }

    /// Returns `true` if the party looks up and has not decided.
    pub(super) fn looks_up(&self, party: usize) -> bool {
        self.parties.get(party).is_some_and(|known| {
            let looks = matches!(
                &known.call,
                Call::Get(_) | Call::GetKeyValue(_) | Call::ContainsKey(_)
            );
            looks && known.decided.is_none()
        })
    }

    /// Takes the next label, and checks that it may follow the labels before it.
    pub(super) fn check(&mut self, rt: &impl Abort, label: &Label<u64, u64, F>)
        requires { (f : F) → F.can_change f × F.never_keeps f }
    {
        match label {
            Label::Begin(party, call) => self.begins(rt, *party, *call),
            Label::Decide(party, reply) => self.decides(rt, *party, *reply),
            Label::Reply(party, reply) => self.replies(rt, *party, *reply),
            Label::End(party) => self.ends(rt, *party),
            Label::Opened(table) => self.opens(rt, *table),
            Label::Placed(table) => self.places(rt, *table),
            Label::Moved(table, index) => self.moves(rt, *table, *index),
            Label::Published(table) => self.publishes(rt, *table),
            Label::Silent(party) => ensure(
                rt,
                *party < self.parties.len(),
                "a party that began is silent",
            ),
            Label::Refused(_) => panic!(rt; "there is memory enough"),
            Label::Wipe(party, table, index) => self.wipes(rt, *party, *table, *index),
            Label::Read(party, key, value) => self.reads(rt, *party, *key, *value),
        }
        self.note_keys(party_of(label));
    }

    // Returns the keys that are present.
    fn present(&self) -> u64 {
        let mut keys = 0u64;
        for (key, value) in self.map.iter().enumerate() {
            if value.is_some() {
                keys |= set_of(key as u64);
            }
        }
        keys
    }

    // Notes for each party which keys are present after a label, which is a label of the party `named`, if any.
    fn note_keys(&mut self, named: Option<usize>) {
        let present = self.present();
        for known in self.parties.iter_mut() {
            known.stayed &= present;
        }
        if let Some(party) = named {
            if let Some(known) = self.parties.get_mut(party) {
                known.lacked |= !present;
            }
        }
    }

    fn begins(&mut self, rt: &impl Abort, party: usize, call: Call<u64, u64, F>) {
        ensure(
            rt,
            party == self.parties.len(),
            "parties begin in their order",
        );
        let known = Known {
            call,
            decided: None,
            closed: false,
            stayed: self.present(),
            read: 0,
            lacked: 0,
            watched: None,
            touched: false,
        };
        self.parties.push(known).expect(rt, "memory for the party");
    }

    fn known(&mut self, rt: &impl Abort, party: usize) -> &mut Known<F> {
        self.parties.get_mut(party).expect(rt, "the party began")
    }

    fn decides(&mut self, rt: &impl Abort, party: usize, reply: KeptReply<u64, u64>)
        requires { (f : F) → F.can_change f × F.never_keeps f }
    {
        let known = self.known(rt, party);
        ensure(rt, known.decided.is_none(), "a call decides once");
        known.decided = Some(reply);
        let (call, touched) = (known.call, known.touched);
        let key = key_of(&call).expect(rt, "a call of one key decides");
        let value = self
            .map
            .get_mut(key as usize)
            .expect(rt, "the key is one of the few");
        let (expected, after) = match call {
            Call::RemoveSeen(_) if touched => (KeptReply::Value(None), *value),
            Call::RemoveSeen(_) => (KeptReply::Value(*value), None),
            _ => outcome(call, key, *value).expect(rt, "a call of one key decides"),
        };
        *value = after;
        ensure(rt, reply == expected, "the reply is the map's");
        if let Call::RemoveSeen(seen) = call {
            self.removes(rt, touched, seen.value, reply);
        }
        if touches(&call, reply) {
            self.touch(set_of(key));
        }
    }

    // Checks that a removal of what a walk has read removes this very value, or nothing if the key was touched since.
    fn removes(&mut self, rt: &impl Abort, touched: bool, value: u64, reply: KeptReply<u64, u64>) {
        if touched {
            self.kept = self.kept.wrapping_add(1);
        } else {
            self.removed = self.removed.wrapping_add(1);
            ensure(
                rt,
                reply == KeptReply::Value(Some(value)),
                "what was not touched is there",
            );
        }
    }

    // Notes that these keys were written or removed.
    fn touch(&mut self, keys: u64) {
        for known in self.parties.iter_mut() {
            if let Some((key, _)) = known.watched {
                known.touched = known.touched || keys & set_of(key) != 0;
            }
        }
    }

    fn replies(&mut self, rt: &impl Abort, party: usize, reply: KeptReply<u64, u64>) {
        let known = self.known(rt, party);
        ensure(rt, !known.closed, "a call replies once");
        ensure(
            rt,
            known.decided == Some(reply),
            "the reply is the one that was decided",
        );
        known.closed = true;
    }

    // Checks that a walk has read each key that stayed, and that each of the few keys was absent after a label of a clear.
    fn ends(&mut self, rt: &impl Abort, party: usize) {
        let known = self.known(rt, party);
        ensure(rt, !known.closed, "a call ends once");
        known.closed = true;
        let few = set_of(KEYS).wrapping_sub(1);
        let (stayed, read, lacked) = (known.stayed, known.read, known.lacked);
        match &known.call {
            Call::Reserve(_) => {}
            Call::Walk => ensure(rt, stayed & !read == 0, "a walk reads what stays"),
            Call::Clear => ensure(rt, few & !lacked == 0, "a clear sees each key absent"),
            _ => panic!(rt; "a call of one key does not end"),
        }
    }

    // The hash of each key is the key.
    fn wipes(&mut self, rt: &impl Abort, party: usize, table: u8, index: usize) {
        let known = self.known(rt, party);
        ensure(rt, !known.closed, "a clear that goes on wipes");
        ensure(rt, matches!(&known.call, Call::Clear), "a clear wipes");
        let bins = 1usize
            .checked_shl(u32::from(table))
            .expect(rt, "the table has at most 2^30 bins");
        let mut wiped = 0u64;
        for (key, value) in self.map.iter_mut().enumerate() {
            if key & bins.wrapping_sub(1) == index {
                *value = None;
                wiped |= set_of(key as u64);
            }
        }
        self.touch(wiped);
    }

    fn reads(&mut self, rt: &impl Abort, party: usize, key: u64, value: u64) {
        let present = self.map.get(key as usize).copied().flatten();
        ensure(rt, present == Some(value), "a walk reads what is there");
        let known = self.known(rt, party);
        ensure(rt, !known.closed, "a walk that goes on reads");
        ensure(rt, matches!(&known.call, Call::Walk), "a walk reads");
        ensure(rt, known.read & set_of(key) == 0, "a walk reads a key once");
        known.read |= set_of(key);
        known.watched = Some((key, value));
        known.touched = false;
        self.reader = party;
    }

    fn opens(&mut self, rt: &impl Abort, table: u8) {
        ensure(rt, self.published.is_none(), "there was no table");
        ensure(rt, table <= 30, "the table has at most 2^30 bins");
        self.published = Some(table);
    }

    // Makes a note for each bin of the published table.
    fn places(&mut self, rt: &impl Abort, table: u8) {
        ensure(rt, self.moved.is_none(), "no other growth runs");
        let published = self.published.expect(rt, "a table is published");
        ensure(
            rt,
            published.checked_add(1) == Some(table),
            "the next table is placed",
        );
        let bins = 1usize
            .checked_shl(u32::from(published))
            .expect(rt, "the table has at most 2^30 bins");
        let moved = vec![in self.alloc; false; bins].expect(rt, "memory for the notes");
        self.moved = Some(moved);
    }

    fn moves(&mut self, rt: &impl Abort, table: u8, index: usize) {
        ensure(
            rt,
            self.published == Some(table),
            "a bin of the published table moves",
        );
        let moved = self.moved.as_mut().expect(rt, "the next table is placed");
        let bin = moved.get_mut(index).expect(rt, "the table has the bin");
        ensure(rt, !*bin, "a bin moves once");
        *bin = true;
    }

    fn publishes(&mut self, rt: &impl Abort, table: u8) {
        let next = self
            .published
            .and_then(|published| published.checked_add(1));
        ensure(rt, next == Some(table), "the next table is published");
        let moved = self.moved.as_ref().expect(rt, "the table was placed");
        ensure(rt, moved.iter().all(|bin| *bin), "each bin has moved");
        self.published = next;
        self.moved = None;
        self.growths = self.growths.wrapping_add(1);
    }
}
