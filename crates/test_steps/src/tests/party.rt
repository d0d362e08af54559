//! Calls in steps: what each step does, over tables for which memory can fail.
//!
//! A function that owns a call in progress passes it to another function by reference, and then drops it explicitly. If it were dropped at
//! the end of a body, the proof would go through everything that it can hold.
ghost use Rattle.std.specs.Prelude.{◌≡◌, ⊤};
ghost use Rattle.flurry_steps_sweep.specs.Part.{LookPart, BinPart, MovePart, SeatPart, BoardPart, GivePart};
ghost use Rattle.flurry_steps.specs.Party.{wanted_part};
ghost use Rattle.flurry_steps.specs.PartyBoard.{IsAttempt};
ghost use Rattle.flurry_steps_stages.specs.CallView.{CallIsReady};

mod drops;
mod growth;
mod one_key;
mod refused;
mod rewrites;
mod sweeps;
mod tallies;

use super::{Becomes, Close, assert_same, assert_same_at, closes_with, without_owners};
use flurry_base::reply::KeptReply;
use flurry_bins::bin::Bin;
use flurry_bins_slots::{ComputeFn, Slot};
use flurry_steps::party::{Call, Event, OwnedCall, Party, Reply, Want};
use flurry_steps_claims::{Attempt, PlainBoard, Range};
use flurry_steps_control::{Control, Room};
use flurry_steps_sweep::Seen;
use std::alloc::{AllocError, Global};
use std::process::Abort;
use std::sync::Arc;

// The slots of all tables, in any order, and the board of the growth that began last, with its table. The request for a table with the
// number `refused` fails, where the first request has the number 1.
#[derive(Drop)]
struct Tables {
    slots: Vec<Slot<u64, u64>>,
    board: Option<(u8, PlainBoard)>,
    requests: u8,
    refused: u8,
}

impl Tables {
    // Takes a slot out of the list.
    fn take(&mut self, rt: &impl Abort, table: u8, index: usize) -> Slot<u64, u64> {
        for place in 0..self.slots.len() {
            if self.slots[place].at() == (table, index) {
                return self.slots.swap_remove(place);
            }
        }
        panic!(rt; "the slot is there")
    }

    // Puts a slot back into the list.
    fn put_back(&mut self, rt: &impl Abort, slot: Slot<u64, u64>) {
        self.slots.push(slot).expect(rt, "memory for the slot");
    }

    // Takes a seat at the board of the growth from `table`, and returns whether there was one. Where another growth began since, there is none.
    fn take_seat(&mut self, table: u8) -> bool {
        match &mut self.board {
            Some((there, board)) if *there == table => board.take_seat(),
            _ => false,
        }
    }

    // Reports a range of `table`, and returns whether that report was the last.
    fn report(&mut self, table: u8, range: Range) -> bool {
        match &mut self.board {
            Some((there, board)) if *there == table => board.report(range),
            _ => false,
        }
    }

    // Takes a seat back at the board of the growth from `table`.
    fn give_seat(&mut self, table: u8) {
        if let Some((there, board)) = &mut self.board {
            if *there == table {
                board.give_seat();
            }
        }
    }

    // Tries to claim a range of `table`. Where another growth began since, nothing is left.
    fn try_claim(&mut self, table: u8) -> Attempt
        ensures { IsAttempt table result }
    {
        match &mut self.board {
            Some((there, board)) if *there == table => match board.try_claim() {
                Attempt::Got(range) if range.table() != table => Attempt::Nothing,
                attempt => attempt,
            },
            _ => Attempt::Nothing,
        }
    }
}

impl Room for Tables {
    ghost place_gives = { λ _ _ _ _ _. ⊤ };

    fn place(&mut self, table: u8, for_growth: Option<usize>) -> Result<(), AllocError> {
        self.requests = self.requests.saturating_add(1);
        if self.requests == self.refused {
            return Err(AllocError);
        }
        for index in 0..1usize << table {
            if for_growth.is_none() {
                self.slots.push(Slot::live(table, index, Bin::new()))?;
            } else {
                self.slots.push(Slot::unborn(table, index))?;
            }
        }
        if let (Some(processors), Some(from)) = (for_growth, table.checked_sub(1)) {
            let mut board = PlainBoard::new(from, processors);
            let _ = board.take_seat();
            self.board = Some((from, board));
        }
        Ok(())
    }
}

#[derive(Drop)]
struct Map {
    control: Control,
    tables: Tables,
    processors: usize,
}

// Returns a map without a table, in which the request for a table with the number `refused` fails.
fn empty_map(alloc: Global, processors: usize, refused: u8) -> Map {
    Map {
        control: Control::new(),
        tables: Tables {
            slots: Vec::new(alloc),
            board: None,
            requests: 0,
            refused,
        },
        processors,
    }
}

// Asserts that a slot is the one at `index` of `table`.
fn is_at(rt: &impl Abort, slot: &Slot<u64, u64>, table: u8, index: usize)
    ensures { (slot.now.table ≡ table) × (slot.now.index ≡ index) }
{
    let (slot_table, slot_index) = slot.at();
    assert!(rt; slot_table == table);
    assert!(rt; slot_index == index);
}

// Takes the slot that a call needs out of the tables.
fn lent(rt: &impl Abort, map: &mut Map, table: u8, index: usize) -> Slot<u64, u64>
    ensures { (result.table ≡ table) × (result.index ≡ index) }
{
    let slot = map.tables.take(rt, table, index);
    is_at(rt, &slot, table, index);
    slot
}

// Does the step of a call that needs to read a slot.
fn look<'k, F: ComputeFn<u64, u64>>(
    rt: &impl Abort,
    party: &mut Party<&'k u64, u64, u64, F>,
    map: &mut Map,
    table: u8,
    index: usize,
) -> Event
    requires { wanted_part party.old ≡ LookPart table index }
{
    let slot = lent(rt, map, table, index);
    let event = party.on_look(&slot);
    map.tables.put_back(rt, slot);
    event
}

// Does the step of a call that needs to write a slot.
fn change<'k, F: ComputeFn<u64, u64>>(
    rt: &(impl Abort + AllocGlobal),
    party: &mut Party<&'k u64, u64, u64, F>,
    map: &mut Map,
    table: u8,
    index: usize,
) -> Event
    requires { wanted_part party.old ≡ BinPart table index }
{
    let mut slot = lent(rt, map, table, index);
    let event = party.on_bin(rt.alloc(), &mut slot);
    map.tables.put_back(rt, slot);
    event
}

// Does the step of a call that needs to move a slot into its halves.
fn move_bin<'k, F: ComputeFn<u64, u64>>(
    rt: &impl Abort,
    party: &mut Party<&'k u64, u64, u64, F>,
    map: &mut Map,
    table: u8,
    index: usize,
) -> Event
    requires { wanted_part party.old ≡ MovePart table index }
{
    assert!(rt; table < 30, "the greatest table is never moved");
    let mut slot = lent(rt, map, table, index);
    let mut low = map.tables.take(rt, table + 1, index);
    let mut high = map
        .tables
        .take(rt, table + 1, index.saturating_add(1 << table));
    let event = party.on_move(&mut slot, &mut low, &mut high);
    map.tables.put_back(rt, slot);
    map.tables.put_back(rt, low);
    map.tables.put_back(rt, high);
    event
}

// Does the step of a call that needs a seat at the board of the growth from `table`.
fn take_seat<'k, F: ComputeFn<u64, u64>>(
    party: &mut Party<&'k u64, u64, u64, F>,
    map: &mut Map,
    table: u8,
) -> Event
    requires { wanted_part party.old ≡ SeatPart table }
{
    let got = map.tables.take_seat(table);
    party.on_seat(got)
}

// Does the step of a call that needs the board of the growth from `table`.
fn claim_or_report<'k, F: ComputeFn<u64, u64>>(
    party: &mut Party<&'k u64, u64, u64, F>,
    map: &mut Map,
    table: u8,
) -> Event
    requires { wanted_part party.old ≡ BoardPart table }
{
    if let Some(range) = party.take_range() {
        let last = map.tables.report(table, range);
        return party.on_report(last);
    }
    let attempt = map.tables.try_claim(table);
    party.on_attempt(attempt)
}

// Does the step of a call that gives back its seat at the board of the growth from `table`.
fn give_seat<'k, F: ComputeFn<u64, u64>>(
    party: &mut Party<&'k u64, u64, u64, F>,
    map: &mut Map,
    table: u8,
) -> Event
    requires { wanted_part party.old ≡ GivePart table }
{
    map.tables.give_seat(table);
    party.on_give()
}

// Does the next step of a call, at the part that it needs.
fn step<'k, F: ComputeFn<u64, u64>>(
    rt: &(impl Abort + AllocGlobal),
    party: &mut Party<&'k u64, u64, u64, F>,
    map: &mut Map,
) -> Event {
    match party.want() {
        Want::Control => party.on_control(&mut map.control, &mut map.tables),
        Want::Look(table, index) => look(rt, party, map, table, index),
        Want::Bin(table, index) => change(rt, party, map, table, index),
        Want::Move(table, index) => move_bin(rt, party, map, table, index),
        Want::Seat(table) => take_seat(party, map, table),
        Want::Board(table) => claim_or_report(party, map, table),
        Want::Give(table) => give_seat(party, map, table),
        Want::Done => panic!(rt; "the call is not done"),
    }
}

// Does the next steps of a call, at most `count`, and returns their events.
fn steps<'k, F: ComputeFn<u64, u64>>(
    rt: &(impl Abort + AllocGlobal),
    party: &mut Party<&'k u64, u64, u64, F>,
    map: &mut Map,
    count: u64,
) -> Vec<Event> {
    let mut events = Vec::new(rt.alloc());
    for _ in 0..count {
        if party.want() == Want::Done {
            break;
        }
        let event = step(rt, party, map);
        events.push(event).expect(rt, "memory for the event");
    }
    events
}

// Returns the reply of a call that is done. The call stays done, and its reply can be taken only once.
fn reply_of<'k, F: ComputeFn<u64, u64>>(
    rt: &impl Abort,
    party: &mut Party<&'k u64, u64, u64, F>,
) -> Close {
    assert_same(rt, party.reply().is_some(), true);
    let told = without_owners(party.take_reply().expect(rt, "the call is done"));
    assert_same(rt, party.want(), Want::Done);
    assert_same(
        rt,
        party.reply().is_some() || party.take_reply().is_some(),
        false,
    );
    told
}

// Does the steps of a call to its end, and returns their events and the reply.
fn end<'k, F: ComputeFn<u64, u64>>(
    rt: &(impl Abort + AllocGlobal),
    party: &mut Party<&'k u64, u64, u64, F>,
    map: &mut Map,
) -> (Vec<Event>, Close) {
    let events = steps(rt, party, map, 10000);
    let reply = reply_of(rt, party);
    (events, reply)
}

// Runs a whole call, and returns its events and its reply.
fn run<'k, F: ComputeFn<u64, u64>>(
    rt: &(impl Abort + AllocGlobal),
    map: &mut Map,
    hash: u64,
    call: Call<&'k u64, u64, u64, F>,
) -> (Vec<Event>, Close)
    requires { CallIsReady F.can_change F.never_keeps call }
{
    let mut party = Party::new(call, hash, map.processors);
    let ended = end(rt, &mut party, map);
    drop(party);
    ended
}

// A call as a row has it. A key that the call borrows is lent by the row.
type Asked = OwnedCall<u64, u64, Becomes>;

// Returns the call of a row.
fn call_of<'k>(
    rt: &(impl Abort + AllocGlobal),
    asked: &'k Asked,
) -> Call<&'k u64, u64, u64, Becomes> {
    match asked {
        OwnedCall::Get(key) => Call::Get(key),
        OwnedCall::GetKeyValue(key) => Call::GetKeyValue(key),
        OwnedCall::ContainsKey(key) => Call::ContainsKey(key),
        OwnedCall::Remove(key) => Call::Remove(key),
        OwnedCall::RemoveEntry(key) => Call::RemoveEntry(key),
        OwnedCall::Insert(key, value) => {
            let value = Arc::new(rt.alloc(), *value).expect(rt, "memory for the value");
            Call::Insert(*key, value)
        }
        OwnedCall::TryInsert(key, value) => Call::TryInsert(*key, *value),
        OwnedCall::Compute(key, change) => Call::Compute(key, *change),
        OwnedCall::Alter(key, change) => Call::Alter(*key, *change),
        OwnedCall::AlterPresent(key, change) => Call::AlterPresent(key, *change),
        OwnedCall::Reserve(count) => Call::Reserve(*count),
        OwnedCall::Clear => Call::Clear,
        OwnedCall::Walk => Call::Walk,
    }
}

// Runs the call of a row, and returns its events and its reply.
fn call(
    rt: &(impl Abort + AllocGlobal),
    map: &mut Map,
    hash: u64,
    asked: Asked,
) -> (Vec<Event>, Close) {
    run(rt, map, hash, call_of(rt, &asked))
}

// What a test does with a map, and what it sees.
#[derive(Clone, Copy)]
enum Row<'r> {
    // A call with its hash: the events of its steps, and its reply.
    Answers(u64, Asked, &'r [Event], Close),
    // A call with its hash: the number of its steps, and its reply.
    Takes(u64, Asked, usize, Close),
    // A call with its hash: its reply.
    Replies(u64, Asked, Close),
    // An insertion of each key below the first number, as its own hash and with the value 0: the number of its steps.
    InsertsEach(u64, usize),
    // An insertion of each key below the first number, of the hash 0 and with the value 0: the number of its steps.
    InsertsAtOneHash(u64, usize),
    // A removal of each key below the number, which is its own hash: its value was 0.
    RemovesEach(u64),
    // The table that is published.
    Table(Option<u8>),
    // The number of pairs that the control has counted.
    Pairs(usize),
    // The number of tables that were asked for.
    Requests(u8),
}

// Inserts each key below `count` with the value 0, and checks the number of the steps. The hash of each key is the key, or 0.
fn inserts_each(
    rt: &(impl Abort + AllocGlobal),
    map: &mut Map,
    count: u64,
    has_one_hash: bool,
    steps: usize,
) {
    for key in 0..count {
        let hash = if has_one_hash { 0 } else { key };
        let (events, told) = call(rt, map, hash, OwnedCall::Insert(key, 0));
        assert_same_at(rt, key, (events.len(), told), (steps, closes_with(None)));
    }
}

// Removes each key below `count`, and checks that its value was 0. The hash of each key is the key.
fn removes_each(rt: &(impl Abort + AllocGlobal), map: &mut Map, count: u64) {
    for key in 0..count {
        let (_events, told) = call(rt, map, key, OwnedCall::Remove(key));
        assert_same_at(rt, key, told, closes_with(Some(0)));
    }
}

// Does the row numbered `at`, and checks what it sees.
fn does(rt: &(impl Abort + AllocGlobal), map: &mut Map, at: usize, row: Row<'_>) {
    match row {
        Row::Answers(hash, asked, events, reply) => {
            let (seen, told) = call(rt, map, hash, asked);
            assert_same_at(rt, at, (seen.as_slice(), told), (events, reply));
        }
        Row::Takes(hash, asked, steps, reply) => {
            let (seen, told) = call(rt, map, hash, asked);
            assert_same_at(rt, at, (seen.len(), told), (steps, reply));
        }
        Row::Replies(hash, asked, reply) => {
            let (_events, told) = call(rt, map, hash, asked);
            assert_same_at(rt, at, told, reply);
        }
        Row::InsertsEach(count, steps) => inserts_each(rt, map, count, false, steps),
        Row::InsertsAtOneHash(count, steps) => inserts_each(rt, map, count, true, steps),
        Row::RemovesEach(count) => removes_each(rt, map, count),
        Row::Table(table) => assert_same_at(rt, at, map.control.locate(), table),
        Row::Pairs(count) => assert_same_at(rt, at, map.control.len(), count),
        Row::Requests(count) => assert_same_at(rt, at, map.tables.requests, count),
    }
}

// Goes through the rows, in their order.
fn go_on(rt: &(impl Abort + AllocGlobal), map: &mut Map, rows: &[Row<'_>]) {
    for at in 0..rows.len() {
        does(rt, map, at, rows[at]);
    }
}

// Goes through the rows in a map without a table, in which the request for a table with the number `refused` fails.
fn goes_through(rt: &(impl Abort + AllocGlobal), refused: u8, rows: &[Row<'_>]) {
    let mut map = empty_map(rt.alloc(), 1, refused);
    go_on(rt, &mut map, rows);
    drop(map);
}

// The reply of a call that found no value.
const NONE: Close = Close::Reply(KeptReply::Value(None));

// The rows of a map of 16 bins with the keys 1 and 17, in which the hash of each key is the key. Both keys are in bin 1.
const ONE_AND_SEVENTEEN: [Row<'static>; 2] = [
    Row::Takes(1, OwnedCall::Insert(1, 0), 3, NONE),
    Row::Takes(17, OwnedCall::Insert(17, 0), 3, NONE),
];

// The row that inserts the key 3 with the value 0.
const INSERTS_THREE: Row<'static> = Row::Replies(3, OwnedCall::Insert(3, 0), NONE);

// What a test does with a call in progress, and what it sees.
#[derive(Clone, Copy)]
enum Act<'r> {
    // The next step: its event.
    Step(Event),
    // The next steps, at most as many as the number: the event of the last one.
    GoesOnTo(u64, Event),
    // All further steps: their number.
    Ends(usize),
    // The steps that move as many bins of the table as the number, from the last one down.
    Moves(u8, usize),
    // The first step, at the certificate of the table.
    Starts,
    // The part that the next step needs.
    Wants(Want),
    // The call has its reply, which cannot be taken yet.
    KeepsReply,
    // The reply, which is taken.
    Replies(Close),
    // The pair that the call read last.
    LastRead(Option<(u64, u64)>),
    // The pair that the call read last, with its write number.
    Seen(u64, u64, u64),
    // What the test does with the map in between.
    Map(Row<'r>),
}

// Does the steps that move `count` bins of a table, from the last one down.
fn moves<'k, F: ComputeFn<u64, u64>>(
    rt: &(impl Abort + AllocGlobal),
    party: &mut Party<&'k u64, u64, u64, F>,
    map: &mut Map,
    table: u8,
    count: usize,
) {
    for index in (0..count).rev() {
        assert_same_at(rt, index, party.want(), Want::Move(table, index));
        let event = step(rt, party, map);
        assert_same_at(rt, index, event, Event::Moved(table, index));
    }
}

// Does the first step of a call at the certificate of the published table.
fn begins_at_a_start<'k, F: ComputeFn<u64, u64>>(
    rt: &impl Abort,
    party: &mut Party<&'k u64, u64, u64, F>,
    map: &Map,
) {
    let start = map.control.start().expect(rt, "a table is published");
    assert!(rt; party.is_locating(), "a call is_locating first");
    assert_same(rt, party.want(), Want::Control);
    assert_same(rt, party.on_published(&start), Event::Silent);
    assert_same(rt, party.is_locating(), false);
}

// Returns the pair that a walk has read last.
fn last_read<'k, F: ComputeFn<u64, u64>>(
    party: &Party<&'k u64, u64, u64, F>,
) -> Option<(u64, u64)> {
    match party.last_read() {
        Some((key, value)) => Some((*key, *value)),
        None => None,
    }
}

// Returns what a walk has read last.
fn seen_by<'k, F: ComputeFn<u64, u64>>(
    rt: &impl Abort,
    walk: &Party<&'k u64, u64, u64, F>,
) -> Seen<u64, u64> {
    let seen = walk.seen().expect(rt, "a further owner");
    seen.expect(rt, "a pair was read")
}

// Does the act numbered `at` with a call in progress, and checks what it sees.
fn acts<'k, F: ComputeFn<u64, u64>>(
    rt: &(impl Abort + AllocGlobal),
    party: &mut Party<&'k u64, u64, u64, F>,
    map: &mut Map,
    at: usize,
    act: Act<'_>,
) {
    match act {
        Act::Step(event) => assert_same_at(rt, at, step(rt, party, map), event),
        Act::GoesOnTo(count, event) => {
            let seen = steps(rt, party, map, count);
            assert_same_at(rt, at, seen.last(), Some(&event));
        }
        Act::Ends(count) => {
            let seen = steps(rt, party, map, 10000);
            assert_same_at(rt, at, seen.len(), count);
        }
        Act::Moves(table, count) => moves(rt, party, map, table, count),
        Act::Starts => begins_at_a_start(rt, party, map),
        Act::Wants(want) => assert_same_at(rt, at, party.want(), want),
        Act::KeepsReply => {
            let is_kept = party.reply().is_some() && party.take_reply().is_none();
            assert_same_at(rt, at, is_kept, true);
        }
        Act::Replies(reply) => assert_same_at(rt, at, reply_of(rt, party), reply),
        Act::LastRead(pair) => assert_same_at(rt, at, last_read(party), pair),
        Act::Seen(key, value, number) => {
            let seen = seen_by(rt, party);
            let pair = (*seen.key(), *seen.value(), seen.number());
            assert_same_at(rt, at, pair, (key, value, number));
        }
        Act::Map(row) => does(rt, map, at, row),
    }
}

// Begins a call, and does the acts with it, in their order. The call is then dropped, wherever it is.
fn follows_call<'k, F: ComputeFn<u64, u64>>(
    rt: &(impl Abort + AllocGlobal),
    map: &mut Map,
    hash: u64,
    call: Call<&'k u64, u64, u64, F>,
    acts_on: &[Act<'_>],
)
    requires { CallIsReady F.can_change F.never_keeps call }
{
    let mut party = Party::new(call, hash, map.processors);
    for at in 0..acts_on.len() {
        acts(rt, &mut party, map, at, acts_on[at]);
    }
    drop(party);
}

// Begins the call of a row, and does the acts with it.
fn follows(
    rt: &(impl Abort + AllocGlobal),
    map: &mut Map,
    hash: u64,
    asked: Asked,
    acts_on: &[Act<'_>],
) {
    follows_call(rt, map, hash, call_of(rt, &asked), acts_on)
}
