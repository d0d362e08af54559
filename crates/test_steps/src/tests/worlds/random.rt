//! Random schedules, in which each label is checked.
ghost use Rattle.std.specs.Prelude.{◌<◌, ⊤};

use super::checker::{Checker, KEYS, ensure};
use super::{Numbers, assert_same, begin, label_count, world_for};
use flurry_bins_slots::{ComputeFn, Verdict};
use flurry_steps::party::OwnedCall;
use flurry_steps_control::wanted_table;
use std::alloc::Global;
use std::process::Abort;

// Where the random numbers of each test begin.
const SEED: u64 = 88_172_645_463_325_252;

// A generator of numbers, `xorshift64*`.
#[derive(Drop)]
struct Random {
    state: u64,
}

impl Random {
    // Returns a number below `bound`.
    fn below(&mut self, bound: u64) -> u64
        requires { 0 < bound }
        ensures { result < bound }
    {
        let mut state = self.state;
        state ^= state >> 12;
        state ^= state << 25;
        state ^= state >> 27;
        self.state = state;
        (state.wrapping_mul(0x2545_f491_4f6c_dd1d) >> 33) % bound
    }
}

// Returns a call with one of the few keys, a reserve of at most 64, a clear or a walk.
fn random_call<F: ComputeFn<u64, u64>>(random: &mut Random, change: F) -> OwnedCall<u64, u64, F> {
    let key = random.below(KEYS);
    let value = random.below(1000);
    match random.below(22) {
        0 | 1 => OwnedCall::Get(key),
        2 => OwnedCall::GetKeyValue(key),
        3 => OwnedCall::ContainsKey(key),
        4 | 5 => OwnedCall::Remove(key),
        6 => OwnedCall::RemoveEntry(key),
        7 | 8 | 9 | 10 => OwnedCall::Insert(key, value),
        11 | 12 => OwnedCall::TryInsert(key, value),
        13 | 14 => OwnedCall::Compute(key, change),
        15 => OwnedCall::Reserve(random.below(65) as usize),
        16 => OwnedCall::Clear,
        17 | 18 => OwnedCall::Alter(key, change),
        19 => OwnedCall::AlterPresent(key, change),
        _ => OwnedCall::Walk,
    }
}

// A world, the checker of its labels, the number of steps of each party, and the number of calls that have closed.
#[derive(Drop)]
struct Checked<'k, F: ComputeFn<u64, u64> + Copy> {
    world: Numbers<'k, F>,
    checker: Checker<F>,
    steps: Vec<u64>,
    closed: u64,
}

impl<'k, F: ComputeFn<u64, u64> + Copy> Checked<'k, F> {
    // Creates a world for up to 16 pairs and with up to 4 processors, in which no call has begun.
    fn new(rt: &impl Abort, alloc: Global, random: &mut Random) -> Self {
        let capacity = random.below(17) as usize;
        let processors = random.below(4) as usize + 1;
        let first = if capacity == 0 {
            None
        } else {
            Some(wanted_table(capacity))
        };
        Checked {
            world: world_for(rt, alloc, capacity, processors),
            checker: Checker::new(rt, alloc, first),
            steps: Vec::new(alloc),
            closed: 0,
        }
    }

    fn check_last(&mut self, rt: &impl Abort)
        requires { (f : F) → F.can_change f × F.never_keeps f }
    {
        let label = self.world.trace().last().expect(rt, "a label was added");
        self.checker.check(rt, label);
    }

    fn begin(&mut self, rt: &impl Abort, call: OwnedCall<u64, u64, F>) -> usize
        requires { (f : F) → F.can_change f × F.never_keeps f }
    {
        let party = begin(rt, &mut self.world, call);
        self.check_last(rt);
        self.steps.push(0).expect(rt, "memory for the count");
        party
    }

    // Returns mostly the last party that has read, and otherwise any of `parties` parties.
    fn random_reader(&self, random: &mut Random, parties: u64) -> usize {
        if random.below(4) == 0 {
            random_party(random, parties)
        } else {
            self.checker.reader()
        }
    }

    // Begins the removal of what a party has read last, if it is a walk that has read. Returns whether a removal began.
    fn drop_seen(&mut self, rt: &impl Abort, walk: usize) -> bool
        requires { (f : F) → F.can_change f × F.never_keeps f }
    {
        let labels = label_count(&self.world);
        let began = self
            .world
            .begin_remove_seen(walk)
            .expect(rt, "memory for the call");
        assert_same(rt, began.is_some(), self.checker.has_read(walk));
        if began.is_none() {
            assert_same(rt, label_count(&self.world), labels);
            return false;
        }
        self.check_last(rt);
        self.checker.began_from(rt, walk);
        self.steps.push(0).expect(rt, "memory for the count");
        true
    }

    // Does a step of a party. A look-up must have decided after 32 steps.
    fn step(&mut self, rt: &impl Abort, party: usize)
        requires { (f : F) → F.can_change f × F.never_keeps f }
    {
        self.world.step(party).expect(rt, "memory for the step");
        let was_closed = self.checker.is_closed(party);
        self.check_last(rt);
        if !was_closed && self.checker.is_closed(party) {
            self.closed = self.closed.wrapping_add(1);
        }
        let steps = self.steps.get_mut(party).expect(rt, "the party began");
        *steps = steps.wrapping_add(1);
        let is_late = *steps >= 32 && self.checker.looks_up(party);
        ensure(rt, !is_late, "a look-up decides within 32 steps");
    }

    // Makes a party lose, which is no step of it.
    fn lose(&mut self, rt: &impl Abort, party: usize)
        requires { (f : F) → F.can_change f × F.never_keeps f }
    {
        self.world.lose(party).expect(rt, "memory for the label");
        self.check_last(rt);
    }

    // Looks up each key. The results of these calls are checked with their labels.
    fn look_all_up(&mut self, rt: &impl Abort)
        requires { (f : F) → F.can_change f × F.never_keeps f }
    {
        for key in 0..KEYS {
            let party = self.begin(rt, OwnedCall::Get(key));
            self.close(rt, party);
        }
    }

    // Does the steps of a look-up until it replies.
    fn close(&mut self, rt: &impl Abort, party: usize)
        requires { (f : F) → F.can_change f × F.never_keeps f }
    {
        for _ in 0..33u64 {
            self.step(rt, party);
            if self.checker.is_closed(party) {
                return;
            }
        }
        panic!(rt; "a look-up has replied after 33 steps")
    }
}

// Returns one of `parties` parties, mostly one of the latest five.
fn random_party(random: &mut Random, parties: u64) -> usize {
    let among = if random.below(4) == 0 {
        parties
    } else {
        parties.min(5)
    };
    let back = random.below(among.max(1)).saturating_add(1);
    parties.saturating_sub(back) as usize
}

// Does 200 steps. About every sixth step begins a call, and every fortieth begins a removal of what was read. A party that does a step is
// likely to do the next step too.
fn random_steps<'k, F: ComputeFn<u64, u64> + Copy>(
    rt: &impl Abort,
    checked: &mut Checked<'k, F>,
    random: &mut Random,
    change: F,
)
    requires { (f : F) → F.can_change f × F.never_keeps f }
{
    let mut going = checked.begin(rt, random_call(random, change));
    let mut parties = 1u64;
    for _ in 1..200u64 {
        if random.below(6) == 0 {
            let _ = checked.begin(rt, random_call(random, change));
            parties = parties.saturating_add(1);
        } else if random.below(40) == 0 {
            let walk = checked.random_reader(random, parties);
            if checked.drop_seen(rt, walk) {
                going = parties as usize;
                parties = parties.saturating_add(1);
            }
        } else {
            if checked.checker.is_closed(going) || random.below(8) == 0 {
                going = random_party(random, parties);
            }
            checked.step(rt, going);
        }
    }
}

// 200 steps of four parties at a time, each of which is begun, or stepped, in one of four places. Where the call of a place has closed,
// or none has begun there, another call begins in it, or every eighth time the removal of what was read last. Where `losses` is above 0, a
// party loses once in so many of its turns.
fn steps_of_four<'k, F: ComputeFn<u64, u64> + Copy>(
    rt: &impl Abort,
    checked: &mut Checked<'k, F>,
    random: &mut Random,
    change: F,
    losses: u64,
)
    requires { (f : F) → F.can_change f × F.never_keeps f }
{
    let mut places = [usize::MAX; 4];
    for _ in 0..200u64 {
        let place = random.below(4) as usize;
        let party = places[place];
        if party != usize::MAX && !checked.checker.is_closed(party) {
            if losses > 0 && random.below(losses) == 0 {
                checked.lose(rt, party);
            } else {
                checked.step(rt, party);
            }
            continue;
        }
        let began = checked.steps.len();
        let reader = checked.checker.reader();
        if random.below(8) == 0 && checked.drop_seen(rt, reader) {
            places[place] = began;
        } else {
            places[place] = checked.begin(rt, random_call(random, change));
        }
    }
}

// How the parties of a schedule are drawn.
#[derive(Clone, Copy)]
enum Drawing {
    // Any of those that began, which are some 34.
    Any,
    // Four at a time.
    Four,
    // Four at a time, each of which loses once in five of its turns.
    FourThatLose,
}

// What schedules did: the number of calls that replied or ended, the number of growths that were published, and the numbers of removals of
// what a walk had read that found it as it was read, or did not.
#[derive(Drop)]
struct Totals {
    closed: u64,
    growths: u64,
    removed: u64,
    kept: u64,
}

// What a thousand schedules did.
fn schedules<F: ComputeFn<u64, u64> + Copy>(
    rt: &impl Abort,
    alloc: Global,
    drawing: Drawing,
    change: F,
) -> Totals
    requires { (f : F) → F.can_change f × F.never_keeps f }
{
    let mut random = Random { state: SEED };
    let mut totals = Totals {
        closed: 0,
        growths: 0,
        removed: 0,
        kept: 0,
    };
    for _ in 0..1000u64 {
        let mut checked = Checked::new(rt, alloc, &mut random);
        match drawing {
            Drawing::Any => random_steps(rt, &mut checked, &mut random, change),
            Drawing::Four => steps_of_four(rt, &mut checked, &mut random, change, 0),
            Drawing::FourThatLose => steps_of_four(rt, &mut checked, &mut random, change, 5),
        }
        let (removed, kept) = checked.checker.drops();
        totals.closed = totals.closed.wrapping_add(checked.closed);
        totals.growths = totals.growths.wrapping_add(checked.checker.growths());
        totals.removed = totals.removed.wrapping_add(removed);
        totals.kept = totals.kept.wrapping_add(kept);
        checked.look_all_up(rt);
        drop(checked);
    }
    totals
}

// Doubles an even value, and removes the pair of an odd one. An even key that is absent gets itself as its value.
#[derive(Clone, Copy)]
struct DoubleOrRemove;

impl ComputeFn<u64, u64> for DoubleOrRemove {
    ghost can_change = { λ _. ⊤ };

    ghost never_keeps = { λ _. ⊤ };

    ghost changes = { λ _ _ _ _. ⊤ };

    fn change<'a>(self, key: &'a u64, value: Option<&'a u64>) -> Verdict<u64> {
        match value {
            Some(value) => {
                if *value % 2 == 0 {
                    Verdict::Set(value.wrapping_mul(2))
                } else {
                    Verdict::Remove
                }
            }
            None => {
                if *key % 2 == 0 {
                    Verdict::Set(*key)
                } else {
                    Verdict::Keep
                }
            }
        }
    }
}

// Sees to it that calls have closed, growths were published, and removals of what was read decided either way.
fn did(rt: &impl Abort, totals: Totals, closed: u64, growths: u64, removals: u64) {
    assert!(rt;
        totals.closed >= closed
            && totals.growths >= growths
            && totals.removed >= removals
            && totals.kept >= removals,
        "{} closed, {} growths, {} removed and {} kept",
        totals.closed,
        totals.growths,
        totals.removed,
        totals.kept
    );
}

// About one step in six begins a call, so that some 34,000 calls begin, of which most close.
#[test]
fn random_schedules(rt: HostRuntime) {
    let totals = schedules(&rt, rt.alloc(), Drawing::Any, DoubleOrRemove);
    did(&rt, totals, 15_000, 300, 100);
}

#[test]
fn random_schedules_of_four_parties(rt: HostRuntime) {
    let totals = schedules(&rt, rt.alloc(), Drawing::Four, DoubleOrRemove);
    did(&rt, totals, 15_000, 300, 100);
}

#[test]
fn random_schedules_with_losses(rt: HostRuntime) {
    let totals = schedules(&rt, rt.alloc(), Drawing::FourThatLose, DoubleOrRemove);
    did(&rt, totals, 12_000, 200, 80);
}
