//! Each request of a world's calls fails in turn.

use super::super::{Close, closes_with, metered};
use super::{Memory, assert_same, assert_same_at};
use flurry_base::hash::LowHashBuilder;
use flurry_base::reply::KeptReply;
use flurry_bins_slots::{ComputeFn, NoFn};
use flurry_steps::party::OwnedCall;
use flurry_steps_theory::Label;
use flurry_steps_world::World;
use flurry_steps_world::world::Step;
use metered_alloc::MeteredAlloc;
use std::alloc::{AllocError, Allocator, Global};
use std::fmt::Debug;
use std::process::Abort;

// A world in which the hash of each key is the key. Its allocator is a parameter, because a proof over `Memory` unfolds it in each step.
pub(super) type Numbers<F, A> = World<'static, u64, u64, F, LowHashBuilder, A>;

// More requests and more steps than any call makes.
const MOST: u64 = 1000;

// What the failure of one of its requests did to a call.
#[derive(Clone, Copy, Debug, PartialEq, Eq)]
pub(super) enum Told {
    // A step failed, and succeeded when it was repeated.
    Step,
    // The call failed.
    Call,
    // The call continued without what it had requested.
    Nothing,
}

// Returns how many labels the world has. A test asks here, because each `trace` in its own body makes its proof longer.
pub(super) fn label_count<F: ComputeFn<u64, u64> + Copy, A: Allocator + Copy>(
    world: &Numbers<F, A>,
) -> usize {
    world.trace().len()
}

// Returns how a label closes the call of its party, if it does.
fn close_of<F>(label: Option<&Label<u64, u64, F>>) -> Option<Close> {
    match label {
        Some(Label::Reply(_, reply)) => Some(Close::Reply(*reply)),
        Some(Label::End(_)) => Some(Close::End),
        Some(Label::Refused(_)) => Some(Close::Refused),
        _ => None,
    }
}

// Returns how the last label closes the call of its party, if it does.
fn last_close<F: ComputeFn<u64, u64> + Copy, A: Allocator + Copy>(
    world: &Numbers<F, A>,
) -> Option<Close> {
    close_of(world.trace().last())
}

// Begins the call, with enough memory.
pub(super) fn begins<F: ComputeFn<u64, u64> + Copy, A: Allocator + Copy>(
    rt: &impl Abort,
    world: &mut Numbers<F, A>,
    call: OwnedCall<u64, u64, F>,
) -> usize
    requires { (f : F) → F.can_change f × F.never_keeps f }
{
    world.begin(call).expect(rt, "memory for the call")
}

// Does the next steps of a party until its call closes. Returns how it closed, and whether one of the steps failed. A step that fails adds
// no label.
fn finish<F: ComputeFn<u64, u64> + Copy, A: Allocator + Copy>(
    rt: &impl Abort,
    world: &mut Numbers<F, A>,
    party: usize,
) -> (Close, bool) {
    let mut refused = false;
    for _ in 0..MOST {
        let before = label_count(world);
        if world.step(party).is_err() {
            refused = true;
            assert_same(rt, label_count(world), before);
        } else if let Some(close) = last_close(world) {
            return (close, refused);
        }
    }
    panic!(rt; "the call closes")
}

// Begins the call and finishes it, with enough memory.
fn whole<F: ComputeFn<u64, u64> + Copy, A: Allocator + Copy>(
    rt: &impl Abort,
    world: &mut Numbers<F, A>,
    call: OwnedCall<u64, u64, F>,
) -> Close
    requires { (f : F) → F.can_change f × F.never_keeps f }
{
    let party = begins(rt, world, call);
    finish(rt, world, party).0
}

// Returns the reply of a look-up of the key.
pub(super) fn value<F: ComputeFn<u64, u64> + Copy, A: Allocator + Copy>(
    rt: &impl Abort,
    world: &mut Numbers<F, A>,
    key: u64,
) -> Close
    requires { (f : F) → F.can_change f × F.never_keeps f }
{
    whole(rt, world, OwnedCall::Get(key))
}

// Returns the labels from `first` on, as text.
pub(super) fn labels_from<F: ComputeFn<u64, u64> + Copy + Debug, A: Allocator + Copy>(
    rt: &impl Abort,
    alloc: Global,
    world: &Numbers<F, A>,
    first: usize,
) -> String {
    let labels = world
        .trace()
        .get(first..)
        .expect(rt, "so many labels are there");
    format!(in alloc; "{labels:?}").expect(rt, "memory for the text")
}

// Returns whether the text of the labels contains `part`.
fn say<F: ComputeFn<u64, u64> + Copy + Debug, A: Allocator + Copy>(
    rt: &impl Abort,
    alloc: Global,
    world: &Numbers<F, A>,
    part: &str,
) -> bool {
    labels_from(rt, alloc, world, 0).contains(part)
}

// Does the next steps of a party, until the world has `labels` labels.
pub(super) fn step_to<F: ComputeFn<u64, u64> + Copy, A: Allocator + Copy>(
    rt: &impl Abort,
    world: &mut Numbers<F, A>,
    party: usize,
    labels: usize,
) {
    for _ in label_count(world)..labels {
        world.step(party).expect(rt, "memory for the step");
    }
}

// Returns a world with room for `capacity` pairs.
pub(super) fn world_for<F: ComputeFn<u64, u64> + Copy, A: Allocator + Copy>(
    rt: &impl Abort,
    memory: A,
    capacity: usize,
) -> Numbers<F, A> {
    World::new(memory, capacity, LowHashBuilder, 1).expect(rt, "memory for the world")
}

// Returns a world of the keys below `count`, each with itself as its value.
pub(super) fn world_of<F: ComputeFn<u64, u64> + Copy, A: Allocator + Copy>(
    rt: &impl Abort,
    memory: A,
    count: u64,
) -> Numbers<F, A>
    requires { (f : F) → F.can_change f × F.never_keeps f }
{
    let mut world = world_for(rt, memory, 0);
    for key in 0..count {
        let _ = whole(rt, &mut world, OwnedCall::Insert(key, key));
    }
    world
}

// Makes the call while one request fails. Returns what that did to the call, and how the call closed, or `None` if it made no such request.
pub(super) fn refused_at<F: ComputeFn<u64, u64> + Copy, A: Allocator + Copy>(
    rt: &impl Abort,
    metered: &MeteredAlloc<Global>,
    world: &mut Numbers<F, A>,
    call: OwnedCall<u64, u64, F>,
    request: u64,
) -> Option<(Told, Close)>
    requires { (f : F) → F.can_change f × F.never_keeps f }
{
    let party = begins(rt, world, call);
    metered.refuse_at(request);
    let (close, again) = finish(rt, world, party);
    let refused = metered.was_refused();
    metered.refuse_nothing();
    if !refused {
        return None;
    }
    let told = if close == Close::Refused {
        Told::Call
    } else if again {
        Told::Step
    } else {
        Told::Nothing
    };
    Some((told, close))
}

#[test]
fn a_world_without_a_table(rt: HostRuntime) {
    requests_of_a_new_world::<NoFn>(&rt, rt.alloc(), 0, 1)
}

#[test]
fn a_world_with_a_table(rt: HostRuntime) {
    requests_of_a_new_world::<NoFn>(&rt, rt.alloc(), 16, 2)
}

// Creates a world while the request numbered `k` fails. Returns whether that request was made, and whether there is no world.
fn refused_world<F: ComputeFn<u64, u64> + Copy, A: Allocator + Copy>(
    metered: &MeteredAlloc<Global>,
    memory: A,
    capacity: usize,
    k: u64,
) -> (bool, bool) {
    metered.refuse_at(k);
    let answer: Result<Numbers<F, A>, AllocError> = World::new(memory, capacity, LowHashBuilder, 1);
    let failed = answer.is_err();
    drop(answer);
    let refused = metered.was_refused();
    metered.refuse_nothing();
    (refused, failed)
}

// Asserts that creating a world with room for `capacity` pairs makes `requests` requests.
fn requests_of_a_new_world<F: ComputeFn<u64, u64> + Copy>(
    rt: &impl Abort,
    alloc: Global,
    capacity: usize,
    requests: u64,
) {
    let memory = metered(rt, alloc);
    for k in 0..=requests {
        let refused = k < requests;
        assert_same_at(
            rt,
            k,
            refused_world::<F, _>(memory, memory, capacity, k),
            (refused, refused),
        );
        assert_same_at(rt, k, memory.live_blocks(), 0);
    }
}

// The first call makes requests for the room of labels and for the room of calls. A call that fails is no party: the next party has its
// number.
#[test]
fn begin(rt: HostRuntime) {
    let rt = &rt;
    let memory = metered(rt, rt.alloc());
    for k in 0..3u64 {
        begins_at::<NoFn, _>(rt, memory, memory, k);
        assert_same_at(rt, k, memory.live_blocks(), 0);
    }
}

fn begins_at<F: ComputeFn<u64, u64> + Copy, A: Allocator + Copy>(
    rt: &impl Abort,
    metered: &MeteredAlloc<Global>,
    memory: A,
    k: u64,
)
    requires { (f : F) → F.can_change f × F.never_keeps f }
{
    let mut world: Numbers<F, A> = world_for(rt, memory, 0);
    metered.refuse_at(k);
    let failed = world.begin(OwnedCall::Insert(3, 10)).is_err();
    let refused = metered.was_refused();
    metered.refuse_nothing();
    let seen = (refused, failed, label_count(&world) == 0);
    assert_same_at(rt, k, seen, (k < 2, refused, refused));
    let (next, found) = if refused { (0, None) } else { (1, Some(10)) };
    assert_same_at(rt, k, begins(rt, &mut world, OwnedCall::Get(3)), next);
    assert_same_at(rt, k, finish(rt, &mut world, 0).0, closes_with(None));
    assert_same_at(rt, k, value(rt, &mut world, 3), closes_with(found));
    drop(world);
}

// An insertion makes requests for the first table, its key, its value and its node, and then for room for the label of its reply.
#[test]
fn insertion_into_a_new_world(rt: HostRuntime) {
    let rt = &rt;
    let memory = metered(rt, rt.alloc());
    for k in 0..MOST {
        let refused = inserts_at::<NoFn, _>(rt, rt.alloc(), memory, memory, k);
        assert_same_at(rt, k, memory.live_blocks(), 0);
        if !refused {
            assert_same(rt, k, 5);
            return;
        }
    }
    panic!(rt; "it makes fewer requests");
}

// Returns the labels of a new world with one insertion, with enough memory.
fn text_of_an_insertion<F: ComputeFn<u64, u64> + Copy + Debug, A: Allocator + Copy>(
    rt: &impl Abort,
    alloc: Global,
    memory: A,
) -> String
    requires { (f : F) → F.can_change f × F.never_keeps f }
{
    let mut world: Numbers<F, A> = world_for(rt, memory, 0);
    let _ = whole(rt, &mut world, OwnedCall::Insert(3, 10));
    let text = labels_from(rt, alloc, &world, 0);
    drop(world);
    text
}

// Returns whether the insertion made the request numbered `k`.
fn inserts_at<F: ComputeFn<u64, u64> + Copy + Debug, A: Allocator + Copy>(
    rt: &impl Abort,
    alloc: Global,
    metered: &MeteredAlloc<Global>,
    memory: A,
    k: u64,
) -> bool
    requires { (f : F) → F.can_change f × F.never_keeps f }
{
    let mut world: Numbers<F, A> = world_for(rt, memory, 0);
    let seen = refused_at(rt, metered, &mut world, OwnedCall::Insert(3, 10), k);
    if let Some(seen) = seen {
        inserted_at(rt, alloc, memory, &mut world, k, seen);
    }
    drop(world);
    seen.is_some()
}

// Checks the world after the request numbered `k` has failed.
fn inserted_at<F: ComputeFn<u64, u64> + Copy + Debug, A: Allocator + Copy>(
    rt: &impl Abort,
    alloc: Global,
    memory: A,
    world: &mut Numbers<F, A>,
    k: u64,
    seen: (Told, Close),
)
    requires { (f : F) → F.can_change f × F.never_keeps f }
{
    let none = closes_with(None);
    if k < 4 {
        assert_same_at(rt, k, seen, (Told::Call, Close::Refused));
        assert_same_at(rt, k, value(rt, world, 3), none);
        assert_same_at(rt, k, whole(rt, world, OwnedCall::Insert(3, 11)), none);
    } else {
        assert_same_at(rt, k, seen, (Told::Step, none));
        let plain = text_of_an_insertion::<F, A>(rt, alloc, memory);
        assert_same_at(rt, k, labels_from(rt, alloc, world, 0), plain);
    }
    let found = if k < 4 { 11 } else { 10 };
    assert_same_at(rt, k, value(rt, world, 3), closes_with(Some(found)));
}

// The insertion that reaches the threshold also makes a request for a larger table. If that fails, the insertion continues, and the next
// one makes the request again.
#[test]
fn insertion_that_grows(rt: HostRuntime) {
    let rt = &rt;
    let memory = metered(rt, rt.alloc());
    for k in 0..MOST {
        let refused = grows_at::<NoFn, _>(rt, rt.alloc(), memory, memory, k);
        assert_same_at(rt, k, memory.live_blocks(), 0);
        if !refused {
            assert_same(rt, k, 5);
            return;
        }
    }
    panic!(rt; "it makes fewer requests");
}

// Returns whether the insertion made the request numbered `k`.
fn grows_at<F: ComputeFn<u64, u64> + Copy + Debug, A: Allocator + Copy>(
    rt: &impl Abort,
    alloc: Global,
    metered: &MeteredAlloc<Global>,
    memory: A,
    k: u64,
) -> bool
    requires { (f : F) → F.can_change f × F.never_keeps f }
{
    let mut world: Numbers<F, A> = world_of(rt, memory, 11);
    let seen = refused_at(rt, metered, &mut world, OwnedCall::Insert(20, 5), k);
    if let Some(seen) = seen {
        grown_at(rt, alloc, &mut world, k, seen);
    }
    drop(world);
    seen.is_some()
}

// Checks the world after the request numbered `k` has failed.
fn grown_at<F: ComputeFn<u64, u64> + Copy + Debug, A: Allocator + Copy>(
    rt: &impl Abort,
    alloc: Global,
    world: &mut Numbers<F, A>,
    k: u64,
    seen: (Told, Close),
)
    requires { (f : F) → F.can_change f × F.never_keeps f }
{
    let none = closes_with(None);
    let (wanted, found) = match k {
        0 | 1 | 2 => ((Told::Call, Close::Refused), None),
        3 => ((Told::Nothing, none), Some(5)),
        _ => ((Told::Step, none), Some(5)),
    };
    assert_same_at(rt, k, seen, wanted);
    assert_same_at(rt, k, say(rt, alloc, world, "Placed(5)"), k == 4);
    assert_same_at(rt, k, value(rt, world, 20), closes_with(found));
    assert_same_at(rt, k, whole(rt, world, OwnedCall::Insert(21, 6)), none);
    assert_same_at(rt, k, whole(rt, world, OwnedCall::Insert(22, 7)), none);
    assert_same_at(rt, k, say(rt, alloc, world, "Published(5)"), true);
}

// A look-up makes a request for room for its labels, and no other.
#[test]
fn look_up(rt: HostRuntime) {
    let rt = &rt;
    let memory = metered(rt, rt.alloc());
    for k in 0..MOST {
        let seen = looks_up_at::<NoFn, _>(rt, memory, memory, k);
        assert_same_at(rt, k, memory.live_blocks(), 0);
        if seen.is_none() {
            assert_same(rt, k, 1);
            return;
        }
        assert_same_at(rt, k, seen, Some((Told::Step, closes_with(Some(0)))));
    }
    panic!(rt; "it makes fewer requests");
}

fn looks_up_at<F: ComputeFn<u64, u64> + Copy, A: Allocator + Copy>(
    rt: &impl Abort,
    metered: &MeteredAlloc<Global>,
    memory: A,
    k: u64,
) -> Option<(Told, Close)>
    requires { (f : F) → F.can_change f × F.never_keeps f }
{
    let mut world: Numbers<F, A> = world_of(rt, memory, 1);
    let seen = refused_at(rt, metered, &mut world, OwnedCall::Get(0), k);
    drop(world);
    seen
}

// If there is no table, a reserve makes a request for a table of 256 bins. Then, as in every case, it makes a request for each table up to
// the one of 512 bins, the first whose threshold is at least 256.
#[test]
fn reserve_in_a_new_world(rt: HostRuntime) {
    let rt = &rt;
    let memory = metered(rt, rt.alloc());
    assert_same(rt, refusals_of_a_reserve(rt, memory, 0), 2);
}

#[test]
fn reserve_in_a_world_of_16_bins(rt: HostRuntime) {
    let rt = &rt;
    let memory = metered(rt, rt.alloc());
    assert_same(rt, refusals_of_a_reserve(rt, memory, 1), 5);
}

// Returns how many requests of a reserve make it fail, in a world of `count` keys.
fn refusals_of_a_reserve(rt: &impl Abort, memory: Memory, count: u64) -> u64 {
    let mut refusals = 0u64;
    for k in 0..MOST {
        let seen = reserves_at::<NoFn, _>(rt, memory, memory, count, k);
        assert_same_at(rt, k, memory.live_blocks(), 0);
        match seen {
            None => return refusals,
            Some((Told::Call, Close::Refused)) => refusals = refusals.saturating_add(1),
            _ => assert_same_at(rt, k, seen, Some((Told::Step, Close::End))),
        }
    }
    panic!(rt; "it makes fewer requests")
}

// Returns what the failure of one request did to a reserve. The pairs stay, and a second reserve succeeds.
fn reserves_at<F: ComputeFn<u64, u64> + Copy, A: Allocator + Copy>(
    rt: &impl Abort,
    metered: &MeteredAlloc<Global>,
    memory: A,
    count: u64,
    k: u64,
) -> Option<(Told, Close)>
    requires { (f : F) → F.can_change f × F.never_keeps f }
{
    let mut world: Numbers<F, A> = world_of(rt, memory, count);
    let seen = refused_at(rt, metered, &mut world, OwnedCall::Reserve(100), k);
    let found = if count == 0 { None } else { Some(0) };
    assert_same_at(rt, k, value(rt, &mut world, 0), closes_with(found));
    assert_same_at(
        rt,
        k,
        whole(rt, &mut world, OwnedCall::Reserve(100)),
        Close::End,
    );
    drop(world);
    seen
}

// The number of steps of the list.
const STEPS: usize = 9;

// Returns the list's steps from `first` on.
fn steps_from<F: ComputeFn<u64, u64> + Copy, A: Allocator + Copy>(
    rt: &impl Abort,
    memory: A,
    first: usize,
) -> Vec<Step<u64, u64, F>, A> {
    let mut steps = Vec::new(memory);
    for at in first..STEPS {
        let step = match at {
            0 => Step::Begin(OwnedCall::Insert(3, 10)),
            1 => Step::Begin(OwnedCall::Get(3)),
            2 | 3 | 5 | 7 => Step::Step(0),
            _ => Step::Step(1),
        };
        steps.push(step).expect(rt, "memory for the step");
    }
    steps
}

// Returns the labels of a new world that ran the list's steps, with enough memory.
#[tactic(auto, using(flurry_steps_world::proofs::RunLaws::step_ready))]
fn text_of_steps<F: ComputeFn<u64, u64> + Copy + Debug, A: Allocator + Copy>(
    rt: &impl Abort,
    alloc: Global,
    memory: A,
) -> String
    requires { (f : F) → F.can_change f × F.never_keeps f }
{
    let mut world: Numbers<F, A> = world_for(rt, memory, 0);
    world
        .run(steps_from(rt, memory, 0))
        .expect(rt, "memory for the steps");
    let text = labels_from(rt, alloc, &world, 0);
    drop(world);
    text
}

// A list stops if memory for a label or a party cannot be allocated, and the rest of it may be run later. A call that fails is a step like
// any other.
#[test]
fn run(rt: HostRuntime) {
    let rt = &rt;
    let memory = metered(rt, rt.alloc());
    for k in 0..MOST {
        let refused = runs_at::<NoFn, _>(rt, rt.alloc(), memory, memory, k);
        assert_same_at(rt, k, memory.live_blocks(), 0);
        if !refused {
            assert_same(rt, k, 9);
            return;
        }
    }
    panic!(rt; "it makes fewer requests");
}

// Returns whether the steps made the request numbered `k`.
#[tactic(auto, using(flurry_steps_world::proofs::RunLaws::step_ready))]
fn runs_at<F: ComputeFn<u64, u64> + Copy + Debug, A: Allocator + Copy>(
    rt: &impl Abort,
    alloc: Global,
    metered: &MeteredAlloc<Global>,
    memory: A,
    k: u64,
) -> bool
    requires { (f : F) → F.can_change f × F.never_keeps f }
{
    let mut world: Numbers<F, A> = world_for(rt, memory, 0);
    let steps = steps_from(rt, memory, 0);
    metered.refuse_at(k);
    let ran = world.run(steps).is_ok();
    let refused = metered.was_refused();
    metered.refuse_nothing();
    let done = label_count(&world);
    let whole = !refused || 3 <= k && k < 7;
    assert_same_at(rt, k, (ran, done == STEPS), (whole, whole));
    world
        .run(steps_from(rt, memory, done))
        .expect(rt, "memory for the rest");
    assert_same_at(rt, k, label_count(&world), STEPS);
    let plain = text_of_steps::<F, A>(rt, alloc, memory);
    let is_plain = labels_from(rt, alloc, &world, 0) == plain;
    drop(world);
    assert_same_at(rt, k, is_plain, !refused || !whole);
    refused
}
