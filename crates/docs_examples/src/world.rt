//! Callers of a world, whose calls are done step by step.
ghost use Rattle.std.specs.Prelude.{◌≡◌, ℕ, Some, OnOk};
ghost use Rattle.std.specs.Ordering.{nat_cmp};
ghost use Rattle.flurry.specs.Lawful.{IsLawful};

use flurry::hash::{KeyHasher, LowHashBuilder};
use flurry::steps::control::Room;
use flurry::steps::party::{Event, Reply};
use flurry::steps::{Field, Party, act};
use flurry::world::{
    Call, ComputeFn, Label, NoFn, OwnedCall, Parts, Seen, Step, Tables, World, drive_alone,
};
use std::alloc::{AllocError, Global};
use std::sync::Wait;

/// Does the steps of one insertion, and returns how many labels there are.
pub fn insert_alone<F: ComputeFn<u64, u64> + Copy>(
    alloc: Global,
    key: u64,
    value: u64,
) -> Result<usize, AllocError> {
    let mut world: World<'_, u64, u64, F, LowHashBuilder> = World::new(
        alloc,
        8,
        LowHashBuilder,
        1,
    )?;
    let party = world.begin(OwnedCall::Insert(key, value))?;
    for _ in 0..4u32 {
        world.step(party)?;
    }
    Ok(world.trace().len())
}

/// Runs a list of steps, whose labels are lawful.
pub fn run_steps<F: ComputeFn<u64, u64> + Copy, S: KeyHasher<u64> + Drop>(
    alloc: Global,
    world: &mut World<'_, u64, u64, F, S>,
) -> Result<(), AllocError>
    ensures { OnOk result (IsLawful nat_cmp (S.hash_of world.old.hasher) F.changes world.new) }
{
    let mut steps = Vec::new(alloc);
    steps.push(Step::Begin(OwnedCall::Insert(7, 70)))?;
    steps.push(Step::Step(0))?;
    world.run(steps)
}

/// Returns `true` if a table that is made has a slot with the index `index`.
pub fn has_slot(alloc: Global, index: usize) -> Result<bool, AllocError> {
    let mut tables: Tables<u64, u64, Global> = Tables::new(alloc)?;
    tables.place(4, None)?;
    Ok(tables.has(4, index))
}

/// Runs a call over parts of one owner, and returns `true` if it was done.
pub fn insert_driven<R: Wait>(rt: &R, parts: &mut Parts<u64, u64>, key: u64, value: u64) -> bool {
    let call: OwnedCall<u64, u64, NoFn> = OwnedCall::Insert(key, value);
    match drive_alone(rt, call, &LowHashBuilder, 1, parts) {
        Reply::Value(_) => true,
        _ => false,
    }
}

/// Does the next step of a call, over any field that gives it the parts of its map. The contract promises safety alone, because what a step
/// does depends on the field.
pub fn next_step<F: ComputeFn<u64, u64>, X: Field<u64, u64, Global>>(
    party: &mut Party<&u64, u64, u64, F>,
    field: &mut X,
) -> Option<Event> {
    act(party, field)
}

/// Returns the party that decided at a label of a trace.
pub fn who_decided(label: Label<u64, u64, NoFn>) -> Option<usize>
    ensures { (p : ℕ) (r : _) → label ≡ Label.Decide p r → result ≡ Some p }
{
    match label {
        Label::Decide(party, _) => Some(party),
        _ => None,
    }
}

/// Returns the value that a call writes, or that it removes.
pub fn value_in_call(call: Call<u64, u64, NoFn>) -> Option<u64>
    ensures { (s : Seen ℕ ℕ) → call ≡ Call.RemoveSeen s → result ≡ Some s.value }
{
    match call {
        Call::Insert(_, value) | Call::TryInsert(_, value) => Some(value),
        Call::RemoveSeen(Seen { value, .. }) => Some(value),
        _ => None,
    }
}
