//! Lines that run the calls of a world.
ghost use Rattle.std.specs.Prelude.{◌≡◌, ℕ, ◌≤◌, [], ◌∷◌, ◌++◌, Option, None, Some, List, replicate, OnOk, OnErr, IfOk, IfSome, IsTrue};
ghost use Rattle.std.specs.Io.KnownBytes.{Appends};
ghost use Rattle.flurry_steps_stages.specs.CallView.{OwnedIsReady};
ghost use Rattle.flurry_steps_theory.specs.declared.Label.{Label};
ghost use Rattle.flurry_steps_world.specs.declared.world.Step.TheVariants as step;
ghost use Rattle.flurry_run_lines.specs.Labels.{label_text};
ghost use Rattle.flurry_run_lines.specs.Runs.{IsAnswered, RunsLines, FailsForCause};
ghost use Rattle.flurry_run_lines.specs.ScheduleRuns.{of_a_schedule, of_a_world, AnswersDrop, AnswersSteps};
ghost use Rattle.flurry_run_lines.specs.declared.schedule.Line.{Line};
ghost use Rattle.flurry_run_lines.specs.Lengths.{short_line};
ghost use Rattle.flurry_base.specs.declared.hash.LowHashBuilder.{LowHashBuilder};
ghost use Rattle.flurry_steps_world.specs.World.{WorldState};

use crate::ends::{bad_line, out_of_memory};
use crate::labels::write_label;
use crate::schedule::{Line, parse_line};
use crate::script::{Script, run_lines};
use flurry_base::hash::LowHashBuilder;
use flurry_bins_slots::{ComputeFn, NoFn};
use flurry_run_streams::{Sink, Source};
use flurry_steps::party::OwnedCall;
use flurry_steps_world::World;
use std::alloc::Allocator;
use std::io;

// The world on which the lines act. No line begins a call that has a function.
type Numbers<'k, F, A> = World<'k, u64, u64, F, LowHashBuilder, A>;

/// Runs the calls that the lines of `reader` begin, in the order of steps that the lines ask for, writes the label of each step, and
/// returns the program's status.
///
/// | Line | What it does | What is written |
/// |---|---|---|
/// | `world P C` | makes a world of P processors for C pairs, in which the hash of each key is the key | nothing |
/// | `begin insert K V`, `begin try K V` | begins a one-key call; the first call is party 0, the next party 1 | `begin P` |
/// | `begin get K`, `begin remove K` | begins a one-key call | `begin P` |
/// | `begin reserve N` | begins a call that makes room for N more pairs | `begin P` |
/// | `begin clear`, `begin walk` | begins a call that visits all bins | `begin P` |
/// | `begin drop P` | begins the removal of the pair that party P, a walk, read last; nothing if it has read none | `begin Q`, or `no` |
/// | `step P N` | does N steps of party P, at most 100000 | the label of each step |
/// | `lose P` | makes party P lose: it finds no seat at the board of a growth, or its attempt to claim a range there fails; any other party is unchanged | `silent P` |
///
/// A label is on a line of its own.
///
/// | Label | What the step did |
/// |---|---|
/// | `decide P R` | party P decided, with the reply R |
/// | `reply P R`, `end P` | party P is done, with the reply R if it is a one-key call |
/// | `refused P` | memory for the call of party P could not be allocated, and the party is done |
/// | `read P K V` | party P, a walk, read the pair of K and V |
/// | `wipe P E I` | party P, a clear, wiped bin I of table E |
/// | `opened E` | the first table was made, of 2^E bins |
/// | `placed E` | table E was made, and a growth to it started |
/// | `moved E I` | bin I of table E moved to the next table |
/// | `published E` | table E was published, and the growth to it finished |
/// | `silent P` | anything else; nothing at all if party P is done, or if no party has this number |
///
/// A reply R is `some V` or `none`. The reply to a `try` is `new V`, or `exists V` with the value that is present.
///
/// The first line must be a `world`, and no other line may be one. Lines have the form that [`seq_lines`](crate::seq_lines) describes. As
/// there, the run ends at the first bad line, with status 2, at the end of the input, at a failed read or at a failed write. For an input
/// without lines, nothing is written. If memory for the world, a party or a label cannot be allocated, `out of memory` is written, and the
/// run ends with status 3.
///
/// A line costs what its calls of the world cost.
pub fn world_lines<R: Source, W: Sink, A: Allocator + Copy>(
    alloc: A,
    reader: &mut R,
    writer: &mut W,
) -> u8
    ensures status { result ≤ 3 }
    // For a reader and a writer whose bytes are known.
    ensures run { RunsLines of_a_schedule None
        (R.remaining reader.old) (W.contents writer.old) (W.flushed writer.new) (W.has_failed writer.new) result }
    ensures cause { FailsForCause (R.remaining reader.old) (R.has_failed reader.new) (W.has_failed writer.new) result }
{
    lines_of_a_world::<NoFn, R, W, A>(alloc, reader, writer)
}

// Does what `world_lines` does, in a world whose calls may have functions of the type `F`.
fn lines_of_a_world<F: ComputeFn<u64, u64> + Copy, R: Source, W: Sink, A: Allocator + Copy>(
    alloc: A,
    reader: &mut R,
    writer: &mut W,
) -> u8
    ensures status { result ≤ 3 }
    ensures run { RunsLines (of_a_world {F = F} {S = LowHashBuilder} F.changes) None
        (R.remaining reader.old) (W.contents writer.old) (W.flushed writer.new) (W.has_failed writer.new) result }
    ensures cause { FailsForCause (R.remaining reader.old) (R.has_failed reader.new) (W.has_failed writer.new) result }
{
    let mut schedule: Schedule<'_, F, A> = Schedule { alloc, world: None };
    run_lines(&mut schedule, reader, writer)
}

// What is kept between lines: the world, once the first line has made it.
#[derive(Drop)]
struct Schedule<'k, F: ComputeFn<u64, u64> + Copy, A: Allocator + Copy> {
    alloc: A,
    world: Option<Numbers<'k, F, A>>,
}

impl<'k, F: ComputeFn<u64, u64> + Copy, A: Allocator + Copy> Script for Schedule<'k, F, A> {
    ghost Kept = { Option (WorldState ℕ ℕ F LowHashBuilder) };

    ghost Command = { Line };

    ghost meaning = { of_a_world F.changes };

    ghost kept = { λ schedule. schedule.world };

    fn answer_line<W: Sink>(
        &mut self,
        number: u64,
        line: &[u8],
        writer: &mut W,
    ) -> io::Result<Option<u8>> {
        match parse_line(line) {
            Some(line) => answer(self.alloc, &mut self.world, number, line, writer),
            None => Ok(Some(bad_line(number, writer)?)),
        }
    }

    ghost short = { short_line };
}

// Carries out a line of a schedule. Returns `Some(status)` if the run ends.
fn answer<F: ComputeFn<u64, u64> + Copy, W: Sink, A: Allocator + Copy>(
    alloc: A,
    world: &mut Option<Numbers<'_, F, A>>,
    number: u64,
    line: Line,
    writer: &mut W,
) -> io::Result<Option<u8>>
    ensures failed { OnErr result (IsTrue (W.has_failed writer.new)) }
    ensures status { IfOk result (λ ended. IfSome ended (λ status. (2 ≤ status) × (status ≤ 3))) }
    ensures answer { IfOk result
        (IsAnswered (of_a_world F.changes) line world.old world.new number (W.contents writer.old)
        (W.contents writer.new)) }
{
    match world {
        Some(world) => answer_in(world, number, line, writer),
        None => make_world(alloc, world, number, line, writer),
    }
}

// Makes the world that the first line asks for. Returns `Some(status)` if the run ends.
fn make_world<F: ComputeFn<u64, u64> + Copy, W: Sink, A: Allocator + Copy>(
    alloc: A,
    world: &mut Option<Numbers<'_, F, A>>,
    number: u64,
    line: Line,
    writer: &mut W,
) -> io::Result<Option<u8>>
    requires { world.old ≡ None }
    ensures failed { OnErr result (IsTrue (W.has_failed writer.new)) }
    ensures status { IfOk result (λ ended. IfSome ended (λ status. (2 ≤ status) × (status ≤ 3))) }
    ensures answer { IfOk result
        (IsAnswered (of_a_world F.changes) line None world.new number (W.contents writer.old) (W.contents writer.new)) }
{
    match line {
        Line::World(processors, capacity) => {
            match World::new(
                alloc,
                capacity as usize,
                LowHashBuilder,
                processors as usize,
            ) {
                Ok(new) => {
                    *world = Some(new);
                    Ok(None)
                }
                Err(_) => Ok(Some(out_of_memory(writer)?)),
            }
        }
        _ => Ok(Some(bad_line(number, writer)?)),
    }
}

// Carries out a line in the world. Returns `Some(status)` if the run ends.
fn answer_in<F: ComputeFn<u64, u64> + Copy, W: Sink, A: Allocator + Copy>(
    world: &mut Numbers<'_, F, A>,
    number: u64,
    line: Line,
    writer: &mut W,
) -> io::Result<Option<u8>>
    ensures failed { OnErr result (IsTrue (W.has_failed writer.new)) }
    ensures status { IfOk result (λ ended. IfSome ended (λ status. (2 ≤ status) × (status ≤ 3))) }
    ensures answer { IfOk result
        (IsAnswered (of_a_world F.changes) line (Some world.old) (Some world.new) number (W.contents writer.old)
        (W.contents writer.new)) }
{
    match line {
        Line::World(_, _) => Ok(Some(bad_line(number, writer)?)),
        Line::Insert(key, value) => begin(world, OwnedCall::Insert(key, value), writer),
        Line::Try(key, value) => begin(world, OwnedCall::TryInsert(key, value), writer),
        Line::Get(key) => begin(world, OwnedCall::Get(key), writer),
        Line::Remove(key) => begin(world, OwnedCall::Remove(key), writer),
        Line::Reserve(more) => begin(world, OwnedCall::Reserve(more as usize), writer),
        Line::Clear => begin(world, OwnedCall::Clear, writer),
        Line::Walk => begin(world, OwnedCall::Walk, writer),
        Line::Drop(party) => begin_drop(world, party as usize, writer),
        Line::Step(party, steps) => do_steps(world, party as usize, steps, writer),
        Line::Lose(party) => lose(world, party as usize, writer),
    }
}

// Begins a call, and writes its label. Returns `Some(status)` if the run ends.
fn begin<F: ComputeFn<u64, u64> + Copy, W: Sink, A: Allocator + Copy>(
    world: &mut Numbers<'_, F, A>,
    call: OwnedCall<u64, u64, F>,
    writer: &mut W,
) -> io::Result<Option<u8>>
    requires { OwnedIsReady F.can_change F.never_keeps call }
    ensures failed { OnErr result (IsTrue (W.has_failed writer.new)) }
    ensures status { IfOk result (λ ended. IfSome ended (λ status. status ≡ 3)) }
    ensures answer { IfOk result
        (AnswersSteps F.changes (step.Begin call ∷ []) world.old world.new (W.contents writer.old)
        (W.contents writer.new)) }
{
    match world.begin(call) {
        Ok(_) => {
            write_last(world, writer)?;
            Ok(None)
        }
        Err(_) => Ok(Some(out_of_memory(writer)?)),
    }
}

// Begins the removal of the pair that party `walk` has read last, and writes its label, or `no` if there is no such pair. Returns
// `Some(status)` if the run ends.
fn begin_drop<F: ComputeFn<u64, u64> + Copy, W: Sink, A: Allocator + Copy>(
    world: &mut Numbers<'_, F, A>,
    walk: usize,
    writer: &mut W,
) -> io::Result<Option<u8>>
    ensures failed { OnErr result (IsTrue (W.has_failed writer.new)) }
    ensures status { IfOk result (λ ended. IfSome ended (λ status. status ≡ 3)) }
    ensures answer { IfOk result
        (AnswersDrop F.changes walk world.old world.new (W.contents writer.old) (W.contents writer.new)) }
{
    match world.begin_remove_seen(walk) {
        Ok(Some(party)) => {
            writer.write_line(format_args!("begin {party}"))?;
            Ok(None)
        }
        Ok(None) => {
            writer.write_line("no")?;
            Ok(None)
        }
        Err(_) => Ok(Some(out_of_memory(writer)?)),
    }
}

// Does `steps` steps of `party`, and writes the label of each. Returns `Some(status)` if the run ends.
fn do_steps<F: ComputeFn<u64, u64> + Copy, W: Sink, A: Allocator + Copy>(
    world: &mut Numbers<'_, F, A>,
    party: usize,
    steps: u64,
    writer: &mut W,
) -> io::Result<Option<u8>>
    ensures failed { OnErr result (IsTrue (W.has_failed writer.new)) }
    ensures status { IfOk result (λ ended. IfSome ended (λ status. status ≡ 3)) }
    ensures answer { IfOk result
        (AnswersSteps F.changes (replicate steps (step.Step party)) world.old world.new (W.contents writer.old)
        (W.contents writer.new)) }
{
    for _ in 0..steps {
        match world.step(party) {
            Ok(()) => write_last(world, writer)?,
            Err(_) => return Ok(Some(out_of_memory(writer)?)),
        }
    }
    Ok(None)
}

// Makes `party` lose, and writes the label of that. Returns `Some(status)` if the run ends.
fn lose<F: ComputeFn<u64, u64> + Copy, W: Sink, A: Allocator + Copy>(
    world: &mut Numbers<'_, F, A>,
    party: usize,
    writer: &mut W,
) -> io::Result<Option<u8>>
    ensures failed { OnErr result (IsTrue (W.has_failed writer.new)) }
    ensures status { IfOk result (λ ended. IfSome ended (λ status. status ≡ 3)) }
    ensures answer { IfOk result
        (AnswersSteps F.changes (step.Lose party ∷ []) world.old world.new (W.contents writer.old)
        (W.contents writer.new)) }
{
    match world.lose(party) {
        Ok(()) => {
            write_last(world, writer)?;
            Ok(None)
        }
        Err(_) => Ok(Some(out_of_memory(writer)?)),
    }
}

// Writes the last label of the world's trace.
fn write_last<F: ComputeFn<u64, u64> + Copy, W: Sink, A: Allocator + Copy>(
    world: &Numbers<'_, F, A>,
    writer: &mut W,
) -> io::Result<()>
    ensures failed { OnErr result (IsTrue (W.has_failed writer.new)) }
    ensures bytes { OnOk result
        ((older : List (Label ℕ ℕ F)) (label : Label ℕ ℕ F) → world.now.trace ≡ older ++ label ∷ [] →
        Appends (W.contents writer.old) (W.contents writer.new) (label_text label ++ 10 ∷ [])) }
{
    match world.trace().last() {
        Some(label) => write_label(label, writer),
        None => Ok(()),
    }
}
