//! Lines that are commands on one owned map.
ghost use Rattle.std.specs.Prelude.{ℕ, [], ◌∷◌, ◌++◌, List, OnOk, OnErr, IsTrue};
ghost use Rattle.std.specs.Io.KnownBytes.{Appends};
ghost use Rattle.flurry_run_lines.specs.SeqReplies.{option_text, of_one_map, LineAnswers};
ghost use Rattle.flurry_run_lines.specs.Runs.{RunsLines, FailsForCause};
ghost use Rattle.flurry_run_lines.specs.declared.command.Command.{Command};
ghost use Rattle.flurry_run_lines.specs.Lengths.{short_command};

use crate::command::Command;
use crate::ends::bad_line;
use crate::parse::parse;
use crate::script::{Script, run_lines};
use flurry_base::hash::LowHashBuilder;
use flurry_run_streams::{Sink, Source};
use flurry_seq::SeqMap;
use std::alloc::Allocator;
use std::io;

// The map on which the lines act.
type Numbers<A> = SeqMap<u64, u64, LowHashBuilder, A>;

/// Carries out the lines of `reader` on a map that is empty at first, writes an answer to each, and returns the program's status.
///
/// | Line | Answer |
/// |---|---|
/// | `insert K V` | the value that the key had |
/// | `try K V` | `new V` if the key was absent; otherwise a text with the value that is present, and the map is unchanged |
/// | `get K` | the value of the key |
/// | `remove K` | the value of the key, whose pair is removed |
/// | `len` | the number of keys |
/// | `bins` | the number of bins of the map's table |
///
/// A value is written `some V`, or `none` if there is none. If memory for an `insert` or a `try` cannot be allocated, the answer is
/// `refused`, and the map is unchanged. Words are separated by one space. A number is decimal and has 64 bits, without a sign and without
/// leading zeros. A line has at most 64 bytes, and the last line may lack its line feed.
///
/// At the first line that is no such command, `bad line N` is written, where N counts from 1, and the run ends with status 2. At the end
/// of the input, the run ends with status 0. If a read fails, `input failed` is written, and the run ends with status 1; a read of a line
/// after the first 2^62 lines counts as failed. The earlier answers remain, and are flushed at the end, and before a line that has not yet
/// arrived in full is read. If a write or a flush fails, the run ends with status 1.
///
/// A line costs what its call on the map costs.
pub fn seq_lines<R: Source, W: Sink, A: Allocator + Copy>(
    alloc: A,
    reader: &mut R,
    writer: &mut W,
) -> u8
    // For a reader and a writer whose bytes are known.
    ensures run { RunsLines of_one_map [] (R.remaining reader.old) (W.contents writer.old) (W.flushed writer.new)
        (W.has_failed writer.new) result }
    ensures cause { FailsForCause (R.remaining reader.old) (R.has_failed reader.new) (W.has_failed writer.new) result }
{
    let mut map = SeqMap::with_hasher(alloc, LowHashBuilder);
    run_lines(&mut map, reader, writer)
}

impl<A: Allocator + Copy> Script for Numbers<A> {
    ghost Kept = { List (ℕ × ℕ) };

    ghost Command = { Command };

    ghost meaning = { of_one_map };

    ghost kept = { λ map. map.pairs };

    fn answer_line<W: Sink>(
        &mut self,
        number: u64,
        line: &[u8],
        writer: &mut W,
    ) -> io::Result<Option<u8>> {
        match parse(line) {
            Some(command) => {
                answer(self, command, writer)?;
                Ok(None)
            }
            None => Ok(Some(bad_line(number, writer)?)),
        }
    }

    ghost short = { short_command };
}

// Carries out a command, and writes its answer.
fn answer<W: Sink, A: Allocator + Copy>(
    map: &mut Numbers<A>,
    command: Command,
    writer: &mut W,
) -> io::Result<()>
    ensures failed { OnErr result (IsTrue (W.has_failed writer.new)) }
    ensures answer { OnOk result ((answer : List ℕ) × LineAnswers command map.old.pairs answer map.new.pairs
        × Appends (W.contents writer.old) (W.contents writer.new) (answer ++ 10 ∷ [])) }
{
    match command {
        Command::Insert(key, value) => match map.insert(key, value) {
            Ok(old) => write_value(writer, old.map(|value| *value)),
            Err(_) => writer.write_line("refused"),
        },
        Command::Try(key, value) => answer_try(map, key, value, writer),
        Command::Get(key) => {
            let value = map.get(&key).map(|value| **value);
            write_value(writer, value)
        }
        Command::Remove(key) => write_value(writer, map.remove(&key).map(|value| *value)),
        Command::Len => writer.write_line(map.len()),
        Command::Bins => writer.write_line(map.capacity()),
    }
}

// Inserts a pair if its key is absent, and writes the answer.
fn answer_try<W: Sink, A: Allocator + Copy>(
    map: &mut Numbers<A>,
    key: u64,
    value: u64,
    writer: &mut W,
) -> io::Result<()>
    ensures failed { OnErr result (IsTrue (W.has_failed writer.new)) }
    ensures answer { OnOk result ((answer : List ℕ) × LineAnswers (Command.Try key value) map.old.pairs answer map.new.pairs
        × Appends (W.contents writer.old) (W.contents writer.new) (answer ++ 10 ∷ [])) }
{
    match map.try_insert(key, value) {
        Ok(Ok(new)) => writer.write_line(format_args!("new {}", *new)),
        Ok(Err(error)) => writer.write_line(error),
        Err(_) => writer.write_line("refused"),
    }
}

// Writes a value, or `none` if there is none.
fn write_value<W: Sink>(writer: &mut W, value: Option<u64>) -> io::Result<()>
    ensures failed { OnErr result (IsTrue (W.has_failed writer.new)) }
    ensures bytes { OnOk result
        (Appends (W.contents writer.old) (W.contents writer.new) (option_text value ++ 10 ∷ [])) }
{
    match value {
        Some(value) => writer.write_line(format_args!("some {value}")),
        None => writer.write_line("none"),
    }
}
