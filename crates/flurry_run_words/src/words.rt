//! The words that the program is run with.
ghost use Rattle.std.specs.Prelude.{◌≡◌, ◌≢◌, ◌≤◌, ℕ, [], None, MatchOption};
ghost use Rattle.std.specs.Fmt.{decimal};
ghost use Rattle.flurry_run_words.specs.Arguments.{IsSeqWords, IsWorldWords, AsksThreads, TellsUsage};
ghost use Rattle.flurry_run_lines.specs.SeqReplies.{of_one_map};
ghost use Rattle.flurry_run_lines.specs.Runs.{UnlessWriteFailed, RunsLines, FailsForCause};
ghost use Rattle.flurry_run_lines.specs.ScheduleRuns.{of_a_schedule};
ghost use Rattle.flurry_run_words.specs.Threads.{TellsLength};

use crate::threads::{MAX_KEYS, MAX_THREADS, thread_lines};
use flurry_run_lines::parse::number;
use flurry_run_lines::{seq_lines, world_lines};
use flurry_run_streams::{Sink, Source};
use std::alloc::Allocator;
use std::sync::Wait;
use std::thread::Threads;

/// Runs what `words` ask for, and returns the program's status.
///
/// `["seq"]` runs [`seq_lines`], and `["world"]` runs [`world_lines`]. `["threads", n, m]` runs [`thread_lines`] in n threads with m keys
/// each, where n is a number from 1 to 64 and m a number from 0 to 100000. For any other words, a line of usage is written, and the status
/// is 2, or 1 if the write fails.
pub fn run_words<T: Threads + Wait + Sync, R: Source, W: Sink, A: Allocator + Copy + Send + Sync>(
    rt: &T,
    alloc: A,
    words: &[&str],
    reader: &mut R,
    writer: &mut W,
) -> u8
    ensures seq { IsSeqWords words.now
        → RunsLines of_one_map [] (R.remaining reader.old) (W.contents writer.old) (W.flushed writer.new)
        (W.has_failed writer.new) result }
    ensures cause { IsSeqWords words.now
        → FailsForCause (R.remaining reader.old) (R.has_failed reader.new) (W.has_failed writer.new) result }
    ensures world_status { IsWorldWords words.now → result ≤ 3 }
    ensures world { IsWorldWords words.now → RunsLines of_a_schedule None
        (R.remaining reader.old) (W.contents writer.old) (W.flushed writer.new) (W.has_failed writer.new) result }
    ensures world_cause { IsWorldWords words.now
        → FailsForCause (R.remaining reader.old) (R.has_failed reader.new) (W.has_failed writer.new) result }
    ensures threads { (n m : ℕ) → AsksThreads words.now n m
        → UnlessWriteFailed (W.has_failed writer.new) result
        (TellsLength (W.contents writer.old) (W.flushed writer.new) result) }
    ensures other { ¬ IsSeqWords words.now → ¬ IsWorldWords words.now → ((n m : ℕ) → ¬ AsksThreads words.now n m)
        → UnlessWriteFailed (W.has_failed writer.new) result
        (TellsUsage (W.contents writer.old) (W.flushed writer.new) result) }
{
    match *words {
        ["seq"] => seq_lines(alloc, reader, writer),
        ["world"] => world_lines(alloc, reader, writer),
        _ => match threads_and_keys(words) {
            Some((threads, keys)) => thread_lines(rt, alloc, threads, keys, writer),
            None => print_usage(writer),
        },
    }
}

// The number of threads that the words ask for, and the number of keys for each thread.
fn threads_and_keys(words: &[&str]) -> Option<(u64, u64)>
    ensures { MatchOption result ((n m : ℕ) → ¬ AsksThreads words.now n m) (λ p. AsksThreads words.now p.0 p.1) }
{
    match *words {
        ["threads", threads, keys] => {
            let threads = number_within(threads, 1, MAX_THREADS)?;
            let keys = number_within(keys, 0, MAX_KEYS)?;
            Some((threads, keys))
        }
        _ => None,
    }
}

// Parses a number from `least` to `most`.
fn number_within(word: &str, least: u64, most: u64) -> Option<u64>
    ensures { MatchOption result ((n : ℕ) → least ≤ n → n ≤ most → word.now ≢ decimal n)
        (λ n. (least ≤ n) × (n ≤ most) × (word.now ≡ decimal n)) }
{
    match number(word.as_bytes()) {
        Some(number) if least <= number && number <= most => Some(number),
        _ => None,
    }
}

// Writes the line of usage, and returns status 2, or 1 if the write fails.
fn print_usage<W: Sink>(writer: &mut W) -> u8
    ensures { UnlessWriteFailed (W.has_failed writer.new) result
        (TellsUsage (W.contents writer.old) (W.flushed writer.new) result) }
{
    if writer
        .write_line("usage: flurry-run seq | world | threads N M")
        .is_err()
    {
        return 1;
    }
    match writer.flush() {
        Ok(()) => 2,
        Err(_) => 1,
    }
}
