//! Runs of lines, which are carried out in their order until the run ends.
ghost use Rattle.std.specs.Prelude.{◌≡◌, ◌+◌, ◌≤◌, ◌^◌, ◌⊎◌, length, OnOk, OnErr, IfOk, IfSome, MatchOption, IsTrue};
ghost use Rattle.std.specs.Io.KnownBytes.{Keeps};
ghost use Rattle.flurry_run_lines.specs.Runs as runs;
ghost use Rattle.flurry_run_lines.specs.Runs.{AnswersLine, RefusesLine, Goes, Ends, RunsLines, FailsForCause};

use crate::ends::{MAX_READS, bad_line, input_failed};
use flurry_run_streams::{LineEnd, Sink, Source, read_line};
use std::io;

/// What carries out one line after another, and keeps something between them, such as a map.
pub(crate) trait Script {
    /// What is kept between lines.
    ghost Kept: { Type 0 };

    /// What a line asks for.
    ghost Command: { Type 0 };

    /// What the lines mean.
    ghost meaning: { runs.Script Kept Command };

    /// What a value of this type keeps between lines.
    ghost kept: { Self → Kept };

    /// Carries out line `number`, and writes its answer.
    ///
    /// Returns `Some(status)` if the run ends at this line, and `None` if it goes on.
    ///
    /// # Errors
    ///
    /// Returns an error if `writer` fails.
    fn answer_line<W: Sink>(
        &mut self,
        number: u64,
        line: &[u8],
        writer: &mut W,
    ) -> io::Result<Option<u8>>
        ensures failed { OnErr result (IsTrue (W.has_failed writer.new)) }
        ensures status { IfOk result (λ ended. IfSome ended (λ status. (2 ≤ status) × (status ≤ 3))) }
        ensures answer { IfOk result (λ ended. MatchOption ended
            (AnswersLine meaning (kept self.old) line.now (kept self.new)
            (W.contents writer.old) (W.contents writer.new))
            (RefusesLine meaning (kept self.old) number line.now
            (W.contents writer.old) (W.contents writer.new))) };

    /// No command is longer than a line can be.
    ghost short: { (c : Command) → meaning.IsCommand c → length (meaning.text_of c) ≤ 64 };
}

/// Carries out the lines of `reader`, and returns the program's status.
///
/// Everything that was written is flushed at the end, and before a line that has not yet arrived in full is read.
pub(crate) fn run_lines<S: Script, R: Source, W: Sink>(
    script: &mut S,
    reader: &mut R,
    writer: &mut W,
) -> u8
    ensures status { result ≤ 3 }
    ensures run { RunsLines S.meaning (S.kept script.old) (R.remaining reader.old)
        (W.contents writer.old) (W.flushed writer.new) (W.has_failed writer.new) result }
    ensures cause { FailsForCause (R.remaining reader.old) (R.has_failed reader.new)
        (W.has_failed writer.new) result }
{
    match answer_lines(script, reader, writer) {
        Ok(status) => match writer.flush() {
            Ok(()) => status,
            Err(_) => 1,
        },
        Err(_) => 1,
    }
}

// Carries out the lines, and returns the status with which they end. A failed write is an error.
fn answer_lines<S: Script, R: Source, W: Sink>(
    script: &mut S,
    reader: &mut R,
    writer: &mut W,
) -> io::Result<u8>
    ensures failed { OnErr result (IsTrue (W.has_failed writer.new)) }
    ensures status { IfOk result (λ status. status ≤ 3) }
    ensures run { IfOk result (λ status. IfSome (R.remaining reader.old) (λ input.
        Ends S.meaning (S.kept script.old) 1 input (W.contents writer.old) (W.contents writer.new) status)) }
    ensures cause { IfOk result (λ status. status ≡ 1 → IfSome (R.remaining reader.old) (λ input.
        IsTrue (R.has_failed reader.new) ⊎ (2 ^ 62 ≤ length input))) }
{
    for number in 1..=MAX_READS {
        if let Some(status) = step(script, number, reader, writer)? {
            return Ok(status);
        }
    }
    input_failed(writer)
}

// Reads a line and carries it out. Returns `Some(status)` if the run ends. What was written is flushed before any wait for input.
fn step<S: Script, R: Source, W: Sink>(
    script: &mut S,
    number: u64,
    reader: &mut R,
    writer: &mut W,
) -> io::Result<Option<u8>>
    ensures failed { OnErr result (IsTrue (W.has_failed writer.new)) }
    ensures status { IfOk result (λ ended. IfSome ended (λ status. status ≤ 3)) }
    ensures run { IfOk result (λ ended. IfSome (R.remaining reader.old) (λ input. MatchOption ended
        (Goes S.meaning (S.kept script.old) number input (S.kept script.new) (number + 1)
        (R.remaining reader.new) (W.contents writer.old) (W.contents writer.new))
        (Ends S.meaning (S.kept script.old) number input (W.contents writer.old) (W.contents writer.new)))) }
    ensures cause { IfOk result (λ ended. IfSome ended (λ status. status ≡ 1 → IsTrue (R.has_failed reader.new))) }
{
    flush_before_wait(reader, writer)?;
    answer_next(script, number, reader, writer)
}

// Flushes the writer if the reader's next line may have to be waited for.
fn flush_before_wait<R: Source, W: Sink>(reader: &R, writer: &mut W) -> io::Result<()>
    ensures failed { OnErr result (IsTrue (W.has_failed writer.new)) }
    ensures bytes { OnOk result (Keeps (W.contents writer.old) (W.contents writer.new)) }
    ensures flushed { OnOk result (R.can_wait reader.now → W.flushed writer.new ≡ W.contents writer.new) }
{
    if reader.may_wait() {
        writer.flush()?;
    }
    Ok(())
}

// Reads a line and carries it out. Returns `Some(status)` if the run ends.
fn answer_next<S: Script, R: Source, W: Sink>(
    script: &mut S,
    number: u64,
    reader: &mut R,
    writer: &mut W,
) -> io::Result<Option<u8>>
    requires flushed { R.can_wait reader.old → W.flushed writer.old ≡ W.contents writer.old }
    ensures failed { OnErr result (IsTrue (W.has_failed writer.new)) }
    ensures status { IfOk result (λ ended. IfSome ended (λ status. status ≤ 3)) }
    ensures run { IfOk result (λ ended. IfSome (R.remaining reader.old) (λ input. MatchOption ended
        (Goes S.meaning (S.kept script.old) number input (S.kept script.new) (number + 1)
        (R.remaining reader.new) (W.contents writer.old) (W.contents writer.new))
        (Ends S.meaning (S.kept script.old) number input (W.contents writer.old) (W.contents writer.new)))) }
    ensures cause { IfOk result (λ ended. IfSome ended (λ status. status ≡ 1 → IsTrue (R.has_failed reader.new))) }
{
    match read_line(reader) {
        Ok((line, end)) => match end {
            LineEnd::Break => script.answer_line(number, line.as_slice(), writer),
            LineEnd::Long => Ok(Some(bad_line(number, writer)?)),
            LineEnd::End => {
                if line.is_empty() {
                    return Ok(Some(0));
                }
                match script.answer_line(number, line.as_slice(), writer)? {
                    None => Ok(Some(0)),
                    Some(status) => Ok(Some(status)),
                }
            }
        },
        Err(_) => Ok(Some(input_failed(writer)?)),
    }
}
