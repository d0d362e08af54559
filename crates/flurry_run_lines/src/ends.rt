//! How a run of lines ends early.
ghost use Rattle.std.specs.Prelude.{◌≡◌, OnOk, OnErr, IfOk, IsTrue};
ghost use Rattle.std.specs.Io.KnownBytes.{Appends};
ghost use Rattle.flurry_run_lines.specs.Endings.{bad_line_text, input_failed_text, out_of_memory_text};

use flurry_run_streams::Sink;
use std::io;

/// The greatest number of lines that a run reads. Any further read counts as failed.
pub(crate) const MAX_READS: u64 = 1 << 62;

/// Writes that line `number` is bad, and returns status 2.
///
/// # Errors
///
/// Returns an error if `writer` fails.
pub(crate) fn bad_line<W: Sink>(number: u64, writer: &mut W) -> io::Result<u8>
    ensures failed { OnErr result (IsTrue (W.has_failed writer.new)) }
    ensures bytes { OnOk result (Appends (W.contents writer.old) (W.contents writer.new) (bad_line_text number)) }
    ensures status { IfOk result (λ status. status ≡ 2) }
{
    writer.write_line(format_args!("bad line {number}"))?;
    Ok(2)
}

/// Writes that a read failed, and returns status 1.
///
/// # Errors
///
/// Returns an error if `writer` fails.
pub(crate) fn input_failed<W: Sink>(writer: &mut W) -> io::Result<u8>
    ensures failed { OnErr result (IsTrue (W.has_failed writer.new)) }
    ensures bytes { OnOk result (Appends (W.contents writer.old) (W.contents writer.new) input_failed_text) }
    ensures status { IfOk result (λ status. status ≡ 1) }
{
    writer.write_line("input failed")?;
    Ok(1)
}

/// Writes that memory could not be allocated, and returns status 3.
///
/// # Errors
///
/// Returns an error if `writer` fails.
pub fn out_of_memory<W: Sink>(writer: &mut W) -> io::Result<u8>
    ensures failed { OnErr result (IsTrue (W.has_failed writer.new)) }
    ensures bytes { OnOk result (Appends (W.contents writer.old) (W.contents writer.new) out_of_memory_text) }
    ensures status { IfOk result (λ status. status ≡ 3) }
{
    writer.write_line("out of memory")?;
    Ok(3)
}
