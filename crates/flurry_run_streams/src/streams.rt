//! Readers of bytes and writers of lines, which say whether they failed.
ghost use Rattle.std.specs.Prelude.{◌≡◌, ◌↔◌, ℕ, List, Option, Some, Bool, false, IsTrue, OnOk, OnErr, IfOk, IfSome};
ghost use Rattle.std.specs.Io.KnownBytes.{Appends, Keeps};
ghost use Rattle.std.specs.Fmt.{with_newline};
ghost use Rattle.flurry_run_streams.specs.Bytes.{GivesByte};

use std::fmt::Display;
use std::io;

/// A reader of single bytes.
///
/// ```
/// Ok(reader.read_byte()?.is_none())
/// ```
pub trait Source {
    /// The bytes that are still to be read, if they are known.
    ghost remaining: { Self → Option (List ℕ) };

    /// Whether a read has failed.
    ghost has_failed: { Self → Bool };

    /// Whether the next line may have to be waited for.
    ghost can_wait: { Self → Type 0 };

    /// Reads the next byte, and returns `None` at the end of the input.
    ///
    /// # Errors
    ///
    /// Returns an error if the underlying reader fails. From then on, no contract specifies its bytes.
    fn read_byte(&mut self) -> io::Result<Option<u8>>
        ensures byte { IfOk result (GivesByte (remaining self.old) (remaining self.new)) }
        ensures fine { OnOk result (has_failed self.new ≡ has_failed self.old) }
        ensures failed { OnErr result (IsTrue (has_failed self.new)) };

    /// Returns `true` if the next line may have to be waited for, because not all of its bytes have arrived yet.
    fn may_wait(&self) -> bool
        ensures { IsTrue result ↔ can_wait self.now };
}

/// A writer of lines, which may hold some of them back.
///
/// ```
/// writer.write_line(format_args!("some {number}"))?;
/// writer.flush()
/// ```
pub trait Sink {
    /// The bytes that were written, if they are known.
    ghost contents: { Self → Option (List ℕ) };

    /// The bytes that were written and are not held back, if they are known.
    ghost flushed: { Self → Option (List ℕ) };

    /// Whether a write has failed.
    ghost has_failed: { Self → Bool };

    /// Writes `text` and a line feed.
    ///
    /// # Errors
    ///
    /// Returns an error if the underlying writer fails. A part of the line may then have been written.
    fn write_line<D: Display + Drop>(&mut self, text: D) -> io::Result<()>
        ensures bytes { OnOk result
            (IfSome (with_newline (D.output text)) (Appends (contents self.old) (contents self.new))) }
        ensures fine { OnOk result (has_failed self.new ≡ has_failed self.old) }
        ensures failed { OnErr result (IsTrue (has_failed self.new)) };

    /// Passes the bytes that are held back on to the underlying writer.
    ///
    /// # Errors
    ///
    /// Returns an error if the underlying writer fails. This counts as a failed write.
    fn flush(&mut self) -> io::Result<()>
        ensures bytes { OnOk result (Keeps (contents self.old) (contents self.new)) }
        ensures flushed { OnOk result (Keeps (contents self.old) (flushed self.new)) }
        ensures all { OnOk result (flushed self.new ≡ contents self.new) }
        ensures fine { OnOk result (has_failed self.new ≡ has_failed self.old) }
        ensures failed { OnErr result (IsTrue (has_failed self.new)) };
}

/// A reader of bytes in memory, which never fails.
impl Source for &[u8] {
    ghost remaining = { λ r. Some r.now };

    ghost has_failed = { λ r. false };

    ghost can_wait = { λ r. ⊥ };

    fn read_byte(&mut self) -> io::Result<Option<u8>> {
        match self.split_first() {
            Some((first, rest)) => {
                *self = rest;
                Ok(Some(*first))
            }
            None => Ok(None),
        }
    }

    fn may_wait(&self) -> bool
        ensures never { result ≡ false }
        ensures waits { IsTrue result ↔ ⊥ }
    {
        false
    }
}
