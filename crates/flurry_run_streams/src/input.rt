//! Reading of lines.
ghost use Rattle.std.specs.Prelude.{IfOk, OnErr, IsTrue};
ghost use Rattle.flurry_run_streams.specs.LineEnds.{Gave};

use crate::streams::Source;
use arrayvec::ArrayVec;
use std::io;

/// How a line ended.
///
/// ```
/// let (_line, end) = read_line(reader)?;
/// match end {
///     LineEnd::Break => Ok(true),
///     LineEnd::End | LineEnd::Long => Ok(false),
/// }
/// ```
#[derive(Clone, Copy, Debug, PartialEq, Eq)]
pub enum LineEnd {
    /// A line that ended at a line feed.
    Break,
    /// A line that ended at the end of the input.
    End,
    /// A line of more than 64 bytes, which is longer than any line may be.
    Long,
}

/// Reads the next line, and returns it without its line feed, together with how it ended. Of a line that is too long, the first 65 bytes
/// are read and returned.
///
/// Linear in the length of the line.
///
/// # Errors
///
/// Returns an error if `reader` fails.
pub fn read_line<R: Source>(reader: &mut R) -> io::Result<(ArrayVec<u8, 65>, LineEnd)>
    ensures gave { IfOk result (λ got. Gave (R.remaining reader.old) (R.remaining reader.new) got.0.items got.1) }
    ensures failed { OnErr result (IsTrue (R.has_failed reader.new)) }
{
    let mut line = ArrayVec::new();
    for _ in 0..65u32 {
        match reader.read_byte()? {
            Some(b'\n') => return Ok((line, LineEnd::Break)),
            Some(byte) => line.push(byte),
            None => return Ok((line, LineEnd::End)),
        }
    }
    Ok((line, LineEnd::Long))
}
