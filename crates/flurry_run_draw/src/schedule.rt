//! The drawing of a schedule, from its bytes to the bytes of its picture.
ghost use Rattle.std.specs.Prelude.{◌≤◌, ℕ, List, [], None, Some, IfOk, IfSome};
ghost use Rattle.std.specs.Io.KnownBytes.{Appends};
ghost use Rattle.flurry_run_lines.specs.Runs.{Ends};
ghost use Rattle.flurry_run_lines.specs.ScheduleRuns.{of_a_schedule};
ghost use Rattle.flurry_run_draw.specs.Picture.{Draws, IsPictureOf};

use crate::draw::draw;
use crate::lanes::Plan;
use flurry_run_lines::{Output, world_lines};
use std::alloc::{AllocError, Global};
use std::io::{self, ErrorKind, Read, Write};

/// Reads a schedule from `reader` to its end, does its steps, and writes a picture of them to `writer`. Returns the status of the run.
///
/// # Errors
///
/// Returns an error if `reader` or `writer` fails, or if memory cannot be allocated.
pub fn draw_schedule<R: Read, W: Write>(
    alloc: Global,
    reader: &mut R,
    writer: &mut W,
) -> io::Result<u8>
    ensures status { IfOk result (λ status. status ≤ 3) }
    ensures picture { IfOk result (λ status. IfSome (R.remaining reader.old) (λ schedule.
        (picture : List ℕ) × IsPictureOf schedule picture status
        × Appends (W.contents writer.old) (W.contents writer.new) picture)) }
{
    let mut schedule = Vec::new(alloc);
    reader.read_to_end(&mut schedule)?;
    let (text, status) = run_of(alloc, &schedule)?;
    let picture = picture_of(alloc, &schedule, &text)?;
    writer.write_all(&picture)?;
    Ok(status)
}

// Returns the picture of the run of `schedule`, which has written `text`.
fn picture_of(alloc: Global, schedule: &[u8], text: &[u8]) -> Result<Vec<u8>, AllocError>
    ensures { IfOk result (λ picture. Draws text.now picture.items) }
{
    let plan = Plan::new(alloc, schedule, text)?;
    let page = draw(alloc, &plan, schedule, text)?;
    Ok(page.into_bytes())
}

// Runs a schedule, and returns what the run writes and its status.
fn run_of(alloc: Global, schedule: &[u8]) -> io::Result<(Vec<u8>, u8)>
    ensures status { IfOk result (λ run. run.1 ≤ 3) }
    ensures run { IfOk result (λ run. Ends of_a_schedule None 1 schedule.now (Some []) (Some run.0.items) run.1) }
{
    let mut reader = schedule;
    let mut output = Output::new(alloc, Vec::new(alloc))?;
    let status = world_lines(alloc, &mut reader, &mut output);
    if status == 1 {
        return Err(io::Error::from(ErrorKind::OutOfMemory));
    }
    let text = output.get_ref().to_vec(alloc)?;
    Ok((text, status))
}
