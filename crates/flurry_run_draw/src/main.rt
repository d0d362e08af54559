//! Reads a schedule from standard input, and writes a picture of its run to standard output.
#![tactic(auto)]

mod draw;
mod label;
mod lanes;
mod page;
mod schedule;

use schedule::draw_schedule;
use std::io::{self, Write};
use std::process::ExitCode;

fn main(rt: HostRuntime) -> io::Result<ExitCode> {
    let mut writer = io::writer(&rt);
    let status = draw_schedule(rt.alloc(), &mut rt.reader(), &mut writer)?;
    writer.flush()?;
    Ok(ExitCode::from(status))
}
