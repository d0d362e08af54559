//! Lines that are read from a reader, what they ask for, and lines that are written.

use super::assert_same;
use flurry_run_lines::command::Command;
use flurry_run_lines::input::{LineEnd, read_line};
use flurry_run_lines::parse::parse;
use flurry_run_lines::schedule::{Line, parse_line};
use flurry_run_lines::{Input, Output, Sink, Source};
use std::alloc::Global;
use std::io;

// Returns the key of a command, if it has one.
fn key_in(line: &[u8]) -> Option<u64> {
    match parse(line)? {
        Command::Insert(key, _) | Command::Try(key, _) => Some(key),
        Command::Get(key) | Command::Remove(key) => Some(key),
        Command::Len | Command::Bins => None,
    }
}

// Returns the number of steps that a line of a schedule asks for.
fn steps_in(line: &[u8]) -> Option<u64> {
    match parse_line(line)? {
        Line::Step(_, steps) => Some(steps),
        _ => None,
    }
}

// Returns the first of some bytes, read through a buffer.
fn first_byte(alloc: Global, bytes: &[u8]) -> io::Result<Option<u8>> {
    let mut input = Input::new(alloc, bytes)?;
    input.read_byte()
}

// Whether a reader has given all its bytes.
fn is_at_end<R: Source>(reader: &mut R) -> io::Result<bool> {
    Ok(reader.read_byte()?.is_none())
}

// Whether the next line ends at a line feed.
fn has_line_feed<R: Source>(reader: &mut R) -> io::Result<bool> {
    let (_line, end) = read_line(reader)?;
    match end {
        LineEnd::Break => Ok(true),
        LineEnd::End | LineEnd::Long => Ok(false),
    }
}

// Writes a number as a line, and flushes it.
fn write_number<W: Sink>(writer: &mut W, number: u64) -> io::Result<()> {
    writer.write_line(format_args!("some {number}"))?;
    writer.flush()
}

// Returns a line that was written through a buffer.
fn written_line(alloc: Global, number: u64) -> io::Result<Output<Vec<u8>>> {
    let mut output = Output::new(alloc, Vec::new(alloc))?;
    write_number(&mut output, number)?;
    Ok(output)
}

#[test]
fn what_lines_ask_for(rt: HostRuntime) {
    let rt = &rt;
    assert_same(rt, key_in(b"insert 7 0".as_slice()), Some(7));
    assert_same(rt, key_in(b"remove 8".as_slice()), Some(8));
    assert_same(rt, key_in(b"len".as_slice()), None);
    assert_same(rt, steps_in(b"step 0 4".as_slice()), Some(4));
    assert_same(rt, steps_in(b"begin clear".as_slice()), None);
}

#[test]
fn lines_of_bytes(rt: HostRuntime) {
    let rt = &rt;
    let mut bytes = b"len\nbins".as_slice();
    assert_same(
        rt,
        first_byte(rt.alloc(), bytes).expect(rt, "bytes that can be read"),
        Some(b'l'),
    );
    assert_same(
        rt,
        has_line_feed(&mut bytes).expect(rt, "bytes that can be read"),
        true,
    );
    assert_same(
        rt,
        has_line_feed(&mut bytes).expect(rt, "bytes that can be read"),
        false,
    );
    assert_same(
        rt,
        is_at_end(&mut bytes).expect(rt, "bytes that can be read"),
        true,
    );
}

#[test]
fn a_line_that_is_written(rt: HostRuntime) {
    let output = written_line(rt.alloc(), 7).expect(&rt, "memory");
    assert_same(&rt, output.get_ref().as_slice(), b"some 7\n".as_slice());
}
