//! Answers are flushed before a read that may wait.

use super::assert_same;
use flurry_run_words::{Input, Output, run_words};
use std::cell::Cell;
use std::io::{self, Read, Write};
use std::process::Abort;
use std::sync::Wait;
use std::thread::Threads;

/// A reader that gives one piece at each read, and knows how many bytes must have been flushed before it.
#[derive(Drop)]
struct Pieces<'a> {
    pieces: &'a [(usize, &'a [u8])],
    given: usize,
    out: &'a Cell<usize>,
    on_time: bool,
}

impl Read for Pieces<'_> {
    fn read(&mut self, buf: &mut [u8]) -> io::Result<usize> {
        match self.pieces.get(self.given) {
            Some((wanted, piece)) => {
                self.given = self.given.saturating_add(1);
                self.on_time = self.on_time && self.out.get() == *wanted;
                let mut bytes = *piece;
                bytes.read(buf)
            }
            None => Ok(0),
        }
    }
}

/// A writer that counts the bytes that are written to it.
#[derive(Drop)]
struct Counts<'a>(&'a Cell<usize>);

impl Write for Counts<'_> {
    fn write(&mut self, buf: &[u8]) -> io::Result<usize> {
        self.0.set(self.0.get().saturating_add(buf.len()));
        Ok(buf.len())
    }

    fn flush(&mut self) -> io::Result<()> {
        Ok(())
    }
}

// Asserts that each piece is read when its number of bytes has been flushed.
fn writes_before(
    rt: &(impl Abort + AllocGlobal + Threads + Wait + Sync),
    word: &str,
    pieces: &[(usize, &[u8])],
) {
    let out = Cell::new(0);
    let mut reader = Pieces {
        pieces,
        given: 0,
        out: &out,
        on_time: true,
    };
    let made = Input::new(rt.alloc(), &mut reader);
    let mut input = made.expect(rt, "memory for the input");
    let made = Output::new(rt.alloc(), Counts(&out));
    let mut output = made.expect(rt, "memory for the output");
    assert_same(
        rt,
        run_words(rt, rt.alloc(), &[word], &mut input, &mut output),
        0,
    );
    drop(input);
    assert_same(rt, reader.on_time, true);
    assert_same(rt, reader.given, pieces.len());
}

#[test]
fn lines_of_one_map(rt: HostRuntime) {
    let pieces = [
        (0, b"len\nle".as_slice()),
        (2, b"n\nlen\nlen\n".as_slice()),
        (8, b"".as_slice()),
    ];
    writes_before(&rt, "seq", &pieces)
}

#[test]
fn lines_of_a_world(rt: HostRuntime) {
    let pieces = [
        (0, b"world 1 0\nbegin get 3\nst".as_slice()),
        (8, b"ep 0 1\n".as_slice()),
        (22, b"step 0 1\n".as_slice()),
        (35, b"".as_slice()),
    ];
    writes_before(&rt, "world", &pieces)
}
