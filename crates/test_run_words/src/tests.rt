//! The program over bytes in memory, and over streams that fail.

mod lines;
mod memory;
mod threads;
mod waits;
mod world;

use flurry_run_lines::{Input, Output, seq_lines};
use flurry_run_words::run_words;
use std::fmt::Debug;
use std::io::{self, Read, Write};
use std::process::Abort;
use std::sync::Wait;
use std::thread::Threads;

/// A reader that gives some bytes and then fails.
#[derive(Drop)]
struct FailsAfter<'a>(&'a [u8]);

impl Read for FailsAfter<'_> {
    fn read(&mut self, buf: &mut [u8]) -> io::Result<usize> {
        if self.0.is_empty() {
            return Err(io::Error::from(io::ErrorKind::Other));
        }
        self.0.read(buf)
    }
}

/// A writer whose first write fails.
#[derive(Drop)]
struct FailsFirst {
    failed: bool,
    taken: Vec<u8>,
}

impl Write for FailsFirst {
    fn write(&mut self, buf: &[u8]) -> io::Result<usize> {
        if !self.failed {
            self.failed = true;
            return Err(io::Error::from(io::ErrorKind::Other));
        }
        self.taken.write(buf)
    }

    fn flush(&mut self) -> io::Result<()> {
        Ok(())
    }
}

// Asserts that a value is the expected one. A test with many assertions calls this, because each `assert_eq!` in its own body makes its
// proof longer.
fn assert_same<T: PartialEq + Debug + Drop>(rt: &impl Abort, seen: T, wanted: T) {
    assert_eq!(rt; seen, wanted);
}

fn output(rt: &(impl Abort + AllocGlobal)) -> Output<Vec<u8>> {
    Output::new(rt.alloc(), Vec::new(rt.alloc())).expect(rt, "memory for the output")
}

// Asserts that the run of the lines on one map ends with `status` and has written `want`.
fn answers(rt: &(impl Abort + AllocGlobal), lines: &[u8], status: u8, want: &[u8]) {
    let mut lines = lines;
    let mut output = output(rt);
    assert_same(rt, seq_lines(rt.alloc(), &mut lines, &mut output), status);
    assert_same(rt, output.get_ref().as_slice(), want);
}

#[test]
fn first_run(rt: HostRuntime) {
    let lines = b"insert 7 0\ninsert 7 1\nget 7\nremove 7\nget 7\nlen\n".as_slice();
    let want = b"none\nsome 0\nsome 1\nsome 1\nnone\n0\n".as_slice();
    answers(&rt, lines, 0, want);
}

#[test]
fn row_20_seq(rt: HostRuntime) {
    let lines = b"insert 7 0\ntry 7 1\nget 7\nremove 7\nlen\nbins\nget 07\n".as_slice();
    let want =
        b"none\nInsert of \"1\" failed as key was already present with value \"0\"\nsome 0\nsome 0\n0\n16\nbad line 7\n".as_slice();
    answers(&rt, lines, 2, want);
}

#[test]
fn tries(rt: HostRuntime) {
    let lines = b"bins\ntry 7 0\ntry 7 1\nget 7\nbins\n".as_slice();
    let want =
        b"0\nnew 0\nInsert of \"1\" failed as key was already present with value \"0\"\nsome 0\n16\n".as_slice();
    answers(&rt, lines, 0, want);
}

#[test]
fn bins_of_twelve_pairs(rt: HostRuntime) {
    let lines = b"insert 0 0\ninsert 1 0\ninsert 2 0\ninsert 3 0\ninsert 4 0\ninsert 5 0\n\
        insert 6 0\ninsert 7 0\ninsert 8 0\ninsert 9 0\ninsert 10 0\nbins\ninsert 11 0\nbins\n"
        .as_slice();
    let want =
        b"none\nnone\nnone\nnone\nnone\nnone\nnone\nnone\nnone\nnone\nnone\n16\nnone\n32\n".as_slice();
    answers(&rt, lines, 0, want);
}

#[test]
fn bad_lines(rt: HostRuntime) {
    let long = b"get 0000000000000000000000000000000000000000000000000000000000001\n".as_slice();
    for line in [
        b"get 07\n".as_slice(),
        b"get +7\n".as_slice(),
        b"get -1\n".as_slice(),
        b"get  7\n".as_slice(),
        b"get 7 \n".as_slice(),
        b"\n".as_slice(),
        b"get 18446744073709551616\n".as_slice(),
        long,
        b"get \xff\n".as_slice(),
        b"put 7 1\n".as_slice(),
        b"get 7\r\n".as_slice(),
    ] {
        answers(&rt, line, 2, b"bad line 1\n".as_slice());
    }
}

#[test]
fn answers_before_a_bad_line_stay(rt: HostRuntime) {
    let lines = b"len\nget 18446744073709551615\ngut 7\nlen\n".as_slice();
    let want = b"0\nnone\nbad line 3\n".as_slice();
    answers(&rt, lines, 2, want);
}

#[test]
fn last_line_without_its_end(rt: HostRuntime) {
    let lines = b"insert 0 5\nget 0".as_slice();
    let want = b"none\nsome 5\n".as_slice();
    answers(&rt, lines, 0, want);
}

// Asserts that, if the read after the line fails, the run of `word` ends with status 1 and has written `want`.
fn fails_after(
    rt: &(impl Abort + AllocGlobal + Threads + Wait + Sync),
    word: &str,
    line: &[u8],
    want: &[u8],
) {
    let made = Input::new(rt.alloc(), FailsAfter(line));
    let mut input = made.expect(rt, "memory for the input");
    let mut output = output(rt);
    assert_same(
        rt,
        run_words(rt, rt.alloc(), &[word], &mut input, &mut output),
        1,
    );
    assert_same(rt, output.get_ref().as_slice(), want);
}

#[test]
fn failed_read(rt: HostRuntime) {
    for (word, line, want) in [
        (
            "seq",
            b"insert 7 0\n".as_slice(),
            b"none\ninput failed\n".as_slice(),
        ),
        (
            "world",
            b"world 1 0\n".as_slice(),
            b"input failed\n".as_slice(),
        ),
    ] {
        fails_after(&rt, word, line, want);
    }
}

// Asserts that, if the first write fails, the run of `words` ends with status 1 and has written nothing.
fn fails_first(rt: &(impl Abort + AllocGlobal + Threads + Wait + Sync), words: &[&str]) {
    let mut lines = b"insert 7 0\nget 7\n".as_slice();
    let mut writer = FailsFirst {
        failed: false,
        taken: Vec::new(rt.alloc()),
    };
    let made = Output::new(rt.alloc(), &mut writer);
    let mut output = made.expect(rt, "memory for the output");
    assert_same(
        rt,
        run_words(rt, rt.alloc(), words, &mut lines, &mut output),
        1,
    );
    drop(output);
    assert_same(rt, writer.failed, true);
    assert_same(rt, writer.taken.as_slice(), b"".as_slice());
}

#[test]
fn failed_write(rt: HostRuntime) {
    for words in [
        ["seq"].as_slice(),
        ["world"].as_slice(),
        ["threads", "1", "1"].as_slice(),
        ["help"].as_slice(),
    ] {
        fails_first(&rt, words);
    }
}

fn tells_usage(rt: &(impl Abort + AllocGlobal + Threads + Wait + Sync), words: &[&str]) {
    let mut lines = b"len\n".as_slice();
    let mut output = output(rt);
    assert_same(
        rt,
        run_words(rt, rt.alloc(), words, &mut lines, &mut output),
        2,
    );
    let want = b"usage: flurry-run seq | world | threads N M\n".as_slice();
    assert_same(rt, output.get_ref().as_slice(), want);
}

#[test]
fn other_words(rt: HostRuntime) {
    let rt = &rt;
    tells_usage(rt, &[]);
    tells_usage(rt, &["world", "1"]);
    tells_usage(rt, &["seq", "seq"]);
}
