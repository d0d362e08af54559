//! What a run writes and the status that it ends with if a request fails, and that every block is deallocated.

use super::assert_same;
use flurry_run_words::{Output, run_words};
use metered_alloc::MeteredAlloc;
use std::alloc::Global;
use std::io;
use std::process::Abort;
use std::sync::Wait;
use std::thread::Threads;

type Memory = &'static MeteredAlloc<Global>;

// The status of a run, and what it wrote.
type End<'a> = (u8, &'a [u8]);

// More requests than any run makes.
const MAX_REQUESTS: u64 = 100;

// Runs the words on the lines while the request numbered `k` fails. Returns the status, what was written, and whether the run made that
// request.
fn run_without(
    rt: &(impl AllocGlobal + Threads + Wait + Sync),
    memory: Memory,
    k: u64,
    words: &[&str],
    lines: &[u8],
) -> io::Result<(u8, Output<Vec<u8>>, bool)> {
    let mut lines = lines;
    let mut output = Output::new(rt.alloc(), Vec::new(rt.alloc()))?;
    memory.refuse_at(k);
    let status = run_words(rt, memory, words, &mut lines, &mut output);
    let refused = memory.was_refused();
    memory.refuse_nothing();
    Ok((status, output, refused))
}

// Asserts that a run in which the request numbered `k` failed has the end at `place` or at the next one, and returns the place of its end.
fn place_of(rt: &impl Abort, ends: &[End<'_>], place: usize, (k, end): (u64, End<'_>)) -> usize {
    let place = if ends.get(place) == Some(&end) {
        place
    } else {
        place.saturating_add(1)
    };
    assert_same(rt, (k, ends.get(place)), (k, Some(&end)));
    place
}

// Makes each request of a run fail in turn, and returns how many it makes. The run has each of `ends` in their order, and the last one if
// no request fails.
fn refuse_each(
    rt: &(impl Abort + AllocGlobal + Threads + Wait + Sync),
    words: &[&str],
    lines: &[u8],
    ends: &[End<'_>],
) -> u64 {
    let memory = MeteredAlloc::leak(rt.alloc()).expect(rt, "memory for the allocator");
    let mut place = 0usize;
    for k in 0..MAX_REQUESTS {
        let (status, output, refused) = run_without(rt, memory, k, words, lines).expect(
            rt,
            "memory for the output",
        );
        place = place_of(rt, ends, place, (k, (status, output.get_ref().as_slice())));
        assert_same(rt, (k, memory.live_blocks()), (k, 0));
        if !refused {
            assert_same(rt, place.saturating_add(1), ends.len());
            return k;
        }
    }
    panic!(rt; "a run with no request refused")
}

#[test]
fn insertions_into_one_map(rt: HostRuntime) {
    let lines = b"insert 7 0\nget 7\ninsert 8 0\nlen\n".as_slice();
    let ends = [
        (0, b"refused\nnone\nnone\n1\n".as_slice()),
        (0, b"none\nsome 0\nrefused\n1\n".as_slice()),
        (0, b"none\nsome 0\nnone\n2\n".as_slice()),
    ];
    refuse_each(&rt, &["seq"], lines, &ends);
}

#[test]
fn tries_at_one_map(rt: HostRuntime) {
    let lines = b"try 7 0\nget 7\ntry 8 0\nlen\n".as_slice();
    let ends = [
        (0, b"refused\nnone\nnew 0\n1\n".as_slice()),
        (0, b"new 0\nsome 0\nrefused\n1\n".as_slice()),
        (0, b"new 0\nsome 0\nnew 0\n2\n".as_slice()),
    ];
    refuse_each(&rt, &["seq"], lines, &ends);
}

// Memory cannot be allocated for the world or its first call, for the insertion, or for the fifth label.
#[test]
fn insertion_into_a_world(rt: HostRuntime) {
    let lines = b"world 1 8\nbegin insert 1 1\nstep 0 4\n".as_slice();
    let ends = [
        (3, b"out of memory\n".as_slice()),
        (
            0,
            b"begin 0\nsilent 0\nrefused 0\nsilent 0\nsilent 0\n".as_slice(),
        ),
        (
            3,
            b"begin 0\nsilent 0\ndecide 0 none\nsilent 0\nout of memory\n".as_slice(),
        ),
        (
            0,
            b"begin 0\nsilent 0\ndecide 0 none\nsilent 0\nreply 0 none\n".as_slice(),
        ),
    ];
    refuse_each(&rt, &["world"], lines, &ends);
}

// Memory cannot be allocated in the removal of what a walk has read, whose label is the ninth. After an insertion that failed there is
// nothing to read.
#[test]
fn removal_in_a_world(rt: HostRuntime) {
    let lines = b"world 1 1\nbegin insert 1 1\nstep 0 3\nbegin walk\nstep 1 3\n\
        begin drop 1\nbegin drop 0\nstep 2 2\n"
        .as_slice();
    let ends = [
        (3, b"out of memory\n".as_slice()),
        (
            0,
            b"begin 0\nsilent 0\nrefused 0\nsilent 0\nbegin 1\nsilent 1\nsilent 1\nsilent 1\n\
            no\nno\nsilent 2\nsilent 2\n"
                .as_slice(),
        ),
        (
            3,
            b"begin 0\nsilent 0\ndecide 0 none\nsilent 0\nout of memory\n".as_slice(),
        ),
        (
            3,
            b"begin 0\nsilent 0\ndecide 0 none\nsilent 0\nbegin 1\nsilent 1\nsilent 1\nread 1 1 1\n\
            out of memory\n"
                .as_slice(),
        ),
        (
            0,
            b"begin 0\nsilent 0\ndecide 0 none\nsilent 0\nbegin 1\nsilent 1\nsilent 1\nread 1 1 1\n\
            begin 2\nno\nsilent 2\ndecide 2 some 1\n"
                .as_slice(),
        ),
    ];
    refuse_each(&rt, &["world"], lines, &ends);
}

// Memory cannot be allocated for the first table of a world. A look-up after that finds no table.
#[test]
fn first_table_of_a_world(rt: HostRuntime) {
    let lines = b"world 1 0\nbegin reserve 0\nstep 0 2\nbegin get 1\nstep 1 2\n".as_slice();
    let ends = [
        (3, b"out of memory\n".as_slice()),
        (
            0,
            b"begin 0\nrefused 0\nsilent 0\nbegin 1\ndecide 1 none\nreply 1 none\n".as_slice(),
        ),
        (
            3,
            b"begin 0\nopened 0\nsilent 0\nout of memory\n".as_slice(),
        ),
        (
            3,
            b"begin 0\nopened 0\nsilent 0\nbegin 1\nout of memory\n".as_slice(),
        ),
        (
            0,
            b"begin 0\nopened 0\nsilent 0\nbegin 1\nsilent 1\ndecide 1 none\n".as_slice(),
        ),
    ];
    refuse_each(&rt, &["world"], lines, &ends);
}

// Memory cannot be allocated for the map's table, or for a key, its value or its node.
#[test]
fn insertions_of_a_thread(rt: HostRuntime) {
    let ends = [(3, b"out of memory\n".as_slice()), (0, b"3\n".as_slice())];
    let requests = refuse_each(&rt, &["threads", "1", "3"], b"".as_slice(), &ends);
    assert_eq!(rt; requests, 2 + 9);
}
