//! Schedules over bytes in memory.

use super::{assert_same, output};
use flurry_run_lines::world_lines;
use std::process::Abort;

// Asserts that the run of the lines ends with `status` and has written `want`.
fn answers(rt: &(impl Abort + AllocGlobal), lines: &[u8], status: u8, want: &[u8]) {
    let mut lines = lines;
    let mut output = output(rt);
    assert_same(rt, world_lines(rt.alloc(), &mut lines, &mut output), status);
    assert_same(rt, output.get_ref().as_slice(), want);
}

#[test]
fn insert_and_get(rt: HostRuntime) {
    let lines = b"world 1 0\nbegin insert 3 4\nstep 0 5\nbegin get 3\nstep 1 4\n".as_slice();
    let want =
        b"begin 0\nopened 4\ndecide 0 none\nsilent 0\nreply 0 none\nsilent 0\nbegin 1\nsilent 1\ndecide 1 some 4\nreply 1 some 4\nsilent 1\n".as_slice();
    answers(&rt, lines, 0, want)
}

#[test]
fn reserve_of_nothing(rt: HostRuntime) {
    let lines = b"world 1 0\nbegin reserve 0\nstep 0 3\n".as_slice();
    let want = b"begin 0\nopened 0\nsilent 0\nend 0\n".as_slice();
    answers(&rt, lines, 0, want)
}

#[test]
fn row_14(rt: HostRuntime) {
    let lines = b"world 2 32\n\
        begin insert 50 50\nstep 0 4\n\
        begin reserve 30\nstep 1 3\n\
        begin insert 2 2\nstep 2 62\n\
        begin get 50\nstep 3 3\n\
        begin get 2\nstep 4 4\n\
        step 1 21\n"
        .as_slice();
    let want = b"begin 0\nsilent 0\ndecide 0 none\nsilent 0\nreply 0 none\n\
        begin 1\nsilent 1\nplaced 7\nsilent 1\n\
        begin 2\nsilent 2\ndecide 2 none\nsilent 2\nsilent 2\nsilent 2\n\
        moved 6 47\nmoved 6 46\nmoved 6 45\nmoved 6 44\nmoved 6 43\nmoved 6 42\nmoved 6 41\nmoved 6 40\n\
        moved 6 39\nmoved 6 38\nmoved 6 37\nmoved 6 36\nmoved 6 35\nmoved 6 34\nmoved 6 33\nmoved 6 32\n\
        silent 2\nsilent 2\n\
        moved 6 31\nmoved 6 30\nmoved 6 29\nmoved 6 28\nmoved 6 27\nmoved 6 26\nmoved 6 25\nmoved 6 24\n\
        moved 6 23\nmoved 6 22\nmoved 6 21\nmoved 6 20\nmoved 6 19\nmoved 6 18\nmoved 6 17\nmoved 6 16\n\
        silent 2\nsilent 2\n\
        moved 6 15\nmoved 6 14\nmoved 6 13\nmoved 6 12\nmoved 6 11\nmoved 6 10\nmoved 6 9\nmoved 6 8\n\
        moved 6 7\nmoved 6 6\nmoved 6 5\nmoved 6 4\nmoved 6 3\nmoved 6 2\nmoved 6 1\nmoved 6 0\n\
        silent 2\nsilent 2\nsilent 2\nsilent 2\nreply 2 none\n\
        begin 3\nsilent 3\ndecide 3 some 50\nreply 3 some 50\n\
        begin 4\nsilent 4\nsilent 4\ndecide 4 some 2\nreply 4 some 2\n\
        moved 6 63\nmoved 6 62\nmoved 6 61\nmoved 6 60\nmoved 6 59\nmoved 6 58\nmoved 6 57\nmoved 6 56\n\
        moved 6 55\nmoved 6 54\nmoved 6 53\nmoved 6 52\nmoved 6 51\nmoved 6 50\nmoved 6 49\nmoved 6 48\n\
        silent 1\npublished 7\nsilent 1\nsilent 1\nend 1\n"
        .as_slice();
    answers(&rt, lines, 0, want)
}

#[test]
fn losses_at_a_board(rt: HostRuntime) {
    let lines = b"world 2 32\n\
        begin reserve 33\nstep 0 2\nlose 0\nstep 0 2\n\
        begin insert 2 2\nstep 1 3\nlose 1\nstep 1 2\n\
        lose 1\nlose 9\n"
        .as_slice();
    let want = b"begin 0\nsilent 0\nplaced 7\nsilent 0\nsilent 0\nmoved 6 63\n\
        begin 1\nsilent 1\ndecide 1 none\nsilent 1\nsilent 1\nsilent 1\nreply 1 none\n\
        silent 1\nsilent 9\n"
        .as_slice();
    answers(&rt, lines, 0, want)
}

#[test]
fn row_17(rt: HostRuntime) {
    let lines = b"world 1 8\n\
        begin insert 1 1\nstep 0 4\n\
        begin walk\nstep 1 3\n\
        begin insert 1 9\nstep 2 3\n\
        begin drop 1\nstep 3 3\n\
        begin get 1\nstep 4 3\n\
        begin drop 0\nbegin drop 9\n"
        .as_slice();
    let want = b"begin 0\nsilent 0\ndecide 0 none\nsilent 0\nreply 0 none\n\
        begin 1\nsilent 1\nsilent 1\nread 1 1 1\n\
        begin 2\nsilent 2\ndecide 2 some 1\nreply 2 some 1\n\
        begin 3\nsilent 3\ndecide 3 none\nreply 3 none\n\
        begin 4\nsilent 4\ndecide 4 some 9\nreply 4 some 9\n\
        no\nno\n"
        .as_slice();
    answers(&rt, lines, 0, want)
}

#[test]
fn row_13(rt: HostRuntime) {
    let lines = b"world 1 8\n\
        begin insert 1 1\nstep 0 4\n\
        begin insert 17 17\nstep 1 4\n\
        begin walk\nstep 2 3\n\
        begin remove 1\nstep 3 4\n\
        begin insert 1 5\nstep 4 4\n\
        step 2 17\n"
        .as_slice();
    let want = b"begin 0\nsilent 0\ndecide 0 none\nsilent 0\nreply 0 none\n\
        begin 1\nsilent 1\ndecide 1 none\nsilent 1\nreply 1 none\n\
        begin 2\nsilent 2\nsilent 2\nread 2 1 1\n\
        begin 3\nsilent 3\ndecide 3 some 1\nsilent 3\nreply 3 some 1\n\
        begin 4\nsilent 4\ndecide 4 none\nsilent 4\nreply 4 none\n\
        read 2 17 17\n\
        silent 2\nsilent 2\nsilent 2\nsilent 2\nsilent 2\nsilent 2\nsilent 2\nsilent 2\n\
        silent 2\nsilent 2\nsilent 2\nsilent 2\nsilent 2\nsilent 2\nsilent 2\nend 2\n"
        .as_slice();
    answers(&rt, lines, 0, want)
}

#[test]
fn row_18(rt: HostRuntime) {
    let lines = b"world 2 32\n\
        begin insert 50 50\nstep 0 4\n\
        begin insert 2 2\nstep 1 4\n\
        begin reserve 30\nstep 2 4\n\
        begin clear\nstep 3 69\n\
        begin get 2\nstep 4 3\n"
        .as_slice();
    let want = b"begin 0\nsilent 0\ndecide 0 none\nsilent 0\nreply 0 none\n\
        begin 1\nsilent 1\ndecide 1 none\nsilent 1\nreply 1 none\n\
        begin 2\nsilent 2\nplaced 7\nsilent 2\nmoved 6 63\n\
        begin 3\nsilent 3\n\
        wipe 3 6 0\nwipe 3 6 1\nwipe 3 6 2\nwipe 3 6 3\nwipe 3 6 4\nwipe 3 6 5\nwipe 3 6 6\nwipe 3 6 7\nwipe 3 6 8\n\
        wipe 3 6 9\nwipe 3 6 10\nwipe 3 6 11\nwipe 3 6 12\nwipe 3 6 13\nwipe 3 6 14\nwipe 3 6 15\nwipe 3 6 16\nwipe 3 6 17\n\
        wipe 3 6 18\nwipe 3 6 19\nwipe 3 6 20\nwipe 3 6 21\nwipe 3 6 22\nwipe 3 6 23\nwipe 3 6 24\nwipe 3 6 25\nwipe 3 6 26\n\
        wipe 3 6 27\nwipe 3 6 28\nwipe 3 6 29\nwipe 3 6 30\nwipe 3 6 31\nwipe 3 6 32\nwipe 3 6 33\nwipe 3 6 34\nwipe 3 6 35\n\
        wipe 3 6 36\nwipe 3 6 37\nwipe 3 6 38\nwipe 3 6 39\nwipe 3 6 40\nwipe 3 6 41\nwipe 3 6 42\nwipe 3 6 43\nwipe 3 6 44\n\
        wipe 3 6 45\nwipe 3 6 46\nwipe 3 6 47\nwipe 3 6 48\nwipe 3 6 49\nwipe 3 6 50\nwipe 3 6 51\nwipe 3 6 52\nwipe 3 6 53\n\
        wipe 3 6 54\nwipe 3 6 55\nwipe 3 6 56\nwipe 3 6 57\nwipe 3 6 58\nwipe 3 6 59\nwipe 3 6 60\nwipe 3 6 61\nwipe 3 6 62\n\
        silent 3\nwipe 3 7 63\nwipe 3 7 127\nsilent 3\nend 3\n\
        begin 4\nsilent 4\ndecide 4 none\nreply 4 none\n"
        .as_slice();
    answers(&rt, lines, 0, want)
}

#[test]
fn try_and_remove(rt: HostRuntime) {
    let lines = b"world 1 1\n\
        begin try 3 4\nstep 0 4\n\
        begin try 3 5\nstep 1 3\n\
        begin remove 3\nstep 2 4\n\
        begin remove 3\nstep 3 3\n"
        .as_slice();
    let want = b"begin 0\nsilent 0\ndecide 0 new 4\nsilent 0\nreply 0 new 4\n\
        begin 1\nsilent 1\ndecide 1 exists 4\nreply 1 exists 4\n\
        begin 2\nsilent 2\ndecide 2 some 4\nsilent 2\nreply 2 some 4\n\
        begin 3\nsilent 3\ndecide 3 none\nreply 3 none\n"
        .as_slice();
    answers(&rt, lines, 0, want)
}

#[test]
fn no_lines(rt: HostRuntime) {
    answers(&rt, b"".as_slice(), 0, b"".as_slice());
    answers(&rt, b"world 1 0".as_slice(), 0, b"".as_slice())
}

#[test]
fn no_steps_and_unknown_parties(rt: HostRuntime) {
    let lines = b"world 1 0\nstep 0 0\nstep 7 1\nbegin get 0\nstep 1 2".as_slice();
    let want = b"silent 7\nbegin 0\nsilent 1\nsilent 1\n".as_slice();
    answers(&rt, lines, 0, want)
}

#[test]
fn bad_first_lines(rt: HostRuntime) {
    for line in [
        b"world 1\n".as_slice(),
        b"world 1 0 0\n".as_slice(),
        b"world 01 0\n".as_slice(),
        b"begin get 3\n".as_slice(),
        b"step 0 1\n".as_slice(),
        b"lose 0\n".as_slice(),
        b"\n".as_slice(),
    ] {
        answers(&rt, line, 2, b"bad line 1\n".as_slice());
    }
}

// Asserts that the line is bad after a call began.
fn is_bad(rt: &(impl Abort + AllocGlobal), line: &[u8]) {
    let mut lines = Vec::new(rt.alloc());
    lines
        .extend_from_slice(b"world 1 0\nbegin get 3\n".as_slice())
        .expect(rt, "memory");
    lines.extend_from_slice(line).expect(rt, "memory");
    lines
        .extend_from_slice(b"\nstep 0 1\n".as_slice())
        .expect(rt, "memory");
    answers(rt, lines.as_slice(), 2, b"begin 0\nbad line 3\n".as_slice())
}

#[test]
fn bad_lines(rt: HostRuntime) {
    for line in [
        b"world 1".as_slice(),
        b"world 1 0".as_slice(),
        b"step 0".as_slice(),
        b"step 0 100001".as_slice(),
        b"step 0 1 1".as_slice(),
        b"lose".as_slice(),
        b"lose 0 1".as_slice(),
        b"lose 01".as_slice(),
        b"begin clear 1".as_slice(),
        b"begin walks".as_slice(),
        b"begin drop".as_slice(),
        b"begin get 07".as_slice(),
        b"begin get  7".as_slice(),
        b"begin insert 7".as_slice(),
        b"begin insert 7 18446744073709551616".as_slice(),
        b"begin reserve".as_slice(),
        b"begin".as_slice(),
        b"get 3".as_slice(),
        b"".as_slice(),
        b"begin get 0000000000000000000000000000000000000000000000000000001".as_slice(),
    ] {
        is_bad(&rt, line);
    }
}

// A line, so many times over.
fn push_times(rt: &impl Abort, text: &mut String, line: &str, times: u32) {
    for _ in 0..times {
        text.push_str(line).expect(rt, "memory for the text");
    }
}

// The label of each bin's move out of a table of so many, from the last one down.
fn push_moves(rt: &(impl Abort + AllocGlobal), text: &mut String, table: u32, bins: u32) {
    for back in 1..=bins {
        let bin = bins.saturating_sub(back);
        let line = format!(in rt.alloc(); "moved {table} {bin}\n").expect(
            rt,
            "memory for the line",
        );
        text.push_str(line.as_str())
            .expect(rt, "memory for the text");
    }
}

// The labels of a doubling by one party: the table is placed, the range of all bins claimed, each bin moves, the range is reported, the
// table is published, and the seat given back.
fn push_doubling(
    rt: &(impl Abort + AllocGlobal),
    text: &mut String,
    party: u32,
    table: u32,
    bins: u32,
) {
    let next = table.saturating_add(1);
    let begun = format!(in rt.alloc(); "placed {next}\nsilent {party}\n").expect(rt, "memory");
    text.push_str(begun.as_str())
        .expect(rt, "memory for the text");
    push_moves(rt, text, table, bins);
    let done = format!(in rt.alloc(); "silent {party}\npublished {next}\nsilent {party}\n").expect(
        rt, "memory",
    );
    text.push_str(done.as_str())
        .expect(rt, "memory for the text");
}

// A walk that has read a pair in a table of 16 bins goes on after two doublings, reads the other pair once, and ends.
#[test]
fn row_12(rt: HostRuntime) {
    let rt = &rt;
    let lines =
        b"world 1 8\nbegin insert 1 1\nstep 0 4\nbegin insert 17 17\nstep 1 4\nbegin walk\nstep 2 3\n\
        begin reserve 16\nstep 3 61\nstep 2 107\n"
            .as_slice();
    let mut want = String::new(rt.alloc());
    let first = "begin 0\nsilent 0\ndecide 0 none\nsilent 0\nreply 0 none\n\
        begin 1\nsilent 1\ndecide 1 none\nsilent 1\nreply 1 none\n\
        begin 2\nsilent 2\nsilent 2\nread 2 1 1\nbegin 3\nsilent 3\n";
    push_times(rt, &mut want, first, 1);
    push_doubling(rt, &mut want, 3, 4, 16);
    push_doubling(rt, &mut want, 3, 5, 32);
    push_times(rt, &mut want, "silent 3\nend 3\n", 1);
    push_times(rt, &mut want, "silent 2\n", 5);
    push_times(rt, &mut want, "read 2 17 17\n", 1);
    push_times(rt, &mut want, "silent 2\n", 100);
    push_times(rt, &mut want, "end 2\n", 1);
    answers(rt, lines, 0, want.as_bytes())
}

// A walk that has done one step in a table of 4 bins goes on after five doublings, to 128 bins, reads the pair once, and ends.
#[test]
fn a_walk_beside_five_doublings(rt: HostRuntime) {
    let rt = &rt;
    let lines =
        b"world 1 2\nbegin insert 2 2\nstep 0 4\nbegin walk\nstep 1 1\nbegin reserve 40\nstep 2 152\nstep 1 254\n".as_slice();
    let mut want = String::new(rt.alloc());
    let first =
        "begin 0\nsilent 0\ndecide 0 none\nsilent 0\nreply 0 none\nbegin 1\nsilent 1\nbegin 2\nsilent 2\n";
    push_times(rt, &mut want, first, 1);
    for (table, bins) in [(2, 4), (3, 8), (4, 16), (5, 32), (6, 64)] {
        push_doubling(rt, &mut want, 2, table, bins);
    }
    push_times(rt, &mut want, "silent 2\nend 2\n", 1);
    push_times(rt, &mut want, "silent 1\n", 131);
    push_times(rt, &mut want, "read 1 2 2\n", 1);
    push_times(rt, &mut want, "silent 1\n", 121);
    push_times(rt, &mut want, "end 1\n", 1);
    answers(rt, lines, 0, want.as_bytes())
}
