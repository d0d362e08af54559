//! Counts the words of lines, each line in a thread of its own.
#![tactic(auto)]

mod words;

use flurry::pairs;
use std::alloc::Global;
use std::sync::Wait;
use std::sync::atomic::{AtomicU64, Ordering};
use std::thread::Threads;
use std::{io, thread};
use words::{Words, total};

const KNOWN: &str = "one two red blue fish car star cat";

const LINES: [&str; 4] = [
    "one fish two fish red fish blue fish",
    "this one has a little star",
    "this one has a little car",
    "say what a lot of fish there are",
];

// Counts the words of `line`, and adds their number to `sum`.
fn count_line<R: Wait>(rt: &R, alloc: Global, words: &Words, line: &str, sum: &AtomicU64) {
    for word in line.split_whitespace() {
        if words.add(rt, alloc, word).is_ok() {
            sum.fetch_add(1, Ordering::SeqCst);
        }
    }
}

// Counts the words of each line in a thread of its own, and returns the number of words.
fn count_lines<R: Threads + Wait + Sync>(
    rt: &R,
    alloc: Global,
    words: &Words,
    lines: &[&str],
) -> u64 {
    let counted = AtomicU64::new(0);
    let sum = &counted;
    thread::scope(thread::scope_env(), rt, |scope| {
        for line in lines {
            let line = *line;
            let child = scope.spawn(move || count_line(rt, alloc, words, line, sum));
            if child.is_err() {
                count_line(rt, alloc, words, line, sum);
            }
        }
    });
    counted.load(Ordering::SeqCst)
}

fn main(rt: HostRuntime) -> io::Result<()> {
    let words = Words::of_text(&rt, rt.alloc(), KNOWN)?;
    let counted = count_lines(&rt, rt.alloc(), &words, &LINES);

    let counts = words.finish(&rt)?;
    for (word, count) in &pairs::from_seq_map(&counts)?.0 {
        println!(rt; "{count} {}", word.as_str())?;
    }
    match total(&counts) {
        Some(sum) => println!(rt; "counted {counted}, sum {sum}"),
        None => println!(rt; "counted {counted}"),
    }
}
