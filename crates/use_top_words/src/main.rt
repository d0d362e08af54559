//! Prints the most frequent words of the text on standard input.
#![tactic(auto)]

mod counts;

use counts::Counts;
use std::io;
use std::io::{BufRead, BufReader};

// The number of words that are printed.
const SHOWN: usize = 5;

fn main(rt: HostRuntime) -> io::Result<()> {
    let mut counts = Counts::new(rt.alloc());
    for line in BufReader::new(rt.alloc(), rt.reader())?.lines(rt.alloc()) {
        counts.add_line(rt.alloc(), line?.as_str())?;
    }
    println!(rt; "{} different words", counts.len())?;
    for (word, count) in counts.most_frequent(SHOWN)? {
        println!(rt; "{count:>3} {}", word.as_str())?;
    }
    Ok(())
}
