//! Measures the maps of this repository beside the maps of the kit, and prints one table.
//!
//! The functions are proved to be safe. No contract specifies what they measure and print. Instead, a run compares each result of a map
//! with what it must be, and ends at a wrong one.
#![tactic(auto)]

mod board;
mod builds;
mod crews;
mod hashers;
mod keys;
mod maps;
mod measures;
mod report;
mod subjects;
mod trials;
mod words;
mod workloads;

use crate::board::Board;
use crate::builds::measure_builds;
use crate::maps::{measure_owned, measure_shared};
use crate::measures::MEASURES;
use crate::report::print_table;
use crate::trials::{Bench, Trial};
use crate::words::{USAGE, Words};
use std::env;
use std::process::ExitCode;
use std::sync::Wait;
use std::thread::Threads;
use std::time::Clock;

// The numbers of keys and of threads. A quick run has the first number of keys alone.
const SIZES: [u64; 2] = [10_000, 1_000_000];

const THREADS: [u64; 3] = [1, 2, 4];

// Measures each map with each number of threads, one map after another, in 3 or 5 rounds.
fn run_rounds<R: Threads + Wait + Clock + Eprint + Sync>(
    bench: &mut Bench<'_, R>,
    keys: u64,
    words: Words<'_>,
) -> anyhow::Result<()> {
    let rounds = if words.quick || keys > SIZES[0] { 3 } else { 5 };
    for round in 1..=rounds {
        for threads in THREADS {
            eprintln!(bench.rt;
                "bench: {keys} keys, round {round} of {rounds}, threads: {threads}"
            )?;
            let trial = Trial {
                keys,
                threads,
                words,
            };
            measure_shared(bench, trial)?;
            measure_builds(bench, trial)?;
            if threads == 1 {
                measure_owned(bench, trial)?;
            }
        }
    }
    Ok(())
}

// Prints the names of the measures, of which none contains `only`.
fn print_names<R: Eprint>(rt: &R, only: &str) -> anyhow::Result<()> {
    eprintln!(rt; "bench: no measure has '{only}' in its name; these are the measures:")?;
    for measure in MEASURES {
        eprintln!(rt; "  {}", measure.name())?;
    }
    Ok(())
}

fn main(rt: HostRuntime) -> anyhow::Result<ExitCode> {
    let args: Vec<String> = env::args(&rt)?.skip(1).collect(rt.alloc())?;
    let words: Vec<&str> = args.iter().map(|word| word.as_str()).collect(rt.alloc())?;
    let Some(words) = Words::parse(&words) else {
        eprintln!(rt; "bench: a word is wrong or wanting\n{USAGE}")?;
        return Ok(ExitCode::from(2));
    };
    if words.help {
        println!(rt; "{USAGE}")?;
        return Ok(ExitCode::SUCCESS);
    }
    if !words.want(&MEASURES) {
        print_names(&rt, words.only)?;
        return Ok(ExitCode::from(2));
    }
    let mut bench = Bench {
        rt: &rt,
        alloc: rt.alloc(),
        board: Board::new(rt.alloc()),
    };
    let sizes: &[u64] = if words.quick { &SIZES[..1] } else { &SIZES };
    for keys in sizes {
        run_rounds(&mut bench, *keys, words)?;
    }
    print_table(&rt, rt.alloc(), &bench.board, sizes, &THREADS, words.csv)?;
    Ok(ExitCode::SUCCESS)
}
