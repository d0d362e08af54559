//! Makes random calls of a shared map in threads, records them, and judges whether the calls of each key have an order that explains
//! their replies.
//!
//! The functions are proved to be safe. No contract specifies which calls are made, and what the judge makes of them.
#![tactic(auto)]

mod random;
mod report;
mod rounds;
mod subjects;
mod words;
mod work;

use crate::report::{print_fault, print_figures, print_times, status};
use crate::rounds::{Figures, Found, run};
use crate::words::{HasherWord, USAGE, Words};
use flurry_base::hash::{DefaultHashBuilder, LowHashBuilder, ZeroHashBuilder};
use flurry_shared::HashMap;
use std::alloc::Global;
use std::env;
use std::process::ExitCode;
use std::sync::Wait;
use std::thread::Threads;
use std::time::Clock;

type Map<S> = HashMap<u64, u64, S>;

// Makes the rounds over the hasher that is asked for.
fn run_hasher<R: Threads + Wait + Clock + Eprint + Sync>(
    rt: &R,
    alloc: Global,
    words: Words,
) -> anyhow::Result<(Figures, Option<Found>)> {
    match words.hasher {
        HasherWord::Default => run::<R, Map<DefaultHashBuilder>>(rt, alloc, words),
        HasherWord::Low => run::<R, Map<LowHashBuilder>>(rt, alloc, words),
        HasherWord::Zero => run::<R, Map<ZeroHashBuilder>>(rt, alloc, words),
    }
}

fn main(rt: HostRuntime) -> anyhow::Result<ExitCode> {
    let args: Vec<String> = env::args(&rt)?.skip(1).collect(rt.alloc())?;
    let words: Vec<&str> = args.iter().map(|word| word.as_str()).collect(rt.alloc())?;
    let Some(words) = Words::parse(&words) else {
        eprintln!(rt; "stress: a word is wrong or missing\n{USAGE}")?;
        return Ok(ExitCode::from(2));
    };
    if words.help {
        println!(rt; "{USAGE}")?;
        return Ok(ExitCode::SUCCESS);
    }
    let (figures, found) = run_hasher(&rt, rt.alloc(), words)?;
    print_times(&rt, figures)?;
    match &found {
        Some(found) => print_fault(&rt, found)?,
        None => print_figures(&rt, figures)?,
    }
    Ok(ExitCode::from(status(figures.not_judged, found.is_some())))
}
