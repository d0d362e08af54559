//! Rounds of calls, and what the judge finds in them.

use crate::subjects::Subject;
use crate::words::Words;
use crate::work::{Counters, Place, look_up_all, work};
use std::alloc::{AllocError, Global};
use std::sync::Wait;
use std::thread;
use std::thread::Threads;
use std::time::{Clock, Instant};
use stress_judge::calls::Event;
use stress_judge::judging::{Judged, Verdict, judge};
use stress_judge::shrinking::{Fault, shrink, writers};

/// What was done.
#[derive(Clone, Copy)]
pub struct Figures {
    pub rounds: u64,
    /// The number of calls that were recorded.
    pub calls: u64,
    /// The number of histories of a key on which there is no verdict.
    pub not_judged: u64,
    /// The greatest number of calls of one key at the same time.
    pub most_open: usize,
    /// The number of seconds since the first round started.
    pub seconds: u64,
}

/// Calls of one key that no order explains.
#[derive(Drop)]
pub struct Found {
    pub round: u64,
    pub fault: Fault,
    /// The calls that wrote the values of which the fault speaks.
    pub writers: Vec<Event>,
}

impl Figures {
    fn new() -> Figures {
        Figures {
            rounds: 0,
            calls: 0,
            not_judged: 0,
            most_open: 0,
            seconds: 0,
        }
    }

    // Counts a history of one key.
    fn count(&mut self, judged: Judged, calls: usize) {
        self.calls = self.calls.saturating_add(calls as u64);
        self.most_open = self.most_open.max(judged.most_open);
        if judged.verdict == Verdict::NotJudged {
            self.not_judged = self.not_judged.saturating_add(1);
        }
    }
}

// Makes the calls of a round on a new map, and lists them by their keys.
fn record<R: Threads + Wait + Sync, M: Subject + Sync + Drop>(
    rt: &R,
    alloc: Global,
    words: Words,
    round: u64,
) -> Result<Vec<Event>, AllocError> {
    let threads = words.threads as usize;
    let map = M::make(alloc, threads);
    let counters = Counters::new();
    let (shared, common) = (&map, &counters);
    let histories = thread::map_indices(
        rt,
        alloc,
        threads,
        &|thread: usize| {
            let thread = thread as u64;
            work(rt, alloc, shared, common, words, Place { round, thread })
        },
    )?;
    let mut events = look_up_all(rt, alloc, shared, common, words.keys)?;
    for history in histories {
        events.extend_from_slice(&history?)?;
    }
    events.sort_unstable_by_key(|event| event.key);
    Ok(events)
}

// Judges the calls of a round, which are listed by their keys, up to the first key whose calls no order explains.
fn judge_all(
    alloc: Global,
    round: u64,
    events: &[Event],
    figures: &mut Figures,
) -> Result<Option<Found>, AllocError> {
    for history in events.chunk_by(|a, b| a.key == b.key) {
        let judged = judge(alloc, None, history)?;
        figures.count(judged, history.len());
        if judged.verdict == Verdict::Unlawful {
            let fault = shrink(alloc, history, judged)?;
            let writers = writers(alloc, history, &fault)?;
            return Ok(Some(Found {
                round,
                fault,
                writers,
            }));
        }
    }
    Ok(None)
}

/// Makes and judges rounds of calls, until there is an end to them or calls that no order explains.
///
/// # Errors
///
/// Returns an error if memory cannot be allocated, or if the clock or standard error fails.
pub fn run<R: Threads + Wait + Clock + Eprint + Sync, M: Subject + Sync + Drop>(
    rt: &R,
    alloc: Global,
    words: Words,
) -> anyhow::Result<(Figures, Option<Found>)> {
    let start = Instant::now(rt)?;
    let mut figures = Figures::new();
    let mut minutes = 0;
    for round in 0..words.rounds.unwrap_or(u64::MAX) {
        let events = record::<R, M>(rt, alloc, words, round)?;
        let fault = judge_all(alloc, round, &events, &mut figures)?;
        figures.rounds = round.saturating_add(1);
        figures.seconds = start.elapsed(rt)?.as_secs();
        if fault.is_some() {
            return Ok((figures, fault));
        }
        if figures.seconds / 60 > minutes {
            minutes = figures.seconds / 60;
            let (rounds, calls) = (figures.rounds, figures.calls);
            eprintln!(rt; "stress: minute {minutes}, {rounds} rounds, {calls} calls")?;
        }
        if words.is_over(figures.seconds) {
            break;
        }
    }
    Ok((figures, None))
}
