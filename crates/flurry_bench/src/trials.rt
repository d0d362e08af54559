//! The trials of a round: each map is created, measured and dropped.

use crate::board::{Board, Cell};
use crate::crews::{Size, work_alone, work_together};
use crate::measures::{GROWING, Kind, Measure, ONE_HASH, ROOMY};
use crate::subjects::{Make, Subject};
use crate::words::Words;
use crate::workloads::Work;
use anyhow::ensure;
use metered_alloc::MeteredAlloc;
use std::alloc::Global;
use std::sync::Wait;
use std::thread::Threads;
use std::time::{Clock, Duration, Instant};

/// The numbers of keys and threads of a round, and the words that say what to measure.
#[derive(Clone, Copy)]
pub struct Trial<'w> {
    pub keys: u64,
    pub threads: u64,
    pub words: Words<'w>,
}

// The least number of calls of a look-up or a mix.
const MIN_CALLS: u64 = 100_000;

impl<'w> Trial<'w> {
    fn cell(self, kind: Kind, measure: Measure) -> Cell {
        Cell {
            measure,
            kind,
            keys: self.keys,
            threads: self.threads,
        }
    }

    // If all keys have one hash, a look-up may take as many steps as there are keys, so fewer look-ups are made.
    fn size(self, measure: Measure) -> Size {
        let calls = if measure == Measure::OneHashHit {
            self.keys.min(MIN_CALLS)
        } else {
            self.keys.max(MIN_CALLS)
        };
        Size {
            keys: self.keys,
            calls,
        }
    }

    // Whether the work must be done, because it is asked for, or because it inserts the keys that the other work on the map needs.
    fn needs(self, measure: Measure) -> bool {
        measure.work() == Work::Insert || self.words.want(&[measure])
    }
}

/// The runtime and the allocator with which maps are measured, and all that was measured.
#[derive(Drop)]
pub struct Bench<'r, R> {
    pub rt: &'r R,
    pub alloc: Global,
    pub board: Board,
}

impl<'r, R: Threads + Wait + Clock + Sync> Bench<'r, R> {
    /// Measures a map of one kind in the trial's threads. The map is an `S`, which hashes its keys, or a `Z`, which gives all keys one
    /// hash.
    pub fn time_together<
        S: Subject + Make<Global> + Drop + Sync,
        Z: Subject + Make<Global> + Drop + Sync,
    >(&mut self, trial: Trial<'_>, kind: Kind) -> anyhow::Result<()> {
        let processors = trial.threads as usize;
        if trial.words.want(&GROWING) {
            let map = S::make(self.alloc, 0, processors)?;
            self.work_together_through(&map, kind, &GROWING, trial)?;
        }
        if trial.words.want(&ROOMY) {
            let map = S::make(self.alloc, trial.keys as usize, processors)?;
            self.work_together_through(&map, kind, &ROOMY, trial)?;
        }
        if kind.takes_one_hash(trial.keys) && trial.words.want(&ONE_HASH) {
            let map = Z::make(self.alloc, 0, processors)?;
            self.work_together_through(&map, kind, &ONE_HASH, trial)?;
        }
        Ok(())
    }

    /// Measures a map of one kind in the caller's thread alone. The map is an `S`, which hashes its keys, or a `Z`, which gives all keys
    /// one hash.
    pub fn time_alone<S: Subject + Make<Global> + Drop, Z: Subject + Make<Global> + Drop>(
        &mut self,
        trial: Trial<'_>,
        kind: Kind,
    ) -> anyhow::Result<()> {
        let processors = trial.threads as usize;
        if trial.words.want(&GROWING) {
            let map = S::make(self.alloc, 0, processors)?;
            self.work_alone_through(&map, kind, &GROWING, trial)?;
        }
        if trial.words.want(&ROOMY) {
            let map = S::make(self.alloc, trial.keys as usize, processors)?;
            self.work_alone_through(&map, kind, &ROOMY, trial)?;
        }
        if kind.takes_one_hash(trial.keys) && trial.words.want(&ONE_HASH) {
            let map = Z::make(self.alloc, 0, processors)?;
            self.work_alone_through(&map, kind, &ONE_HASH, trial)?;
        }
        Ok(())
    }

    // Does the work of each measure on the map in the trial's threads, and adds its time.
    fn work_together_through<S: Subject + Sync>(
        &mut self,
        map: &S,
        kind: Kind,
        measures: &[Measure],
        trial: Trial<'_>,
    ) -> anyhow::Result<()> {
        for measure in measures {
            if trial.needs(*measure) {
                let size = trial.size(*measure);
                let start = Instant::now(self.rt)?;
                let wrong = work_together(self.rt, map, measure.work(), size, trial.threads);
                let elapsed = start.elapsed(self.rt)?;
                self.add(trial, kind, *measure, wrong, elapsed)?;
            }
        }
        Ok(())
    }

    // Does the work of each measure on the map in the caller's thread, and adds its time.
    fn work_alone_through<S: Subject>(
        &mut self,
        map: &S,
        kind: Kind,
        measures: &[Measure],
        trial: Trial<'_>,
    ) -> anyhow::Result<()> {
        for measure in measures {
            if trial.needs(*measure) {
                let size = trial.size(*measure);
                let start = Instant::now(self.rt)?;
                let wrong = work_alone(self.rt, map, measure.work(), size);
                let elapsed = start.elapsed(self.rt)?;
                self.add(trial, kind, *measure, wrong, elapsed)?;
            }
        }
        Ok(())
    }

    /// Adds the time of one call, in tenths of a nanosecond, if `measure` is asked for.
    ///
    /// # Errors
    ///
    /// Returns an error if `wrong` is not 0, or if memory for the sample cannot be allocated.
    pub fn add(
        &mut self,
        trial: Trial<'_>,
        kind: Kind,
        measure: Measure,
        wrong: u64,
        elapsed: Duration,
    ) -> anyhow::Result<()> {
        ensure_right(wrong, kind, measure)?;
        if trial.words.want(&[measure]) {
            let calls = u128::from(trial.size(measure).calls_of(measure.work()).max(1));
            let tenths = elapsed.as_nanos().saturating_mul(10) / calls;
            let tenths = u64::try_from(tenths).unwrap_or(u64::MAX);
            self.board.add(trial.cell(kind, measure), tenths)?;
        }
        Ok(())
    }

    /// Measures how many bytes of memory a map of one kind holds for each pair, in tenths of a byte, if this is asked for. One thread
    /// inserts the pairs.
    pub fn bytes<S: Subject + Make<&'static MeteredAlloc<Global>> + Drop>(
        &mut self,
        trial: Trial<'_>,
        kind: Kind,
    ) -> anyhow::Result<()> {
        let measure = Measure::BytesAPair;
        if trial.words.want(&[measure]) {
            let memory = MeteredAlloc::leak(self.alloc)?;
            let map = S::make(memory, 0, 1)?;
            let wrong = work_alone(self.rt, &map, measure.work(), trial.size(measure));
            ensure_right(wrong, kind, measure)?;
            let tenths = memory.live_bytes().saturating_mul(10) / trial.keys.max(1);
            self.board.add(trial.cell(kind, measure), tenths)?;
        }
        Ok(())
    }
}

fn ensure_right(wrong: u64, kind: Kind, measure: Measure) -> anyhow::Result<()> {
    ensure!(
        wrong == 0,
        "{}, {}: {wrong} calls answered wrongly or found no memory",
        measure.name(),
        kind.name()
    );
    Ok(())
}
