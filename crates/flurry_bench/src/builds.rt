//! A round of building: an owned map is built from a list of all pairs, by the plain call and in parallel.

use crate::hashers::{Fold, OfKit};
use crate::keys::key_of;
use crate::measures::{Kind, Measure};
use crate::trials::{Bench, Trial};
use flurry_seq::SeqMap;
use flurry_seq_par::map::from_par_list;
use std::alloc::{AllocError, Global};
use std::sync::Wait;
use std::thread::Threads;
use std::time::{Clock, Instant};

type Seq = SeqMap<u64, u64, OfKit<Fold>>;

/// Measures the building of a map by one thread, and then from as many pieces of the list as the trial has threads.
pub fn measure_builds<R: Threads + Wait + Clock + Sync>(
    bench: &mut Bench<'_, R>,
    trial: Trial<'_>,
) -> anyhow::Result<()> {
    if !trial.words.want(&[Measure::Build]) {
        return Ok(());
    }
    let hasher = OfKit::<Fold>::default();

    let list = pairs(bench.alloc, trial.keys)?;
    let start = Instant::now(bench.rt)?;
    let map = SeqMap::from_list(bench.alloc, list, hasher)?;
    let elapsed = start.elapsed(bench.rt)?;
    bench.add(
        trial,
        Kind::SeqFromList,
        Measure::Build,
        count_wrong(&map, trial.keys),
        elapsed,
    )?;
    drop(map);

    let list = pairs(bench.alloc, trial.keys)?;
    let part = trial.keys.div_ceil(trial.threads.max(1)) as usize;
    let start = Instant::now(bench.rt)?;
    let map = from_par_list(bench.rt, bench.alloc, list, hasher, part)?;
    let elapsed = start.elapsed(bench.rt)?;
    bench.add(
        trial,
        Kind::SeqFromParList,
        Measure::Build,
        count_wrong(&map, trial.keys),
        elapsed,
    )
}

// Returns a list of the pairs of all keys, each with its index as the value.
fn pairs(alloc: Global, keys: u64) -> Result<Vec<(u64, u64)>, AllocError> {
    let mut pairs = Vec::with_capacity(alloc, keys as usize)?;
    for index in 0..keys {
        pairs.push((key_of(index), index))?;
    }
    Ok(pairs)
}

// Returns the number of keys that have no value in the map, or a value other than their index.
fn count_wrong(map: &Seq, keys: u64) -> u64 {
    let mut wrong = 0u64;
    for index in 0..keys {
        if map.get(&key_of(index)).map(|value| **value) != Some(index) {
            wrong = wrong.saturating_add(1);
        }
    }
    wrong
}
