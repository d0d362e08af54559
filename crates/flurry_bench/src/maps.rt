//! The maps of a round, which are created, measured and dropped one after another.

use crate::hashers::{Fold, OfKit, OneHash};
use crate::measures::Kind;
use crate::trials::{Bench, Trial};
use flurry_base::hash::DefaultHashBuilder as Sip;
use flurry_seq::SeqMap;
use flurry_shared::HashMap as SharedMap;
use metered_alloc::MeteredAlloc;
use std::alloc::Global;
use std::cell::RefCell;
use std::collections::{BTreeMap, HashMap};
use std::sync::{Mutex, RwLock, Wait};
use std::thread::Threads;
use std::time::Clock;

type Shared<B, A = Global> = SharedMap<u64, u64, B, A>;

type Seq<B, A = Global> = SeqMap<u64, u64, OfKit<B>, A>;

type Hash<B, A = Global> = HashMap<u64, u64, B, A>;

type BTree<A = Global> = BTreeMap<u64, u64, A>;

type Memory = &'static MeteredAlloc<Global>;

/// Measures the maps that threads share, and the owned maps whose lock they share.
pub fn measure_shared<R: Threads + Wait + Clock + Sync>(
    bench: &mut Bench<'_, R>,
    trial: Trial<'_>,
) -> anyhow::Result<()> {
    bench.time_together::<Shared<OfKit<Fold>>, Shared<OfKit<OneHash>>>(trial, Kind::Shared)?;
    bench.time_together::<Shared<Sip>, Shared<Sip>>(trial, Kind::SharedDefaultHash)?;
    bench.time_together::<RwLock<Seq<Fold>>, RwLock<Seq<OneHash>>>(trial, Kind::LockedSeq)?;
    bench.time_together::<RwLock<Hash<Fold>>, RwLock<Hash<OneHash>>>(trial, Kind::LockedHash)?;
    bench.time_together::<Mutex<Hash<Fold>>, Mutex<Hash<OneHash>>>(trial, Kind::MutexHash)?;
    bench.time_together::<RwLock<BTree>, RwLock<BTree>>(trial, Kind::LockedBTree)
}

/// Measures the maps that one thread uses alone, and the bytes of each map.
pub fn measure_owned<R: Threads + Wait + Clock + Sync>(
    bench: &mut Bench<'_, R>,
    trial: Trial<'_>,
) -> anyhow::Result<()> {
    bench.time_alone::<RefCell<Seq<Fold>>, RefCell<Seq<OneHash>>>(trial, Kind::Seq)?;
    bench.time_alone::<RefCell<Hash<Fold>>, RefCell<Hash<OneHash>>>(trial, Kind::Hash)?;
    bench.time_alone::<RefCell<BTree>, RefCell<BTree>>(trial, Kind::BTree)?;
    bench.bytes::<Shared<OfKit<Fold>, Memory>>(trial, Kind::Shared)?;
    bench.bytes::<RefCell<Seq<Fold, Memory>>>(trial, Kind::Seq)?;
    bench.bytes::<RefCell<Hash<Fold, Memory>>>(trial, Kind::Hash)?;
    bench.bytes::<RefCell<BTree<Memory>>>(trial, Kind::BTree)
}
