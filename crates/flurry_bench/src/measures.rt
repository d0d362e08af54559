//! The rows of the table: what is measured, and on which map.

use crate::workloads::Work;

/// What is measured.
#[derive(Clone, Copy, PartialEq, Eq)]
pub enum Measure {
    Hit,
    Miss,
    InsertIntoRoom,
    InsertAndGrow,
    Remove,
    MostlyLookUps,
    MostlyChanges,
    OneHashInsert,
    OneHashHit,
    OneHashRemove,
    Build,
    BytesAPair,
}

/// All measures, in the order of the table.
pub const MEASURES: [Measure; 12] = [
    Measure::Hit,
    Measure::Miss,
    Measure::InsertIntoRoom,
    Measure::InsertAndGrow,
    Measure::Remove,
    Measure::MostlyLookUps,
    Measure::MostlyChanges,
    Measure::OneHashInsert,
    Measure::OneHashHit,
    Measure::OneHashRemove,
    Measure::Build,
    Measure::BytesAPair,
];

/// The measures on one map that is small and empty at first, in the order in which they are taken.
pub const GROWING: [Measure; 6] = [
    Measure::InsertAndGrow,
    Measure::Hit,
    Measure::Miss,
    Measure::MostlyLookUps,
    Measure::MostlyChanges,
    Measure::Remove,
];

/// The measures on a map that is empty at first, with room for all keys.
pub const ROOMY: [Measure; 1] = [Measure::InsertIntoRoom];

/// The measures on one map that gives all keys one hash, in the order in which they are taken.
pub const ONE_HASH: [Measure; 3] = [
    Measure::OneHashInsert,
    Measure::OneHashHit,
    Measure::OneHashRemove,
];

impl Measure {
    /// Returns the name of the measure's rows.
    pub fn name(self) -> &'static str {
        match self {
            Measure::Hit => "look-up that hits",
            Measure::Miss => "look-up that misses",
            Measure::InsertIntoRoom => "insertion into room",
            Measure::InsertAndGrow => "insertion and growth",
            Measure::Remove => "removal",
            Measure::MostlyLookUps => "mix 98 to 2",
            Measure::MostlyChanges => "mix 10 to 90",
            Measure::OneHashInsert => "one hash: insertion",
            Measure::OneHashHit => "one hash: look-up",
            Measure::OneHashRemove => "one hash: removal",
            Measure::Build => "building of a list",
            Measure::BytesAPair => "bytes a pair",
        }
    }

    /// Returns the unit of the measure's numbers.
    pub fn unit(self) -> &'static str {
        match self {
            Measure::BytesAPair => "bytes",
            _ => "ns",
        }
    }

    /// Returns the map to whose numbers the ratios in the measure's rows refer.
    pub fn base(self) -> Kind {
        match self {
            Measure::Build => Kind::SeqFromList,
            _ => Kind::Shared,
        }
    }

    /// Returns the work that is timed, or after which the bytes are counted.
    pub fn work(self) -> Work {
        match self {
            Measure::Hit | Measure::OneHashHit => Work::Hit,
            Measure::Miss => Work::Miss,
            Measure::InsertIntoRoom
            | Measure::InsertAndGrow
            | Measure::OneHashInsert
            | Measure::Build
            | Measure::BytesAPair => Work::Insert,
            Measure::Remove | Measure::OneHashRemove => Work::Remove,
            Measure::MostlyLookUps => Work::Mix(2),
            Measure::MostlyChanges => Work::Mix(90),
        }
    }
}

// The greatest number of keys with one hash for which the kit's hash map is measured.
const MAX_OF_ONE_HASH: u64 = 10_000;

/// A map that is measured.
#[derive(Clone, Copy, PartialEq, Eq)]
pub enum Kind {
    Shared,
    SharedDefaultHash,
    Seq,
    LockedSeq,
    Hash,
    LockedHash,
    MutexHash,
    BTree,
    LockedBTree,
    SeqFromList,
    SeqFromParList,
}

/// All maps, in the order of the table.
pub const KINDS: [Kind; 11] = [
    Kind::Shared,
    Kind::SharedDefaultHash,
    Kind::Seq,
    Kind::LockedSeq,
    Kind::Hash,
    Kind::LockedHash,
    Kind::MutexHash,
    Kind::BTree,
    Kind::LockedBTree,
    Kind::SeqFromList,
    Kind::SeqFromParList,
];

impl Kind {
    /// Returns the name of the map in its rows.
    pub fn name(self) -> &'static str {
        match self {
            Kind::Shared => "flurry HashMap",
            Kind::SharedDefaultHash => "flurry HashMap (SipHash)",
            Kind::Seq => "flurry SeqMap",
            Kind::LockedSeq => "RwLock<flurry SeqMap>",
            Kind::Hash => "std HashMap",
            Kind::LockedHash => "RwLock<std HashMap>",
            Kind::MutexHash => "Mutex<std HashMap>",
            Kind::BTree => "std BTreeMap",
            Kind::LockedBTree => "RwLock<std BTreeMap>",
            Kind::SeqFromList => "SeqMap::from_list",
            Kind::SeqFromParList => "SeqMap by from_par_list",
        }
    }

    /// Returns `true` if the map is measured with one hash for all of `keys` keys.
    ///
    /// The default hasher cannot give one hash to all keys. With one hash, a call of the kit's hash map takes as many steps as the map has
    /// keys, so the number of keys has a limit.
    pub fn takes_one_hash(self, keys: u64) -> bool {
        match self {
            Kind::SharedDefaultHash => false,
            Kind::Hash | Kind::LockedHash | Kind::MutexHash => keys <= MAX_OF_ONE_HASH,
            _ => true,
        }
    }
}
