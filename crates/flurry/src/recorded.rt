//! A map that records its calls, so that their replies can be audited once its threads have ended.

pub use flurry_seq_recorded::{
    Book, CloseFault, Closed, KeptCall, KeptEntry, KeptReply, Receipt, Recorded, Share,
};
