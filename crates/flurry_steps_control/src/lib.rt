//! The state on which the calls of a shared map agree.
//!
//! Many calls read and write a shared map at once. What they agree on is the [`Control`]: which table is published, whether a larger
//! table is being filled, and the number of pairs. Each call of a control is one step, which its caller does alone, for example under a
//! lock. Who moves which bins into a larger table is decided at a board (`flurry_steps_claims`); a [`Claim`] is a range of bins that only its
//! holder moves. A [`Tally`] is a count that waits until the control collects it, and a [`Room`] is the place where tables and boards are
//! made. Contracts see all of them as plain data.
#![tactic(auto)]

mod claim;
mod control;
mod published_table;
mod room;
mod tally;

pub use claim::Claim;
pub use control::{Advice, BeginOutcome, Control, wanted_table};
pub use flurry_base::sizes::MAX_TABLE;
pub use published_table::PublishedTable;
pub use room::Room;
pub use tally::Tally;
