//! Every interleaving of the calls of a shared map, run one step at a time.
#![tactic(auto)]

pub mod laws;
pub mod parts;
mod party_record;
mod step;
pub mod tables;
pub mod world;

pub use parts::Parts;
pub use party_record::hash_for;
pub use world::World;
