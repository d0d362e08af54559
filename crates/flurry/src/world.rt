//! Every interleaving of calls of a shared map, run one step at a time; and single calls, run to their end.

pub use flurry_bins_slots::{ComputeFn, NoFn};
pub use flurry_steps::party::OwnedCall;
pub use flurry_steps_drive::{drive, drive_alone};
pub use flurry_steps_theory::{Call, Label, Seen, laws};
pub use flurry_steps_world::laws::one_key_calls_agree;
pub use flurry_steps_world::tables::Tables;
pub use flurry_steps_world::world::Step;
pub use flurry_steps_world::{Parts, World};
