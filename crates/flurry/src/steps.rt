//! The control of a shared map, one call in steps, the field that gives a call the parts that its steps need, and walks and clears in
//! steps.

pub use flurry_steps::{Field, Party, act, field, party};
pub use flurry_steps_control as control;
pub use flurry_steps_control::Control;
pub use flurry_steps_sweep::{Cursor, Seen, Sweep, cursor, sweep};
