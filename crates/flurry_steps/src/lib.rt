//! One call of a shared map, done in steps.
//!
//! Many calls read and write a shared map at once, and agree on its control (`flurry_steps_control`). A [`Party`] is one call. It says which
//! part of the map its next step needs, borrows that part, and does that step alone. At the board of a growth (`flurry_steps_claims`), where a
//! call that helps claims its work, the call is told what came of the step. A [`Field`] gives parts, wherever they are kept: [`act`] does
//! one step of a call over a field, and [`finish`] all of them. Contracts see parts and calls as plain data.
#![tactic(auto)]

pub mod field;
pub mod party;

pub use field::{Field, act, finish};
pub use party::Party;
