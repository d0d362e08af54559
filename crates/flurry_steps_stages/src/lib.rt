//! What a call of a shared map is, and the stages that it goes through between its steps.
//!
//! A [`Call`] says what is to be done, with its key; an [`OwnedCall`] keeps the key itself. Until it has decided, a one-key call is a
//! [`Task`] at a bin. Afterwards it may have a pair to count, a growth to begin or a growth to help ([`Help`]): each is a [`Stage`].
//! What a step takes out of a bin and does not return is [`Left`], to be dropped while no lock is held. The steps themselves are those of
//! `flurry_steps`.
#![tactic(auto)]

mod call;
mod left;
mod stage;

pub use call::{AnswerForm, Call, Key, OwnedCall, Task};
pub use left::Left;
pub use stage::{GrowFor, Help, Resume, Stage};
