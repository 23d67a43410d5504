//! The command `equiv`: whether two netlists have the same outputs and next states.
//!
//! `Equiv` is the command for `frame_core`. `specs/EquivReport` has its task, `specs/EquivPromise` the promise
//! of its runs, and `specs/EquivLaws` the proof that every run of the task keeps the promise. `EquivWith` compares a
//! netlist with a given one, each in a text of its own (`specs/WithReport`, `specs/WithLaws`).
#![tactic(auto)]

mod equiv;
mod with;

pub use equiv::{Equiv, refusal_of, reply_of};
pub use with::{EquivWith, empty, reply_of_two};
