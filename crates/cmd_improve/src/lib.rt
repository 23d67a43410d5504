//! The command `improve`: an equivalent netlist with no more gates, and a report on it.
//!
//! `Improve` is the command for `frame_core`. `specs/ImproveReport` has its task, `specs/ImprovePromise` the
//! promise of its runs, and `specs/ImproveLaws` the proof that every run of the task keeps the promise. `ImproveNamed`
//! is the command over a file that is named, which refuses an empty text (`specs/NamedReport`, `specs/NamedLaws`).
#![tactic(auto)]

mod improve;
mod named;

pub use improve::{Improve, refusal_of, reply_of};
pub use named::{ImproveNamed, empty};
