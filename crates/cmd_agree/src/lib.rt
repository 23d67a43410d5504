//! The command `agree`: whether a chain implements the tables that come before it in the input.
//!
//! `Agree` is the command for `frame_core`. `specs/AgreeReport` has its task, `specs/AgreePromise` the promise of
//! its runs, and `specs/AgreeLaws` the proof that every run of the task keeps the promise.
#![tactic(auto)]

mod agree;
mod judging;
pub mod laws;

pub use agree::Agree;
