//! The command `gen`: a netlist of generated blocks, written or improved.
//!
//! `Gen` is the command for `frame_core`. `specs/GenReport` has its task, `specs/GenPromise` the promise of its
//! runs, and `specs/GenLaws` the proof that every run of the task keeps the promise.
#![tactic(auto)]

mod netlists;

pub use netlists::Gen;
