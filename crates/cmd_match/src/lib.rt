//! `equiv` of a netlist with a given one by the names of inputs, outputs and latches, for `frame_core`: the task of
//! `EquivFormats` of `cmd_formats`, by `compare_matched` of `equiv_match`. `specs/MatchReport` has the task, and
//! `specs/MatchLaws` proves that it is one.
//!
//! ```text
//! let job = AtOnce(EquivMatched { formats, first: &text, budget: 100000, solver, tell: &Silent });
//! perform(alloc, &job, &mut source, &mut out, &mut note)
//! ```
#![tactic(auto)]

mod matching;
mod refusing;

pub use matching::EquivMatched;
