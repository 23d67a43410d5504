//! Improvement of netlists: of nets, and of BLIF and BENCH texts. `src/passes.rt` has the order of the passes: cleanup,
//! functional hashing, moves over the whole net (`restructure`), and
//! resynthesis (`resyn_core` with the attempts of `window_attempt`). `blif_core` and `bench_core` read and write,
//! `blif_laws` and `bench_laws` say what written texts mean, and `cert_text` writes the certificates of a report. Any
//! solver can make the searches.
//!
//! What is proved of `improve_net`: the net that it returns implements the given one, and if it is settled, no listed
//! window up to the cap has a shorter chain for its local specification, but for those that are named. Of
//! `improve_blif` and `improve_bench`: the text that they return is a well-formed netlist with the same outputs and
//! next states under every assignment and no more gates; each gate is in the transitive fanin of a sink, and has an
//! operator of the basis or of the given netlist; and where the report ends in `settled`, no window up to the cap has
//! a shorter chain over the basis, but for those that the report names, each with a valid certificate that leaves it
//! open. They refuse exactly what isn't a well-formed netlist. Only netlists are improved, and to netlists
//! (`laws::improved_texts_are_netlists`).
//!
//! ```text
//! let improved = improve_blif::<S>(alloc, bytes, ImproveSettings::defaults())?;
//! improved.report // gates 3 -> 1, settled
//! ```
#![tactic(auto)]

mod circuits;
mod costing;
pub mod laws;
mod passes;
mod reporting;
mod stages;
mod texts;

pub use blif_core::{Circuit, NetError};
pub use circuits::{Improved, Written, improve_written};
pub use costing::{CostedDocument, costed};
pub use improve_theory::{Undecided, WindowCandidate};
pub use passes::{ImprovedNet, improve_net};
pub use settings::ImproveSettings;
pub use stages::{first_patience, first_work, stage_work};
pub use texts::{ImprovedText, all_reported, improve_bench, improve_blif};
