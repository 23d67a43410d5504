//! Improvement of texts by wishes: BLIF and BENCH over a basis and nothing else, with no more levels, or with a line of
//! levels in the report; and BLIF with the covers that are wished for.
//!
//! `bases` makes what is improved: the circuit that was read, or an equivalent one over the basis (`based`).
//! `reaching` improves it, by exact windows (`improve_windows`), or by moves within a limit of levels
//! (`improve_levels`). `texts` reads and writes each format, and `reporting` writes the report.
//!
//! What is proved, for BLIF, BENCH and AIGER: `IsWished` (`specs/Wished.antt`). The text is a well-formed netlist with
//! the same outputs and next states under every assignment, no more gates than what was improved, and what is wished
//! of levels; the document that is read again is over the basis, if that is wished (`IsDocumentOver` of `net_basis`).
//! BLIF has the covers that are wished for (`blif_in` of `specs/Covers.antt`). Where the basis can't express a gate, it
//! is named (`IsCannotExpress`), which never happens to what was written over it (`laws`).
//!
//! ```text
//! let improved = wished_blif::<S, T>(alloc, bytes, settings, wishes, tell)?;
//! ```
#![tactic(auto)]

mod bases;
pub mod laws;
mod reaching;
mod reporting;
mod texts;
mod writing;

pub use improve_windows::{ImproveSettings, ImprovedText, NetError};
pub use texts::{WishedText, wished_aiger, wished_bench, wished_blif};
pub use wish_names::{CoversAsked, FormAsked, LevelsAsked, Wishes};
