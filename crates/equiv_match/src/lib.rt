//! Equivalence of two netlists whose inputs, outputs and latches correspond by names, in any order; each is a text of
//! its own in a format of its own. The crate rests on `match_core` for the order, on `net_formats` and the parsers of
//! the formats for reading, and on `equiv_values` for the comparison.
//!
//! The theorem is that of `compare_matched`: two netlists that lack a name of each other are refused with the first
//! such name; otherwise the answer is that of `equiv` for the first and for the second in the order of the first
//! (`matched`), which is equivalent to the first exactly if the two are equivalent by names (`names_correspond` of
//! `match_core`).
//!
//! ```text
//! let formats = FormatPair { first: NetFormat::Blif, second: NetFormat::Aiger };
//! let two = compare_matched::<Cdcl, Silent>(alloc, formats, first, second, 100000, &Silent)?;
//! ```
//!
//! - `specs/MatchComparison.antt`: the answers and the refusals.
//! - `specs/MatchComparisonLaws.antt`: two texts have an answer or at most one fault.
#![tactic(auto)]

mod comparing;
mod error;
mod laws;
mod listing;
mod ordering;

pub use comparing::compare_matched;
pub use equiv_formats::NamedTwo;
pub use equiv_run::{CompareError, Compared, EquivOutcome};
pub use error::MatchError;
pub use format_names::{FormatPair, NetFormat};
pub use laws::matched_netlists_have_an_answer_or_a_fault;
pub use match_core::{Lack, NameKind};
