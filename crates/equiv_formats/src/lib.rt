//! Equivalence of two netlists, each a text of its own in a format of its own (`net_formats`): BLIF, BENCH or AIGER,
//! mixed as well. The crate rests on the readers of the formats, and on `equiv_values` for the comparison and the text
//! of the answer.
//!
//! The theorem is that of `compare_netlists`: `equal` is answered only if the documents that the two texts list, each
//! in its format, are equivalent, and `differ` only with values of the sources under which an output or a next state
//! differs, which is told by names too. Two texts that can't be compared are refused with their first fault, and
//! nothing else is refused, but if memory runs out.
//!
//! ```text
//! let formats = FormatPair { first: NetFormat::Aiger, second: NetFormat::Blif };
//! let two = compare_netlists::<Cdcl>(alloc, formats, first, second, 100000)?;
//! ```
//!
//! - `specs/Comparison.antt`: the answers and the refusals.
//! - `specs/ComparisonLaws.antt`: two texts have an answer or at most one fault.
#![tactic(auto)]

mod comparing;
mod laws;
mod sections;

pub use comparing::{NamedTwo, compare_netlists};
pub use equiv_run::{CompareError, Compared, EquivOutcome};
pub use format_names::{FormatPair, NetFormat};
pub use laws::netlists_have_an_answer_or_a_fault;
pub use sections::check_sections;
