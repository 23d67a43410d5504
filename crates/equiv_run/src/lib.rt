//! Equivalence of two BLIF netlists that stand one after the other in one text, or each in a text of its own: where
//! the first ends, how they compare, and the text of the answer. The crate rests on `blif_core` for reading and on
//! `equiv_core` for the comparison.
//!
//! The theorem is that of `compare_texts`: `equal` is answered only for equivalent netlists, with lines that
//! refute the miter of their nets; `differ` only with values of the sources under which an output or a next state
//! differs, and it is the first that does; `undecided` only with lines that have spent the budget. A text that
//! isn't two netlists of one interface is refused with its first fault. Nothing else is refused, but if memory
//! runs out.
//!
//! ```text
//! let texts = b".inputs a\n..\n.end\n.inputs a\n..\n.end\n";
//! let compared = compare_texts::<Cdcl, Silent>(alloc, texts, 100000, &Silent)?;
//! compared.text // "differ output y\nat 11\n"
//! ```
//!
//! - `specs/Split.antt`: where the first text ends. `specs/Pairs.antt`: the answers and refusals of two texts.
//! - `specs/PairLaws.antt`: a text has an answer or at most one fault.
//! - `specs/Two.antt`, `specs/TwoLaws.antt`: the same for two texts (`compare_two`), and texts without a directive.
#![tactic(auto)]

mod answer;
mod bare;
mod laws;
mod reading;
mod splitting;
mod two;
mod writing;

pub use answer::{CompareError, Compared, ComparedTwo, EquivOutcome};
pub use bare::is_bare;
pub use blif_core::NetError;
pub use laws::pairs_have_an_answer_or_a_fault;
pub use reading::{compare_circuits, compare_texts};
pub use splitting::split;
pub use two::compare_two;
