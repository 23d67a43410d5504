//! Parsed netlists (syntax trees), common to all formats, the errors that are found after parsing, and the lexical
//! rules that the formats share. The semantics of a document is defined in `net_theory`. The `specs/` of this crate
//! add the order in which a text drives and reads names, the errors that depend on it, and formats as values: what a
//! text lists, how a circuit is written, and what relates the two.
//!
//! - `src/document.rt`, `src/names.rt`: documents, and their names as lists.
//! - `src/contents.rt`: a line without its CR, its comment and the blanks at its end.
//! - `src/name_bytes.rt`: which bytes are a name, and the limits of lines and words.
//!
//! ```text
//! // .inputs a b      .names a b y
//! //                  11 1
//! Document { inputs: [a, b], tables: [Table { inputs: [a, b], output: y, body }], .. }
//! ```
#![tactic(auto)]

mod contents;
mod document;
mod laws;
mod name_bytes;
mod names;

pub use contents::{content_of, is_blank, without_last};
pub use document::{Document, LatchLine, Listed, Table};
pub use laws::{
    documents_of_equivalent_circuits_are_equivalent, laws_of_counts, laws_of_refusals,
    netlists_are_read,
};
pub use name_bytes::{is_long_line, is_long_word, is_name};
pub use names::add_copies;
pub use net_core::{Body, Connective, Cover, Cube, Latch, Name, NetError, Trigger, Whole};
