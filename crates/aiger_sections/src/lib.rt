//! Bad states and invariant constraints of AIGER files (the AIGER 1.9 report), the counts B and C of the header. A
//! text with them stands for its plain text, in which they are further outputs, after the outputs: `plain_text` makes
//! it, and a reader of plain texts then reads it, each fault in the line where it is. `sectioned` puts the outputs of a
//! plain text back into the sections of another text. The definition is `plain_of` in `specs/Plain`.
//!
//! ```text
//! let text = plain_text(alloc, b"aag 1 1 0 0 0 1\n2\n3\nb0 p\n")?; // "aag 1 1 0 1 0\n2\n3\no0 p\n"
//! ```
#![tactic(auto)]

mod header;
mod lines;
mod sectioning;
mod symbols;
mod texts;

pub use header::Sections;
pub use sectioning::sectioned;
pub use texts::{plain_text, same_sections, sections};
