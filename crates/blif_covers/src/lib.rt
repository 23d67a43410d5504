//! BLIF with the least covers: each table whose rows with 1 are three of four is given by its one row with 0. The writer
//! of `blif_core` lists the rows with 1, so OR has three rows, of which readers of other programs make three ANDs. Here
//! it is `00 0`.
//!
//! What is proved: such a text is read back as a document that is equivalent to the circuit, with the same cost
//! (`least_is_a_format`). The definitions are in `specs/Least`.
//!
//! ```text
//! let document = document_of(alloc, &circuit)?;
//! write_least(&mut text, document)?; // .names a b y / 00 0
//! ```
#![tactic(auto)]

mod covers;
mod documents;
mod laws;

pub use documents::{least_document, write_least};
pub use laws::{least_circuits_cost_the_same, least_documents_do_the_same, least_is_a_format};
