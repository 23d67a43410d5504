//! Reading and writing BLIF netlists (the Berkeley BLIF manual). `read_blif` returns the circuit of a text
//! exactly if the text lists a well-formed document, and else the first fault; `document_of` is the document of a
//! circuit, and `write_document` appends its text. The definitions are those of `net_theory` and `blif_text`.
//!
//! The main theorem: the circuit is equivalent to the document that its text lists, with as many gates as the
//! document costs.
//!
//! ```text
//! let circuit = read_blif(alloc, b".model m\n.inputs a b\n.outputs y\n.names a b y\n11 1\n.end\n")?;
//! write_document(&mut out, &document_of(alloc, &circuit)?)?;
//! ```
#![tactic(auto)]

mod joined;
mod nodes;
mod reading;
mod spelling;
mod tables;
mod written;

pub use net_core::{Circuit, NetError};
pub use reading::{read_blif, read_blif_up_to};
pub use spelling::write_document;
pub use written::document_of;
