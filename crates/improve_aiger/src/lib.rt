//! Improvement of AIGER texts (either form). The circuit is improved by `improve_windows` as that of a BLIF or BENCH
//! text, and written in the ASCII form by `aiger_write`: each gate of the improved net is one AND gate with
//! complements, or none.
//!
//! What is proved of `improve_aiger` is what `improve_windows` says of a text, by the format `aiger_forms`: the text
//! that it returns is a well-formed AIGER file with the same outputs and next states under every assignment and no more
//! gates, and it refuses exactly what isn't one. A gate here is what its document counts: an AND gate, or the
//! complement of a variable that an output or a next state is.
//!
//! ```text
//! let improved = improve_aiger::<S, T>(alloc, bytes, settings, tell)?; // over the operators of AND gates
//! ```
#![tactic(auto)]

mod texts;
mod writing;

pub use improve_windows::{ImproveSettings, ImprovedText, NetError};
pub use texts::improve_aiger;
pub use writing::{CostedText, costed_text};
