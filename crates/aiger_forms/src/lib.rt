//! AIGER in either form (the AIGER 1.9 report): `read_forms` reads the circuit of an ASCII or a binary text, by its
//! first three bytes. A binary text is read as the ASCII text of the same file (`aiger_binary`), and bad states and
//! constraints as further outputs (`aiger_sections`), so all that `aiger_core` says of circuits and faults holds of
//! these texts too, and the line of a fault is that of the ASCII text.
//! `aiger_forms` in `specs/Forms` is the format.
//!
//! ```text
//! let circuit = read_forms(alloc, b"aig 3 2 0 1 1\n7\n\x02\x02")?; // NAND
//! ```
#![tactic(auto)]

mod laws;
mod reading;

pub use aiger_core::{Circuit, NetError};
pub use laws::forms_are_a_format;
pub use reading::{read_forms, read_forms_up_to};
