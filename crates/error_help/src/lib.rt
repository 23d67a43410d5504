//! What people read after an error line: the file and the line, what stands there, and what was expected.
//!
//! `expected` is the table: for each fault that a command names, what it expected, with the limit where there is one,
//! and how the place of the fault is found. `explain` makes a line of it, in the form that editors jump to. It reads
//! the error line as programs do, and the text of the input where that is known. Nothing is proved of what it says;
//! it changes nothing, and ends.
//!
//! ```text
//! let first = Input::of(b"adder.blif", Some(&text));
//! let inputs = Inputs { first, second: first, first_format: Subject::Blif, second_format: Subject::Blif };
//! push_explained(&mut line, Subject::Blif, b"error: NotSupported 10 .subckt\n", &inputs)?;
//! // adder.blif:10: .subckt: a netlist of one model without hierarchy is read; yosys: flatten; techmap
//! ```
#![tactic(auto)]

mod chain_faults;
mod expected;
mod explaining;
mod finding;
mod halves;
mod interfaces;
mod looks;
mod naming;
mod net_faults;
mod netlists;
mod other_names;
mod tokens;

pub use expected::{Subject, has_entry, has_step_entry};
pub use explaining::{Input, Inputs, push_explained};
pub use halves::{Halves, halves_of};
