//! Files by their names: the trait `Outside`, and outputs that are kept whole or not at all.
//!
//! A program that opens files by name does it through this trait, so contracts can say which bytes it read, what each
//! name holds at the end, and which calls failed. An output is a draft, which is created beside its name before any
//! work, and written as the answer comes. `settle` ends it: the draft of an answer takes the name's place in one step,
//! and any other is discarded, so that the name holds a whole answer or what it held before. `report_fault` writes the
//! line of a call that failed, with the name and the system's reason. `write_output` does some work, a value with the
//! trait `Work`, whose output may be named, and `Reading` is work whose input may be named.
//!
//! What the system does with files no proof says: over it (`Unknown`) the clauses speak of the calls alone. Over names
//! whose bytes are known they speak of these.
//!
//! ```text
//! let reading = Reading { input: Some("in.blif"), work: &work };
//! let status = write_output(alloc, &reading, Some("out.blif"), &mut outside, &mut source, &mut out, &mut note);
//! ```
#![tactic(auto)]

mod calls;
mod outside;
mod reporting;
mod serving;
mod settling;

pub use calls::Call;
pub use outside::{Outside, Reason};
pub use reporting::report_fault;
pub use serving::{Reading, Work, read_input, write_output};
pub use settling::{is_answer, settle};
