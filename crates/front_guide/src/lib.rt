//! The front with help for people: pages for those who ask, and a line after each error line.
//!
//! `guide` prints a page where words ask for one that are no command line. All other words it hands to `serve` of
//! `front_at`, and where that ends without an answer, one more line goes to the notes: what is wrong with the
//! words, or where the fault is in the input, what stands there and what was expected (`help_text`, `error_help`). For
//! this line the source and the notes remember what went through them, a file that was named is read again, and the
//! program says what its `improve` reads.
//!
//! What is proved, for each program: `IsGuided` of `specs/Guided.antt`. Up to the line for people the run is one of
//! that `serve`, with its promise; where there is an answer, nothing comes after it. What pages and lines say is not
//! proved.
//!
//! ```text
//! let status = guide(alloc, &program, formats, &words, &mut outside, &mut source, &mut out, &mut note, &reader);
//! ```
#![tactic(auto)]

mod explaining;
mod guiding;
mod remarks;
mod remembering;
mod subjects;

pub use explaining::Rereads;
pub use guiding::{guide, hint_of_netlist};
pub use remembering::{Recalls, Remembering, Retelling, Retells};
pub use subjects::Improves;
