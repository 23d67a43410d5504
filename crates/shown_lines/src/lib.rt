//! The lines of an answer without its certificate: the chain and the verdict of `synth`, the result of `equiv`.
//!
//! Where a certificate goes to a file, these lines are what is left to be printed. `ShowLines` is a command for
//! `frame_core` that reads the whole answer in pieces, of which it keeps the shown lines and the unfinished one, and
//! writes the shown lines. `specs/Shown` says which lines these are, and `specs/ShownReport` is the task.
//!
//! ```text
//! let status = perform_stream(alloc, &ShowLines, &mut answer, &mut out, &mut note);
//! ```
#![tactic(auto)]

mod lines;
mod showing;
mod stage;

pub use lines::is_shown;
pub use showing::ShowLines;
pub use stage::ShownStage;
