//! The files of the system as `file_io::Outside`. It passes on what the system's calls do, and contracts don't know
//! what it holds: a name is opened, a draft stands beside its name as `NAME.part.PID` and is renamed to it, and a kill
//! leaves a file of that name. What isn't a plain file, as a device or a pipe, is written in place, and so is a file
//! that is open, by a name as `/dev/fd/3`, if the program was started with it; what a standard stream goes to is
//! written by that stream, whatever its name. A pipe is read once. `Terminal` shows people the progress of a run.
//!
//! ```text
//! let terminal = Terminal::new(&rt);
//! let mut files = SystemFiles::new(&rt, &terminal, OpenAtStart::new(&rt), "");
//! ```
#![tactic(auto)]

mod files;
mod links;
mod names;
mod nodes;
mod numbers;
mod targets;
mod terminal;

pub use files::{SystemDraft, SystemFiles};
pub use numbers::OpenAtStart;
pub use targets::Target;
pub use terminal::Terminal;
