//! Two small commands for tests of `frame_core`: one reads nothing and reports in parts, the other writes its text in
//! pieces. Each is proved to implement its task (`specs/Small`), so the promise of every command holds for them. The
//! tests run them in memory, with fault injection. For tests of `file_io` and `front_core` there are files in memory,
//! whose calls can be made to fail, and a small program over them.
#![tactic(auto)]

mod echo;
mod files;
mod greeting;
mod laws;
mod lines;

pub use echo::Echo;
pub use files::{MemoryDraft, MemoryFile, MemoryFiles};
pub use greeting::Greeting;
pub use laws::{small_tasks_are_well_formed, truncated_lines_are_prefixes};
pub use lines::Lines;

#[cfg(test)]
mod front;
#[cfg(test)]
mod hearing;
#[cfg(test)]
mod numbering;
#[cfg(test)]
mod tests;
