//! The frame that all commands share: reading the input, writing the reply, and the error line.
//!
//! A program has several commands. Each reads one input or none, and writes its answer at once or in pieces.
//! A command is one of three traits: a `Job` says how much it reads and what it does with the bytes; a `Replier`
//! computes its reply or refusal before anything is written, and runs as the job `AtOnce` of it; a `StreamJob`
//! takes its input in pieces. The crate uses `port_io` for sources and sinks.
//!
//! The specification of a command is a value, its task (`specs/Task`): which inputs have which answers and faults,
//! and how each is reported. What is proved, for every command, every source and every sink: `perform` makes a run
//! whose outcome fits the input (`specs/Run`), and if the task is well formed (`IsTask`), the run keeps what
//! every command promises (`specs/Promise`). `specs/PiecesLaws` has the lemmas for text that is written in pieces.
//!
//! ```text
//! let status = perform(alloc, &job, &mut source, &mut out, &mut note);
//! ```
#![tactic(auto)]

mod at_once;
mod performing;
mod replies;
mod reporting;
mod sending;
mod status;
mod streaming;

pub use at_once::{AtOnce, Replier};
pub use performing::{Job, perform, perform_stream};
pub use replies::{RunEnd, ErrorLine, Field, Refusal, Reply, Report, Stop};
pub use reporting::report_error;
pub use sending::finish;
pub use status::Status;
pub use streaming::StreamJob;
