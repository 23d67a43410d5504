//! The program as one function, from the command line and the input to the answer.
//!
//! `run` parses the arguments, reads the source, writes the answer to the output, a report and an error line to
//! the notes, and returns a status. Its contract, for every source and every sink, is one record
//! (`specs/KeepsPromises`). The run has an ending (`specs/Ending`), which fits the bytes of the source and
//! determines the status and everything that was written. It keeps the promise of every run and of every command
//! (`specs/RunPromise`, with the promise of `frame_core`). And each command keeps a promise of its own, the
//! record with its name in the command's crate (`cmd_agree`, `cmd_recheck`, `cmd_synth`, `cmd_improve`,
//! `cmd_equiv`, `cmd_gen`). The frame of commands is in `frame_core`, and the parser of arguments in
//! `command_line`. `run_telling` is `run` with somebody who is told of the progress of `improve`. `run_pair` compares
//! two texts, of which the second one is the source (`specs/Pair`).
//!
//! ```text
//! let status = run(alloc, &words, &mut source, &mut out, &mut note);
//! ```
#![tactic(auto)]

pub mod laws;
mod pairing;
mod running;

pub use frame_core::Status;
pub use pairing::run_pair;
pub use running::{run, run_telling};
