//! The front of a program: command lines that may name files, over a program that reads one source and writes one
//! sink.
//!
//! The program is a value with the trait `Program`: what it does with words, a source and two sinks, and what it
//! promises of that. Over a file that is named it may promise something else than over any other source. `serve`
//! reads words that may name files (`file_words`), opens and creates these (`file_io`), and runs the program over
//! them, with the words without files. Words that the program reads as they are it passes on.
//!
//! What is proved, for each program, each source and sink and all files: `IsEnding` of `specs/Front.antt`. Words that
//! are a command line as they are mean to the byte what they mean to the program. Words that name files are that
//! program's run over the bytes of the file, and a named output holds the whole answer, or what it held before. With
//! `--certificate FILE` the whole answer goes to FILE, and its own lines (`shown_lines`) to the output. Outputs are
//! created before anything is read. Two files of `equiv` are compared as two texts, which are never joined. Any other
//! words are a usage error.
//!
//! ```text
//! let status = serve(alloc, &program, &words, &mut outside, &mut source, &mut out, &mut note);
//! ```
#![tactic(auto)]

mod asking;
mod certifying;
mod pairing;
mod program;
mod serving;

pub use asking::{fits, input_of, is_apart, output_of, pair_budget, second_of};
pub use pairing::Pairing;
pub use program::Program;
pub use serving::{report_memory, report_usage, serve, serve_outputs};
