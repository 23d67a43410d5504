//! The front with questions that are too large for one run of the program: a part of a search, and a certificate of
//! more bytes than the program reads.
//!
//! `synth --size R [--part P] [options of synth] [TABLES] [-o FILE]` writes what stands in a certificate for a part,
//! and `recheck --most-bytes N [--depth yes] [CERTIFICATE] [-o FILE]` reads up to N bytes. `serve` does these, and
//! hands all other words to `front_formula::serve`. The work is that of commands of `cmd_part` and `cmd_recheck`.
//!
//! What is proved: `IsServed` of `specs/LargeRuns.antt`. Such words are no command line of the program; without the
//! three options they would be one (`specs/LargeWords`). The answer has all that `perform` promises for the tasks
//! `part_task`, `long_task` and `long_depth_task` over the bytes of the file, and `-o FILE` holds the whole answer or
//! what it held before.
//!
//! ```text
//! let status = serve(alloc, &program, &words, &mut outside, &mut source, &mut out, &mut note);
//! ```
#![tactic(auto)]

mod asking;
mod bytes;
mod large;
mod serving;
mod tasks;
mod words;

pub use large::Large;
pub use serving::serve;
pub use words::large_in;
