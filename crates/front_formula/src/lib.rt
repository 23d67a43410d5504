//! The front with the formats of other programs, over files: a part of a certificate by `formula`, and the miter of two
//! netlists besides the answer of `equiv`.
//!
//! `formula [--size R] [--part P] [--log FILE] [CERTIFICATE] [-o FILE]` is a command of the front alone. `serve` does
//! it where the first word is `formula`. Both parts of the work are commands of `cmd_formula`: the formula goes to the
//! output, and then the log to its file, for which the certificate is read again.
//!
//! `equiv --formula FILE [--log FILE] FIRST SECOND` runs three commands over two files: that of `cmd_miter` for the
//! miter, the program's comparison for the answer, and where they are equal that of `cmd_miter` for the log. All other
//! words go to `front_core::serve`.
//!
//! What is proved: `IsServed` of `specs/FormulaRuns.antt`. The words of `formula` are no command line of the program.
//! `-o FILE` and `--log FILE` hold the whole text or what they held before, with all that `perform` promises for
//! `formula_task` and `log_task` over the bytes of the certificate; the file of the log is created before anything is
//! read, and written even if the log is empty (`specs/LogEnds`). Words that ask for no part are a usage error. The same
//! holds of the files of `equiv`, with `miter_task` and `miter_log_task` over the bytes of the netlists, and what the
//! program promises of a comparison.
//!
//! ```text
//! let status = serve(alloc, &program, &words, &mut outside, &mut source, &mut out, &mut note);
//! ```
#![tactic(auto)]

mod accompanying;
mod asking;
mod fitting;
mod logging;
mod mitering;
mod miters;
mod picking;
mod serving;
mod tasks;

pub use serving::serve;
