//! The front with the values of two netlists under given bits: `equiv --at BITS FIRST SECOND`.
//!
//! `serve` does it where the words ask for it, and hands all other words to `front_large::serve`. The work is that of
//! `WriteValues` of `cmd_at`, over the texts of the two files, each in its format, which are read one after the other
//! and never joined.
//!
//! What is proved: `IsServed` of `specs/AtRuns.antt`. Such words are no command line of the program (`specs/AtAsked`).
//! The answer has all that `perform` promises for the task `at_task` over the bytes of the files, and `-o FILE` holds
//! the whole answer or what it held before.
//!
//! ```text
//! let status = serve(alloc, &program, formats, &words, &mut outside, &mut source, &mut out, &mut note);
//! ```
#![tactic(auto)]

mod asking;
mod pairing;
mod serving;
mod values;

pub use serving::serve;
