//! The formats of netlists that words of the front ask for, beyond those of `command_line`: AIGER for `improve`, and
//! any format for each of the two files of `equiv`, which `--match names` compares by names.
//!
//! A format is named by `--format aiger`, or by the end of a file's name (`.aag`, `.aig`, `.bench`). `read_formats`
//! says what is asked (`specs/FormatsAsked.antt`), and which words mean the same to a program that knows no such
//! format: `--format` and `--match names` are left out, and `improve` of AIGER gets `--format blif`, so that the name
//! of its file has no say, and the basis `u2` if none is named.
//!
//! ```text
//! let found = read_formats(alloc, &words)?; // of improve a.aag --cap 4
//! found.asked     // ImproveAiger
//! found.words     // improve --cap 4 --format blif --basis u2 -- a.aag
//! ```
#![tactic(auto)]

mod asking;
mod reading;
mod rebuilding;

pub use asking::{FormatsAsked, is_word, wants_aiger, word_after};
pub use format_names::{FormatPair, NetFormat};
pub use reading::{FormatWords, read_formats};
pub use rebuilding::{push_basis, push_word, push_words};
