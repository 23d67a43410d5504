//! Command lines that name files. Beside the words of a command they have operands, which are files to read, `-o FILE`
//! and `--certificate FILE`: `synth --max 3 tables -o answer`.
//!
//! `read_line` sorts the words: what is left without files is a command line as `command_line` reads it, which it
//! doesn't check. Options are pairs of a name that begins with `-` and a value; `--` ends them; any other word is an
//! operand, and so is `-`. `specs/Sorting.antt` says the same, word by word. Where the file of `improve` ends with
//! `.bench` and no format is named, the words get `--format bench` (`specs/Formats.antt`).
//!
//! ```text
//! let line = read_line(alloc, &words)?;   // of improve in.blif --cap 4 -o out.blif
//! line.words      // improve --cap 4
//! line.operands   // in.blif
//! line.output     // out.blif; as line.certificate, of --certificate
//! ```
#![tactic(auto)]

mod formats;
mod line;
mod sorting;

pub use formats::ends_with;
pub use line::{FileLine, Next};
pub use sorting::{is_same, is_standard, read_line};
