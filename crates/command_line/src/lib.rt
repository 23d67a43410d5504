//! The parser of the command line. It is strict: the words are a command and then its options, each as two words,
//! `--name` and a value, each at most once, in any order. Any other list of words is a usage error. The crate uses
//! `settings` for the settings of commands, `op_basis` for the values of `--basis` and `text_core` for numbers.
//!
//! `specs/Options.antt` is the table of options: each row has the name, how the value is read, and the default.
//! Below it is the table of the options that each command takes. A list of words asks for at most one command
//! (`command_of` in `specs/CommandLine.antt`), and `read_words` returns it. A flag (`--least-depth`, `--depth`)
//! has the value `yes` or `no`, and `yes` selects a command of its own, since the search for the fewest levels is
//! another one, with other certificates. `laws` says the same without the program: words are a command if and
//! only if they are its name and pairs of a name and a value, and the order of the pairs doesn't matter.
//!
//! ```text
//! let command = read_words(&words)?;   // of synth --max 3 --basis nand
//! ```
#![tactic(auto)]

mod command;
pub mod laws;
mod pairs;
mod table;
mod words;

pub use command::{Command, Format, GenAction, WordsError};
pub use settings::{ImproveSettings, SynthSettings};
pub use words::read_words;
