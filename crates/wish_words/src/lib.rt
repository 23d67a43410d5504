//! What the words of `improve` wish of the netlist that it writes: `--only` for the operators of the basis and no
//! others, `--levels` for how many levels it may have, `--covers` for the rows of the tables of BLIF, and the end of
//! the name of `-o` for the form of AIGER.
//!
//! `read_wishes` says it of a line (`specs/WishWords.antt`), with the words that mean the same to a program that knows
//! no wishes.
//!
//! ```text
//! let found = read_wishes(alloc, &line)?; // of improve --levels tell --cap 4 a.aag
//! found.wishes    // the levels are told
//! found.words     // improve --cap 4 --basis u2
//! ```
#![tactic(auto)]

mod reading;
mod stripping;
mod values;

pub use reading::{WishedWords, read_wishes};
pub use wish_names::{CoversAsked, FormAsked, LevelsAsked, Wishes};
