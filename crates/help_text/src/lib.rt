//! What people read who ask for help: pages on the program, its commands and its formats, what is wrong with words
//! that are no command line, completions for shells, and the manual page.
//!
//! All of it is made of one table, `options`, which has for each command its options, the values that each takes, its
//! default and a line on what it means; ranges and defaults are the constants of `settings`. A page is a text in
//! memory: to make one changes nothing, and ends. Nothing is proved of what a page says.
//!
//! ```text
//! let page = asked_page(alloc, &words)?;   // of `help synth`: Some(b"batsokemi synth [OPTION VALUE].. [TABLES]\n..")
//! push_wrong_words(&mut text, &words)?;    // of `synth --max 99`: --max takes a number from 0 to 16, and not '99'
//! ```
#![tactic(auto)]

mod asking;
mod clashes;
mod commands;
mod completing;
mod listing;
mod manual;
mod options;
mod pages;
mod pen;
mod phrases;
mod topics;
mod values;
mod wrong;

pub use asking::asked_page;
pub use pen::{Part, push_parts, push_quoted};
pub use wrong::push_wrong_words;
