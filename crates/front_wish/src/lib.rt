//! The front for `improve` by wishes: `--only`, `--levels` and `--covers`, and AIGER in the form that the name of `-o`
//! ends with.
//!
//! `wish_line` reads what words wish (`wish_words`), and `serve_wish` runs the command `ImproveWished` of `cmd_wishes`
//! over the file that they name. What is proved: `wish_line` is `wish_of` of `specs/AskedWishes.antt`, and the run is
//! `IsWishServed` of `specs/WishRuns.antt`, with all that commands promise.
//!
//! ```text
//! if let Some(wish) = &wish_line(alloc, &words)? { .. serve_wish(alloc, wish, ..) .. }
//! ```
#![tactic(auto)]

mod asking;
mod serving;
mod wishing;

pub use asking::{WishLine, wish_line};
pub use serving::serve_wish;
