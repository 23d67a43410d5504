//! An incremental line reader: it is fed a text in pieces, which may end anywhere, and hands whole lines to a
//! state machine. It uses `text_core` for the lines of a text.
//!
//! The state machine is a `LineStage`. Three predicates of the trait say what it means: `stands` (this state is
//! the one after the lines so far, given the lines that come next), `refuses` (a text with these lines has this
//! fault) and `gives` (the result of a whole text). `PieceReader` is the one reader for all stages. It keeps the
//! state after the whole lines so far, and the unfinished line after them; so its state depends on the bytes
//! fed, not on where the pieces end. What is proved: a reader represents the text that it was fed (`StandsFor`);
//! a refusal holds for every text that begins with what was fed; and at the end the reader returns the result of
//! the whole text.
//!
//! - `specs/Splits.antt`: a text split into whole lines and an unfinished one.
//! - `specs/Reader.antt`: what a reader promises about the text that it was fed.
//!
//! ```text
//! let reader: PieceReader<Stage> = PieceReader::new(alloc).feed(b"inp")?.feed(b"uts 3\n")?;
//! let end = reader.finish()?;
//! ```
#![tactic(auto)]

mod line;
mod reader;
mod stage;

pub use line::TextLine;
pub use reader::{Closed, PieceReader};
pub use stage::LineStage;
