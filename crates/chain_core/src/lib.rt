//! Boolean chains of bounded size: at most 6 inputs, 16 steps and 8 outputs. `chain_theory` defines
//! what a chain means; the crate uses `op_basis` for operators, `tt_core` for specifications and
//! `text_core` for lines and items of texts.
//!
//! What each call promises:
//!
//! - `value` is the value of a place on a row, as `chain_theory` defines it, and `out_value` that of an
//!   output.
//! - `first_difference` is the least output, and for it the least row, at which a chain misses a
//!   specification, and None exactly where the chain agrees.
//! - `first_outside` is the first place whose operator isn't in a basis, and None exactly where the
//!   chain is over the basis.
//! - `levels` gives the level of each step, one more than the larger level of its operands; `depth_of`
//!   gives the greatest of them, the chain's depth.
//! - `read_chain` reads a chain block from the start of a text exactly where the grammar of
//!   `specs/Block.antt` gives a chain, and else reports the first error with its line. `count_at`,
//!   `step_at`, `add_step` and `out_at` read single lines, for readers that get their text line by line.
//! - `write_chain` appends a chain's one spelling, which `read_chain` reads back
//!   (`laws_of_blocks`); if memory runs out, the text is unchanged.
//!
//! ```text
//! let (chain, used) = read_chain(alloc, b"chain 1\nx3 x1 x2 0110\nout x3\n", 1, 2, 1)?; // XOR
//! let difference = first_difference(&chain, &spec); // None: the chain agrees
//! ```
#![tactic(auto)]

mod chain;
mod difference;
mod error;
mod frame;
mod laws;
mod lines;
mod outside;
mod reading;
mod step;
mod step_levels;
mod values;
mod writing;

pub use chain::Chain;
pub use chain_theory::{MOST_STEPS, Out};
pub use difference::first_difference;
pub use error::ChainError;
pub use frame::Frame;
pub use laws::laws_of_blocks;
pub use lines::{count_at, out_at, step_at};
pub use op_basis::{Basis, Op};
pub use outside::first_outside;
pub use reading::{add_step, read_chain};
pub use step::Step;
pub use step_levels::{depth_of, levels};
pub use values::{out_value, value};
pub use writing::write_chain;
