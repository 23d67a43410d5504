//! Operators of two bits, and bases, which are sets of operators, for all crates that build, read or
//! check chains. The contracts use the definitions of an operator's value (`apply`) and of a basis
//! from `chain_theory`.
//!
//! - An `Op` is an operator, from 0 to 15. `Op::apply` is the operator's value; each function of two
//!   bits is the value of exactly one operator (`laws::operators_are_functions`).
//! - A `Basis` is a set of operators. Its five tests, `swap_closed`, `has_negation`, `const_closed`,
//!   `polarity_closed` and `reapply_closed`, decide which normal forms a search for chains may assume.
//!   Each is true exactly where its definition over functions of two bits holds; a definition that goes
//!   over all operators holds exactly where it holds of each (`laws::every_is_each`).
//! - Operators are applied to words of 64 bits at once (`on_words`, or `combine` with the operator's masks), for
//!   bit-parallel simulation. `input_word` is the word of an input, the truth table of a variable.
//! - `read_basis` reads a basis from a text, and `write_basis` writes it. No basis that is read is
//!   empty; a list gives exactly the operators whose words are its items, and no item comes twice
//!   (`laws::list_is_its_operators`); what is written is read as the same basis
//!   (`laws::written_basis_is_read`).
//!
//! ```text
//! let basis = read_basis(b"0110,1001")?; // XOR and its complement
//! let closed = basis.polarity_closed();  // true
//! ```
#![tactic(auto)]

mod basis;
mod closed;
mod error;
pub mod laws;
mod op;
mod text;
mod values;
mod word;
mod words;

pub use basis::Basis;
pub use error::BasisError;
pub use op::Op;
pub use text::{BENCH, read_basis, write_basis};
pub use values::swapped;
pub use word::{read_operator, write_operator};
pub use words::{Masks, combine, input_word, masks_for, on_words, spread};
