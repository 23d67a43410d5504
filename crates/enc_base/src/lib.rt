//! What all encodings of chains share: the trait of encodings, with its two laws; the writer of the clauses
//! that define chains; and the decoder of chains from assignments. The clause lists are defined in
//! `enc_theory`, and what is written here equals them literal by literal.
//!
//! - `Encoding` promises that a formula is exactly its definition, that a decoded chain has the size, is over
//!   the basis, implements the tables and fits its subproblem; and two laws: if a formula of size r is
//!   satisfiable, a chain of r steps over the basis implements the tables (`sound`), and if r is the minimum
//!   size of such a chain, some formula of size r is satisfiable (`complete`).
//! - `Layout::new` gives each step its pairs with their selection variables, in order.
//! - `push_common` writes the clauses that define chains whose steps have pairs. Its families of outputs and
//!   operators, which don't mention pairs, are public for
//! `enc_select` (MSV: multiple selection variables).
//! - `decode` decodes the chain of an assignment, and `with_outs` adds the outputs to steps that were decoded
//!   in another way.
//! - `cuts` tells which symmetry-breaking constraints a basis allows; that they exclude no minimum size is a
//!   law of `chain_laws`.
//!
//! If memory runs out, a call that writes several clauses or pairs may have written some of them; only
//! `ClauseList::push` leaves its list unchanged.
#![tactic(auto)]

mod cut_set;
mod decoding;
mod encoding;
mod families;
mod layout;
mod pairs;
mod values;
mod vars;

pub use cut_set::{CutSet, cuts};
pub use decoding::{bit, decode, operator, with_outs};
pub use enc_theory::Subproblem;
pub use encoding::Encoding;
pub use families::{push_common, push_operators, push_out_exists, push_out_values};
pub use layout::{Layout, StepSlots};
pub use pairs::{AllPairs, Pairs, push_pairs_with};
pub use vars::{f_var, g_var, rows, s_first, sizes, x_is};
