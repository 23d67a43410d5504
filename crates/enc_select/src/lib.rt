//! The encoding in which a step selects its first and its second operand separately (MSV, multiple selection
//! variables), with variables for the operands' values (Kojevnikov, Kulikov and Yaroslavtsev 2009). It has
//! fewer variables and clauses than an encoding by pairs. Both laws of `Encoding` hold of it; like that of
//! `enc_ssv::Ssv`, `complete` needs the law of minimum chains.
//!
//! ```text
//! let cnf = Select.formula(alloc, &spec, basis, r, &Subproblem::Whole)?;
//! ```
//!
//! The clauses on outputs and operators are those of `enc_base`, and the constraints that don't mention
//! operands are those of `enc_cuts`.
//!
//! - `chain` writes the clauses that define chains; `descents`, `used`, `trivial` and `no_reapplication` write the
//!   symmetry-breaking constraints.
//! - `decoding` decodes the steps of an assignment, and `vars` numbers the variables.
#![tactic(auto)]

mod chain;
mod decoding;
mod descents;
mod literals;
mod no_reapplication;
mod select;
mod trivial;
mod used;
mod vars;

pub use select::Select;
