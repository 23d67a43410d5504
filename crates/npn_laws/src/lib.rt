//! The exchange cut with complements: of two inputs whose exchange, with some inputs complemented, keeps the tables up
//! to a complement of all outputs (an NPN symmetry), the later one is read without the earlier one only after the
//! earlier one was read without the later one. Over a basis closed under complements some least chain meets it for all
//! such inputs at once, beside the normal form of `chain_laws`. This crate has no code: `laws` states the laws.
//!
//! The argument is that of `chain_laws`, with one more transformation. If a chain violates the cut, the two inputs are
//! exchanged in its pairs, and operators are adapted to the complements of inputs and outputs. So pairs move as in a
//! bare exchange, and the list of keys decreases. Once no rule of pairs is violated, operands are put in order and
//! steps are made normal (0 on row 0); both keep the pairs, and so the cut.
//!
//! - `specs/Exchange.antt`: when two inputs may be exchanged. `specs/Transformed.antt`: the chain exchanged.
//! - `specs/Descent.antt`: the keys decrease. `specs/Least.antt`: the cut, and the laws, for fences too.
#![tactic(auto)]

pub mod laws;
