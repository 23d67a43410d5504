//! Combinational equivalence checking (CEC) of two circuits. Their miter, which `equiv_theory` defines, is written
//! clause by clause and given to the solver `S`, any of the trait of `sat_solve`. SAT sweeping (`sat_sweep`)
//! has the solver derive internal equivalences first, so that the refutation is short.
//!
//! The theorem is that of `equiv`: two circuits of one interface are equal only with a log that refutes their
//! miter, which anybody can check, and then they have the same values under every assignment; they differ only at
//! values of the sources under which a sink differs, and it is the first that does; and they are undecided only
//! with a log that has spent the budget, which bounds each log from above too. `miter` is exactly the formula of the
//! definition.
//!
//! ```text
//! match equiv::<Cdcl, Silent>(alloc, &first, &second, 100000, &Silent)? {
//!     EquivResult::Equal(log) => ..,           // refutes `miter(alloc, &first, &second)?`
//!     EquivResult::Differ { sink, at } => ..,  // sink 1 is the first output
//!     EquivResult::Undecided(log) => ..,
//! }
//! ```
//!
//! - `src/miter_rows.rt`, `src/mitering.rt`: the clauses. `src/interface.rt`: whether two circuits have one interface.
//! - `src/values.rt`: where two nets differ. `src/comparing.rt`: the three answers. `src/nets.rt`: the answer for
//!   nets, without a log. `src/exhaustive.rt`: nets with few sources, compared exhaustively.
#![tactic(auto)]

mod answer;
mod comparing;
mod exhaustive;
mod interface;
mod miter_rows;
mod mitering;
mod nets;
mod numbering;
mod values;

pub use answer::{EquivError, EquivResult};
pub use comparing::equiv;
pub use mitering::miter;
pub use nets::equal_nets;
