//! SAT sweeping (fraiging) of two nets: it finds internal equivalences, signals that are equal or complementary
//! under every assignment of the sources. Simulation proposes candidate pairs, and the solver of the nets' miter
//! derives them one by one (Kuehlmann, Krohm, "Equivalence checking using cuts and heaps", 1997; Mishchenko,
//! Chatterjee, Brayton, Eén, "Improvements to combinational equivalence checking", 2006). The derived clauses stay
//! in the solver, so its log refutes the miter in short steps.
//!
//! No answer rests on what a sweep finds. It promises that the solver is still a solver of the same formula, and
//! bounds how many clauses it derives. So candidates may be guesses, limits may be chosen freely and assignments may
//! be random.
//!
//! ```text
//! let mut solver = S::new(alloc, &cnf, budget)?;       // of the miter of the two nets
//! match sweep(alloc, &first, &second, &mut solver, budget / 2, most, &Silent)? {
//!     Swept::Differ(sources) => ..,                    // a sink may differ here: simulate it
//!     Swept::Swept { spent } => ..,                    // solver.finish(alloc, the rest of the budget)
//! }
//! ```
//!
//! - `src/nodes.rt`: the nodes of both nets in one array, by the variables of the miter. `src/cones.rt`: the
//!   decision variables of a question.
//! - `src/patterns.rt`: simulation and signatures. `src/classes.rt`: candidate classes. `src/strash.rt`: structural
//!   hashing over representatives.
//! - `src/queries.rt`: questions to the solver under assumptions. `src/structural.rt`: the first round, over
//!   structurally equal gates. `src/gates.rt`, `src/sinks.rt`, `src/sweeping.rt`: the other rounds.
//!   `src/pairs.rt`: whether two nodes are equal. `src/patience.rt`: conflict limits that adapt to the results so
//!   far.
#![tactic(auto)]

mod classes;
mod cones;
mod gates;
mod nodes;
mod pairs;
mod patience;
mod patterns;
mod queries;
mod random;
mod sinks;
mod state;
mod strash;
mod structural;
mod sweeping;

pub use sweeping::{Swept, sweep};
