//! The interface of SAT solvers: the trait `Solver` and its answers. Synthesis, resynthesis of windows and
//! equivalence checking are generic in it, so a change of the solver leaves their proofs alone. It depends on
//! `cnf_core` for formulas, on `log_core` for logs and on `sat_theory` for what an answer means.
//!
//! Callers may rely on the contracts of `Solver::finish` and `Solver::solve` alone: Sat comes only with an
//! assignment that satisfies the formula, Unsat only with a log that refutes it, and Open only with a log
//! that holds and has reached the budget of additions, none of which a live clause subsumed. Calls under
//! assumptions before that add lines to the log; their results are hints.
//!
//! ```text
//! match S::solve(alloc, &cnf, 100000)? {
//!     Solved::Sat(assign) => ..,   // satisfied(&cnf, &assign)
//!     Solved::Unsat(log) => ..,    // it adds the empty clause, unless the formula has it
//!     Solved::Open(log) => ..,     // at least 100000 additions, each unsubsumed when added
//! }
//!
//! let mut solver = S::new(alloc, &cnf, 100000)?;
//! solver.solve_assuming(&[x, y.opposite()], cones, 20)?   // Unsat: x implies y, as far as was learnt
//! solver.finish(alloc, 100000)?                           // as `solve`, with all that was learnt
//! ```
#![tactic(auto)]

mod solver;

pub use solver::{AssumptionResult, Cones, Solved, Solver};
