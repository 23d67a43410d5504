//! Conflict analysis: the clause that a solver learns from a conflict, at the first unique implication point
//! (first UIP) of the conflict's level, and the hints by which a checker accepts it. It builds on the
//! definitions of `cdcl_theory`, the trail and the clause database. The table in `cdcl_core` relates the
//! names to those of MiniSat and CaDiCaL.
//!
//! The analysis marks the literals of the falsified clause and goes back over the trail. It resolves each
//! marked literal of the level with its reason until one of the level is left. Then it removes literals below
//! the level that reasons imply from others of the clause, over any number of steps (Sörensson and Biere,
//! "Minimizing learned clauses", 2009). A first search guesses which these are; each is then resolved away by
//! the same step as those of the level, with its hint, so a wrong guess costs length and never soundness.
//! Last, for each binary clause of the asserting literal and a literal l, the literal not l is removed from the
//! learnt clause (as Glucose by Audemard and Simon does for short clauses). The
//! time is linear in the literals of the level, in those of the reasons read, and in the length of one watch
//! list. The marks are cleared in time linear in their number. The recorded id tells what implied a literal:
//! a decision has 0, any other a live clause (`IsExplained`), so no look-up is needed.
//!
//! ```text
//! let learnt = analysis.learn(alloc, &trail, &clauses, conflict, start)?;
//! // learnt.lits begins with the literal of the level, learnt.back tells how far to jump back
//! let hints = analysis.refute(alloc, &trail, &clauses, conflict)?; // of the empty clause
//! ```
#![tactic(auto)]

mod analysis;
mod learnt;
mod marks;
mod redundancy;
mod resolution;

pub use analysis::Analysis;
pub use learnt::Learnt;
