//! Conflict-driven clause learning (CDCL) as definitions and laws: literals that become false one after
//! another, reasons, states closed under unit propagation, decision levels, and clauses derived from a
//! conflict by resolution with reasons (Marques-Silva and Sakallah, "GRASP", 1999; Knuth, TAOCP 7.2.2.2). It
//! builds on the definitions of `sat_theory`; the crates of the solver build on it.
//!
//! The central theorem is `laws::unit_clauses_are_new`: no live clause subsumes a clause that is unit in a
//! closed state, however that clause was found. So it holds for every learnt clause, minimised or not,
//! whatever restarts, watches and deletions do.
#![tactic(auto)]

pub mod laws;
