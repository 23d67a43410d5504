//! Tests of refutations and of the solver. Of `sat_theory`, `lrat_text` and `lrat_check`: lines of logs as texts, the
//! checker, and `plain`, which computes the definitions. Of `cnf_core` and the crates from `cdcl_theory` to
//! `cdcl_core`: satisfaction of formulas, the parts of the solver, and the solver on formulas of increasing
//! difficulty, with each of its logs checked. `building` makes formulas.
#![tactic(auto)]

#[cfg(test)]
mod assuming;
pub mod building;
#[cfg(test)]
mod checking;
#[cfg(test)]
mod databases;
#[cfg(test)]
mod formulas;
#[cfg(test)]
mod heaps;
#[cfg(test)]
mod lines;
#[cfg(test)]
mod pigeons;
#[cfg(test)]
mod plain;
#[cfg(test)]
mod solving;
#[cfg(test)]
mod subsuming;
#[cfg(test)]
mod trails;
