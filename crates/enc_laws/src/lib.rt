//! What the encodings' clauses mean: an assignment that satisfies the formula of a size spells a chain of that
//! size over the basis that implements the truth tables; a chain that implements them gives an assignment that
//! satisfies the plain formula, and with symmetry-breaking constraints some minimum chain does. This crate has
//! no code: `laws` states the laws, `specs/` has lemmas about the definitions of `enc_theory`, and the encoding
//! crates prove their contracts by them.
//!
//! `Holds` of `clause_core` evaluates written clauses and comprehensions. `Solves` turns the clauses that
//! define chains into properties of an assignment, in both directions. `Sound` and `Decoded` lead from these
//! properties to the chain that an assignment spells, `Built` and `Complete` from a chain to its assignment,
//! whatever pairs the steps may have. `Live` connects the live outputs' tables with the whole ones. `Cuts` and
//! `CutClauses` prove the symmetry-breaking constraints for a chain in normal form, `OwnCuts` those without
//! operands; `ByPairs` has what encodings by pairs share, `Laws`, `Ssv` and `Fence` the laws of these
//! encodings, `FenceLaws` and `WholeLaws` those of the subproblems of a size.
//!
//! For MSV, `SelectVars` numbers the variables, `Chooses` has the properties, `ChosenSteps` the chain that is
//! spelled, `ChosenBits` the assignment of a chain, `ChosenCuts` and `ChosenClauses` the constraints, and
//! `Select` the laws. What it shares with the encodings by pairs (outputs, operators, the variables of both,
//! and from spelled steps to a chain) is in the files above.
#![tactic(auto)]

pub mod laws;
