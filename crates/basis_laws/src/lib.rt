//! What is written of a circuit over a basis is over the basis, as a document (`net_basis`, `specs/DocumentOver`): in BLIF
//! with either covers, and in BENCH.
//!
//! The lemmas are in `specs/WrittenOver.antt`. A gate with equal or constant operands is written as a constant, a copy or
//! NOT, and each such NOT is one that the gate's own operator makes.
#![tactic(auto)]
