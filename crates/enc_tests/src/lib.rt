//! Tests of the encodings through their public functions: how clauses are written, the formulas of each method
//! (compared with those of another program, and small ones literal by literal), the chains that solutions
//! spell, the subproblems of a size, and the levels of chains.
#![tactic(auto)]

#[cfg(test)]
mod chains;
#[cfg(test)]
mod clauses;
#[cfg(test)]
mod fences;
#[cfg(test)]
mod formulas;
#[cfg(test)]
mod literals;
#[cfg(test)]
mod strong;
