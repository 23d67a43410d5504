//! Tests of netlists that are improved by wishes: the levels before and after, the covers, and
//! netlists over a basis.
#![tactic(auto)]

#[cfg(test)]
mod bases;
#[cfg(test)]
mod covers;
#[cfg(test)]
mod reports;
