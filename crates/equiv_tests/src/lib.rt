//! Tests of the crates that compare netlists: where the first of two texts ends, the answers for two netlists and
//! the miter of two nets, the nodes that SAT sweeping merges, and the refusals.
#![tactic(auto)]

#[cfg(test)]
mod circuits;
#[cfg(test)]
mod sweeping;
#[cfg(test)]
mod texts;
