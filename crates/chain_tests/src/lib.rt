//! Tests of the crates from `port_io` and `text_core` to `chain_bound`: input and output errors in
//! mid-stream, lines, words and numbers of texts, operators and bases, truth tables and their lower
//! bounds, chain blocks, least chains of few steps, and the nets and chains that walks find.
#![tactic(auto)]

#[cfg(test)]
mod blocks;
#[cfg(test)]
mod bounds;
#[cfg(test)]
mod operators;
#[cfg(test)]
mod plain;
#[cfg(test)]
mod ports;
#[cfg(test)]
mod steps;
#[cfg(test)]
mod tables;
#[cfg(test)]
mod texts;
#[cfg(test)]
mod walks;
