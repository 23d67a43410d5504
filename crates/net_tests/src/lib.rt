//! Tests of the public functions of the netlist crates, from `graph_core` to `bench_core` and `gen_core`: values
//! computed from the definitions, topological orders, decomposition of tables, cleanup of dangling gates, the
//! lines of BLIF and BENCH texts, reading and writing whole netlists, the first blocks of the generator, and the
//! gates that conversion to XAGs and sharing of pairs leave.
#![tactic(auto)]

#[cfg(test)]
mod circuits;
#[cfg(test)]
mod gate_lines;
#[cfg(test)]
mod generating;
#[cfg(test)]
mod graphs;
#[cfg(test)]
mod listing;
#[cfg(test)]
mod nets;
#[cfg(test)]
mod plain;
#[cfg(test)]
mod refusals;
#[cfg(test)]
mod sharing;
#[cfg(test)]
mod tables;
#[cfg(test)]
mod xags;
