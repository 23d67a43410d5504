//! Generates a test netlist of any size: blocks of three kinds in turn, each with redundant gates. It builds on
//! `blif_core` for the text.
//!
//! The main theorem is the contract of `generate`: it appends exactly the BLIF text of the netlist that
//! `specs/Generated.antt` defines. The laws (`laws`) say that this text is a well-formed netlist within the limits.
//!
//! ```text
//! generate(1, &mut out)?; // .model gen, .inputs a0 b0, .outputs y0, three tables, .end
//! ```
#![tactic(auto)]

mod blocks;
mod generating;
pub mod laws;

pub use generating::generate;
