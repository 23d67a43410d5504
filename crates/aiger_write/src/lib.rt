//! Writing the circuit of a net in AIGER: `write_aiger` appends the ASCII text of the file of a circuit (`file_of` of
//! `aiger_core`). The gates of the net become AND gates, and a complement is a literal that costs none.
//!
//! The main theorem (`aiger_laws`): the text lists a well-formed document that is equivalent to the circuit and costs
//! at most as many gates as the circuit has.
#![tactic(auto)]

mod gates;
mod literals;
mod ports;
mod writing;

pub use writing::{aiger_file, write_aiger};
