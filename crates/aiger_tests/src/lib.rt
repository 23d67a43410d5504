//! Tests of the AIGER crates: faults with their lines, texts that are cut off, in either form, the names and tables of
//! documents, the symbols that are written, and bad states and constraints.
#![tactic(auto)]

#[cfg(test)]
mod binaries;
#[cfg(test)]
mod faults;
#[cfg(test)]
mod listings;
#[cfg(test)]
mod sections;
#[cfg(test)]
mod written;
