//! Tests of the layers of the front over files in memory.
#![tactic(auto)]

#[cfg(test)]
mod files;
#[cfg(test)]
mod layers;
#[cfg(test)]
mod runs;
