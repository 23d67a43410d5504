//! Tests of the program on memory: what words ask for, what each command answers, and one table of hostile cases:
//! every read, every write and every note failing in its turn, limits at their values and one past them; chains of
//! the fewest levels, and certificates of windows that stay undecided.
#![tactic(auto)]

#[cfg(test)]
mod commands;
#[cfg(test)]
mod depths;
#[cfg(test)]
mod faults;
#[cfg(test)]
mod limits;
#[cfg(test)]
mod lines;
#[cfg(test)]
mod running;
#[cfg(test)]
mod undecided;
