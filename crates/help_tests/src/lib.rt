//! Tests of what people read: that each fault has a text, lines after error lines, and what is wrong with words.
#![tactic(auto)]

#[cfg(test)]
mod faults;
#[cfg(test)]
mod lines;
#[cfg(test)]
mod words;
