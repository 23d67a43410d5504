//! Sharing of pairs (multi-level extraction of two-input divisors): trees of AND gates, and of XOR gates, are
//! flattened into rows of literals, and while some pair of literals occurs in two rows, the most frequent
//! pair becomes one gate that all of these rows read.
//!
//! The order of a tree's operands doesn't matter, so a row determines its function. This finds what no local
//! change finds, since no single step of it saves a gate: decoders, prefixes, and XOR matrices. Nothing is
//! proved about values: an equivalence check judges the graph afterwards. The graph has no more gates than
//! the old one, and its sources and number of sinks.
//!
//! Rows are short, each pair is counted once, and a pair's gate visits the rows of its rarer literal alone. So a pass
//! takes time in proportion to the number of gates.
//!
//! ```text
//! let shared = share(alloc, &xag)?;
//! ```
#![tactic(auto)]

mod collecting;
mod extraction;
mod kind;
mod pairs;
mod sharing;

pub use sharing::share;
