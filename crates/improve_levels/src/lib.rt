//! Improvement of netlists whose levels are limited: fewer gates, and no more levels than a number, or than there were.
//!
//! The passes are the moves over the whole net of `improve_windows`, with the same work, under the limit
//! (`restructure`). Windows aren't resynthesized, since a chain of fewer gates may have more levels.
//!
//! What is proved of `improve_net_within`: the net implements the given one, each gate is in the transitive fanin of a
//! sink and has an operator of the basis or of the given net, and it has at most `most` levels, or at most those of the
//! given net (`IsWithin`). Of `improve_within`: the circuit with such a net is equivalent to the given one, and its
//! text costs no more (`IsBetterWithin`).
//!
//! ```text
//! improve_within::<S, T>(alloc, circuit, settings, 0, &Silent)? // no more levels than before
//! ```
#![tactic(auto)]

mod circuits;
mod searching;

pub use circuits::{ImprovedWithin, improve_within};
pub use searching::improve_net_within;
