//! Substitution of a chain for a window of a net. What the net becomes is said in `window_theory` (`after_substitution`
//! and `IsSubstitution`): first come the window's inputs with their transitive fanin, then the chain's steps, and
//! then all other nodes outside the window. The inputs of a window don't depend on its gates, so in this
//! order each gate comes after its fanins.
//!
//! - `rebuild_substituted` substitutes any chain with as many inputs and outputs as the window has. The sinks get the
//!   values that the net gives when the window's outputs have the values of the chain's outputs.
//! - `substitute_keeping` does so where the sinks keep their values; `replace_keeping` then removes the
//!   dangling gates, too.
//! - `substitute` does so with a chain that implements the window's specification.
//!
//! `are_apart` tells whether nodes may be inputs of a window, also those that its gates don't read: then the
//! chain may compute the outputs from them too.
//!
//! The window comes as its three lists of nodes. Its root and its partner don't matter
//! (`laws::roots_do_not_matter`).
//!
//! ```text
//! let window = WindowLists { gates: &[3, 4], inputs: &[1, 2], outputs: &[4] };
//! let shorter = substitute(alloc, &net, &window, &chain)?; // NOT of NAND becomes AND
//! ```
#![tactic(auto)]

pub mod laws;
mod lists;
mod marks;
mod rebuilding;
mod replacing;
mod steps;
mod substitution;

pub use chain_core::Chain;
pub use lists::WindowLists;
pub use marks::are_apart;
pub use net_core::Net;
pub use rebuilding::rebuild_substituted;
pub use replacing::replace_keeping;
pub use substitution::{substitute, substitute_keeping};
