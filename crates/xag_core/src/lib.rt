//! XOR-AND graphs (XAGs), as logic optimizers use them: gates are AND or XOR, and edges may be complemented.
//! A literal is 2 * node + 1 where it complements its node, and 2 * node otherwise; node 0 is the constant 0,
//! then come the sources and then the gates.
//!
//! The crates above search for smaller graphs and prove nothing about their values: an equivalence check
//! judges each graph that they find (`move_check`). What is proved here is that every graph is one (operands
//! are below their gate), that calls end, and that a rebuilt graph has the sources and the number of sinks
//! that it had.
//!
//! `from_net` and `into_net` translate nets into graphs and back (`src/net_in.rt`, `src/net_out.rt`). The net has the
//! sources and the number of sinks of the graph.
//!
//! ```text
//! let mut builder = Builder::new(alloc, 2, 1)?;
//! let both = builder.gate(2, 4, false)?; // the literals of the two sources
//! let xag = builder.finish(alloc, &[both])?;
//! let other = rebuild(alloc, &xag, &substitution)?; // None where a substitution makes a cycle
//! ```
#![tactic(auto)]

mod builder;
mod net_builder;
mod net_in;
mod net_out;
mod substitution;
mod traversal;
mod words;
mod xag;

pub use builder::Builder;
pub use net_builder::NetBuilder;
pub use net_in::from_net;
pub use net_out::{into_net, operator};
pub use substitution::{NONE, Substitution};
pub use traversal::rebuild;
pub use words::{complement_mask, put_word, word_at};
pub use xag::{Xag, XagGate};
