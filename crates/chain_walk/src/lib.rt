//! A walk over small nets of two-input gates, for whole specifications of a few inputs and for windows of a netlist.
//!
//! A move takes a random gate and finds by complementing it in which rows the outputs show it (its exact don't-cares).
//! Then a constant, another signal, another gate or two new gates replace it, if they have its values in these rows and
//! the net gets no larger; sometimes it may grow by one gate. Any set of two-input operators is a basis, any rows
//! serve, and rows of an output may be free.
//!
//! This is a search, and nothing is promised of what it finds but that it ends: the caller checks the net. The work is
//! counted, so that a run is the same on each machine.
//!
//! ```text
//! let mut walk = Walk::new(alloc, basis.get(), OutputComplements::Counted, care, 1)?;
//! walk.start(&net)?;
//! walk.run(Limits { moves: 600, patience: 600, enough: 0, work: 1_000_000 })?;
//! walk.net()
//! ```
#![tactic(auto)]

mod bounding;
mod change;
mod choices;
mod cone;
mod divisors;
mod matching;
mod mffc;
mod operator;
mod pairs;
mod parameters;
mod rebuilding;
mod required;
mod row_sets;
mod small_net;
mod starting;
mod strash;
mod sweeping;
mod walk;

pub use bounding::{Bound, search_net};
pub use choices::Choices;
pub use operator::{AND, Operator, XOR};
pub use small_net::{Gate, NONE, SmallNet, literal_of, word_at};
pub use starting::Tables;
pub use strash::{create_gate, uncomplemented};
pub use sweeping::{OutputComplements, cost_of};
pub use walk::{Limits, Walk};
