//! Bit-parallel simulation of a cone, a part of a net: the values of its gates under all assignments of its
//! leaves, with 64 assignments in a word and four words in a vector. `specs/Cone.antt` defines cones and their
//! values; `specs/Words.antt` defines words and patterns.
//!
//! The main theorem: the words hold exactly the values of the cone, for 0 to 12 leaves, and a mask of patterns has
//! exactly those that occur. Patterns can be restricted to chosen assignments: those at which a further signal
//! is 1, or those that given words select.
#![tactic(auto)]

mod above;
mod checking;
mod choosing;
mod combining;
mod cone;
pub mod laws;
mod leaves;
mod rows;
mod showing;
mod simulation;
mod words;

pub use above::{Index, copy_words, index_of, simulate_above};
pub use choosing::{MOST_SIGNALS, patterns, patterns_on};
pub use cone::{Cone, MOST_LEAVES};
pub use net_theory::{Gate, Sig};
pub use simulation::cone_words;
pub use words::{Words, lanes_of};
