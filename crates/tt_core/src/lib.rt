//! Specifications by truth tables, and the reader of their texts.
//!
//! `chain_theory` defines specifications, cells and outs, and `text_core` the lines and numbers of
//! texts.
//!
//! A `Spec` holds the truth tables of up to eight outputs over at most six inputs, with
//! don't-cares. Contracts see it as the specification that chains have to implement; `row` reads a
//! cell. `read_tables` reads a text of tables. Its theorem: the text spells what is read, character
//! by character; every text that spells a specification is read as it; and a text is refused exactly
//! where the grammar of tables finds an error, with the first one. `inputs`, `are_cells` and
//! `push_row` read single lines, for readers that get their text line by line. `symmetric` decides
//! whether two inputs are symmetric variables, `trivial` gives the first of 0, 1, x1, .., xn that
//! implements an output, and `live_spec` keeps the outputs that have no such out. `laws`
//! characterises the definitions without recursion.
//!
//! ```text
//! let tables = read_tables(alloc, b"inputs 2\n0110\n0-11\n")?; // XOR, and a table that x1 meets
//! let cell = row(&tables.spec, 1, 3);                          // Cell::Zero
//! let same = symmetric(&tables.spec, 1, 2);                    // false: the second table's rows 1, 2
//! let out = trivial(&tables.spec, 2);                          // Some(Out::Place(1))
//! let live = live_spec(alloc, &tables.spec)?;                  // XOR alone
//! ```
#![tactic(auto)]

mod cells;
mod error;
pub mod laws;
mod live;
mod reading;
mod spec;
mod symmetry;

pub use cells::are_cells;
pub use chain_theory::{Cell, Out};
pub use error::SpecError;
pub use live::{live_spec, trivial};
pub use reading::{Tables, inputs, push_row, read_tables};
pub use spec::{MOST_INPUTS, MOST_OUTPUTS, Spec, row};
pub use symmetry::symmetric;
