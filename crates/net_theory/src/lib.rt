//! The semantics of netlists: nets (logic networks) and the values of their nodes, covers (SOPs), documents
//! (parsed netlists) and the valuations that satisfy their tables, the decomposition of tables into
//! two-input gates and its cost, circuits (nets with names), and dangling gates. The contracts of all
//! readers and writers of netlists use the definitions in this crate's `specs/`; `specs/Net.antt` has
//! a glossary with the terms of ABC and mockturtle. A table is defined by its cubes alone; that its gates
//! compute it is a theorem.
//!
//! Documents and covers follow the Berkeley BLIF manual. The decomposition of tables and their cost
//! are this program's own choice (`specs/Expansion.antt`, `specs/Cost.antt`).
//!
//! The main theorem, in `laws`: every well-formed document has an equivalent circuit with as many gates as
//! the document costs. `plain` evaluates the definitions directly:
//! `plain::matches_bits(b"1-0", &[true, false, false])` is true.
#![tactic(auto)]

mod data;
pub mod laws;
mod limits;
pub mod plain;

pub use data::{Gate, Sig, Signed, Trigger};
pub use limits::{
    DEFAULT_GATES, MOST_CUBES, MOST_GATES, MOST_LINE_BYTES, MOST_NAME_BYTES, MOST_OF_NETLIST,
    MOST_OF_TWO, MOST_TABLE_INPUTS,
};
