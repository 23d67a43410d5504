//! The miter of two netlists in the formats of other programs: its formula in DIMACS, and the log of the comparison
//! as plain LRAT over the numbers of that formula.
//!
//! `WriteMiter` and `WriteMiterLog` are commands for `frame_core` over the text of the second netlist; both refuse what
//! the comparison of two files by `equiv` refuses, in the same words. `specs/MiterReport` has the two tasks, and
//! `specs/MiterLaws` the proofs that they are tasks. The argument: `equiv_core::equiv` answers only for circuits of one
//! interface, with a log of the miter that `equiv_core::miter` lists.
//!
//! ```text
//! perform(alloc, &AtOnce(WriteMiter::<Cdcl> { first: &text, solver: PhantomData }), &mut source, &mut out, &mut note)
//! ```
#![tactic(auto)]

mod circuits;
mod commands;
mod pairs;

pub use commands::{WriteMiter, WriteMiterLog};
