//! The command `improve` by wishes, for `frame_core`: over the operators of the basis and no others, with no more
//! levels or a line of levels, BLIF with the covers and AIGER in the form that are wished for.
//!
//! `ImproveWished` reads a netlist in any format and writes it in the same one (`improve_wishes`). `specs/WishReport`
//! has its task, and `specs/WishLaws` proves that it is one. An empty text isn't a netlist.
#![tactic(auto)]

mod forms;
mod improving;
mod replying;

pub use improving::ImproveWished;
