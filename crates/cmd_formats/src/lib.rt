//! Commands over netlists in any format (`net_formats`), for `frame_core`.
//!
//! `EquivFormats` is `equiv` of a netlist with a given one, each a text of its own in a format of its own: the task of
//! `EquivWith` of `cmd_equiv`, with formats, and with the names of a difference on the notes (`specs/FormatsReport`).
//! `ImproveAiger` is `improve` for AIGER (`specs/AigerReport`), which writes the form that it read. `specs/FormatsLaws`
//! and `specs/AigerLaws` prove that these are tasks.
#![tactic(auto)]

mod comparing;
mod improving;
mod replying;

pub use comparing::EquivFormats;
pub use improving::{ImproveAiger, has_and_gates};
pub use replying::reply_of_named;
