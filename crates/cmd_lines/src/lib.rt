//! Shared by several commands: the statuses and error lines of faults of tables and of netlists, and the
//! definition of a run of a command on an input (`specs/Runs`).
#![tactic(auto)]

mod nets;
mod tables;

pub use nets::{name_net, net_status};
pub use tables::{MOST_BYTES_OF_TABLES, name_spec, spec_status};
