//! Whether two inputs may be exchanged once other inputs are complemented: for some set of inputs, and all outputs or
//! none, each row has the cell that its image has, complemented where outputs are. Sets of inputs are rows, so the
//! search goes over all rows; each image is built bit by bit, from the first input on.
//!
//! `npn_laws` defines images, and why such an exchange may be asked of least chains; `npn_strong` has the clauses.
#![tactic(auto)]

mod kept;
mod rows;

pub use kept::may_exchange_complemented;
