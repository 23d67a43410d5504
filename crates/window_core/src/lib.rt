//! Windows of a net: small subcircuits that a shorter chain may replace, after Kulikov, Pechenev and Slezkin.
//! What a window is, and what its specification is, is defined in `window_theory`.
//!
//! An index of the net (`Fanouts`) is made once for all its windows: the reference count of each node, and
//! linked fanout lists. With it the time for a window and its partners grows with their size and not with the
//! net's, and the time for a specification with the size of the window and its fanin cone. `partners` and
//! `window` make an index of their own.
//!
//! What is proved: `window_by` gives the window of a root, a partner or none, and a count, and None exactly
//! where there is none; `partners_by` gives the partners; and `spec_of` gives the window's specification.
//!
//! In ABC and mockturtle these are called:
//!
//! | Here | There |
//! |---|---|
//! | net; source, sink | logic network of two-input nodes; CI (primary input, latch output), CO |
//! | reads; uses | fanin; reference count |
//! | `Fanouts` | fanout lists: each gate has, for both fanins, their next lower and their next higher fanout |
//! | window; root; inputs, outputs | window or subcircuit; pivot; leaves (a cut), roots |
//! | candidate, taken | greedy growth, by the fanin of greatest index |
//! | partner | sibling: a node that shares a fanin |
//! | fanin cone; leaves | bounded transitive fanin cone; its cut of at most 12 leaves |
//! | care row; other rows | care minterm; satisfiability don't-cares (SDC) |
//! | specification of a window | local function with don't-cares |
//! | a shorter chain for a window | resynthesis of the window |
//!
//! A window isn't a maximum fanout-free cone (MFFC): a gate of it that has a fanout outside is one of its
//! outputs. Observability don't-cares (ODC), from the transitive fanout (TFO), are in `observe_core`, and
//! structural hashing is in `merge_core`.
//!
//! ```text
//! let fanouts = fanouts_of(alloc, &net)?;
//! if let Some(window) = window_by(alloc, &net, &fanouts, root, None, 3)? {
//!     let spec = spec_of(alloc, &net, &window)?;
//! }
//! ```
#![tactic(auto)]

mod ascending;
mod fanin_cones;
mod fanouts;
mod growing;
mod partner_list;
mod root_window;
mod shape;
mod specifying;
mod window_inputs;
mod window_outputs;

pub use ascending::{has, put};
pub use fanin_cones::fanin_cone;
pub use fanouts::{Fanouts, fanouts_of, first_fanout, later_of, node_of};
pub use growing::gate_at;
pub use net_core::{Gate, Net, Sig};
pub use partner_list::{partners, partners_by};
pub use root_window::{window, window_by};
pub use shape::{MOST_GATES_OF_WINDOW, Window};
pub use specifying::{signals_of, spec_of};
pub use window_inputs::all_inputs;
pub use window_outputs::all_outputs;
