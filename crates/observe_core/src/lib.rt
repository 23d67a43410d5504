//! Observability don't-cares (ODCs) of a window, over the bounded fanout cone that `observe_theory` defines:
//! the rows of the window's inputs on which no output of this cone depends on the window, and the window's
//! specification with these rows free.
//!
//! - `fanout_cone` finds the fanout cone, by the index of the net.
//! - `observed_spec` is the window's specification with the cells of all unobservable rows free. The fanout
//!   cone is simulated above its fanin cone with each value of the window's outputs; where its own outputs
//!   never differ, the row of the window's inputs is unobservable.
//! - A chain that implements this specification may replace the window, and all sinks keep their values
//!   (`observable_keeps`).
//!
//! ```text
//! let fanouts = fanouts_of(alloc, &net)?;
//! let spec = observed_spec_by(alloc, &net, &fanouts, &window)?;
//! ```
#![tactic(auto)]

mod fanout_cones;
mod forced_outputs;
mod lists;
mod next_fanout;
mod observing;
mod output_differences;
mod relaxing;
mod shape;
mod with_constants;

pub use fanout_cones::{fanout_cone, fanout_cone_by};
pub use lists::lists_of;
pub use relaxing::{observed_spec, observed_spec_by};
pub use shape::FanoutCone;
