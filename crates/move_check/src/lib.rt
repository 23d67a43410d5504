//! Checks a net that some transformation has made of another one: may it replace that one?
//!
//! A transformation that makes a net smaller (sharing, resubstitution) needs no proof of its own. Its result is
//! compared with the net that it began with (`equiv_core`), exhaustively if there are few sources, else by the
//! miter of both, as a designer compares the output of a synthesis tool. So a transformation can be any heuristic,
//! and only the comparison is trusted (translation validation: Pnueli, Siegel and Singerman, 1998).
//!
//! The theorem is that of `judged`: its result implements the net, without dangling gates, with no more gates than
//! the net and than the candidate, and with operators of the basis or of the net.
//!
//! ```text
//! match judged::<S>(alloc, &net, &candidate, basis, 100000)? {
//!     Some(better) => ..,   // equivalent to `net`
//!     None => ..,           // not equivalent, not found so within the budget, or with more gates
//! }
//! ```
#![tactic(auto)]

mod judging;
mod operators;
mod sinks;

pub use judging::judged;
