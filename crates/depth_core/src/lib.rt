//! Minimum depth at minimum size: among the chains with the fewest steps one with the fewest levels, and its
//! certificate. The crate rests on `depth_theory` for what a depth certificate is, on `size_loop` for the search
//! for the fewest steps and for single subproblems, and on the encoding by fences. It is generic in the solver
//! `S`.
//!
//! The certificate by fences comes first. If its verdict is a minimum, the fences of that size are listed once,
//! and those with fewer levels than the chain are searched level by level. The first fence with a chain gives the
//! flattest chain: all fences with fewer levels have their logs by then. These logs are kept, and the others are
//! dropped.
//!
//! The theorem is that of `least_depth`: it returns a valid depth certificate for its arguments, or a valid
//! certificate whose verdict isn't a minimum. The logs of both stay small (`size_loop`'s `LiveBounds`).
//!
//! - `searching`: the search, `least_depth`.
//! - `levels`: the fences with one number of levels, one after the other.
//! - `writing`: depth certificates as they are written.
//!
//! ```text
//! least_depth::<Cdcl>(alloc, &spec, basis, 16, 100_000)? // Least(certificate), with DepthVerdict::Levels(3)
//! ```
#![tactic(auto)]

mod certificate;
mod levels;
mod searching;
mod writing;

pub use certificate::DepthCertificate;
pub use depth_theory::{DepthError, DepthVerdict};
pub use searching::{DepthResult, least_depth};
pub use writing::write_depth;
