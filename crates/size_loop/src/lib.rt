//! Exact synthesis size by size: a chain (a straight-line program of two-input gates) of the fewest steps, with a
//! certificate. The crate rests on `cert_theory` for what a certificate is, on the trait of encodings for the
//! formulas, and on the trait of solvers: every call is generic in the solver `S`.
//!
//! The sizes 0, 1, 2 and so on are searched in order, and so are the subproblems of a size (the whole size, or each
//! of its fences). The first subproblem with a chain ends the search. A size without one yields a section, which has
//! a log (an LRAT proof) for each subproblem that was tried, refuted or open. The theorem is that of `search`: its
//! result is a valid certificate whose logs stay small. An open log keeps at least half of its additions live, and no
//! log has much more than three quarters of them live, so that it is cheap to check.
//!
//! Many chains are known before their size comes: short ones of up to four inputs by enumeration, all others by
//! walks over small nets. Then the formula of their size isn't solved.
//!
//! ```text
//! let certificate = search::<Cdcl, Silent>(alloc, &spec, basis, Method::Ssv, 12, 100_000, 1, &Silent)?;
//! ```
//!
//! - `trying`: one subproblem, by its formula and the solver.
//! - `sizes`: one size, by enumeration if it has few steps, and subproblem by subproblem.
//! - `known`: the chain that is known before its size comes.
//! - `advancing`: the search as a value that advances size by size.
//! - `searching`: the whole search.
#![tactic(auto)]

mod advancing;
mod known;
mod searching;
mod sizes;
mod trying;

pub use advancing::{Advance, SizeSearch};
pub use searching::search;
pub use sizes::{SizeOutcome, search_size};
pub use trying::{SubproblemOutcome, try_subproblem};
