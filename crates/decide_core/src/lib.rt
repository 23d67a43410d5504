//! Decides whether a specification has a chain of at most `max` steps. It is meant for the windows of a net, most
//! of which have none by counting (a lower bound by the size of the support), and the others few steps.
//!
//! It rests on `bound_core` for the lower bound, on `step_core` for the enumeration of chains of at most four steps and
//! for the refutation of sizes up to seven, and on `size_loop` for the search of a size by formulas. The search begins
//! at the lower bound, with few conflicts. A size up to seven is first tried by the sets of places that further steps
//! read (`refutes`), with a number of tests in proportion to the conflicts; only if that leaves it open is a formula
//! made.
//! Only if a size stays open is a certificate made: the whole search is then repeated with the whole budget, and
//! its verdict holds; if the budget is no greater than that of the first search, there is this search alone. What
//! both searches find, and that the first was left open, is cached (`spec_cache`) for the tables with their
//! inputs in a normal order; chains are permuted back. What stays open is searched again.
//!
//! The theorem is that of `decide`: `Shorter` has a chain of at most `max` steps over the basis that implements
//! the tables, `Least` comes only if there is no such chain, `Open` only with a valid certificate that leaves a
//! size open. With `max` at most 4 nothing stays open.
//!
//! ```text
//! let header = Header { spec, basis, method, conflicts, max: 6 };
//! let mut cache = SpecCache::new(alloc, basis);
//! decide::<S>(alloc, &mut cache, &header)? // Shorter(chain) of at most 6 steps, Least, or Open(certificate)
//! ```
#![tactic(auto)]

mod caching;
mod deciding;
mod ordering;
mod question;
mod stepping;

pub use cert_theory::{Certificate, Header};
pub use deciding::Decided;
pub use ordering::decide;
pub use spec_cache::SpecCache;
