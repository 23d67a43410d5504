//! A cache of search results by specification, up to the order of the inputs.
//!
//! `normal_order` orders the inputs so that specifications that differ only by an input permutation mostly become one:
//! a canonical form of P-classes, as far as counts of minterms tell the inputs apart. `SpecCache` keeps for each
//! specification a lower bound of the steps of a chain that implements it, over one basis, and a chain. The bound is
//! proved; of the chain nothing is claimed, and whoever takes one has to check it.
//!
//! The crate rests on `tt_core` for specifications and on `chain_laws` for chains with renamed places. The one
//! law: if a chain of `q` steps over a basis implements a specification, one of `q` steps implements it with its
//! inputs in any order. The normal order is a permutation, and its inverse undoes it. No promise says which
//! permutation it is.
//!
//! ```text
//! let order = normal_order(alloc, &spec)?;
//! let permuted = permuted_spec(alloc, &spec, &order)?;  // both have the same least number of steps
//! let key = SpecKey::of(alloc, &permuted)?;
//! cache.fewest(&key);                                   // a lower bound, 0 of what it doesn't know
//! let back = inverse(alloc, &order)?;
//! permuted_chain(alloc, &chain, &back)?;  // if `chain` implements `permuted`, this implements `spec`
//! ```
#![tactic(auto)]

mod cache;
mod chains;
mod key;
pub mod laws;
mod normal;
mod permute;

pub use cache::{Found, SpecCache};
pub use chains::permuted_chain;
pub use key::SpecKey;
pub use normal::{inverse, normal_order};
pub use permute::permuted_spec;
