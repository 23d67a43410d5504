//! Subsumption and self-subsuming resolution of a formula's clauses by unit and binary clauses, learnt ones
//! included (Eén and Biere, "Effective preprocessing in SAT through variable and clause elimination", 2005).
//! It works on the clauses of `clause_db`, in the definitions of `sat_theory`. The table in `cdcl_core`
//! relates the names to those of MiniSat and CaDiCaL.
//!
//! A clause C is subsumed if all literals of another clause are in C, and may then be deleted. If all but one
//! of them are in C and C has the opposite of that one, the two resolve to C without this opposite, which
//! replaces C. The finder looks for both, and its contracts promise nothing. Before a strengthened clause is
//! added, `holds` tests that it follows by the hints, and `is_unsubsumed` that no live clause subsumes it; their
//! contracts are what a log requires of an addition.
//!
//! ```text
//! let mut finder = Finder::new(alloc, &clauses, given)?;
//! match finder.find(&clauses, id)? {
//!     Simplification::Nothing => ..,
//!     Simplification::Subsumed(other) => clauses.delete(id), // if `other` is irredundant
//!     Simplification::Shorter => keep_others(clauses.arranged(id), finder.gone(), &mut kept)?, // and test it
//! }
//! ```
#![tactic(auto)]

mod finder;
mod holding;
mod marks;
mod newness;
mod units;

pub use finder::{Finder, Simplification};
pub use holding::{contains_all, holds, keep_others};
pub use marks::LitFlags;
pub use newness::is_unsubsumed;
pub use units::Units;
