//! Formulas built clause by clause from clauses before simplification (raw clauses). The literals of a raw
//! clause may be constants, repeats or opposites of one another. `ClauseList::push` simplifies it to a clause
//! over different variables, or to nothing if it is a tautology. So encoders need no case distinctions, and
//! the formula is determined literal by literal by the raw clauses.
//!
//! ```text
//! let mut list = ClauseList::new(alloc, 4)?;
//! list.push(alloc, &[RawLit::Var(4, true), RawLit::Fixed(false), RawLit::Var(2, false)])?; // 4 -2
//! let cnf = list.into_cnf(alloc)?;
//! ```
//!
//! The crate knows formulas alone, neither chains nor netlists; it depends on `sat_theory` and `cnf_core`.
//!
//! - `specs/Clauses.antt`: how a raw clause is simplified; what adding clauses does to a formula (`Appends`).
//! - `specs/Holds.antt`: the simplified clause is true exactly where the raw clause is.
//!   `specs/WrittenLaws.antt`: it is a clause of the formula. `specs/CountLaws.antt`: how many clauses there
//!   are.
//! - `specs/RangeLaws.antt`, `specs/ListLaws.antt`, `specs/WithinLaws.antt`: what each iteration of a loop
//!   over raw clauses needs.
#![tactic(auto)]

mod list;
mod raw;

pub use list::ClauseList;
pub use raw::RawLit;
