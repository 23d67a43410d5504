//! Literals, clauses and formulas in conjunctive normal form, and whether an assignment satisfies
//! them, by the definitions of `sat_theory`, which contracts here cite.
//!
//! The one theorem: `satisfied` returns true if and only if each clause has a true literal.
//!
//! ```text
//! let mut cnf = Cnf::new(alloc, 2);
//! cnf.push(Clause::new(vec![in alloc; Lit::new(1), Lit::new(-2)]?))?;
//! satisfied(&cnf, &Assign::new(vec![in alloc; false, true]?)) // false
//! ```
#![tactic(auto)]

mod assignment;
mod clause;
mod cnf;
mod lit;

pub use assignment::{Assign, satisfied};
pub use clause::Clause;
pub use cnf::Cnf;
pub use lit::Lit;
