//! The trail of a solver: the true literals in the order of their assignment, each with its reason (the id of
//! the clause that implied it). Its invariant is that of `cdcl_theory`. The table in `cdcl_core` relates the
//! names to those of MiniSat and CaDiCaL.
//!
//! A literal becomes false when its opposite is pushed. `falsified_at` returns 1 + the trail index of that
//! opposite, and 0 for a literal that isn't false. Backtracking removes the last literals; earlier
//! ones keep their positions.
//!
//! ```text
//! let mut trail = Trail::new(alloc, 3)?;
//! trail.push(Lit::new(2), 0)?;
//! trail.push(Lit::new(-1), 7)?;
//! trail.falsified_at(Lit::new(1)) // 2
//! trail.reason(Lit::new(-1))      // 7
//! ```
#![tactic(auto)]

mod trail;

pub use trail::Trail;
