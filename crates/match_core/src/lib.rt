//! Netlists that correspond by names: which name one of two lacks, and the second with its inputs, outputs and latches
//! in the order of the first.
//!
//! The theorem is that of `names_correspond`: where neither netlist lacks a name of the other, the second in the order
//! of the first (`matched`) is well formed, and it is equivalent to the first exactly if the two agree by names: under
//! every assignment of bits to names, outputs of one name have one value, and so have the next states of latches of
//! one name.
//!
//! ```text
//! if let Some(lack) = first_lack(alloc, &first, &second)? { .. }
//! let listed = arrange(alloc, listed, &first)?; // what `second` was read from
//! ```
//!
//! - `specs/Matched.antt`: the definitions. `specs/Lacks.antt`: the first name that is missing.
//! - `specs/MatchedLaws.antt`, `specs/ByNamesLaws.antt`: the laws.
#![tactic(auto)]

mod arranging;
mod lacking;
mod laws;
mod lines;

pub use arranging::arrange;
pub use lacking::{Lack, NameKind, first_lack};
pub use laws::names_correspond;
